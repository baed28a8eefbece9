//! The command `take`.
ghost use Rattle.std.specs.Prelude.{◌≡◌, ◌≢◌, ◌<◌, [], IfOk, false, is_some, true};
ghost use Rattle.zed_files.specs.Texts.{text_in};
ghost use Rattle.cmd_take.specs.declared.stages.TakeStage.TheVariants.{Based as IsBased, Begun as HasBegun, Opened as IsOpened};
ghost use Rattle.cmd_take.specs.Base.{presence_of};
ghost use Rattle.cmd_take.specs.Steps.{IsLed};
ghost use Rattle.cmd_take.specs.TakeStages.{IsSound, TakeComesNow, TakeLeads, TakeWantsNow, take_left, take_next};
ghost use Rattle.cmd_take.specs.Taking.{TakeComes, TakeWants};

use crate::base::{Presence, base_of};
use crate::opening::Forcing;
use crate::reading::{opened_file, world_of};
use crate::reason::DrawingReason;
use crate::stages::TakeStage;
use crate::taking::take_world;
use crate::telling::base_name;
use std::alloc::Global;
use std::mem::replace;
use zed_document::Document;
use zed_driver::{Command, Effect, Input, Stop};
use zed_edit::Cause;
use zed_refusal::Reason;

/// Takes what another editor drew in a world file, as the author with this number. FILE is read, then
/// its base, and then WORLD; behind one that is refused none. 0 is no author's number: it is refused
/// before any file is read. Memory is asked for only if FILE is there. If more than half of the
/// boards beside the title would go, TakesAway refuses it, behind all other refusals, unless it is
/// forced.
#[derive(Drop)]
pub struct Take<'a> {
    base: Option<&'a str>,
    forcing: Forcing,
    file: &'a str,
    replica: u16,
    world: &'a str,
    stage: TakeStage,
}

impl<'a> Take<'a> {
    /// Before a file was read. Without a name the base is the one beside WORLD, if that is there.
    pub fn new(
        base: Option<&'a str>,
        forcing: Forcing,
        file: &'a str,
        replica: u16,
        world: &'a str,
    ) -> Take<'a>
        ensures base { result.base ≡ base.entry }
        ensures forcing { result.forcing ≡ forcing }
        ensures file { result.file ≡ file.entry }
        ensures replica { result.replica ≡ replica }
        ensures world { result.world ≡ world.entry }
        ensures stage { result.stage ≡ HasBegun }
        ensures stands { IsSound result.stage × IsLed []
            (TakeWants (text_in result.base) result.file.now result.replica result.world.now)
            (TakeComes (text_in result.base) result.forcing result.file.now result.replica
            result.world.now)
            (TakeWantsNow (text_in result.base) result.file.now result.replica
            result.world.now result.stage)
            (TakeComesNow (text_in result.base) result.forcing result.file.now result.replica
            result.world.now result.stage) }
    {
        Take {
            base,
            forcing,
            file,
            replica,
            world,
            stage: TakeStage::Begun,
        }
    }

    // Only the base beside WORLD may be missing.
    fn presence(&self) -> Presence
        ensures { result ≡ presence_of (text_in self.now.base) }
    {
        match self.base {
            Some(_) => Presence::Needed,
            None => Presence::Optional,
        }
    }

    // Reads FILE.
    fn opened(&self, alloc: Global, file: Input) -> Result<TakeStage, Stop<DrawingReason>>
        requires { self.now.replica ≢ 0 }
        ensures leads { TakeLeads (text_in self.now.base) self.now.forcing self.now.file.now
            self.now.replica self.now.world.now HasBegun file result }
        ensures fewer { IfOk result (λ s. take_left s < 3) }
    {
        let document = opened_file(alloc, None, file)?;
        let name = base_name(alloc, self.base, self.world)?;
        if name.as_str() == self.file {
            Ok(TakeStage::Based {
                document,
                base: None,
                name,
            })
        } else {
            Ok(TakeStage::Opened { document, name })
        }
    }

    // Reads the base of FILE.
    fn based(
        &self,
        alloc: Global,
        document: Document,
        name: String,
        file: Input,
    ) -> Result<TakeStage, Stop<DrawingReason>>
        requires { document.is_stale ≡ false }
        ensures leads { TakeLeads (text_in self.now.base) self.now.forcing self.now.file.now
            self.now.replica self.now.world.now (IsOpened document name) file result }
        ensures fewer { IfOk result (λ s. take_left s < 2) }
    {
        let base = base_of(alloc, self.presence(), file, document.world())?;
        Ok(TakeStage::Based {
            document,
            base,
            name,
        })
    }

    // Reads WORLD, and takes it.
    fn drawn(
        &self,
        alloc: Global,
        document: Document,
        base: Option<Document>,
        name: String,
        file: Input,
    ) -> Result<TakeStage, Stop<DrawingReason>>
        requires { IsSound (IsBased document base name) }
        ensures leads { TakeLeads (text_in self.now.base) self.now.forcing self.now.file.now
            self.now.replica self.now.world.now (IsBased document base name) file result }
        ensures fewer { IfOk result (λ s. take_left s < 1) }
    {
        let world = world_of(alloc, file)?;
        let effect = take_world(
            alloc,
            name.as_str(),
            self.file,
            document,
            base,
            &world,
            self.replica,
            self.forcing,
        )?;
        Ok(TakeStage::Done { effect })
    }

    // Reads the file that a stage asks for.
    fn after(
        &self,
        alloc: Global,
        stage: TakeStage,
        file: Input,
    ) -> Result<TakeStage, Stop<DrawingReason>>
        requires next { is_some (take_next self.now.file.now self.now.replica
            self.now.world.now stage) ≡ true }
        requires sound { IsSound stage }
        ensures leads { TakeLeads (text_in self.now.base) self.now.forcing self.now.file.now
            self.now.replica self.now.world.now stage file result }
        ensures fewer { IfOk result (λ s. take_left s < take_left stage) }
    {
        match stage {
            TakeStage::Begun => self.opened(alloc, file),
            TakeStage::Opened { document, name } => self.based(alloc, document, name, file),
            TakeStage::Based {
                document,
                base,
                name,
            } => self.drawn(alloc, document, base, name, file),
            // it asks for no more
            TakeStage::Done { effect: _ } => Err(Stop::Memory),
        }
    }
}

impl<'a> Command for Take<'a> {
    ghost use Rattle.zed_files.specs.Texts.{text_in};
    ghost use Rattle.cmd_take.specs.Steps.{IsLed};
    ghost use Rattle.cmd_take.specs.TakeStages.{IsSound, TakeComesNow, TakeWantsNow, take_left, take_next};
    ghost use Rattle.cmd_take.specs.Taking.{TakeComes, TakeWants};

    type Refusal = DrawingReason;

    ghost Wants = { λ c. TakeWants (text_in c.base) c.file.now c.replica c.world.now };

    ghost Comes = { λ c. TakeComes (text_in c.base) c.forcing c.file.now c.replica c.world.now };

    ghost Stands = { λ c files s. IsSound s.stage × IsLed files
        (TakeWants (text_in c.base) c.file.now c.replica c.world.now)
        (TakeComes (text_in c.base) c.forcing c.file.now c.replica c.world.now)
        (TakeWantsNow (text_in s.base) s.file.now s.replica s.world.now s.stage)
        (TakeComesNow (text_in s.base) s.forcing s.file.now s.replica s.world.now s.stage) };

    ghost next = { λ c. take_next c.file.now c.replica c.world.now c.stage };

    ghost most = { λ c. take_left c.stage };

    fn at_most(&self) -> usize {
        match &self.stage {
            TakeStage::Begun => 3,
            TakeStage::Opened {
                document: _,
                name: _,
            } => 2,
            TakeStage::Based {
                document: _,
                base: _,
                name: _,
            } => 1,
            TakeStage::Done { effect: _ } => 0,
        }
    }

    fn next_file(&self) -> Option<&str> {
        match &self.stage {
            TakeStage::Begun => {
                if self.replica == 0 {
                    None
                } else {
                    Some(self.file)
                }
            }
            TakeStage::Opened { document: _, name } => Some(name.as_str()),
            TakeStage::Based {
                document: _,
                base: _,
                name: _,
            } => Some(self.world),
            TakeStage::Done { effect: _ } => None,
        }
    }

    fn give(&mut self, alloc: Global, file: Input) -> Result<(), Stop<DrawingReason>> {
        let stage = replace(&mut self.stage, TakeStage::Begun);
        self.stage = self.after(alloc, stage, file)?;
        Ok(())
    }

    fn finish(&mut self, alloc: Global) -> Result<Effect, Stop<DrawingReason>> {
        match replace(&mut self.stage, TakeStage::Begun) {
            TakeStage::Begun => Err(Stop::Refused(DrawingReason::Common(Reason::BadEdit(
                Cause::Stamp,
            )))),
            TakeStage::Done { effect } => Ok(effect),
            // the others ask for a file
            TakeStage::Opened {
                document: _,
                name: _,
            } => Err(Stop::Memory),
            TakeStage::Based {
                document: _,
                base: _,
                name: _,
            } => Err(Stop::Memory),
        }
    }
}
