//! The command `open`.
ghost use Rattle.std.specs.Prelude.{◌≡◌, ◌<◌, [], IfOk, None, Some, false, is_some, true};
ghost use Rattle.cmd_take.specs.declared.stages.OpenStage.TheVariants.{Begun as HasBegun, Compared as HasCompared, Exported as HasExported};
ghost use Rattle.cmd_take.specs.Base.{BaseAsks, BaseReads, beside};
ghost use Rattle.cmd_take.specs.OpenStages.{IsSoundIn, OpenComesNow, OpenGoesOn, OpenLeads, OpenWantsNow, open_left, open_next};
ghost use Rattle.cmd_take.specs.Opening.{FoundReads, IsWritten, LookAsks, NeedsBase, OpenComes, OpenWants, Replaces, WritesOver, up_to};
ghost use Rattle.cmd_take.specs.Steps.{AsksNoMore, Ends, IsLed, OrMemory};
ghost use Rattle.cmd_take.specs.TakeStages.{file_of};

use crate::base::{Presence, base_of};
use crate::opening::{Forcing, check_found, check_same, effect_of, exported, is_of, tried_world};
use crate::reading::opened_file;
use crate::reason::DrawingReason;
use crate::stages::OpenStage;
use crate::telling::beside_of;
use std::alloc::Global;
use std::mem::replace;
use zed_document::Document;
use zed_driver::{Command, Effect, Input, Stop};
use zed_types::Stamp;
use zed_world::World;

/// Writes the world of an edit file for another editor, and the base beside it. FILE is read; then
/// WORLD, only if FILE can be exported and it isn't forced that WORLD is replaced; then the base of
/// WORLD, only if WORLD reads as another world than the one that is to be written. Memory is asked
/// for only if FILE is there.
#[derive(Drop)]
pub struct Open<'a> {
    until: Option<Stamp>,
    forcing: Forcing,
    file: &'a str,
    world: &'a str,
    stage: OpenStage,
}

impl<'a> Open<'a> {
    /// Before a file was read.
    pub fn new(until: Option<Stamp>, forcing: Forcing, file: &'a str, world: &'a str) -> Open<'a>
        ensures until { result.until ≡ until }
        ensures forcing { result.forcing ≡ forcing }
        ensures file { result.file ≡ file.entry }
        ensures world { result.world ≡ world.entry }
        ensures stage { result.stage ≡ HasBegun }
        ensures stands { IsSoundIn result.until result.stage
            × IsLed [] (OpenWants result.until result.forcing result.file.now result.world.now)
            (OpenComes result.until result.forcing result.file.now result.world.now)
            (OpenWantsNow result.until result.forcing result.file.now result.world.now result.stage)
            (OpenComesNow result.until result.forcing result.file.now result.world.now result.stage) }
    {
        Open {
            until,
            forcing,
            file,
            world,
            stage: OpenStage::Begun,
        }
    }

    // What is written, of this text.
    fn done(
        &self,
        alloc: Global,
        document: &Document,
        text: Vec<u8>,
    ) -> Result<OpenStage, Stop<DrawingReason>>
        ensures leads { OpenLeads self.now.until self.now.forcing self.now.file.now
            self.now.world.now [] AsksNoMore (OrMemory (Ends (IsWritten self.now.world.now
            (document.now.world, document.now.edits) text.items))) result }
        ensures fewer { IfOk result (λ s. open_left s ≡ 0) }
    {
        let effect = effect_of(alloc, document, self.world, text)?;
        Ok(OpenStage::Done { effect })
    }

    // What comes of the text of FILE.
    fn begun(
        &self,
        alloc: Global,
        document: Document,
        text: Vec<u8>,
    ) -> Result<OpenStage, Stop<DrawingReason>>
        requires { IsSoundIn self.now.until (HasExported document text) }
        ensures leads { OpenLeads self.now.until self.now.forcing self.now.file.now
            self.now.world.now [] (LookAsks self.now.forcing (file_of document)
            (up_to self.now.until document.edits) self.now.file.now self.now.world.now)
            (OrMemory (Replaces self.now.forcing (file_of document)
            (up_to self.now.until document.edits) self.now.file.now self.now.world.now
            text.items)) result }
        ensures fewer { IfOk result (λ s. open_left s < 3) }
    {
        match self.forcing {
            Forcing::Careful => Ok(OpenStage::Exported { document, text }),
            Forcing::Forced => self.done(alloc, &document, text),
        }
    }

    // Reads FILE.
    fn opened(&self, alloc: Global, file: Input) -> Result<OpenStage, Stop<DrawingReason>>
        ensures leads { OpenGoesOn self.now.until self.now.forcing self.now.file.now
            self.now.world.now HasBegun file result }
        ensures fewer { IfOk result (λ s. open_left s < 3) }
    {
        let document = opened_file(alloc, None, file)?;
        let text = exported(alloc, &document, self.until)?;
        self.begun(alloc, document, text)
    }

    // Refuses a world that isn't the one that FILE shows, which is its own base.
    fn alone(
        &self,
        alloc: Global,
        document: &Document,
        text: Vec<u8>,
        found: &World,
    ) -> Result<OpenStage, Stop<DrawingReason>>
        requires { document.now.is_stale ≡ false }
        ensures leads { OpenLeads self.now.until self.now.forcing self.now.file.now
            self.now.world.now [] AsksNoMore (OrMemory (Ends (WritesOver self.now.world.now
            (document.now.world, document.now.edits) text.items found.now None))) result }
        ensures fewer { IfOk result (λ s. open_left s ≡ 0) }
    {
        check_same(alloc, document, found)?;
        self.done(alloc, document, text)
    }

    // What comes of a world that was found, and isn't the one that is to be written.
    fn drawn(
        &self,
        alloc: Global,
        document: Document,
        text: Vec<u8>,
        found: World,
    ) -> Result<OpenStage, Stop<DrawingReason>>
        requires { document.is_stale ≡ false }
        ensures leads { OpenLeads self.now.until self.now.forcing self.now.file.now
            self.now.world.now [] (BaseAsks Presence.Optional (beside self.now.world.now)
            self.now.file.now document.world (λ b. AsksNoMore))
            (OrMemory (BaseReads Presence.Optional (beside self.now.world.now) self.now.file.now
            document.world (λ b. Ends (WritesOver self.now.world.now (file_of document)
            text.items found b)))) result }
        ensures fewer { IfOk result (λ s. open_left s < 2) }
    {
        let name = beside_of(alloc, self.world)?;
        if name.as_str() == self.file {
            self.alone(alloc, &document, text, &found)
        } else {
            Ok(OpenStage::Compared {
                document,
                text,
                found,
                name,
            })
        }
    }

    // What comes of a world that was found.
    fn compared(
        &self,
        alloc: Global,
        document: Document,
        text: Vec<u8>,
        found: World,
    ) -> Result<OpenStage, Stop<DrawingReason>>
        requires { IsSoundIn self.now.until (HasExported document text) }
        ensures leads { OpenLeads self.now.until self.now.forcing self.now.file.now
            self.now.world.now [] (NeedsBase (file_of document)
            (up_to self.now.until document.edits) self.now.file.now self.now.world.now
            (Some found)) (OrMemory (FoundReads (file_of document)
            (up_to self.now.until document.edits) self.now.file.now self.now.world.now
            text.items (Some found))) result }
        ensures fewer { IfOk result (λ s. open_left s < 2) }
    {
        let is_shown = is_of(alloc, &found, text.as_slice())?;
        if is_shown {
            self.done(alloc, &document, text)
        } else {
            self.drawn(alloc, document, text, found)
        }
    }

    // Reads WORLD.
    fn looked(
        &self,
        alloc: Global,
        document: Document,
        text: Vec<u8>,
        file: Input,
    ) -> Result<OpenStage, Stop<DrawingReason>>
        requires { IsSoundIn self.now.until (HasExported document text) }
        ensures leads { OpenGoesOn self.now.until self.now.forcing self.now.file.now
            self.now.world.now (HasExported document text) file result }
        ensures fewer { IfOk result (λ s. open_left s < 2) }
    {
        match tried_world(alloc, file)? {
            None => self.done(alloc, &document, text),
            Some(found) => self.compared(alloc, document, text, found),
        }
    }

    // Reads the base of WORLD.
    fn based(
        &self,
        alloc: Global,
        document: Document,
        text: Vec<u8>,
        found: World,
        name: String,
        file: Input,
    ) -> Result<OpenStage, Stop<DrawingReason>>
        requires { document.is_stale ≡ false }
        ensures leads { OpenGoesOn self.now.until self.now.forcing self.now.file.now
            self.now.world.now (HasCompared document text found name) file result }
        ensures fewer { IfOk result (λ s. open_left s ≡ 0) }
    {
        let base = base_of(alloc, Presence::Optional, file, document.world())?;
        check_found(alloc, &document, &base, &found)?;
        self.done(alloc, &document, text)
    }

    // Reads the file that a stage asks for.
    fn after(
        &self,
        alloc: Global,
        stage: OpenStage,
        file: Input,
    ) -> Result<OpenStage, Stop<DrawingReason>>
        requires next { is_some (open_next self.now.file.now self.now.world.now stage) ≡ true }
        requires sound { IsSoundIn self.now.until stage }
        ensures leads { OpenGoesOn self.now.until self.now.forcing self.now.file.now
            self.now.world.now stage file result }
        ensures fewer { IfOk result (λ s. open_left s < open_left stage) }
    {
        match stage {
            OpenStage::Begun => self.opened(alloc, file),
            OpenStage::Exported { document, text } => self.looked(alloc, document, text, file),
            OpenStage::Compared {
                document,
                text,
                found,
                name,
            } => self.based(alloc, document, text, found, name, file),
            // it asks for no more
            OpenStage::Done { effect: _ } => Err(Stop::Memory),
        }
    }
}

impl<'a> Command for Open<'a> {
    ghost use Rattle.cmd_take.specs.OpenStages.{IsSoundIn, OpenComesNow, OpenWantsNow, open_left, open_next};
    ghost use Rattle.cmd_take.specs.Opening.{OpenComes, OpenWants};
    ghost use Rattle.cmd_take.specs.Steps.{IsLed};

    type Refusal = DrawingReason;

    ghost Wants = { λ c. OpenWants c.until c.forcing c.file.now c.world.now };

    ghost Comes = { λ c. OpenComes c.until c.forcing c.file.now c.world.now };

    ghost Stands = { λ c files s. IsSoundIn s.until s.stage
        × IsLed files
        (OpenWants c.until c.forcing c.file.now c.world.now)
        (OpenComes c.until c.forcing c.file.now c.world.now)
        (OpenWantsNow s.until s.forcing s.file.now s.world.now s.stage)
        (OpenComesNow s.until s.forcing s.file.now s.world.now s.stage) };

    ghost next = { λ c. open_next c.file.now c.world.now c.stage };

    ghost most = { λ c. open_left c.stage };

    fn at_most(&self) -> usize {
        match &self.stage {
            OpenStage::Begun => 3,
            OpenStage::Exported {
                document: _,
                text: _,
            } => 2,
            OpenStage::Compared {
                document: _,
                text: _,
                found: _,
                name: _,
            } => 1,
            OpenStage::Done { effect: _ } => 0,
        }
    }

    fn next_file(&self) -> Option<&str> {
        match &self.stage {
            OpenStage::Begun => Some(self.file),
            OpenStage::Exported {
                document: _,
                text: _,
            } => Some(self.world),
            OpenStage::Compared {
                document: _,
                text: _,
                found: _,
                name,
            } => Some(name.as_str()),
            OpenStage::Done { effect: _ } => None,
        }
    }

    fn give(&mut self, alloc: Global, file: Input) -> Result<(), Stop<DrawingReason>> {
        let stage = replace(&mut self.stage, OpenStage::Begun);
        self.stage = self.after(alloc, stage, file)?;
        Ok(())
    }

    fn finish(&mut self, alloc: Global) -> Result<Effect, Stop<DrawingReason>> {
        match replace(&mut self.stage, OpenStage::Begun) {
            OpenStage::Done { effect } => Ok(effect),
            // the others ask for a file
            OpenStage::Begun => Err(Stop::Memory),
            OpenStage::Exported {
                document: _,
                text: _,
            } => Err(Stop::Memory),
            OpenStage::Compared {
                document: _,
                text: _,
                found: _,
                name: _,
            } => Err(Stop::Memory),
        }
    }
}
