//! The command `undo`.
ghost use Rattle.std.specs.Prelude.{◌≡◌, ◌≢◌, ◌<◌, [], Err, IfOk, MatchResult, None, Ok, false, is_some, true};
ghost use Rattle.cmd_take.specs.Steps.{IsLed};
ghost use Rattle.cmd_undo.specs.declared.stage.Stage.TheVariants.{Begun as HasBegun, Done as IsDone, Newer as HasNewer, Opened as HasOpened};
ghost use Rattle.cmd_undo.specs.Stages.{ComesNow, IsSound, Leads, WantsNow, left_of, new_of, next_of, old_of};
ghost use Rattle.cmd_undo.specs.Undoing.{UndoComes, UndoWants, meaning_of};

use crate::manner::{Manner, Source};
use crate::stage::Stage;
use crate::undoing::{undo_between, undo_chosen};
use cmd_take::{DrawingReason, opened_file};
use std::alloc::Global;
use std::mem::replace;
use zed_document::Document;
use zed_driver::{Command, Effect, Input, Stop};
use zed_edit::Cause;
use zed_refusal::Reason;

/// Undoes edits of an edit file by new edits of a replica: those that lead from its world to that of
/// all its edits but these. No edit is taken out, and the file isn't written where nothing is
/// undone. Edits of this replica that need an undone one aren't done then. FILE is read, and where a
/// pull is undone then NEW and OLD; memory is asked for only if FILE is there.
///
/// Refusals, in order: BadEdit if the replica is 0; those of reading FILE, NEW and OLD; NoBoard or
/// OutOfRange for a filter; those of an export of the edits that are left, at 32,767 bytes a body;
/// those of `take`. Before these last two nothing is undone, and a note says so, with the status 1,
/// where a stamp is that of no edit that can be undone, and where another author's edit needs an
/// undone one.
#[derive(Drop)]
pub struct Undo<'a> {
    file: &'a str,
    replica: u16,
    manner: Manner,
    source: Source<'a>,
    stage: Stage,
}

// The name of NEW, which there is where a pull is undone.
fn new_name<'a>(source: &Source<'a>) -> &'a str
    ensures { result.now ≡ new_of (meaning_of source.now) }
{
    match source {
        Source::Pulled { new, old: _ } => *new,
        Source::Chosen(_) => "",
    }
}

// The name of OLD.
fn old_name<'a>(source: &Source<'a>) -> &'a str
    ensures { result.now ≡ old_of (meaning_of source.now) }
{
    match source {
        Source::Pulled { new: _, old } => *old,
        Source::Chosen(_) => "",
    }
}

impl<'a> Undo<'a> {
    /// Before a file was read.
    pub fn new(file: &'a str, replica: u16, manner: Manner, source: Source<'a>) -> Undo<'a>
        ensures file { result.file ≡ file.entry }
        ensures replica { result.replica ≡ replica }
        ensures manner { result.manner ≡ manner }
        ensures source { result.source ≡ source.entry }
        ensures stage { result.stage ≡ HasBegun }
        ensures stands { IsSound result.stage × IsLed []
            (UndoWants result.file.now result.replica (meaning_of result.source))
            (UndoComes result.file.now result.manner result.replica (meaning_of result.source))
            (WantsNow result.file.now result.replica (meaning_of result.source) result.stage)
            (ComesNow result.file.now result.manner result.replica (meaning_of result.source) result.stage) }
    {
        Undo {
            file,
            replica,
            manner,
            source,
            stage: Stage::Begun,
        }
    }

    // Reads FILE, and undoes what a choice chooses.
    fn opened(&self, alloc: Global, file: Input) -> Result<Stage, Stop<DrawingReason>>
        requires { self.now.replica ≢ 0 }
        ensures leads { Leads self.now.file.now self.now.manner self.now.replica (meaning_of self.now.source)
            HasBegun file result }
        ensures fewer { IfOk result (λ s. left_of s < 3) }
    {
        let mut document = opened_file(alloc, None, file)?;
        match &self.source {
            Source::Pulled { new: _, old: _ } => Ok(Stage::Opened { document }),
            Source::Chosen(choice) => {
                let effect = undo_chosen(
                    alloc,
                    self.manner,
                    self.file,
                    &mut document,
                    self.replica,
                    choice,
                )?;
                Ok(Stage::Done { effect })
            }
        }
    }

    // Reads NEW.
    fn newer(
        &self,
        alloc: Global,
        document: Document,
        file: Input,
    ) -> Result<Stage, Stop<DrawingReason>>
        requires { document.is_stale ≡ false }
        ensures leads { Leads self.now.file.now self.now.manner self.now.replica (meaning_of self.now.source)
            (HasOpened document) file result }
        ensures fewer { IfOk result (λ s. left_of s < 2) }
    {
        let newer = opened_file(alloc, Some(document.world()), file)?;
        Ok(Stage::Newer { document, newer })
    }

    // Reads OLD, and undoes what NEW has and OLD doesn't have.
    fn between(
        &self,
        alloc: Global,
        document: &mut Document,
        newer: &Document,
        file: Input,
    ) -> Result<Effect, Stop<DrawingReason>>
        requires { document.old.is_stale ≡ false }
        ensures { MatchResult result
            (λ x. Leads self.now.file.now self.now.manner self.now.replica (meaning_of self.now.source)
            (HasNewer document.old newer.now) file (Ok (IsDone x)))
            (λ e. Leads self.now.file.now self.now.manner self.now.replica (meaning_of self.now.source)
            (HasNewer document.old newer.now) file (Err e)) }
    {
        let older = opened_file(alloc, Some(document.world()), file)?;
        undo_between(
            alloc,
            self.manner,
            self.file,
            document,
            self.replica,
            newer,
            &older,
        )
    }

    // The same with a document that is done with then.
    #[tactic(none)]
    fn last(
        &self,
        alloc: Global,
        document: Document,
        newer: &Document,
        file: Input,
    ) -> Result<Effect, Stop<DrawingReason>>
        requires { document.is_stale ≡ false }
        ensures { MatchResult result
            (λ x. Leads self.now.file.now self.now.manner self.now.replica (meaning_of self.now.source)
            (HasNewer document newer.now) file (Ok (IsDone x)))
            (λ e. Leads self.now.file.now self.now.manner self.now.replica (meaning_of self.now.source)
            (HasNewer document newer.now) file (Err e)) }
    {
        let mut document = document;
        self.between(alloc, &mut document, newer, file)
    }

    // The stage after OLD was read.
    #[tactic(none)]
    fn older(
        &self,
        alloc: Global,
        document: Document,
        newer: Document,
        file: Input,
    ) -> Result<Stage, Stop<DrawingReason>>
        requires { document.is_stale ≡ false }
        ensures leads { Leads self.now.file.now self.now.manner self.now.replica (meaning_of self.now.source)
            (HasNewer document newer) file result }
        ensures fewer { IfOk result (λ s. left_of s < 1) }
    {
        match self.last(alloc, document, &newer, file) {
            Ok(effect) => Ok(Stage::Done { effect }),
            Err(error) => Err(error),
        }
    }

    // Reads the file that a stage asks for.
    fn after(&self, alloc: Global, stage: Stage, file: Input) -> Result<Stage, Stop<DrawingReason>>
        requires next { is_some (next_of self.now.file.now self.now.replica (meaning_of self.now.source) stage)
            ≡ true }
        requires sound { IsSound stage }
        ensures leads { Leads self.now.file.now self.now.manner self.now.replica (meaning_of self.now.source)
            stage file result }
        ensures fewer { IfOk result (λ s. left_of s < left_of stage) }
    {
        match stage {
            Stage::Begun => self.opened(alloc, file),
            Stage::Opened { document } => self.newer(alloc, document, file),
            Stage::Newer { document, newer } => self.older(alloc, document, newer, file),
            // it asks for no more
            Stage::Done { effect: _ } => Err(Stop::Memory),
        }
    }
}

impl<'a> Command for Undo<'a> {
    ghost use Rattle.cmd_take.specs.Steps.{IsLed};
    ghost use Rattle.cmd_undo.specs.Stages.{ComesNow, IsSound, WantsNow, left_of, next_of};
    ghost use Rattle.cmd_undo.specs.Undoing.{UndoComes, UndoWants, meaning_of};

    type Refusal = DrawingReason;

    ghost Wants = { λ c. UndoWants c.file.now c.replica (meaning_of c.source) };

    ghost Comes = { λ c. UndoComes c.file.now c.manner c.replica (meaning_of c.source) };

    ghost Stands = { λ c files s. IsSound s.stage × IsLed files
        (UndoWants c.file.now c.replica (meaning_of c.source))
        (UndoComes c.file.now c.manner c.replica (meaning_of c.source))
        (WantsNow s.file.now s.replica (meaning_of s.source) s.stage)
        (ComesNow s.file.now s.manner s.replica (meaning_of s.source) s.stage) };

    ghost next = { λ c. next_of c.file.now c.replica (meaning_of c.source) c.stage };

    ghost most = { λ c. left_of c.stage };

    fn at_most(&self) -> usize {
        match &self.stage {
            Stage::Begun => 3,
            Stage::Opened { document: _ } => 2,
            Stage::Newer {
                document: _,
                newer: _,
            } => 1,
            Stage::Done { effect: _ } => 0,
        }
    }

    fn next_file(&self) -> Option<&str> {
        match &self.stage {
            Stage::Begun => {
                if self.replica == 0 {
                    None
                } else {
                    Some(self.file)
                }
            }
            Stage::Opened { document: _ } => Some(new_name(&self.source)),
            Stage::Newer {
                document: _,
                newer: _,
            } => Some(old_name(&self.source)),
            Stage::Done { effect: _ } => None,
        }
    }

    fn give(&mut self, alloc: Global, file: Input) -> Result<(), Stop<DrawingReason>> {
        let stage = replace(&mut self.stage, Stage::Begun);
        self.stage = self.after(alloc, stage, file)?;
        Ok(())
    }

    fn finish(&mut self, alloc: Global) -> Result<Effect, Stop<DrawingReason>> {
        match replace(&mut self.stage, Stage::Begun) {
            Stage::Begun => Err(Stop::Refused(DrawingReason::Common(Reason::BadEdit(
                Cause::Stamp,
            )))),
            Stage::Done { effect } => Ok(effect),
            // these ask for a file
            Stage::Opened { document: _ } => Err(Stop::Memory),
            Stage::Newer {
                document: _,
                newer: _,
            } => Err(Stop::Memory),
        }
    }
}
