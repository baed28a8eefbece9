//! The program of a stat, set to a text.
ghost use Rattle.std.specs.Prelude.{◌≡◌, ◌≢◌, ◌<◌, ◌∷◌, [], IfErr, IfOk, None, false, is_some, true};
ghost use Rattle.zed_driver.specs.declared.command.Stop.TheVariants.{Memory};
ghost use Rattle.zed_files.specs.Gathers.{BeginsWithBytes};
ghost use Rattle.cmd_take.specs.Files.{OfFile};
ghost use Rattle.cmd_take.specs.Steps.{Gives, IsLed};
ghost use Rattle.cmd_program.specs.declared.stage.Stage.TheVariants.{Begun as HasBegun, Read as HasRead};
ghost use Rattle.cmd_program.specs.Setting.{IsChanged, IsSpelled, ProgramComes, ProgramWants, Reprograms, Sets, reprogram_stop, text_stop};
ghost use Rattle.cmd_program.specs.Stages.{ComesNow, Leads, WantsNow, left_of, next_of};

use crate::stage::Stage;
use crate::{ReprogramError, with_program};
use cmd_take::{DrawingReason, draw_alone, drawing_stop, opened_file};
use std::alloc::Global;
use std::mem::replace;
use zed_document::Document;
use zed_driver::{Command, Effect, Input, Stop};
use zed_edit::Cause;
use zed_export::export;
use zed_plaintext::{TextError, read_program};
use zed_refusal::{Reason, export_stop};
use zed_types::READ_BODY_LIMIT;
use zed_world::World;

// Why the command stops at a world that gets a program.
fn reprogram_stop(error: ReprogramError) -> Stop<DrawingReason>
    ensures { result ≡ reprogram_stop error }
{
    match error {
        ReprogramError::Memory => Stop::Memory,
        ReprogramError::NoBoard => Stop::Refused(DrawingReason::Common(Reason::NoBoard)),
        ReprogramError::NoSuch => Stop::Refused(DrawingReason::Common(Reason::NoSuch)),
        ReprogramError::BoardOver { board, bytes } => {
            Stop::Refused(DrawingReason::Common(Reason::BoardOver { board, bytes }))
        }
    }
}

// Why it stops at a text.
fn text_stop(error: TextError) -> Stop<DrawingReason>
    ensures { result ≡ text_stop error }
{
    match error {
        TextError::Memory => Stop::Memory,
        TextError::Bad(bad) => Stop::Refused(DrawingReason::BadText(bad)),
    }
}

// A world with another program for a stat.
fn reprogrammed(
    alloc: Global,
    world: &World,
    board: u16,
    stat: u16,
    program: &[u8],
) -> Result<World, Stop<DrawingReason>>
    ensures { Gives (λ w. w) (Reprograms world.now board stat program.now) result }
{
    match with_program(alloc, world, board, stat, program) {
        Ok(world) => Ok(world),
        Err(error) => Err(reprogram_stop(error)),
    }
}

// The world of a document with another program for a stat.
fn changed_world(
    alloc: Global,
    document: &Document,
    board: u16,
    stat: u16,
    program: &[u8],
) -> Result<World, Stop<DrawingReason>>
    requires { document.now.is_stale ≡ false }
    ensures { Gives (λ w. w) (IsChanged document.now.edits board stat program.now) result }
{
    match export(alloc, document, READ_BODY_LIMIT) {
        Ok(world) => reprogrammed(alloc, &world, board, stat, program),
        Err(error) => Err(drawing_stop(export_stop(error))),
    }
}

// What is done with the document of FILE.
#[tactic(none)]
fn set_on(
    alloc: Global,
    file: &str,
    document: &mut Document,
    replica: u16,
    board: u16,
    stat: u16,
    program: &[u8],
) -> Result<Effect, Stop<DrawingReason>>
    requires { document.old.is_stale ≡ false }
    ensures { Gives (λ x. x) (Sets file.now replica board stat program.now
        (document.old.world, document.old.edits)) result }
{
    let world = changed_world(alloc, document, board, stat, program)?;
    draw_alone(alloc, file, document, &world, replica)
}

// The program that the bytes of a text spell.
fn spelled(alloc: Global, text: &[u8]) -> Result<Vec<u8>, Stop<DrawingReason>>
    ensures { Gives (λ program. program.items) (IsSpelled text.now) result }
{
    match read_program(alloc, text) {
        Ok(program) => Ok(program),
        Err(error) => Err(text_stop(error)),
    }
}

// The program that a text spells. Its bytes are dropped then.
fn program_of(alloc: Global, file: Input) -> Result<Vec<u8>, Stop<DrawingReason>>
    ensures read { Gives (λ program. program.items) (OfFile IsSpelled file) result }
    ensures there { IfOk result (λ _. BeginsWithBytes (file ∷ [])) }
    ensures memory_only_when { IfErr result (λ e. e ≡ Memory → BeginsWithBytes (file ∷ [])) }
{
    match file {
        Input::Bytes(bytes) => spelled(alloc, bytes.as_slice()),
        Input::Missing => Err(Stop::File),
        Input::Failed => Err(Stop::File),
    }
}

/// Sets the program of a stat to a text, given the numbers of its board and of itself in the world
/// of an edit file. The file gets edits of a replica that lead from its world to the one with this
/// program, unless it has that program already. Then a line counts the edits, as `take` prints it.
/// Stats that share the program share the new one. TEXT is read, and then FILE; memory is asked for
/// only if TEXT is there.
///
/// Refusals, in order: BadEdit if the replica is 0; File or BadText for TEXT; those of reading
/// FILE; those of an export, at 32,767 bytes a body; NoBoard if there is no board of this number;
/// NoSuch if the board has no stat of this number; BoardOver if the board would have more than
/// 32,767 bytes; ClockSpent if no time is left; NotTaken if the edits that were found don't lead to
/// that world.
#[derive(Drop)]
pub struct SetProgram<'a> {
    file: &'a str,
    replica: u16,
    board: u16,
    stat: u16,
    text: &'a str,
    stage: Stage,
}

impl<'a> SetProgram<'a> {
    /// Before a file was read.
    pub fn new(file: &'a str, replica: u16, board: u16, stat: u16, text: &'a str) -> SetProgram<'a>
        ensures file { result.file ≡ file.entry }
        ensures replica { result.replica ≡ replica }
        ensures board { result.board ≡ board }
        ensures stat { result.stat ≡ stat }
        ensures text { result.text ≡ text.entry }
        ensures stage { result.stage ≡ HasBegun }
        ensures stands { IsLed []
            (ProgramWants result.file.now result.replica result.text.now)
            (ProgramComes result.file.now result.replica result.board result.stat)
            (WantsNow result.file.now result.replica result.text.now result.stage)
            (ComesNow result.file.now result.replica result.board result.stat result.stage) }
    {
        SetProgram {
            file,
            replica,
            board,
            stat,
            text,
            stage: Stage::Begun,
        }
    }

    // Reads TEXT.
    fn read(&self, alloc: Global, file: Input) -> Result<Stage, Stop<DrawingReason>>
        requires { self.now.replica ≢ 0 }
        ensures leads { Leads self.now.file.now self.now.replica self.now.board self.now.stat
            self.now.text.now HasBegun file result }
        ensures fewer { IfOk result (λ s. left_of s < 2) }
    {
        let program = program_of(alloc, file)?;
        Ok(Stage::Read { program })
    }

    // Reads FILE, and sets the program.
    fn set(
        &self,
        alloc: Global,
        program: Vec<u8>,
        file: Input,
    ) -> Result<Stage, Stop<DrawingReason>>
        ensures leads { Leads self.now.file.now self.now.replica self.now.board self.now.stat
            self.now.text.now (HasRead program) file result }
        ensures fewer { IfOk result (λ s. left_of s < 1) }
    {
        let mut document = opened_file(alloc, None, file)?;
        let effect = set_on(
            alloc,
            self.file,
            &mut document,
            self.replica,
            self.board,
            self.stat,
            program.as_slice(),
        )?;
        Ok(Stage::Done { effect })
    }

    // Reads the file that a stage asks for.
    fn after(&self, alloc: Global, stage: Stage, file: Input) -> Result<Stage, Stop<DrawingReason>>
        requires { is_some (next_of self.now.file.now self.now.replica self.now.text.now stage)
            ≡ true }
        ensures leads { Leads self.now.file.now self.now.replica self.now.board self.now.stat
            self.now.text.now stage file result }
        ensures fewer { IfOk result (λ s. left_of s < left_of stage) }
    {
        match stage {
            Stage::Begun => self.read(alloc, file),
            Stage::Read { program } => self.set(alloc, program, file),
            // it asks for no more
            Stage::Done { effect: _ } => Err(Stop::Memory),
        }
    }
}

impl<'a> Command for SetProgram<'a> {
    ghost use Rattle.cmd_take.specs.Steps.{IsLed};
    ghost use Rattle.cmd_program.specs.Setting.{ProgramComes, ProgramWants};
    ghost use Rattle.cmd_program.specs.Stages.{ComesNow, WantsNow, left_of, next_of};

    type Refusal = DrawingReason;

    ghost Wants = { λ c. ProgramWants c.file.now c.replica c.text.now };

    ghost Comes = { λ c. ProgramComes c.file.now c.replica c.board c.stat };

    ghost Stands = { λ c files s. IsLed files
        (ProgramWants c.file.now c.replica c.text.now)
        (ProgramComes c.file.now c.replica c.board c.stat)
        (WantsNow s.file.now s.replica s.text.now s.stage)
        (ComesNow s.file.now s.replica s.board s.stat s.stage) };

    ghost next = { λ c. next_of c.file.now c.replica c.text.now c.stage };

    ghost most = { λ c. left_of c.stage };

    fn at_most(&self) -> usize {
        match &self.stage {
            Stage::Begun => 2,
            Stage::Read { program: _ } => 1,
            Stage::Done { effect: _ } => 0,
        }
    }

    fn next_file(&self) -> Option<&str> {
        match &self.stage {
            Stage::Begun => {
                if self.replica == 0 {
                    None
                } else {
                    Some(self.text)
                }
            }
            Stage::Read { program: _ } => Some(self.file),
            Stage::Done { effect: _ } => None,
        }
    }

    fn give(&mut self, alloc: Global, file: Input) -> Result<(), Stop<DrawingReason>> {
        let stage = replace(&mut self.stage, Stage::Begun);
        self.stage = self.after(alloc, stage, file)?;
        Ok(())
    }

    fn finish(&mut self, alloc: Global) -> Result<Effect, Stop<DrawingReason>> {
        match replace(&mut self.stage, Stage::Begun) {
            Stage::Begun => Err(Stop::Refused(DrawingReason::Common(Reason::BadEdit(
                Cause::Stamp,
            )))),
            Stage::Done { effect } => Ok(effect),
            // it asks for FILE
            Stage::Read { program: _ } => Err(Stop::Memory),
        }
    }
}
