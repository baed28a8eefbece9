//! What stands one after the other in a line of commands, as it is read in play.
ghost use Rattle.std.specs.Prelude.{◌≡◌, IfOk};
ghost use Rattle.zed_lint.specs.Reading.{after_command, after_instruction, after_test, mark_of, next_reading, read_at};

use std::alloc::{AllocError, Global};
use zed_oop_syntax::{Instruction, OopCommand, Test, next_command, standing_at};

/// What is read next, and where.
#[derive(Clone, Copy, PartialEq, Eq)]
pub(crate) enum Reading {
    /// The instruction at a place.
    Instructing(usize),
    /// The command at the second place, of the instruction that began at the first.
    Commanding(usize, usize),
}

/// What stands there, and where it ends.
#[derive(Drop)]
pub(crate) enum Read {
    Instruction(Instruction, usize),
    Command(Option<OopCommand>, usize),
}

#[tactic(auto, using(crate::proofs::Read::instruction_is))]
fn instruction_at(alloc: Global, program: &[u8], at: usize) -> Result<Read, AllocError>
    ensures { IfOk result (λ r. r ≡ read_at program.now (Reading.Instructing at)) }
{
    let (instruction, end) = standing_at(alloc, program, at)?;
    Ok(Read::Instruction(instruction, end))
}

#[tactic(auto, using(crate::proofs::Read::command_is))]
fn command_at(alloc: Global, program: &[u8], mark: usize, at: usize) -> Result<Read, AllocError>
    ensures { IfOk result (λ r. r ≡ read_at program.now (Reading.Commanding mark at)) }
{
    let (command, end) = next_command(alloc, program, at)?;
    Ok(Read::Command(command, end))
}

/// What stands where a program is read.
pub(crate) fn read_at(alloc: Global, program: &[u8], reading: Reading) -> Result<Read, AllocError>
    ensures { IfOk result (λ r. r ≡ read_at program.now reading) }
{
    match reading {
        Reading::Instructing(at) => instruction_at(alloc, program, at),
        Reading::Commanding(mark, at) => command_at(alloc, program, mark, at),
    }
}

/// Where the instruction began that is read.
pub(crate) fn mark_of(reading: Reading) -> usize
    ensures { result ≡ mark_of reading }
{
    match reading {
        Reading::Instructing(at) => at,
        Reading::Commanding(mark, _) => mark,
    }
}

// What is read behind an instruction on its line.
fn after_instruction(instruction: &Instruction, at: usize, end: usize) -> Option<Reading>
    ensures { result ≡ after_instruction instruction.now at end }
{
    match instruction {
        Instruction::Step(heading) | Instruction::Attempt(heading) => match heading.course {
            Some(_) => Some(Reading::Instructing(end)),
            None => None,
        },
        Instruction::Command => Some(Reading::Commanding(at, end)),
        Instruction::End | Instruction::Skipped | Instruction::Blank | Instruction::Message(_) =>
            None,
    }
}

// What is read behind a test, unless that is an error.
fn after_test(test: &Test, next: Reading) -> Option<Reading>
    ensures { result ≡ after_test test.now next }
{
    match test {
        Test::Blocked(heading) => match heading.course {
            Some(_) => Some(next),
            None => None,
        },
        Test::Any(None) => None,
        _ => Some(next),
    }
}

// What is read behind a command on its line, unless that is an error.
fn after_command(command: &Option<OopCommand>, mark: usize, end: usize) -> Option<Reading>
    ensures { result ≡ after_command command.now mark end }
{
    let next = Reading::Commanding(mark, end);
    match command {
        None => Some(Reading::Instructing(end)),
        Some(OopCommand::Try(heading)) => match heading.course {
            Some(_) => Some(next),
            None => None,
        },
        Some(OopCommand::If(query)) => after_test(&query.test, next),
        Some(OopCommand::Take(Some(_), _)) => Some(next),
        Some(_) => None,
    }
}

/// What is read behind that on its line, if it goes on.
pub(crate) fn next_reading(read: &Read, reading: Reading) -> Option<Reading>
    ensures { result ≡ next_reading read.now reading }
{
    match read {
        Read::Instruction(instruction, end) => {
            after_instruction(instruction, mark_of(reading), *end)
        }
        Read::Command(command, end) => after_command(command, mark_of(reading), *end),
    }
}
