//! A command, carried out on a host.
ghost use Rattle.std.specs.Prelude.{◌≡◌, ℕ, [], List, None, Some, IfErr, IfOk, MatchOption, OnErr, OnOk};
ghost use Rattle.zed_driver.specs.Driven.{Driven, Drives, IsStopped};
ghost use Rattle.zed_driver.specs.Hosts.{hosts};
ghost use Rattle.zed_driver.specs.Reading.{Follows, IsNext};
ghost use Rattle.zed_driver.specs.Reads.{LacksMemory, Read};
ghost use Rattle.zed_driver.specs.Writes.{BrokeAmong, BrokeOff, BrokeText, CarriedOut, Noted, PrintedText, WroteAll};

use crate::command::{Command, Stop};
use crate::effect::{Effect, Output};
use crate::input::Input;
use std::alloc::{AllocError, Global};
use zed_host::{Host, ReadError, WriteError};
use zed_types::Bytes;

// The file of a name, as it is read.
fn read_one<H: Host>(host: &mut H, name: &str) -> Result<Input, AllocError>
    ensures ok { IfOk result (λ input. Read (hosts H.contents H.called H.failed H.faults)
        name.now input host.old host.new) }
    ensures err { OnErr result (LacksMemory (hosts H.contents H.called H.failed H.faults)
        name.now host.old host.new) }
{
    match host.read(name) {
        Ok(bytes) => Ok(Input::Bytes(Bytes::new(bytes))),
        Err(ReadError::NoFile) => Ok(Input::Missing),
        Err(ReadError::File) => Ok(Input::Failed),
        Err(ReadError::Memory) => Err(AllocError),
    }
}

// The file that a command reads next, if it reads one.
fn read_next<H: Host, C: Command>(host: &mut H, command: &C) -> Result<Option<Input>, AllocError>
    ensures ok { IfOk result (λ input. MatchOption input
        ((C.next command.now ≡ None) × (host.new ≡ host.old))
        (λ input. (name : List ℕ) × (C.next command.now ≡ Some name)
        × IsNext C.Stands C.Wants command.now name
        × Read (hosts H.contents H.called H.failed H.faults) name input host.old host.new)) }
    ensures err { OnErr result ((name : List ℕ) × IsNext C.Stands C.Wants command.now name
        × LacksMemory (hosts H.contents H.called H.failed H.faults) name host.old host.new) }
{
    match command.next_file() {
        Some(name) => {
            let input = read_one(host, name)?;
            Ok(Some(input))
        }
        None => Ok(None),
    }
}

/// Reads the files that a command asks for, one after the other, and gives it each.
pub fn read_files<H: Host, C: Command>(
    alloc: Global,
    host: &mut H,
    command: &mut C,
) -> Result<(), Stop<C::Refusal>>
    requires { C.Stands command.old [] command.old }
    ensures ok { OnOk result (Follows (hosts H.contents H.called H.failed H.faults)
        (C.Wants command.old) host.old
        (λ files mid. (host.new ≡ mid) × C.Stands command.old files command.new)) }
    ensures all { OnOk result (C.next command.new ≡ None) }
    ensures err { IfErr result (λ e. Follows (hosts H.contents H.called H.failed H.faults)
        (C.Wants command.old) host.old
        (IsStopped (hosts H.contents H.called H.failed H.faults)
        (C.Wants command.old) (C.Comes command.old) e host.new)) }
{
    for _ in 0..command.at_most() {
        match read_next(host, command)? {
            Some(input) => command.give(alloc, input)?,
            None => return Ok(()),
        }
    }
    match command.next_file() {
        None => Ok(()),
        // it has read as many as it reads at most
        Some(_) => Err(Stop::Memory),
    }
}

// Writes files, one after the other.
fn write_files<H: Host>(host: &mut H, files: &[Output]) -> Result<(), WriteError>
    ensures ok { OnOk result (WroteAll (hosts H.contents H.called H.failed H.faults) files.now
        host.old host.new) }
    ensures err { OnErr result (BrokeAmong (hosts H.contents H.called H.failed H.faults) files.now
        host.old host.new) }
{
    for file in files {
        host.write(file.name(), file.bytes())?;
    }
    Ok(())
}

// Prints the text of an effect, if there is one.
fn print_text<H: Host>(host: &mut H, effect: &Effect) -> Result<(), WriteError>
    ensures ok { OnOk result (PrintedText (hosts H.contents H.called H.failed H.faults)
        effect.now.text host.old host.new) }
    ensures err { OnErr result (BrokeText (hosts H.contents H.called H.failed H.faults)
        effect.now.text host.old host.new) }
{
    match effect.text() {
        Some(text) => host.print(text),
        None => Ok(()),
    }
}

// Writes the note of an effect to the standard error, if there is one. Nobody is told if that fails.
fn write_note<H: Host>(host: &mut H, effect: &Effect)
    ensures { Noted (hosts H.contents H.called H.failed H.faults) effect.now.note
        host.old host.new }
{
    if let Some(note) = effect.note() {
        let _ = host.complain(note);
    }
}

/// Writes the files of an effect, one after the other, and then prints its text, up to the first of
/// these calls that fails. If none does, it writes the note, whose failure changes nothing.
pub fn carry_out<H: Host>(host: &mut H, effect: &Effect) -> Result<(), WriteError>
    ensures ok { OnOk result (CarriedOut (hosts H.contents H.called H.failed H.faults) effect.now
        host.old host.new) }
    ensures err { OnErr result (BrokeOff (hosts H.contents H.called H.failed H.faults) effect.now
        host.old host.new) }
{
    write_files(host, effect.files())?;
    print_text(host, effect)?;
    write_note(host, effect);
    Ok(())
}

// Carries out a command, step by step.
fn run<H: Host, C: Command>(
    alloc: Global,
    host: &mut H,
    command: &mut C,
) -> Result<u8, Stop<C::Refusal>>
    requires { C.Stands command.old [] command.old }
    ensures { Drives (hosts H.contents H.called H.failed H.faults)
        (C.Wants command.old) (C.Comes command.old) result host.old host.new }
{
    read_files(alloc, host, command)?;
    let effect = command.finish(alloc)?;
    carry_out(host, &effect)?;
    Ok(effect.status())
}

/// Carries out a command: reads the files that it asks for, in order, and writes and prints what it
/// comes to. It answers the status of the effect.
pub fn drive<H: Host, C: Command>(
    alloc: Global,
    host: &mut H,
    command: &mut C,
) -> Result<u8, Stop<C::Refusal>>
    requires { C.Stands command.old [] command.old }
    ensures drives { Drives (hosts H.contents H.called H.failed H.faults)
        (C.Wants command.old) (C.Comes command.old) result host.old host.new }
    ensures driven { Driven (hosts H.contents H.called H.failed H.faults)
        (C.Wants command.old) (C.Comes command.old) result host.old host.new }
{
    run(alloc, host, command)
}
