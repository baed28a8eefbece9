//! A command under the driver, over a host in memory, with growths refused.
use crate::growths::refuse_each;
use std::alloc::{AllocError, Global};
use test_rows::{Turn, refuse, turn_of, was_refused};
use zed_driver::{Command, Effect, Input, Output, Stop, carry_out, drive};
use zed_host::{Host, MemoryHost};
use zed_types::Bytes;

/// Why a file isn't copied.
#[derive(Clone, Copy, PartialEq, Eq)]
enum Refusal {
    Missing,
}

/// The file `a` is copied to `b`, with a line and a note. Its status is 3.
#[derive(Drop)]
struct Copying<'a> {
    /// The file that it reads next.
    next: Option<&'a str>,
    file: Input,
}

impl<'a> Command for Copying<'a> {
    ghost use Rattle.std.specs.Prelude.{length, option_map, option_to_list};

    type Refusal = Refusal;

    ghost Wants = { λ c files name. Unit {0} };

    ghost Comes = { λ c files r. Unit {0} };

    ghost Stands = { λ c files s. Unit {0} };

    ghost next = { λ c. option_map (λ name. name.now) c.next };

    ghost most = { λ c. length (option_to_list c.next) };

    fn at_most(&self) -> usize {
        match self.next {
            Some(_) => 1,
            None => 0,
        }
    }

    fn next_file(&self) -> Option<&str> {
        self.next
    }

    fn give(&mut self, alloc: Global, file: Input) -> Result<(), Stop<Refusal>> {
        self.next = None;
        self.file = file;
        Ok(())
    }

    fn finish(&mut self, alloc: Global) -> Result<Effect, Stop<Refusal>> {
        match &self.file {
            Input::Bytes(bytes) => Ok(copied(alloc, bytes)?),
            Input::Missing => Err(Stop::Refused(Refusal::Missing)),
            Input::Failed => Err(Stop::File),
        }
    }
}

fn copied(alloc: Global, bytes: &Bytes) -> Result<Effect, AllocError> {
    let mut files = Vec::new(alloc);
    files.push(Output::new(alloc, "b", bytes.as_slice().to_vec(alloc)?)?)?;
    let line = Bytes::from_slice(alloc, b"copied")?;
    let note = Bytes::from_slice(alloc, b"noted")?;
    Ok(Effect::new(files, Some(line), 3).with_note(note))
}

/// A host that holds the file `a`, and lets so many calls pass, of which that was the first.
fn holding(alloc: Global, passing: u64) -> MemoryHost {
    let mut host = MemoryHost::new(alloc, passing);
    let _ = host.write("a", b"one");
    host
}

/// Copies the file of a name.
fn copy(alloc: Global, host: &mut MemoryHost, name: &str) -> Result<u8, Stop<Refusal>> {
    let mut copying = Copying {
        next: Some(name),
        file: Input::Missing,
    };
    drive(alloc, host, &mut copying)
}

/// Whether it holds a copy, and what it printed and complained.
fn holds(host: &mut MemoryHost, is_copied: bool, printed: &[u8], complained: &[u8]) -> bool {
    let is_there = match host.read("b") {
        Ok(bytes) => bytes.as_slice() == b"one".as_slice(),
        Err(_) => false,
    };
    is_there == is_copied && host.printed() == printed && host.complained() == complained
}

#[test]
fn a_command_is_carried_out(rt: HostRuntime) {
    let mut host = holding(rt.alloc(), u64::MAX);
    assert!(rt; matches!(copy(rt.alloc(), &mut host, "a"), Ok(3)));
    assert!(rt; holds(&mut host, true, b"copied", b"noted"));
    assert_eq!(rt; host.failures(), 0);
}

#[test]
fn a_note_that_fails_changes_no_answer(rt: HostRuntime) {
    let mut host = holding(rt.alloc(), 4);
    assert!(rt; matches!(copy(rt.alloc(), &mut host, "a"), Ok(3)));
    assert!(rt; holds(&mut host, true, b"copied", b""));
    assert_eq!(rt; host.failures(), 1);
}

#[test]
fn a_host_that_fails_at_an_effect_is_told(rt: HostRuntime) {
    for (passing, is_copied) in [(2, false), (3, true)] {
        let mut host = holding(rt.alloc(), passing);
        assert!(rt; matches!(copy(rt.alloc(), &mut host, "a"), Err(Stop::File)));
        assert!(rt; holds(&mut host, is_copied, b"", b""));
    }
}

#[test]
fn a_command_that_stops_writes_nothing(rt: HostRuntime) {
    let mut host = holding(rt.alloc(), u64::MAX);
    let answer = copy(rt.alloc(), &mut host, "c");
    assert!(rt; matches!(answer, Err(Stop::Refused(Refusal::Missing))));
    assert!(rt; holds(&mut host, false, b"", b""));
}

/// Whether a growth that was refused is told: as Memory, which leaves all as it was; or, where it
/// was the host's own, as a call that failed, which for a note changes no answer.
fn is_told(host: &mut MemoryHost, answer: &Result<u8, Stop<Refusal>>) -> bool {
    match answer {
        Ok(_) => host.failures() == 1 && holds(host, true, b"copied", b""),
        Err(Stop::Memory) => host.failures() == 0 && holds(host, false, b"", b""),
        Err(Stop::File) => host.failures() == 1,
        Err(Stop::Refused(_)) => false,
    }
}

/// Copies with a growth refused.
fn copy_once(alloc: Global, nth: usize) -> Turn {
    let mut host = holding(alloc, u64::MAX);
    refuse(alloc, nth);
    let answer = copy(alloc, &mut host, "a");
    if was_refused(alloc) {
        turn_of(true, false, is_told(&mut host, &answer))
    } else {
        let is_whole = matches!(answer, Ok(3)) && holds(&mut host, true, b"copied", b"noted");
        turn_of(false, is_whole, false)
    }
}

#[test]
fn each_growth_of_a_command_refused(rt: HostRuntime) {
    assert!(rt; refuse_each!(nth => copy_once(rt.alloc(), nth)));
}

/// Whether a file is written and this printed.
fn is_written(alloc: Global, out: &str, printed: &[u8]) -> bool {
    let mut host = MemoryHost::new(alloc, u64::MAX);
    match Effect::writes(alloc, out, Vec::new(alloc), "written") {
        Ok(effect) => {
            carry_out(&mut host, &effect).is_ok()
                && effect.status() == 0
                && host.read(out).is_ok()
                && host.printed() == printed
        }
        Err(_) => false,
    }
}

#[test]
fn a_line_is_left_out_beside_a_file_on_stdout(rt: HostRuntime) {
    assert!(rt; is_written(rt.alloc(), "b", b"written"));
    assert!(rt; is_written(rt.alloc(), "stdout", b""));
}
