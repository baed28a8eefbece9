//! `test_commands` does the rows that come in over the standard input: commands over hosts in
//! memory, sessions, and bytes that go over links, with devices and links over memory that fail when
//! a row asks for it and keep what came to them. It tells what comes of them, and compares
//! nothing. docs/COMMANDS-IN-ROWS.md has the layout of rows.
#![tactic(auto)]

mod commands;
mod desk;
mod devices;
mod parts;
mod receiving;
mod sessions;
mod traces;
mod wires;

use commands::run_command;
use desk::{Desk, Outcome};
use parts::Parts;
use sessions::play_session;
use std::alloc::{AllocError, Global};
use std::io;
use test_rows::{MOST, Tape};

/// Does the rows of a section.
fn do_rows(desk: &mut Desk) -> Result<(), AllocError> {
    let parts = Parts::next(desk)?;
    match desk.next() {
        b'x' => run_command(parts, desk),
        b's' => {
            play_session(parts, desk);
            desk.look_on()
        }
        _ => {
            drop(parts);
            desk.look_on()
        }
    }
    Ok(())
}

/// Does the rows of a section with a growth refused, or with none where that is 0.
fn take_turn<'a>(alloc: Global, tape: Tape<'a>, nth: usize) -> Result<Desk<'a>, AllocError> {
    let mut desk = Desk::new(alloc, tape, nth)?;
    do_rows(&mut desk)?;
    Ok(desk)
}

/// Does the rows of a section once, or with each growth refused in turn until none is left. What is behind them.
fn take_section<'a>(rt: &HostRuntime, tape: Tape<'a>, first: usize) -> io::Result<Tape<'a>> {
    for nth in first..MOST {
        let desk = take_turn(rt.alloc(), tape, nth)?;
        print!(rt; "{}end {:?}\n", desk.told.as_str(), desk.outcome)?;
        if desk.outcome == Outcome::Whole {
            return Ok(desk.tape);
        }
    }
    Ok(tape)
}

fn main(rt: HostRuntime) -> io::Result<()> {
    let rows = io::read_to_string(rt.alloc(), rt.stdin())?;
    let mut tape = Tape::new(rows.as_str());
    for _ in 0..usize::MAX {
        if !tape.next_row() {
            break;
        }
        let first = tape.size();
        tape = take_section(&rt, tape, first)?;
    }
    Ok(())
}
