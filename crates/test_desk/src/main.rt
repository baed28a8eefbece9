//! `test_desk` makes the calls of a script on standard input, and prints what each answers: what edits, documents, worlds and
//! programs of objects come to that neither `zzted` nor `zztool` shows. scripts/tests/desk.py writes the scripts and reads the
//! answers. A script has a line of numbers for each call: the number of the growth that is refused, or 0; the call; what it is
//! given. Bytes are pairs of digits.
#![tactic(auto)]

mod calls;
mod desk;
mod edits;
mod programs;
mod sheet;
mod shown;

use desk::answers;
use std::io;
use std::io::Write;

fn main(rt: HostRuntime) -> io::Result<()> {
    let script = io::read_to_string(rt.alloc(), rt.stdin())?;
    let told = answers(rt.alloc(), script.as_bytes());
    rt.stdout().write_all(told.as_bytes())
}
