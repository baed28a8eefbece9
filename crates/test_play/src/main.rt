//! `test_play WORLD` plays in a world file by the lines of standard input, and prints all that is to
//! be seen after each. `scripts/tests/plays` makes the lines, of playbooks.
#![tactic(auto)]

mod pictures;
mod sheet;
mod stage;
mod telling;

use stage::Stage;
use std::alloc::{AllocError, Global};
use std::{env, fs, io};

/// The numbers among the words of a line.
fn numbers_of(alloc: Global, text: &str) -> Result<Vec<u16>, AllocError> {
    let mut numbers = Vec::new(alloc);
    for word in text.split(' ') {
        if let Ok(number) = word.parse::<u16>() {
            numbers.push(number)?;
        }
    }
    Ok(numbers)
}

/// Does what a line asks for, or prints that it asks for nothing that can be done.
fn act(stage: &mut Stage, line: &str) -> Result<(), AllocError> {
    let (word, rest) = line.split_once(' ').unwrap_or((line, ""));
    let numbers = numbers_of(stage.alloc, rest)?;
    if stage.act(word, numbers.as_slice()).is_none() {
        stage.sheet.line("unknown");
    }
    Ok(())
}

fn play(rt: &HostRuntime, stage: &mut Stage) -> io::Result<()> {
    for line in rt.lines(rt.alloc()) {
        act(stage, line?.as_str())?;
    }
    println!(rt; "{}", stage.sheet.text)
}

fn main(rt: HostRuntime) -> io::Result<()> {
    for name in env::args(&rt)?.skip(1) {
        let world = fs::read(&rt, name.as_str())?;
        play(&rt, &mut Stage::new(rt.alloc(), world.as_slice()))?;
    }
    Ok(())
}
