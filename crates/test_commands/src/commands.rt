//! Commands over a host in memory.
use crate::desk::{Desk, Outcome};
use crate::parts::Parts;
use std::alloc::Global;
use zed_host::{Host, MemoryHost, ReadError};
use zed_link::Link;
use zed_program::run;
use zed_session::{Keys, Screen};

/// Runs words with these links and devices. Its status.
// Who makes a boxed link or device can't hand it out, so they are boxed here, where they are handed in, and made elsewhere.
fn run_over(words: &[String], host: &mut MemoryHost, parts: Parts, desk: &Desk) -> u8 {
    let mut links: Vec<Box<dyn Link>> = Vec::new(desk.alloc);
    for wire in parts.wires {
        let _ = links.push(wire);
    }
    for sink in parts.sinks {
        let _ = links.push(sink);
    }
    let mut screen: Box<dyn Screen> = parts.screen;
    let mut keys: Box<dyn Keys> = parts.keys;
    desk.refuse();
    run(
        desk.alloc,
        words,
        host,
        &mut links,
        screen.as_mut(),
        keys.as_mut(),
    )
}

/// A host that lets so many calls pass, with so many files.
fn next_host(desk: &mut Desk) -> MemoryHost {
    let passing = desk.tape.option().unwrap_or(u64::MAX);
    let files = desk.tape.number();
    let mut host = MemoryHost::new(desk.alloc, passing);
    for _ in 0..files {
        let name = desk.tape.word();
        let bytes = desk.tape.bytes(desk.alloc);
        let _ = host.write(name, bytes.as_slice());
    }
    host
}

/// The words that are left in a row.
fn next_words(desk: &mut Desk) -> Vec<String> {
    let mut words = Vec::new(desk.alloc);
    for _ in 0..usize::MAX {
        if desk.tape.is_done() {
            break;
        }
        put_word(desk.alloc, desk.tape.word(), &mut words);
    }
    words
}

fn put_word(alloc: Global, word: &str, words: &mut Vec<String>) {
    if let Ok(word) = String::from_str(alloc, word) {
        let _ = words.push(word);
    }
}

/// Tells a command: whether a growth was refused in it, its status, how many calls of the host failed, and what it said.
fn tell_run(host: &MemoryHost, status: u8, desk: &mut Desk) {
    let was_refused = desk.was_refused();
    let failures = host.failures();
    if was_refused {
        desk.outcome = if failures == 0 {
            Outcome::Refused
        } else {
            Outcome::Device
        };
    }
    desk.told.flag(was_refused);
    desk.told.number(u64::from(status));
    desk.told.number(failures);
    desk.told.bytes(host.printed());
    desk.told.bytes(host.complained());
    desk.told.end()
}

/// Tells what a file holds.
fn tell_file(host: &mut MemoryHost, desk: &mut Desk) {
    match host.read(desk.tape.word()) {
        Ok(bytes) => {
            desk.told.bytes(bytes.as_slice());
            desk.told.end()
        }
        Err(ReadError::NoFile) => desk.told.last("no file"),
        Err(ReadError::File) => desk.told.last("this call fails"),
        Err(ReadError::Memory) => desk.told.last("out of memory"),
    }
}

/// Does the rows behind a command.
fn look_on(host: &mut MemoryHost, desk: &mut Desk) {
    for _ in 0..usize::MAX {
        match desk.next() {
            b'.' => return,
            b'h' => tell_file(host, desk),
            letter => desk.look(letter),
        }
    }
}

/// Runs the words of a row over a new host, and does the rows behind it.
pub fn run_command(parts: Parts, desk: &mut Desk) {
    let mut host = next_host(desk);
    let words = next_words(desk);
    let status = run_over(words.as_slice(), &mut host, parts, desk);
    tell_run(&host, status, desk);
    look_on(&mut host, desk)
}
