//! `zzted`: the program over real files and streams.
#![tactic(auto)]

mod devices;

use devices::{FileLink, LastRead, Printer, Typed};
use std::cell::Cell;
use std::env;
use std::io::{self, ErrorKind, Write};
use std::process::ExitCode;
use std::rc::Rc;
use zed_link::Link;
use zed_program::run;
use zed_session::{Keys, Screen};
use zed_system::{SystemHost, name_file, tell_file};
use zed_words::{Command, ParseError, parse};

/// The line of a refusal that is of the call of the host which failed last.
const FILE_LINE: &[u8] = b"zzted: File\n";

// The words after the program's name. They are pushed one by one: `collect` goes on after a growth that is refused, with a smaller one.
fn words_of(rt: &HostRuntime) -> io::Result<Vec<String>> {
    let mut words = Vec::new(rt.alloc());
    for word in env::args(rt)?.skip(1) {
        words.push(word)?;
    }
    Ok(words)
}

// How a command gets to the file that it writes.
#[derive(Clone, Copy)]
enum Way {
    // It writes none.
    Reads,
    // It writes the file.
    Writes,
    // It reads the file and writes it again.
    Edits,
    // It writes the file, which may be one of those that it pulls over links.
    Joins,
}

// How the command of these words gets to the file that it writes, the name of that, and the files that it pulls over links. Words that
// are refused have neither; the program tells of them.
fn needs_of<'a>(rt: &HostRuntime, words: &'a [String]) -> io::Result<(Way, &'a str, Vec<&'a str>)> {
    let (way, name) = match parse(rt.alloc(), words) {
        Ok(Command::Merge { out, files, .. }) => return Ok((Way::Joins, out, files)),
        Ok(Command::Edit { file, .. }) => (Way::Edits, file),
        Ok(Command::Save { out, .. }) => (Way::Writes, out),
        Ok(Command::New { out, .. }) => (Way::Writes, out),
        Ok(Command::Check { .. } | Command::Show { .. } | Command::Play { .. }) => {
            (Way::Reads, "")
        }
        Err(ParseError::Refused(_)) => (Way::Reads, ""),
        Err(ParseError::Memory) => return Err(io::Error::from(ErrorKind::OutOfMemory)),
    };
    Ok((way, name, Vec::new(rt.alloc())))
}

// Tells the host which file is written, and how. Standard output is no file.
fn admit(host: &mut SystemHost, way: Way, name: &str, links: &[&str]) -> io::Result<()> {
    if name == "stdout" {
        return Ok(());
    }
    match way {
        Way::Reads => Ok(()),
        Way::Writes => host.saves(name),
        Way::Edits => host.edits(name),
        Way::Joins => host.joins(name, links),
    }
}

// The status where the words or memory can't be had: memory was refused, or a word is no UTF-8 text.
fn status_of(rt: &HostRuntime, error: &io::Error) -> u8 {
    let (line, status): (&[u8], u8) = match error.kind() {
        ErrorKind::OutOfMemory => (b"zzted: Memory\n", 1),
        _ => (b"zzted: a word is not UTF-8 text\n", 2),
    };
    let _ = rt.stderr().write_all(line);
    status
}

// Writes a second line behind that of a refusal, which names the file that it is of: the one that was read last over a link, or that of the
// host's last call.
fn name_refused(rt: &HostRuntime, host: &SystemHost, linked: &[&str], last: Option<LastRead>) {
    let line = host.complaint();
    match last {
        Some(read) if !line.is_empty() && line != FILE_LINE => {
            if let Some(name) = linked.get(read.at) {
                tell_file(rt, "", name.as_bytes(), read.ending);
            }
        }
        _ => name_file(rt, host, "", FILE_LINE),
    }
}

// Carries out what the words ask for, over real files and streams.
fn carry_out(rt: HostRuntime, words: &[String]) -> io::Result<u8> {
    let alloc = rt.alloc();
    let (way, name, linked) = needs_of(&rt, words)?;
    let mut host = SystemHost::new(rt);
    admit(&mut host, way, name, &linked)?;
    let mut links: Vec<Box<dyn Link>> = Vec::new(alloc);
    let last = Rc::new(alloc, Cell::new(None))?;
    for (at, name) in linked.iter().enumerate() {
        let link = Box::new(alloc, FileLink::new(rt, name, at, Rc::clone(&last)?)?)?;
        if links.push(link).is_err() {
            return Err(io::Error::from(ErrorKind::OutOfMemory));
        }
    }
    let mut screen: Box<dyn Screen> = Box::new(alloc, Printer::new(rt))?;
    let mut keys: Box<dyn Keys> = Box::new(alloc, Typed::new(rt))?;
    let status = run(
        alloc,
        words,
        &mut host,
        &mut links,
        screen.as_mut(),
        keys.as_mut(),
    );
    if status == 1 {
        name_refused(&rt, &host, &linked, last.get());
    }
    host.tell_kept();
    Ok(status)
}

// The status of what the words ask for.
fn work(rt: HostRuntime, words: &[String]) -> u8 {
    match carry_out(rt, words) {
        Ok(status) => status,
        Err(error) => status_of(&rt, &error),
    }
}

fn main(rt: HostRuntime) -> ExitCode {
    match words_of(&rt) {
        Ok(words) => ExitCode::from(work(rt, words.as_slice())),
        Err(error) => ExitCode::from(status_of(&rt, &error)),
    }
}
