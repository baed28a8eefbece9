//! `zztool`: the program over real files and streams.
#![tactic(auto)]

mod devices;

use crate::devices::{Display, Keyboard, SystemChance};
use std::alloc::{AllocError, Global};
use std::env;
use std::io::{self, ErrorKind, Write};
use std::process::ExitCode;
use zed_system::{SystemHost, name_file};
use zed_terminal::{Console, Typist};
use zed_tool::run;
use zed_tool_words::{Command, ParseError, parse};

/// The line of a refusal that is of the call which failed last.
const FILE_LINE: &[u8] = b"zztool: File\n";

// The words after the program's name. They are pushed one by one: `collect` goes on after a growth that is refused, with a smaller one.
fn words_of(rt: &HostRuntime) -> io::Result<Vec<String>> {
    let mut words = Vec::new(rt.alloc());
    for word in env::args(rt)?.skip(1) {
        words.push(word)?;
    }
    Ok(words)
}

// The name of the base that lies beside a world file.
fn base_of(alloc: Global, world: &str) -> Result<String, AllocError> {
    format!(in alloc; "{world}.base")
}

// Tells the host that FILE is held from its read to the end of the command, so that no other command comes in between.
fn holds(host: &mut SystemHost, name: &str) -> io::Result<()> {
    if name == "stdin" || name == "stdout" {
        return Ok(());
    }
    host.edits(name)
}

// Tells the host that a file is written.
fn writes(host: &mut SystemHost, name: &str) -> io::Result<()> {
    if name == "stdout" {
        return Ok(());
    }
    host.writes(name)
}

// Tells the host that keys or words of chance are kept in a file, if one is named, unless the command uses it for something else.
fn keeps(host: &mut SystemHost, name: Option<&str>, others: &[&str]) -> io::Result<()> {
    match name {
        None | Some("stdin" | "stdout") => Ok(()),
        Some(name) => host.edits_apart(name, others),
    }
}

// Tells the host which files the command of these words writes, and how. Words that are refused have none; the program tells of them.
fn prepare(rt: &HostRuntime, words: &[String], host: &mut SystemHost) -> io::Result<()> {
    match parse(rt.alloc(), words) {
        Ok(Command::Open { file, world, .. }) => {
            holds(host, file)?;
            writes(host, world)?;
            holds(host, &base_of(rt.alloc(), world)?)
        }
        Ok(
            Command::Take {
                base,
                file,
                world,
                ..
            },
        ) => {
            holds(host, file)?;
            match base {
                Some(base) => holds(host, base),
                None => holds(host, &base_of(rt.alloc(), world)?),
            }
        }
        Ok(
            Command::Play {
                words: chance,
                keys,
                files: mut others,
                ..
            },
        ) => {
            if let Some(chance) = chance {
                others.push(chance)?;
            }
            keeps(host, keys, &others)?;
            if chance.is_some() {
                others.pop();
            }
            keeps(host, chance, &others)
        }
        Ok(
            Command::Undo { file, .. }
            | Command::UndoPull { file, .. }
            | Command::Set { file, .. }
            | Command::SetProgram { file, .. },
        ) => holds(host, file),
        Ok(
            Command::Log { .. }
            | Command::List { .. }
            | Command::Show { .. }
            | Command::Page { .. }
            | Command::Lint { .. }
            | Command::Compare { .. }
            | Command::Program { .. }
            | Command::Programs { .. },
        ) => Ok(()),
        Err(ParseError::Refused(_) | ParseError::Help(_) | ParseError::Version) => Ok(()),
        Err(ParseError::Memory) => Err(io::Error::from(ErrorKind::OutOfMemory)),
    }
}

// The status where the words or memory can't be had: memory was refused, or a word is no UTF-8 text.
fn status_of(rt: &HostRuntime, error: &io::Error) -> u8 {
    let (line, status): (&[u8], u8) = match error.kind() {
        ErrorKind::OutOfMemory => (b"zztool: Memory\n", 1),
        _ => (b"zztool: a word is not UTF-8 text\n", 2),
    };
    let _ = rt.stderr().write_all(line);
    status
}

// Carries out what the words ask for, over real files and streams, and a terminal. Behind the line of a refusal comes another one, which
// names a file.
fn carry_out(rt: HostRuntime, words: &[String]) -> io::Result<u8> {
    let alloc = rt.alloc();
    let mut host = SystemHost::new(rt);
    prepare(&rt, words, &mut host)?;
    let typist = Typist::new(Keyboard::new(rt));
    let mut console = Console::new(alloc, Display::new(rt), typist, SystemChance::new(rt));
    let status = run(alloc, words, &mut host, &mut console);
    if status == 1 {
        name_file(&rt, &host, "zztool: ", FILE_LINE);
    }
    host.tell_kept();
    Ok(status)
}

// The status of what the words ask for.
fn work(rt: HostRuntime, words: &[String]) -> u8 {
    match carry_out(rt, words) {
        Ok(status) => status,
        Err(error) => status_of(&rt, &error),
    }
}

fn main(rt: HostRuntime) -> ExitCode {
    match words_of(&rt) {
        Ok(words) => ExitCode::from(work(rt, words.as_slice())),
        Err(error) => ExitCode::from(status_of(&rt, &error)),
    }
}
