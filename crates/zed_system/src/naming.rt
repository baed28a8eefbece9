//! The line that tells which file a refusal is of.
ghost use Rattle.std.specs.Prelude.{◌≡◌, IfOk, string_bytes};
ghost use Rattle.zed_system.specs.Told.{line_of as line_for};

use crate::host::SystemHost;
use crate::last::{Ending, LastCall};
use std::alloc::{AllocError, Global};
use std::io::{self, Write};

/// The call that a refusal is of: the one that failed last if the host complained by `failing`, or
/// else the last one that didn't fail. None where nothing was complained of.
pub fn refused_at<'a>(host: &'a SystemHost, failing: &[u8]) -> Option<&'a LastCall> {
    match host.complaint() {
        [] => None,
        line if line == failing => Some(host.last_failed()),
        _ => Some(host.last_passed()),
    }
}

// What the system says of an error, without the error's number.
fn words_of(said: &str) -> &str {
    match said.split_once(" (os error ") {
        Some((words, _)) => words,
        None => said,
    }
}

// What the system says of the error of a call, if there was one.
fn cause_of(alloc: Global, ending: Ending) -> Result<String, AllocError> {
    match ending {
        Ending::Read | Ending::Written | Ending::NoFile => Ok(String::new(alloc)),
        Ending::NotRead(error) | Ending::NotWritten(error) => {
            let said = format!(in alloc; "{error}")?;
            String::from_str(alloc, words_of(said.as_str()))
        }
    }
}

// The line that tells of a call for the file of a name, with what the system says of an error.
fn line_of(
    alloc: Global,
    front: &str,
    ending: Ending,
    name: &str,
    cause: &str,
) -> Result<String, AllocError>
    ensures { IfOk result (λ text.
        string_bytes text ≡ line_for front.now ending name.now cause.now) }
{
    match ending {
        Ending::Read => format!(in alloc; "{front}the last file read was {name}\n"),
        Ending::Written => format!(in alloc; "{front}the last file written was {name}\n"),
        Ending::NoFile => format!(in alloc; "{front}{name}: no such file\n"),
        Ending::NotRead(_) => format!(in alloc; "{front}{name} can't be read: {cause}\n"),
        Ending::NotWritten(_) => format!(in alloc; "{front}{name} can't be written: {cause}\n"),
    }
}

// The line of a call for the file of this name. A name that was cut within a character is told of no file.
fn told(alloc: Global, front: &str, name: &[u8], ending: Ending) -> Option<String> {
    let name = str::from_utf8(name).ok()?;
    let cause = cause_of(alloc, ending).ok()?;
    line_of(alloc, front, ending, name, cause.as_str()).ok()
}

/// Writes to standard error how a call for the file of this name ended, behind the words of
/// `front`. If memory is refused for that, it writes nothing.
pub fn tell_file(rt: &HostRuntime, front: &str, name: &[u8], ending: Ending) {
    if let Some(line) = told(rt.alloc(), front, name, ending) {
        let _ = rt.stderr().write_all(line.as_bytes());
    }
}

/// Writes to standard error which file a refusal is of, if it is of one: that of `refused_at`.
pub fn name_file(rt: &HostRuntime, host: &SystemHost, front: &str, failing: &[u8]) {
    if let Some((name, ending)) = refused_at(host, failing).and_then(|call| call.told()) {
        tell_file(rt, front, name, ending);
    }
}
