//! A host that keeps the list of its calls.
ghost use Rattle.std.specs.Prelude.{◌≡◌, [], ◌∷◌, ◌++◌, None, Some, IfOk, IsErr, OnErr, OnOk, option_map};
ghost use Rattle.zed_host.specs.Calls.{Complaining, Reading, Writing, call};
ghost use Rattle.zed_host.specs.Faults.{is_failure};
ghost use Rattle.zed_host.specs.Log.{Appends, CallsAreLogged, asked_for, calls_in};

use crate::host::{Host, ReadError, WriteError};
use std::alloc::{AllocError, Global};
use std::marker::Model;

/// What a host was asked for.
#[derive(Drop)]
pub enum Asked {
    /// The file of a name.
    Read(String),
    /// To put a file of this name there.
    Write(String),
    /// To print.
    Print,
    /// To write this to the standard error.
    Complain(Vec<u8>),
}

impl Asked {
    fn to_read(alloc: Global, name: &str) -> Result<Asked, AllocError>
        ensures { IfOk result (λ asked. asked_for asked ≡ Reading name.now) }
    {
        Ok(Asked::Read(String::from_str(alloc, name)?))
    }

    fn to_write(alloc: Global, name: &str) -> Result<Asked, AllocError>
        ensures { IfOk result (λ asked. asked_for asked ≡ Writing name.now) }
    {
        Ok(Asked::Write(String::from_str(alloc, name)?))
    }

    fn to_complain(alloc: Global, text: &[u8]) -> Result<Asked, AllocError>
        ensures { IfOk result (λ asked. asked_for asked ≡ Complaining text.now) }
    {
        Ok(Asked::Complain(Vec::from_slice(alloc, text)?))
    }
}

/// A call that was made of a host.
#[derive(Drop)]
pub struct Made {
    pub asked: Asked,
    /// Whether it failed, for want of the file or by a fault of the device.
    pub failed: bool,
}

/// The calls that were made of a host, in order; or nothing, once memory ran out for one.
#[derive(Drop)]
pub struct CallLog {
    made: Option<Vec<Made>>,
}

impl Model for CallLog {
    ghost use Rattle.std.specs.Prelude.{List, Option, option_map};
    ghost use Rattle.zed_host.specs.Calls.{Call};
    ghost use Rattle.zed_host.specs.Log.{calls_in};

    ghost Value = { Option (List Call) };

    ghost view = { λ log. option_map (λ made. calls_in made.items) log.made };
}

impl CallLog {
    /// No call was made yet. It takes no memory.
    pub fn new(alloc: Global) -> CallLog
        ensures { result ≡ Some [] }
    {
        CallLog {
            made: Some(Vec::new(alloc)),
        }
    }

    /// The calls, unless memory ran out for one.
    pub fn calls(&self) -> Option<&[Made]>
        ensures { option_map (λ made. calls_in made.now) result ≡ self.now }
    {
        match &self.made {
            Some(made) => Some(made.as_slice()),
            None => None,
        }
    }

    // Appends a call. Without memory for it the list is lost.
    fn append(&mut self, asked: Result<Asked, AllocError>, failed: bool)
        ensures ok { IfOk asked (λ asked.
            Appends (call (asked_for asked) failed ∷ []) self.old self.new) }
        ensures err { OnErr asked (self.new ≡ None) }
    {
        let is_kept = match &mut self.made {
            Some(made) => add(made, asked, failed).is_ok(),
            None => true,
        };
        if !is_kept {
            self.made = None;
        }
    }
}

// Adds a call to a list.
fn add(
    made: &mut Vec<Made>,
    asked: Result<Asked, AllocError>,
    failed: bool,
) -> Result<(), AllocError>
    ensures ok { OnOk result (IfOk asked (λ asked.
        calls_in made.new.items ≡ calls_in made.old.items ++ call (asked_for asked) failed ∷ [])) }
    ensures err { OnErr asked (IsErr result) }
{
    let asked = asked?;
    made.push(Made { asked, failed })?;
    Ok(())
}

/// A host over another, which keeps the list of the calls that are made of it.
#[derive(Drop)]
pub struct Logged<H> {
    alloc: Global,
    host: H,
    log: CallLog,
}

impl<H: Host> Logged<H> {
    /// No call was made of it yet. It takes no memory.
    pub fn new(alloc: Global, host: H) -> Logged<H>
        ensures host { result.host ≡ host }
        ensures log { result.log ≡ Some [] }
    {
        Logged {
            alloc,
            host,
            log: CallLog::new(alloc),
        }
    }

    /// The host below it.
    pub fn host(&self) -> &H
        ensures { result.now ≡ self.now.host }
    {
        &self.host
    }

    /// The calls that were made of it.
    pub fn log(&self) -> &CallLog
        ensures { result.now ≡ self.now.log }
    {
        &self.log
    }
}

// Whether a read failed, for want of the file or by a fault of the device.
fn is_failure(read: &Result<Vec<u8>, ReadError>) -> bool
    ensures { result ≡ is_failure read.now }
{
    matches!(read, Err(ReadError::NoFile | ReadError::File))
}

impl<H: Host> Host for Logged<H> {
    ghost contents = { λ s. H.contents s.host };

    ghost failed = { λ s. H.failed s.host };

    ghost faults = { λ s. H.faults s.host };

    ghost called = { λ old call new. H.called old.host call new.host × Appends (call ∷ []) old.log new.log };

    fn read(&mut self, name: &str) -> Result<Vec<u8>, ReadError> {
        let read = self.host.read(name);
        self.log
            .append(Asked::to_read(self.alloc, name), is_failure(&read));
        read
    }

    fn write(&mut self, name: &str, bytes: &[u8]) -> Result<(), WriteError> {
        let written = self.host.write(name, bytes);
        self.log
            .append(Asked::to_write(self.alloc, name), written.is_err());
        written
    }

    fn print(&mut self, bytes: &[u8]) -> Result<(), WriteError> {
        let printed = self.host.print(bytes);
        self.log.append(Ok(Asked::Print), printed.is_err());
        printed
    }

    fn complain(&mut self, bytes: &[u8]) -> Result<(), WriteError> {
        let complained = self.host.complain(bytes);
        self.log
            .append(Asked::to_complain(self.alloc, bytes), complained.is_err());
        complained
    }

    fn failures(&self) -> u64 {
        self.host.failures()
    }

    ghost counts_failures = { λ old call new is. H.counts_failures old.host call new.host is.0 };

    ghost counts_no_fault = { λ old call new is. H.counts_no_fault old.host call new.host is.0 };
}

/// After any calls of a host that keeps their list, the list has grown by exactly these, in this
/// order, or it was lost for want of memory. So a statement of the calls that lead from such a host
/// to what it becomes says what its list shows.
pub fn calls_are_logged<H: Host>()
    ensures { CallsAreLogged ⟦<Logged<H> as Host>⟧.called (λ host. host.log) }
{}
