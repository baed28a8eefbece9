//! A host over memory, for tests.
ghost use Rattle.std.specs.Prelude.{◌≡◌, ◌-◌, ◌<◌, ◌∷◌, nat_lt, IfOk, OnErr, OnOk, Some, ◌++◌, option_map, string_bytes};
ghost use Rattle.std.specs.FinMap as map;
ghost use Rattle.zed_host.specs.Counting.{Rose, most_counted};
ghost use Rattle.zed_host.specs.Memory.{called_in, contents_of, empty_memory, entries_of, failed_in, files_of};

use crate::host::{Host, ReadError, WriteError};
use std::alloc::{AllocError, Global};
use std::marker::Model;

#[derive(Drop)]
struct Entry {
    name: String,
    bytes: Vec<u8>,
}

/// Files and streams in memory. The device can be made to fail at one of its calls.
#[derive(Drop)]
pub struct MemoryHost {
    alloc: Global,
    // the newest first
    entries: Vec<Entry>,
    printed: Vec<u8>,
    complained: Vec<u8>,
    // the reads that failed for want of a file
    missing: u64,
    // the calls that failed otherwise
    faults: u64,
    // the calls that pass before the device fails
    passing: u64,
}

impl Model for MemoryHost {
    ghost use Rattle.zed_host.specs.Counting.{Rose, most_counted};
    ghost use Rattle.zed_host.specs.Memory.{MemoryState, entries_of};

    ghost Value = { MemoryState };

    ghost view = { λ s. record { entries = entries_of s.entries.items; printed = s.printed.items; complained = s.complained.items; missing = s.missing; faults = s.faults; passing = s.passing } };
}

impl MemoryHost {
    /// It holds no file. The device fails at the one call after `passing` of them.
    pub fn new(alloc: Global, passing: u64) -> MemoryHost
        ensures { result ≡ empty_memory passing }
    {
        MemoryHost {
            alloc,
            entries: Vec::new(alloc),
            printed: Vec::new(alloc),
            complained: Vec::new(alloc),
            missing: 0,
            faults: 0,
            passing,
        }
    }

    /// What was written to the standard output.
    pub fn printed(&self) -> &[u8]
        ensures { result.now ≡ self.now.printed }
    {
        self.printed.as_slice()
    }

    /// What was written to the standard error.
    pub fn complained(&self) -> &[u8]
        ensures { result.now ≡ self.now.complained }
    {
        self.complained.as_slice()
    }
}

// Counts a call that failed.
fn count(counter: &mut u64)
    ensures { Rose counter.old counter.new }
{
    *counter = counter.saturating_add(1);
}

fn make_entry(alloc: Global, name: &str, bytes: &[u8]) -> Result<Entry, AllocError>
    ensures { IfOk result (λ e. (string_bytes e.name ≡ name.now) × (e.bytes.items ≡ bytes.now)) }
{
    let name = String::from_str(alloc, name)?;
    let bytes = Vec::from_slice(alloc, bytes)?;
    Ok(Entry { name, bytes })
}

fn found<'e>(entries: &'e [Entry], name: &str) -> Option<&'e [u8]>
    ensures { option_map (λ bytes. bytes.now) result
        ≡ map.get (files_of (entries_of entries.entry.now)) name.now }
{
    for entry in entries {
        if name == entry.name.as_str() {
            return Some(entry.bytes.as_slice());
        }
    }
    None
}

// Whether a call passes, where so many still do before one fails. After that one all do.
fn passes(passing: &mut u64) -> bool
    ensures result { result ≡ nat_lt 0 passing.old }
    ensures less { 0 < passing.old → passing.new ≡ passing.old - 1 }
    ensures once { passing.old ≡ 0 → passing.new ≡ most_counted }
{
    if *passing == 0 {
        *passing = u64::MAX;
        return false;
    }
    *passing -= 1;
    true
}

fn add(entries: &mut Vec<Entry>, alloc: Global, name: &str, bytes: &[u8]) -> Result<(), AllocError>
    ensures added { OnOk result
        (entries_of entries.new.items ≡ (name.now, bytes.now) ∷ entries_of entries.old.items) }
    ensures kept { OnErr result (entries.new.items ≡ entries.old.items) }
{
    let entry = make_entry(alloc, name, bytes)?;
    entries.insert(0, entry)?;
    Ok(())
}

// Puts an entry where the call passes and has memory.
fn put(
    passing: &mut u64,
    entries: &mut Vec<Entry>,
    alloc: Global,
    name: &str,
    bytes: &[u8],
) -> Result<(), WriteError>
    ensures added { OnOk result
        (entries_of entries.new.items ≡ (name.now, bytes.now) ∷ entries_of entries.old.items) }
    ensures kept { OnErr result (entries.new.items ≡ entries.old.items) }
{
    if !passes(passing) {
        return Err(WriteError);
    }
    match add(entries, alloc, name, bytes) {
        Ok(()) => Ok(()),
        Err(_) => Err(WriteError),
    }
}

// Appends bytes where the call passes and has memory.
fn append(passing: &mut u64, out: &mut Vec<u8>, bytes: &[u8]) -> Result<(), WriteError>
    ensures appended { OnOk result (out.new.items ≡ out.old.items ++ bytes.now) }
    ensures kept { OnErr result (out.new.items ≡ out.old.items) }
{
    if !passes(passing) {
        return Err(WriteError);
    }
    match out.extend_from_slice(bytes) {
        Ok(()) => Ok(()),
        Err(_) => Err(WriteError),
    }
}

impl Host for MemoryHost {
    ghost contents = { λ s. Some (contents_of s) };

    ghost failed = { failed_in };

    ghost faults = { λ s. s.faults };

    ghost called = { called_in };

    fn read(&mut self, name: &str) -> Result<Vec<u8>, ReadError> {
        if !passes(&mut self.passing) {
            count(&mut self.faults);
            return Err(ReadError::File);
        }
        match found(self.entries.as_slice(), name) {
            Some(bytes) => match Vec::from_slice(self.alloc, bytes) {
                Ok(bytes) => Ok(bytes),
                Err(_) => Err(ReadError::Memory),
            },
            None => {
                count(&mut self.missing);
                Err(ReadError::NoFile)
            }
        }
    }

    fn write(&mut self, name: &str, bytes: &[u8]) -> Result<(), WriteError> {
        match put(
            &mut self.passing,
            &mut self.entries,
            self.alloc,
            name,
            bytes,
        ) {
            Ok(()) => Ok(()),
            Err(error) => {
                count(&mut self.faults);
                Err(error)
            }
        }
    }

    fn print(&mut self, bytes: &[u8]) -> Result<(), WriteError> {
        match append(&mut self.passing, &mut self.printed, bytes) {
            Ok(()) => Ok(()),
            Err(error) => {
                count(&mut self.faults);
                Err(error)
            }
        }
    }

    fn complain(&mut self, bytes: &[u8]) -> Result<(), WriteError> {
        match append(&mut self.passing, &mut self.complained, bytes) {
            Ok(()) => Ok(()),
            Err(error) => {
                count(&mut self.faults);
                Err(error)
            }
        }
    }

    fn failures(&self) -> u64 {
        self.faults.saturating_add(self.missing)
    }

    ghost counts_failures = { λ old call new is. is.0 };

    ghost counts_no_fault = { λ old call new is. is.1 };
}
