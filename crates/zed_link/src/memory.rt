//! A link over memory, for tests.
ghost use Rattle.std.specs.Prelude.{◌≡◌, ◌⊎◌, false, is_none, ◌≢◌, ◌-◌, ◌<◌, ◌≤◌, max, nat_lt, [], ◌++◌, drop, length, take, Some, IfSome, OnErr, OnOk};
ghost use Rattle.zed_host.specs.Counting.{Rose, most_counted};
ghost use Rattle.zed_link.specs.Counting.{Counted};

use crate::link::{Link, LinkFailed};
use crate::writes::Writes;
use std::alloc::Global;

/// A link over memory. A call hands over or takes at most so many bytes, and the device can be made
/// to fail at one of its calls.
#[derive(Drop)]
pub struct MemoryLink {
    handed: Vec<u8>,
    // how many of these were read
    at: usize,
    taken: Vec<u8>,
    piece: usize,
    reads: u64,
    writes: Writes,
    failures: u64,
    // the writes of some bytes that took none
    stalls: u64,
    // the calls that pass before one fails, or that none fails by itself
    passing: Option<u64>,
}

impl MemoryLink {
    /// A link that hands over these bytes. A read hands over at most `piece` of them, or one if
    /// that is 0; a write takes at most `piece`. It fails at the one call after `passing` of them,
    /// and again after 2^64 - 1 more calls, and so on; or none of its reads ever fails.
    pub fn new(alloc: Global, handed: Vec<u8>, piece: usize, passing: Option<u64>) -> MemoryLink
        ensures ends { ⟦<MemoryLink as Link>⟧.ends result
            ≡ Some (record {
              left = handed.items;
              taken = [];
              promise = record { unfailing = is_none passing; pace = max piece 1 };
            }) }
        ensures reads { ⟦<MemoryLink as Link>⟧.reads result ≡ 0 }
        ensures writes { ⟦<MemoryLink as Link>⟧.writes result
            ≡ record { made = 0; empty = 0 } }
        ensures failures { ⟦<MemoryLink as Link>⟧.failed result ≡ 0 }
        ensures stalls { ⟦<MemoryLink as Link>⟧.stalls result ≡ 0 }
    {
        MemoryLink {
            handed,
            at: 0,
            taken: Vec::new(alloc),
            piece,
            reads: 0,
            writes: Writes::NONE,
            failures: 0,
            stalls: 0,
            passing,
        }
    }

    /// What it took.
    pub fn taken(&self) -> &[u8]
        ensures { IfSome (⟦<MemoryLink as Link>⟧.ends self.now) (λ t. result.now ≡ t.taken) }
    {
        self.taken.as_slice()
    }

    /// How many reads were made, up to the greatest `u64`.
    pub fn reads(&self) -> u64
        ensures { result ≡ ⟦<MemoryLink as Link>⟧.reads self.now }
    {
        self.reads
    }

    /// How many writes were made, each count up to the greatest `u64`.
    pub fn writes(&self) -> Writes
        ensures { result ≡ ⟦<MemoryLink as Link>⟧.writes self.now }
    {
        self.writes
    }
}

// Counts one more.
fn count(counter: &mut u64)
    ensures rises { Rose counter.old counter.new }
    ensures one { Counted 1 counter.old counter.new }
{
    *counter = counter.saturating_add(1);
}

// Whether a call passes, where so many still do before one fails. After that one the next 2^64 - 1 do.
fn passes(passing: &mut Option<u64>) -> bool
    ensures fails { result ≡ false → is_none passing.old ≡ false }
    ensures kind { is_none passing.new ≡ is_none passing.old }
{
    match passing {
        None => true,
        Some(0) => {
            *passing = Some(u64::MAX);
            false
        }
        Some(count) => {
            *count -= 1;
            true
        }
    }
}

// What is left of bytes of which so many were read.
fn left_from(bytes: &[u8], at: usize) -> &[u8]
    ensures { result.now ≡ drop at bytes.now }
{
    if at < bytes.len() {
        let (_, left) = bytes.split_at(at);
        left
    } else {
        &[]
    }
}

// Puts the front of `left` to the front of `into`: at most `piece` bytes, and at least one where there is one and room for it.
fn hand_over(left: &[u8], piece: usize, into: &mut [u8]) -> usize
    ensures within { result ≤ length into.old }
    ensures left { result ≤ length left.now }
    ensures front { take result into.new ≡ take result left.now }
    ensures end { result ≡ 0 → into.old ≢ [] → left.now ≡ [] }
    ensures pace { (max piece 1 ≤ result) ⊎ (result ≡ length into.old) ⊎ (result ≡ length left.now) }
{
    let count = piece.max(1).min(into.len()).min(left.len());
    let (front, _) = left.split_at(count);
    into[..count].copy_from_slice(front);
    count
}

impl Link for MemoryLink {
    ghost ends = { λ link. Some (record {
      left = drop link.at link.handed.items;
      taken = link.taken.items;
      promise = record { unfailing = is_none link.passing; pace = max link.piece 1 };
    }) };

    ghost reads = { λ link. link.reads };

    ghost writes = { λ link. link.writes };

    ghost failed = { λ link. link.failures };

    ghost stalls = { λ link. link.stalls };

    // What it takes wants memory.
    ghost accepts = { λ _. false };

    fn read(&mut self, into: &mut [u8]) -> Result<usize, LinkFailed> {
        count(&mut self.reads);
        if !passes(&mut self.passing) {
            count(&mut self.failures);
            return Err(LinkFailed);
        }
        let left = left_from(self.handed.as_slice(), self.at);
        let count = hand_over(left, self.piece, into);
        self.at += count;
        Ok(count)
    }

    fn write(&mut self, bytes: &[u8]) -> Result<usize, LinkFailed> {
        self.writes.count(bytes);
        if !passes(&mut self.passing) {
            count(&mut self.failures);
            return Err(LinkFailed);
        }
        let (front, _) = bytes.split_at(self.piece.min(bytes.len()));
        if self.taken.extend_from_slice(front).is_err() {
            count(&mut self.failures);
            return Err(LinkFailed);
        }
        if front.is_empty() && !bytes.is_empty() {
            count(&mut self.stalls);
        }
        Ok(front.len())
    }

    fn failures(&self) -> u64 {
        self.failures
    }
}
