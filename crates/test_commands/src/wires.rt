//! Links over memory, which leave what they came to where rows see it.
ghost use Rattle.std.specs.Prelude.{None, true};

use crate::traces::{Counts, Trace};
use std::alloc::{AllocError, Global};
use std::cell::Cell;
use zed_link::{Link, LinkFailed, MemoryLink, Writes};

/// A link over memory that leaves what it took when it is let go, and then tells whether it was read.
pub struct Wire {
    link: MemoryLink,
    alloc: Global,
    trace: Trace,
}

/// Counts what a link did that comes to its end.
fn count_link(counts: &Cell<Counts>, link: &MemoryLink) {
    let mut now = counts.get();
    now.reads = now.reads.saturating_add(link.reads());
    now.taken = now.taken.saturating_add(link.taken().len() as u64);
    if link.reads() == 0 {
        now.unread = now.unread.saturating_add(1);
    }
    counts.set(now);
}

impl Drop for Wire {
    fn drop(self) {
        let Wire { link, alloc, trace } = self;
        trace
            .traces
            .left
            .set(Vec::from_slice(alloc, link.taken()).ok());
        count_link(&trace.traces.counts, &link);
        drop(trace)
    }
}

impl Link for Wire {
    ghost ends = { λ wire. ⟦<MemoryLink as Link>⟧.ends wire.link };

    ghost reads = { λ wire. ⟦<MemoryLink as Link>⟧.reads wire.link };

    ghost writes = { λ wire. ⟦<MemoryLink as Link>⟧.writes wire.link };

    ghost failed = { λ wire. ⟦<MemoryLink as Link>⟧.failed wire.link };

    ghost stalls = { λ wire. ⟦<MemoryLink as Link>⟧.stalls wire.link };

    ghost accepts = { λ wire. ⟦<MemoryLink as Link>⟧.accepts wire.link };

    fn read(&mut self, into: &mut [u8]) -> Result<usize, LinkFailed> {
        self.link.read(into)
    }

    fn write(&mut self, bytes: &[u8]) -> Result<usize, LinkFailed> {
        self.link.write(bytes)
    }

    fn failures(&self) -> u64 {
        self.link.failures()
    }
}

/// A link that hands over its bytes one by one, takes all that it is given, and takes no memory for that. It tells nothing of its ends.
#[derive(Drop)]
pub struct Sink {
    handed: Vec<u8>,
    at: usize,
    reads: u64,
    writes: Writes,
    trace: Trace,
}

/// Counts bytes that a link took.
fn count_taken(counts: &Cell<Counts>, bytes: usize) {
    let mut now = counts.get();
    now.taken = now.taken.saturating_add(bytes as u64);
    counts.set(now);
}

impl Link for Sink {
    ghost ends = { λ _. None };

    ghost reads = { λ sink. sink.reads };

    ghost writes = { λ sink. sink.writes };

    ghost failed = { λ _. 0 };

    ghost stalls = { λ _. 0 };

    ghost accepts = { λ _. true };

    fn read(&mut self, into: &mut [u8]) -> Result<usize, LinkFailed> {
        self.reads = self.reads.saturating_add(1);
        let Some(byte) = self.handed.get(self.at) else {
            return Ok(0);
        };
        if into.is_empty() {
            return Ok(0);
        }
        into[0] = *byte;
        self.at = self.at.saturating_add(1);
        Ok(1)
    }

    fn write(&mut self, bytes: &[u8]) -> Result<usize, LinkFailed> {
        self.writes.count(bytes);
        count_taken(&self.trace.traces.counts, bytes.len());
        Ok(bytes.len())
    }

    fn failures(&self) -> u64 {
        0
    }
}

/// A link that hands over these bytes, so many by a call, and of which so many calls pass before one fails.
pub fn wire_of(
    alloc: Global,
    handed: Vec<u8>,
    piece: usize,
    passing: Option<u64>,
    trace: Trace,
) -> Result<Box<Wire>, AllocError> {
    let link = MemoryLink::new(alloc, handed, piece, passing);
    Ok(Box::new(alloc, Wire { link, alloc, trace })?)
}

/// A link that hands over these bytes and takes all.
pub fn sink_of(alloc: Global, handed: Vec<u8>, trace: Trace) -> Result<Box<Sink>, AllocError> {
    let sink = Sink {
        handed,
        at: 0,
        reads: 0,
        writes: Writes::NONE,
        trace,
    };
    Ok(Box::new(alloc, sink)?)
}
