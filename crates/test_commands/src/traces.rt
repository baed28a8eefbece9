//! What devices and links leave where the rows of a script see it.
use std::alloc::{AllocError, Global};
use std::cell::Cell;
use std::rc::Rc;
use test_rows::Told;
use zed_screen::Frame;

/// How many calls devices got, and what came to its end.
#[derive(Clone, Copy)]
pub struct Counts {
    /// Calls of screens.
    pub shows: u64,
    /// Calls of sources of keys.
    pub keys: u64,
    /// Screens and sources of keys that came to their end.
    pub devices: u64,
    /// Links that did.
    pub links: u64,
    /// Those among them that were never read.
    pub unread: u64,
    /// Reads of links that came to their end.
    pub reads: u64,
    /// Bytes that links took: those over memory tell it at their end, sinks at once.
    pub taken: u64,
}

const NONE: Counts = Counts {
    shows: 0,
    keys: 0,
    devices: 0,
    links: 0,
    unread: 0,
    reads: 0,
    taken: 0,
};

/// What devices and links leave.
#[derive(Drop)]
pub struct Traces {
    /// The frame that was shown last.
    pub frame: Cell<Option<Frame>>,
    /// What the link took that came to its end last.
    pub left: Cell<Option<Vec<u8>>>,
    pub counts: Cell<Counts>,
}

/// What comes to its end.
#[derive(Clone, Copy)]
pub enum Ended {
    Device,
    Link,
}

/// Where one device or link leaves something. It counts the end of that.
pub struct Trace {
    pub traces: Rc<Traces>,
    ended: Ended,
}

impl Drop for Trace {
    fn drop(self) {
        let Trace { traces, ended } = self;
        let mut now = traces.counts.get();
        match ended {
            Ended::Device => now.devices = now.devices.saturating_add(1),
            Ended::Link => now.links = now.links.saturating_add(1),
        }
        traces.counts.set(now);
        drop(traces)
    }
}

impl Trace {
    pub fn of(traces: &Rc<Traces>, ended: Ended) -> Result<Trace, AllocError> {
        Ok(Trace {
            traces: Rc::clone(traces)?,
            ended,
        })
    }
}

impl Traces {
    pub fn new(alloc: Global) -> Result<Rc<Traces>, AllocError> {
        let traces = Traces {
            frame: Cell::new(None),
            left: Cell::new(None),
            counts: Cell::new(NONE),
        };
        Ok(Rc::new(alloc, traces)?)
    }

    /// How many links came to their end.
    pub fn ended_links(&self) -> u64 {
        self.counts.get().links
    }

    /// Tells all counts.
    pub fn tell_counts(&self, told: &mut Told) {
        let now = self.counts.get();
        told.number(now.shows);
        told.number(now.keys);
        told.number(now.devices);
        told.number(now.links);
        told.number(now.unread);
        told.number(now.reads);
        told.number(now.taken);
        told.end()
    }

    /// Tells what a link left, once.
    pub fn tell_left(&self, told: &mut Told) {
        match self.left.take() {
            Some(left) => {
                told.bytes(left.as_slice());
                told.end()
            }
            None => told.last("none"),
        }
    }

    /// Tells the characters of the frame that was shown last, row by row.
    pub fn tell_frame(&self, told: &mut Told) {
        match self.frame.get() {
            Some(frame) => tell_characters(&frame, told),
            None => told.last("none"),
        }
    }
}

fn tell_characters(frame: &Frame, told: &mut Told) {
    for cell in &frame.cells {
        told.byte(cell.character);
    }
    told.end()
}
