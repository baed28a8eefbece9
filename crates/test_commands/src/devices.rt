//! A screen and a source of keys over memory, which fail when rows want it, and leave what they came to where rows see that.
ghost use Rattle.std.specs.Prelude.{None, Some};

use crate::traces::{Counts, Trace};
use std::alloc::Global;
use std::cell::Cell;
use std::collections::VecDeque;
use zed_play::Key;
use zed_screen::Frame;
use zed_session::{DeviceFailed, Keys, Screen};

/// When a device fails.
#[derive(Clone, Copy)]
pub enum Fails {
    Always,
    /// At the call of this number, counted from 1; 0 is never.
    At(u64),
}

impl Fails {
    /// At the call of a number, or always where there is none.
    pub fn of(nth: Option<u64>) -> Fails {
        match nth {
            Some(nth) => Fails::At(nth),
            None => Fails::Always,
        }
    }

    fn now(self, call: u64) -> bool {
        match self {
            Fails::Always => true,
            Fails::At(nth) => nth == call,
        }
    }
}

/// A screen that keeps its last frame.
#[derive(Drop)]
pub struct MemoryScreen {
    last: Option<Frame>,
    failed: u64,
    fails: Fails,
    trace: Trace,
}

impl MemoryScreen {
    /// One that doesn't fail.
    pub fn new(trace: Trace) -> MemoryScreen {
        MemoryScreen {
            last: None,
            failed: 0,
            fails: Fails::At(0),
            trace,
        }
    }

    pub fn set_fails(&mut self, fails: Fails) {
        self.fails = fails;
    }
}

/// Counts a call of a screen.
fn count_show(counts: &Cell<Counts>) -> u64 {
    let mut now = counts.get();
    now.shows = now.shows.saturating_add(1);
    counts.set(now);
    now.shows
}

/// Counts a call of a source of keys.
fn count_key(counts: &Cell<Counts>) -> u64 {
    let mut now = counts.get();
    now.keys = now.keys.saturating_add(1);
    counts.set(now);
    now.keys
}

impl Screen for MemoryScreen {
    ghost shown = { λ s. Some s.last };

    ghost screen_failures = { λ s. s.failed };

    ghost screen_foretells = { λ _. None };

    fn show(&mut self, frame: &Frame) -> Result<(), DeviceFailed> {
        if self.fails.now(count_show(&self.trace.traces.counts)) {
            self.failed = self.failed.saturating_add(1);
            return Err(DeviceFailed);
        }
        self.last = Some(*frame);
        self.trace.traces.frame.set(Some(*frame));
        Ok(())
    }

    fn failures(&self) -> u64 {
        self.failed
    }
}

/// Keys from a list.
#[derive(Drop)]
pub struct MemoryKeys {
    left: VecDeque<Key>,
    failed: u64,
    fails: Fails,
    trace: Trace,
}

impl MemoryKeys {
    /// One that has no keys, and doesn't fail.
    pub fn new(alloc: Global, trace: Trace) -> MemoryKeys {
        MemoryKeys {
            left: VecDeque::new(alloc),
            failed: 0,
            fails: Fails::At(0),
            trace,
        }
    }

    pub fn set_fails(&mut self, fails: Fails) {
        self.fails = fails;
    }

    /// Puts a key behind the others.
    pub fn put(&mut self, key: Key) {
        let _ = self.left.push_back(key);
    }
}

impl Keys for MemoryKeys {
    ghost left = { λ k. Some k.left.items };

    ghost key_failures = { λ k. k.failed };

    ghost keys_foretell = { λ _. None };

    fn next(&mut self) -> Result<Option<Key>, DeviceFailed> {
        if self.fails.now(count_key(&self.trace.traces.counts)) {
            self.failed = self.failed.saturating_add(1);
            return Err(DeviceFailed);
        }
        Ok(self.left.pop_front())
    }

    fn failures(&self) -> u64 {
        self.failed
    }
}
