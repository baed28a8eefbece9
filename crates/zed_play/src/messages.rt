//! The message lines that a playtest keeps.
ghost use Rattle.std.specs.Prelude.{◌≡◌, ◌≤◌, ◌<◌, [], ◌∷◌, ◌++◌, IfOk, OnOk, OnErr, length, slice_get, option_copied};
ghost use Rattle.zed_play.specs.Game.{kept};

use circular_buffer::HeapCircularBuffer;
use std::alloc::{AllocError, Global};
use std::marker::Model;
use zed_types::Bytes;

/// How many message lines are kept.
pub const MESSAGES: usize = 64;

/// The last 64 message lines, oldest first.
#[derive(Drop)]
pub struct Messages {
    lines: HeapCircularBuffer<Bytes>,
}

impl Model for Messages {
    ghost use Rattle.std.specs.Prelude.{ℕ, List, ◌≡◌};

    ghost Value = { List (List ℕ) };

    ghost view = { λ m. m.lines.items };

    ghost invariant = { λ m. m.lines.capacity ≡ 64 };
}

impl Messages {
    /// No lines, with room for as many as are kept.
    pub(crate) fn new(alloc: Global) -> Result<Messages, AllocError>
        ensures result { IfOk result (λ m. m ≡ []) }
    {
        let lines = HeapCircularBuffer::with_capacity(alloc, MESSAGES)?;
        Ok(Messages { lines })
    }

    /// How many lines are kept, at most 64.
    pub fn len(&self) -> usize
        ensures result { result ≡ length self.now }
        ensures within { length self.now ≤ 64 }
    {
        self.lines.len()
    }

    /// The line of this number, counted from the oldest.
    pub fn get(&self, index: usize) -> Option<&Bytes>
        ensures result { option_copied result ≡ slice_get self.now index }
    {
        self.lines.get(index)
    }

    /// One line more, for which the oldest goes where there is no room.
    fn push(&mut self, line: Bytes)
        ensures result { self.new ≡ kept (self.old ++ line ∷ []) }
    {
        let _gone = self.lines.push_back(line);
    }

    /// Appends copies of these lines to those that are kept, as far as there is room. Memory comes
    /// only if there is a line.
    pub(crate) fn push_all(&mut self, lines: &[Bytes]) -> Result<(), AllocError>
        ensures result { OnOk result (self.new ≡ kept (self.old ++ lines.now)) }
        ensures memory_only_when { OnErr result (0 < length lines.now) }
    {
        for line in lines {
            self.push(line.copy()?);
        }
        // For the proof, which learns here that no more than 64 are kept.
        let _at_most_as_many = self.len();
        Ok(())
    }

    /// The same lines.
    pub(crate) fn copy(&self, alloc: Global) -> Result<Messages, AllocError>
        ensures result { IfOk result (λ m. m ≡ self.now) }
    {
        // For the proof, as above.
        let _at_most_as_many = self.len();
        let (older, newer) = self.lines.as_slices();
        let mut out = Messages::new(alloc)?;
        out.push_all(older)?;
        out.push_all(newer)?;
        Ok(out)
    }
}
