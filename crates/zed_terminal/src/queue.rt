//! What was kept of a playtest, which comes before what is typed.
ghost use Rattle.std.specs.Prelude.{◌≡◌, [], IfOk, None, OnErr, drop, is_err};
ghost use Rattle.zed_host.specs.Counting.{Counts};
ghost use Rattle.zed_terminal.specs.Terminals.{Takes};
ghost use Rattle.zed_terminal.specs.Stage.{behind_kept};

use crate::{DeviceFailed, Input, Inputs, Move};
use std::alloc::Global;

/// Moves that were kept, and then what comes of a source.
#[derive(Drop)]
pub struct Queue<I> {
    pub kept: Vec<Move>,
    /// How many of them were taken.
    pub taken: usize,
    pub source: I,
}

impl<I> Queue<I> {
    /// None come before what the source has. It takes no memory.
    pub fn new(alloc: Global, source: I) -> Queue<I>
        ensures kept { result.kept.items ≡ [] }
        ensures taken { result.taken ≡ 0 }
        ensures source { result.source ≡ source }
    {
        Queue {
            kept: Vec::new(alloc),
            taken: 0,
            source,
        }
    }

    /// Those that are still to come before the source's.
    pub fn rest(&self) -> &[Move]
        ensures { result.now ≡ drop self.now.taken self.now.kept.items }
    {
        if self.taken <= self.kept.len() {
            self.kept.as_slice().split_at(self.taken).1
        } else {
            &[]
        }
    }

    /// These come next, in place of those that were to come before the source's.
    pub fn fill(&mut self, kept: Vec<Move>)
        ensures kept { self.new.kept ≡ kept }
        ensures taken { self.new.taken ≡ 0 }
        ensures source { self.new.source ≡ self.old.source }
    {
        self.kept = kept;
        self.taken = 0;
    }
}

impl<I: Inputs> Queue<I> {
    /// Takes the next move that was kept; or else asks the source.
    fn take(&mut self) -> Result<Option<Input>, DeviceFailed>
        ensures ok { IfOk result (λ input. Takes input
            (behind_kept (drop self.old.taken self.old.kept.items) (I.left self.old.source))
            (behind_kept (drop self.new.taken self.new.kept.items) (I.left self.new.source))) }
        ensures err { OnErr result ((I.left self.new.source ≡ I.left self.old.source)
            × (self.new.taken ≡ self.old.taken) × (self.new.kept ≡ self.old.kept)) }
        ensures failures { Counts (is_err result)
            (I.input_failures self.old.source) (I.input_failures self.new.source) }
    {
        if let Some(kept) = self.kept.get(self.taken) {
            self.taken += 1;
            return Ok(Some(Input::Kept(*kept)));
        }
        let typed = self.source.next()?;
        Ok(typed)
    }
}

impl<I: Inputs> Inputs for Queue<I> {
    ghost left = { λ q. behind_kept (drop q.taken q.kept.items) (I.left q.source) };

    ghost input_failures = { λ q. I.input_failures q.source };

    ghost inputs_foretell = { λ _. None };

    fn next(&mut self) -> Result<Option<Input>, DeviceFailed> {
        self.take()
    }

    fn failures(&self) -> u64 {
        self.source.failures()
    }
}
