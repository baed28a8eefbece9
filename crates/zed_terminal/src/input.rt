//! What one does who plays at a terminal, as it comes from a source that is handed in.
ghost use Rattle.std.specs.Prelude.{◌≡◌, ℕ, Bool, List, Option, IfOk, OnErr, is_err};
ghost use Rattle.zed_host.specs.Counting.{Counts};
ghost use Rattle.zed_terminal.specs.Terminals.{Foretold, Takes};

use crate::moves::Move;
use zed_play::Key;

/// What a device answers that failed.
#[derive(Clone, Copy, PartialEq, Eq)]
pub struct DeviceFailed;

/// How large a terminal is.
#[derive(Clone, Copy, PartialEq, Eq)]
pub struct Size {
    pub rows: u16,
    /// 0 where that isn't told.
    pub columns: u16,
}

/// Which way a page of a scroll is turned.
#[derive(Clone, Copy, PartialEq, Eq)]
pub enum Page {
    Up,
    Down,
}

/// What one does who plays at a terminal.
#[derive(Clone, Copy, PartialEq, Eq)]
pub enum Input {
    /// Presses a key.
    Pressed(Key),
    /// Turns a page.
    Paged(Page),
    /// Presses Enter.
    Entered,
    /// Presses Escape.
    Escaped,
    /// Gives the terminal another size.
    Resized(Size),
    /// Has done this in a playtest that was kept, and does it again.
    Kept(Move),
}

/// A source of what is done, one thing after the other.
pub trait Inputs: Drop {
    ghost use Rattle.zed_terminal.specs.declared.input.Input.{Input};

    /// What is left; or that this isn't told.
    ghost left: { Self → Option (List Input) };

    /// How many calls of `next` failed.
    ghost input_failures: { Self → ℕ };

    /// Which of the calls of `next` to come fail, one after the other, and none behind these; or
    /// that this isn't told.
    ghost inputs_foretell: { Self → Option (List Bool) };

    /// What comes next, or None where no more comes. Where that fails, nothing is taken.
    fn next(&mut self) -> Result<Option<Input>, DeviceFailed>
        ensures ok { IfOk result (λ input. Takes input (left self.old) (left self.new)) }
        ensures err { OnErr result (left self.new ≡ left self.old) }
        ensures failures { Counts (is_err result)
            (input_failures self.old) (input_failures self.new) }
        ensures foretold { Foretold (is_err result)
            (inputs_foretell self.old) (inputs_foretell self.new) };

    /// How many calls of `next` failed, up to the greatest `u64`.
    fn failures(&self) -> u64
        ensures { result ≡ input_failures self.now };
}
