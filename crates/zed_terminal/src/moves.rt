//! What is kept of a playtest: what the one who played did in it.

use zed_play::Key;

/// A line of a scroll of the last step, both counted from 0.
#[derive(Clone, Copy, PartialEq, Eq)]
pub struct Choice {
    pub scroll: usize,
    pub line: usize,
}

/// What leads a playtest on.
#[derive(Clone, Copy, PartialEq, Eq)]
pub enum Move {
    /// A key, by which a step is made.
    Key(Key),
    /// A line of a scroll is chosen.
    Choice(Choice),
}
