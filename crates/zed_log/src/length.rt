//! Short lines, and lines in full.

/// How much of the line of a Genesis is written. Other edits have the same line either way.
#[derive(Clone, Copy, PartialEq, Eq)]
pub enum Length {
    /// Two dots replace the bytes of its world.
    Short,
    /// All of it, so that different edits have different lines.
    Full,
}
