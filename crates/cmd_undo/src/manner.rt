//! How edits are undone, and which.
use zed_undo::Choice;

/// Whether edits are undone, or only told.
#[derive(Clone, Copy, PartialEq, Eq)]
pub enum Trial {
    Real,
    Dry,
}

/// Whether edits of other authors that need what is undone are undone with it.
#[derive(Clone, Copy, PartialEq, Eq)]
pub enum Others {
    /// Nothing is undone where there is one.
    Spared,
    Included,
}

/// How edits are undone.
#[derive(Clone, Copy)]
pub struct Manner {
    pub trial: Trial,
    pub others: Others,
}

/// What is undone.
#[derive(Clone, Copy)]
pub enum Source<'a> {
    /// What a choice chooses.
    Chosen(Choice<'a>),
    /// The edits that the file `new` has, and the file `old` doesn't have.
    Pulled { new: &'a str, old: &'a str },
}
