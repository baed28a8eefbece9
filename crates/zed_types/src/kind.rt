//! What an element is like.

/// Which way an element may be pushed.
#[derive(Clone, Copy, PartialEq, Eq)]
pub enum Push {
    Not,
    Any,
    NorthSouth,
    EastWest,
}

/// What is shown for an element: this project's own characters, not ZZT's graphics.
#[derive(Clone, Copy, PartialEq, Eq)]
pub enum Look {
    Character(u8),
    /// The first parameter of the lowest stat there.
    FirstParameter,
    /// The colour byte of the tile: a letter of a text.
    Colour,
}

/// A kind of tile.
#[derive(Clone, Copy)]
pub struct Element {
    /// Its word in ZZT-OOP; empty if it has none.
    pub word: &'static str,
    pub character: Look,
    /// Whether the player and creatures may go there.
    pub walkable: bool,
    pub push: Push,
    pub destructible: bool,
}
