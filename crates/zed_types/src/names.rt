//! The names of things: which edit made each, and which of the things of that edit it is.

ghost use Rattle.std.specs.Prelude.{◌≡◌};
ghost use Rattle.zed_types.specs.Names.{board_of, stat_of, text_of, byte_of};

use crate::stamp::Stamp;

/// The stamp of the edit that made a thing, and which of the things of its kind that the edit made it is, from 0 on.
#[derive(Clone, Copy, PartialEq, Eq, PartialOrd, Ord, Hash)]
pub struct Name {
    pub stamp: Stamp,
    pub index: u32,
}

/// The name of a board.
#[derive(Clone, Copy, PartialEq, Eq, PartialOrd, Ord, Hash)]
pub struct BoardId {
    pub name: Name,
}

impl BoardId {
    /// The title: the first board of the edit that makes the world.
    pub const TITLE: BoardId = BoardId {
        name: Name {
            stamp: Stamp {
                time: 1,
                replica: 0,
            },
            index: 0,
        },
    };

    /// Board `index` of the edit with this stamp.
    pub fn new(stamp: Stamp, index: u32) -> BoardId
        ensures { result ≡ board_of stamp index }
    {
        BoardId {
            name: Name { stamp, index },
        }
    }
}

/// The name of a stat.
#[derive(Clone, Copy, PartialEq, Eq, PartialOrd, Ord, Hash)]
pub struct StatId {
    pub name: Name,
}

impl StatId {
    /// Stat `index` of the edit with this stamp.
    pub fn new(stamp: Stamp, index: u32) -> StatId
        ensures { result ≡ stat_of stamp index }
    {
        StatId {
            name: Name { stamp, index },
        }
    }
}

/// The name of a text.
#[derive(Clone, Copy, PartialEq, Eq, PartialOrd, Ord, Hash)]
pub struct TextId {
    pub name: Name,
}

impl TextId {
    /// Text `index` of the edit with this stamp.
    pub fn new(stamp: Stamp, index: u32) -> TextId
        ensures { result ≡ text_of stamp index }
    {
        TextId {
            name: Name { stamp, index },
        }
    }
}

/// The name of a byte of a text: the edit is the one that put it there.
/// The bytes of a text that the Genesis made are numbered from 0 in each text, so such a name is read together with its text.
#[derive(Clone, Copy, PartialEq, Eq, PartialOrd, Ord)]
pub struct ElemId {
    pub name: Name,
}

impl ElemId {
    /// Byte `index` of the edit with this stamp.
    pub fn new(stamp: Stamp, index: u32) -> ElemId
        ensures { result ≡ byte_of stamp index }
    {
        ElemId {
            name: Name { stamp, index },
        }
    }
}
