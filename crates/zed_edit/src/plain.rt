//! The document of one author.

ghost use Rattle.std.specs.Prelude.{◌≡◌};
ghost use Rattle.zed_edit.specs.Document.{empty_document};

use crate::header::empty_header;
use std::alloc::Global;
use zed_types::{BoardId, Bytes, Seq, Stamp, StatFields, StatId, TILES, TextByte, TextId, Tile};

/// The header registers.
#[derive(Drop)]
pub struct Header {
    /// By `HeaderNumber::index`.
    pub numbers: [i16; 9],
    /// By `KeyColour::index`.
    pub keys: [bool; 7],
    pub saved: bool,
    pub current_board: BoardId,
    pub world_name: Bytes,
    /// By `FlagSlot::index`.
    pub flags: [Bytes; 10],
}

/// The registers of a board, its cells aside.
#[derive(Drop)]
pub struct Properties {
    /// By `BoardByte::index`.
    pub bytes: [u8; 3],
    /// By `BoardFlag::index`.
    pub flags: [bool; 2],
    pub time_limit: i16,
    /// The board's place among the others: lower ranks come first. The title is first, whatever its
    /// rank.
    pub rank: u16,
    /// By `Side::index`.
    pub exits: [Option<BoardId>; 4],
    /// By `BoardText::index`.
    pub texts: [Bytes; 2],
}

/// A stat: its registers, whether it is the player of its board, and whether it is marked removed.
#[derive(Clone, Copy)]
pub struct Stat {
    pub id: StatId,
    pub is_player: bool,
    pub fields: StatFields,
    pub position: i16,
    pub follower: Option<StatId>,
    pub leader: Option<StatId>,
    pub removed: bool,
}

/// A board: its tiles row after row, its properties, its stats in the order in which they were made, and whether it is marked removed.
/// Its player is made with it, and so is the first of its stats.
#[derive(Drop)]
pub struct Board {
    pub id: BoardId,
    pub tiles: [Tile; TILES],
    pub properties: Properties,
    pub stats: Seq<Stat>,
    pub removed: bool,
}

/// A text: its bytes in order, dead ones included.
#[derive(Drop)]
pub struct Text {
    pub id: TextId,
    pub elements: Seq<TextByte>,
}

/// The document of one author. Boards, the stats of each board, and texts are in the order in which
/// they were made, removed ones too: that is the order of their names. Held edits are listed by
/// their stamps.
#[derive(Drop)]
pub struct Plain {
    pub header: Header,
    pub boards: Seq<Board>,
    pub texts: Seq<Text>,
    pub held: Seq<Stamp>,
}

impl Plain {
    /// The document of an author who made no edit. It takes no memory.
    pub fn empty(alloc: Global) -> Plain
        ensures { result ≡ empty_document }
    {
        Plain {
            header: empty_header(alloc),
            boards: Seq::new(alloc),
            texts: Seq::new(alloc),
            held: Seq::new(alloc),
        }
    }

    /// The stamps of the edits that are held. After a replay in rising stamp order they rise.
    pub fn held(&self) -> &[Stamp]
        ensures { result.now ≡ self.now.held }
    {
        self.held.as_slice()
    }
}
