//! Types that all crates share: stamps, names, tiles, registers and their settings, texts, limits.
//! Only copies of strings and settings, and lists that grow, take memory.
#![tactic(auto)]

mod bytes;
mod elements;
mod header;
mod kind;
mod limits;
mod names;
mod property;
mod seq;
mod stamp;
mod stat_field;
mod text;
mod tile;
mod written;

pub use bytes::Bytes;
pub use elements::{PASSAGE, PLAYER, element};
pub use header::{FlagSlot, HeaderNumber, HeaderSetting, KeyColour};
pub use kind::{Element, Look, Push};
pub use limits::{
    BOARDS_LIMIT, BODY_LIMIT, MESSAGE_LIMIT, NAME_LIMIT, READ_BODY_LIMIT, STATS_LIMIT, WORD_LIMIT,
    numbers_of_formats,
};
pub use names::{BoardId, ElemId, Name, StatId, TextId};
pub use property::{BoardByte, BoardFlag, BoardSetting, BoardText, Side};
pub use seq::Seq;
pub use stamp::{Stamp, one_order};
pub use stat_field::{StatByte, StatFields, StatNumber, StatSetting, ThirdParameter};
pub use text::{ByteRange, TextByte};
pub use tile::{COLUMNS, Place, ROWS, Rectangle, TILES, Tile, has_tile, tile_at};
pub use written::{Written, string_or_empty, value_or};
