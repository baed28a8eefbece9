//! What a header and properties show, register by register.

ghost use Rattle.std.specs.Prelude.{◌≡◌, ◌<◌, pos, false, [], None as Nothing, slice_index_or};
ghost use Rattle.zed_types.specs.Board.{board_byte_index, board_flag_index, side_index, board_text_index};
ghost use Rattle.zed_types.specs.Register.{value_or};
ghost use Rattle.zed_laws.specs.Fields.{header_number, key as key_of, flag as flag_of};
ghost use Rattle.zed_live.specs.Shown.{values_or, shown, shown_properties};

use crate::header::LiveHeader;
use crate::properties::LiveProperties;
use zed_types::{
    BoardByte, BoardFlag, BoardId, BoardText, Bytes, FlagSlot, HeaderNumber, KeyColour, Side,
    Written, string_or_empty, value_or,
};

#[tactic(auto, using(crate::proofs::Places::read_at))]
fn number_at(slots: &[Option<Written<i16>>; 9], i: u8) -> i16
    requires { i < 9 }
    ensures { result ≡ slice_index_or (values_or (pos 0) slots.now) i (pos 0) }
{
    value_or(&slots[usize::from(i)], 0)
}

#[tactic(auto, using(crate::proofs::Places::read_at))]
fn key_at(slots: &[Option<Written<bool>>; 7], i: u8) -> bool
    requires { i < 7 }
    ensures { result ≡ slice_index_or (values_or false slots.now) i false }
{
    value_or(&slots[usize::from(i)], false)
}

#[tactic(auto, using(crate::proofs::Places::read_at))]
fn flag_at(slots: &[Option<Written<Bytes>>; 10], i: u8) -> &[u8]
    requires { i < 10 }
    ensures { result.now ≡ slice_index_or (values_or [] slots.now) i [] }
{
    string_or_empty(&slots[usize::from(i)])
}

impl LiveHeader {
    /// A number of the header.
    pub fn number(&self, field: HeaderNumber) -> i16
        ensures { result ≡ (header_number field).value (shown self.now) }
    {
        number_at(&self.numbers, field.index())
    }

    /// Whether the player has a key.
    pub fn key(&self, colour: KeyColour) -> bool
        ensures { result ≡ (key_of colour).value (shown self.now) }
    {
        key_at(&self.keys, colour.index())
    }

    /// Whether the world is a saved game.
    pub fn saved(&self) -> bool
        ensures { result ≡ (shown self.now).saved }
    {
        value_or(&self.saved, false)
    }

    /// The board that the player is on.
    pub fn current_board(&self) -> BoardId
        ensures { result ≡ (shown self.now).current_board }
    {
        value_or(&self.current_board, BoardId::TITLE)
    }

    /// The name of the world.
    pub fn world_name(&self) -> &[u8]
        ensures { result.now ≡ (shown self.now).world_name }
    {
        string_or_empty(&self.world_name)
    }

    /// A flag of the header.
    pub fn flag(&self, slot: FlagSlot) -> &[u8]
        ensures { result.now ≡ (flag_of slot).value (shown self.now) }
    {
        flag_at(&self.flags, slot.index())
    }
}

#[tactic(auto, using(crate::proofs::Places::read_at))]
fn byte_at(slots: &[Option<Written<u8>>; 3], i: u8) -> u8
    requires { i < 3 }
    ensures { result ≡ slice_index_or (values_or 0 slots.now) i 0 }
{
    value_or(&slots[usize::from(i)], 0)
}

#[tactic(auto, using(crate::proofs::Places::read_at))]
fn mark_at(slots: &[Option<Written<bool>>; 2], i: u8) -> bool
    requires { i < 2 }
    ensures { result ≡ slice_index_or (values_or false slots.now) i false }
{
    value_or(&slots[usize::from(i)], false)
}

#[tactic(auto, using(crate::proofs::Places::read_at))]
fn exit_at(slots: &[Option<Written<Option<BoardId>>>; 4], i: u8) -> Option<BoardId>
    requires { i < 4 }
    ensures { result ≡ slice_index_or (values_or Nothing slots.now) i Nothing }
{
    value_or(&slots[usize::from(i)], None)
}

#[tactic(auto, using(crate::proofs::Places::read_at))]
fn text_at(slots: &[Option<Written<Bytes>>; 2], i: u8) -> &[u8]
    requires { i < 2 }
    ensures { result.now ≡ slice_index_or (values_or [] slots.now) i [] }
{
    string_or_empty(&slots[usize::from(i)])
}

impl LiveProperties {
    /// A byte of the board.
    pub fn byte(&self, field: BoardByte) -> u8
        ensures { result ≡ slice_index_or (shown_properties self.now).bytes (board_byte_index field) 0 }
    {
        byte_at(&self.bytes, field.index())
    }

    /// Whether the board is dark, and whether a player who is hurt enters it again.
    pub fn flag(&self, field: BoardFlag) -> bool
        ensures { result
            ≡ slice_index_or (shown_properties self.now).flags (board_flag_index field) false }
    {
        mark_at(&self.flags, field.index())
    }

    /// The time limit of the board.
    pub fn time_limit(&self) -> i16
        ensures { result ≡ (shown_properties self.now).time_limit }
    {
        value_or(&self.time_limit, 0)
    }

    /// The rank of the board.
    pub fn rank(&self) -> u16
        ensures { result ≡ (shown_properties self.now).rank }
    {
        value_or(&self.rank, 0)
    }

    /// Where a side of the board leads.
    pub fn exit(&self, side: Side) -> Option<BoardId>
        ensures { result
            ≡ slice_index_or (shown_properties self.now).exits (side_index side) Nothing }
    {
        exit_at(&self.exits, side.index())
    }

    /// The name of the board, and its message.
    pub fn text(&self, field: BoardText) -> &[u8]
        ensures { result.now
            ≡ slice_index_or (shown_properties self.now).texts (board_text_index field) [] }
    {
        text_at(&self.texts, field.index())
    }
}
