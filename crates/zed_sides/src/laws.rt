//! Laws of two sets of edits. Each law is the contract of a function whose body only calls other
//! laws.
ghost use Rattle.std.specs.Prelude.{ℕ, ◌<◌};
ghost use Rattle.zed_types.specs.declared.names.BoardId.{BoardId};
ghost use Rattle.zed_types.specs.declared.names.StatId.{StatId};
ghost use Rattle.zed_types.specs.declared.header.HeaderNumber.{HeaderNumber};
ghost use Rattle.zed_types.specs.declared.header.KeyColour.{KeyColour};
ghost use Rattle.zed_types.specs.declared.header.FlagSlot.{FlagSlot};
ghost use Rattle.zed_types.specs.declared.property.Side.{Side};
ghost use Rattle.zed_types.specs.declared.property.BoardByte.{BoardByte};
ghost use Rattle.zed_types.specs.declared.property.BoardFlag.{BoardFlag};
ghost use Rattle.zed_types.specs.declared.property.BoardText.{BoardText};
ghost use Rattle.zed_types.specs.declared.stat_field.StatByte.{StatByte};
ghost use Rattle.zed_types.specs.declared.stat_field.StatNumber.{StatNumber};
ghost use Rattle.zed_laws.specs.Fields.{header_number, key, saved, current_board, world_name, flag};
ghost use Rattle.zed_laws.specs.Fields.{board_byte, board_flag, time_limit, rank, exit, board_text, cell, board_removed};
ghost use Rattle.zed_laws.specs.Fields.{stat_byte, stat_number, third_parameter, follower, leader, stat_text, removed_or_player};
ghost use Rattle.zed_laws.specs.Winners.{GreatestStampWins, Register, of_header, of_board, of_stat};
ghost use Rattle.zed_sides.specs.Laws.{CommonIsASet, LaterHides, OverriddenByBoth, UnionHasTheLater, UnionShowsASide};

use zed_laws::{
    greatest_stamp_wins_boards, greatest_stamp_wins_stats, greatest_stamp_wins_the_header,
};

/// In any register the union has the later one of the latest writes of both sides.
pub fn union_shows_the_later<V>()
    ensures { (r : Register V) → UnionHasTheLater r }
{}

/// Where the greatest stamp wins a register, the union shows in it what one of the sides shows, and
/// what a side set is overridden only if the other one set it too, since both parted.
pub fn sides_show_in_the_union<V>()
    ensures shown { (r : Register V) → GreatestStampWins r → UnionShowsASide r }
    ensures both { (r : Register V) → GreatestStampWins r → OverriddenByBoth r }
{}

/// So it is in each register of the header.
pub fn overridden_header()
    ensures numbers { (f : HeaderNumber) → OverriddenByBoth (of_header (header_number f)) }
    ensures keys { (k : KeyColour) → OverriddenByBoth (of_header (key k)) }
    ensures saved { OverriddenByBoth (of_header saved) }
    ensures current_board { OverriddenByBoth (of_header current_board) }
    ensures world_name { OverriddenByBoth (of_header world_name) }
    ensures flags { (k : FlagSlot) → OverriddenByBoth (of_header (flag k)) }
{
    greatest_stamp_wins_the_header();
}

/// And of a board.
pub fn overridden_boards()
    ensures bytes { (b : BoardId) (f : BoardByte) → OverriddenByBoth (of_board b (board_byte f)) }
    ensures flags { (b : BoardId) (f : BoardFlag) → OverriddenByBoth (of_board b (board_flag f)) }
    ensures time_limit { (b : BoardId) → OverriddenByBoth (of_board b time_limit) }
    ensures rank { (b : BoardId) → OverriddenByBoth (of_board b rank) }
    ensures exits { (b : BoardId) (f : Side) → OverriddenByBoth (of_board b (exit f)) }
    ensures texts { (b : BoardId) (f : BoardText) → OverriddenByBoth (of_board b (board_text f)) }
    ensures cells { (b : BoardId) (i : ℕ) → i < 1500 → OverriddenByBoth (of_board b (cell i)) }
    ensures removed { (b : BoardId) → OverriddenByBoth (of_board b board_removed) }
{
    greatest_stamp_wins_boards();
}

/// And of a stat.
pub fn overridden_stats()
    ensures bytes { (x : StatId) (f : StatByte) → OverriddenByBoth (of_stat x (stat_byte f)) }
    ensures numbers { (x : StatId) (f : StatNumber)
        → OverriddenByBoth (of_stat x (stat_number f)) }
    ensures p3 { (x : StatId) → OverriddenByBoth (of_stat x third_parameter) }
    ensures follower { (x : StatId) → OverriddenByBoth (of_stat x follower) }
    ensures leader { (x : StatId) → OverriddenByBoth (of_stat x leader) }
    ensures text { (x : StatId) → OverriddenByBoth (of_stat x stat_text) }
    ensures removed { (x : StatId) → OverriddenByBoth (of_stat x removed_or_player) }
{
    greatest_stamp_wins_stats();
}

/// An edit behind which a register is written again is hidden there: without it the latest write is
/// the same.
pub fn later_writes_hide<V>()
    ensures { (r : Register V) → LaterHides r }
{}

/// What a set has in common with another one is a set of edits that fit, as that set is.
pub fn common_edits_are_a_set()
    ensures { CommonIsASet }
{}
