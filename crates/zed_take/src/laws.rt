//! Laws of taking. Each law is the contract of a function with an empty body.
ghost use Rattle.std.specs.Prelude.{ℕ, ◌<◌};
ghost use Rattle.zed_types.specs.declared.names.BoardId.{BoardId};
ghost use Rattle.zed_types.specs.declared.names.StatId.{StatId};
ghost use Rattle.zed_types.specs.declared.header.HeaderNumber.{HeaderNumber};
ghost use Rattle.zed_types.specs.declared.header.KeyColour.{KeyColour};
ghost use Rattle.zed_types.specs.declared.header.FlagSlot.{FlagSlot};
ghost use Rattle.zed_types.specs.declared.property.Side.{Side};
ghost use Rattle.zed_types.specs.declared.property.BoardByte.{BoardByte};
ghost use Rattle.zed_types.specs.declared.property.BoardFlag.{BoardFlag};
ghost use Rattle.zed_types.specs.declared.property.BoardText.{BoardText};
ghost use Rattle.zed_types.specs.declared.stat_field.StatByte.{StatByte};
ghost use Rattle.zed_types.specs.declared.stat_field.StatNumber.{StatNumber};
ghost use Rattle.zed_laws.specs.Fields.{header_number, key, saved, current_board, world_name, flag};
ghost use Rattle.zed_laws.specs.Fields.{board_byte, board_flag, time_limit, rank, exit, board_text, cell, board_removed};
ghost use Rattle.zed_laws.specs.Fields.{stat_byte, stat_number, third_parameter, follower, leader, stat_text, removed_or_player};
ghost use Rattle.zed_laws.specs.Winners.{of_header, of_board, of_stat};
ghost use Rattle.zed_take.specs.Laws.{NothingIsTakenUnchanged, TakingAgainTakesNothing};
ghost use Rattle.zed_take.specs.Others.{StaysUnwritten};

use zed_export::saved_is_read;
use zed_laws::{
    greatest_stamp_wins_boards, greatest_stamp_wins_stats, greatest_stamp_wins_the_header,
};
use zed_op::rising_lists_are_sets;

/// What was taken isn't taken again.
pub fn taking_again_takes_nothing()
    ensures { TakingAgainTakesNothing }
{}

/// If a world file was saved from a base and wasn't drawn in, nothing is taken.
pub fn nothing_is_taken_unchanged()
    ensures { NothingIsTakenUnchanged }
{
    saved_is_read();
    rising_lists_are_sets();
}

/// A register of the header keeps its value, unless a new edit writes it.
pub fn unwritten_header_stays()
    ensures numbers { (f : HeaderNumber) → StaysUnwritten (of_header (header_number f)) }
    ensures keys { (k : KeyColour) → StaysUnwritten (of_header (key k)) }
    ensures saved { StaysUnwritten (of_header saved) }
    ensures current_board { StaysUnwritten (of_header current_board) }
    ensures world_name { StaysUnwritten (of_header world_name) }
    ensures flags { (k : FlagSlot) → StaysUnwritten (of_header (flag k)) }
{
    greatest_stamp_wins_the_header();
}

/// So does a register of a board.
pub fn unwritten_boards_stay()
    ensures bytes { (b : BoardId) (f : BoardByte) → StaysUnwritten (of_board b (board_byte f)) }
    ensures flags { (b : BoardId) (f : BoardFlag) → StaysUnwritten (of_board b (board_flag f)) }
    ensures time_limit { (b : BoardId) → StaysUnwritten (of_board b time_limit) }
    ensures rank { (b : BoardId) → StaysUnwritten (of_board b rank) }
    ensures exits { (b : BoardId) (f : Side) → StaysUnwritten (of_board b (exit f)) }
    ensures texts { (b : BoardId) (f : BoardText) → StaysUnwritten (of_board b (board_text f)) }
    ensures cells { (b : BoardId) (i : ℕ) → i < 1500 → StaysUnwritten (of_board b (cell i)) }
    ensures removed { (b : BoardId) → StaysUnwritten (of_board b board_removed) }
{
    greatest_stamp_wins_boards();
}

/// So does a register of a stat.
pub fn unwritten_stats_stay()
    ensures bytes { (x : StatId) (f : StatByte) → StaysUnwritten (of_stat x (stat_byte f)) }
    ensures numbers { (x : StatId) (f : StatNumber) → StaysUnwritten (of_stat x (stat_number f)) }
    ensures p3 { (x : StatId) → StaysUnwritten (of_stat x third_parameter) }
    ensures follower { (x : StatId) → StaysUnwritten (of_stat x follower) }
    ensures leader { (x : StatId) → StaysUnwritten (of_stat x leader) }
    ensures text { (x : StatId) → StaysUnwritten (of_stat x stat_text) }
    ensures removed { (x : StatId) → StaysUnwritten (of_stat x removed_or_player) }
{
    greatest_stamp_wins_stats();
}
