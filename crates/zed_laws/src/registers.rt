//! The value of a register, in whatever order its writes came.
ghost use Rattle.std.specs.Prelude.{ℕ, ◌<◌};
ghost use Rattle.zed_types.specs.declared.tile.TheConstants.{TILES};
ghost use Rattle.zed_types.specs.declared.names.BoardId.{BoardId};
ghost use Rattle.zed_types.specs.declared.names.StatId.{StatId};
ghost use Rattle.zed_types.specs.declared.header.HeaderNumber.{HeaderNumber};
ghost use Rattle.zed_types.specs.declared.header.KeyColour.{KeyColour};
ghost use Rattle.zed_types.specs.declared.header.FlagSlot.{FlagSlot};
ghost use Rattle.zed_types.specs.declared.property.Side.{Side};
ghost use Rattle.zed_types.specs.declared.property.BoardByte.{BoardByte};
ghost use Rattle.zed_types.specs.declared.property.BoardFlag.{BoardFlag};
ghost use Rattle.zed_types.specs.declared.property.BoardText.{BoardText};
ghost use Rattle.zed_types.specs.declared.stat_field.StatByte.{StatByte};
ghost use Rattle.zed_types.specs.declared.stat_field.StatNumber.{StatNumber};
ghost use Rattle.zed_laws.specs.Fields.{header_number, key, saved, current_board, world_name, flag};
ghost use Rattle.zed_laws.specs.Fields.{board_byte, board_flag, time_limit, rank, exit, board_text, cell, board_removed};
ghost use Rattle.zed_laws.specs.Fields.{stat_byte, stat_number, third_parameter, follower, leader, stat_text, is_player, removed_or_player};
ghost use Rattle.zed_laws.specs.Homes.{home};
ghost use Rattle.zed_laws.specs.Winners.{GreatestStampWins, of_header, of_board, of_stat};
ghost use Rattle.zed_laws.specs.Whole.{ReplayIsWhole};

use zed_world::read_is_normal;

/// Every table of registers has all its places, if the values of the edits have their sizes, and no player is removed.
pub fn replay_is_whole()
    ensures { ReplayIsWhole }
{
    read_is_normal();
}

/// The greatest stamp wins each register of the header.
pub fn greatest_stamp_wins_the_header()
    ensures numbers { (f : HeaderNumber) → GreatestStampWins (of_header (header_number f)) }
    ensures keys { (k : KeyColour) → GreatestStampWins (of_header (key k)) }
    ensures saved { GreatestStampWins (of_header saved) }
    ensures current_board { GreatestStampWins (of_header current_board) }
    ensures world_name { GreatestStampWins (of_header world_name) }
    ensures flags { (k : FlagSlot) → GreatestStampWins (of_header (flag k)) }
{
    read_is_normal();
}

/// The greatest stamp wins each register of a board. Its making counts as a write of all of them.
pub fn greatest_stamp_wins_boards()
    ensures bytes { (b : BoardId) (f : BoardByte) → GreatestStampWins (of_board b (board_byte f)) }
    ensures flags { (b : BoardId) (f : BoardFlag) → GreatestStampWins (of_board b (board_flag f)) }
    ensures time_limit { (b : BoardId) → GreatestStampWins (of_board b time_limit) }
    ensures rank { (b : BoardId) → GreatestStampWins (of_board b rank) }
    ensures exits { (b : BoardId) (f : Side) → GreatestStampWins (of_board b (exit f)) }
    ensures texts { (b : BoardId) (f : BoardText) → GreatestStampWins (of_board b (board_text f)) }
    ensures cells { (b : BoardId) (i : ℕ) → i < TILES → GreatestStampWins (of_board b (cell i)) }
    ensures removed { (b : BoardId) → GreatestStampWins (of_board b board_removed) }
{
    read_is_normal();
}

/// The greatest stamp wins each register of a stat. Its making counts as a write of all of them.
pub fn greatest_stamp_wins_stats()
    ensures board { (x : StatId) → GreatestStampWins (home x) }
    ensures bytes { (x : StatId) (f : StatByte) → GreatestStampWins (of_stat x (stat_byte f)) }
    ensures numbers { (x : StatId) (f : StatNumber)
        → GreatestStampWins (of_stat x (stat_number f)) }
    ensures p3 { (x : StatId) → GreatestStampWins (of_stat x third_parameter) }
    ensures follower { (x : StatId) → GreatestStampWins (of_stat x follower) }
    ensures leader { (x : StatId) → GreatestStampWins (of_stat x leader) }
    ensures text { (x : StatId) → GreatestStampWins (of_stat x stat_text) }
    ensures player { (x : StatId) → GreatestStampWins (of_stat x is_player) }
    ensures removed { (x : StatId) → GreatestStampWins (of_stat x removed_or_player) }
{
    read_is_normal();
}
