//! The limits of a world file, and the law that the constants are the numbers of the formats.
ghost use Rattle.std.specs.Prelude.{◌≡◌};
ghost use Rattle.zed_types.specs.declared.property.TheConstants.BoardSetting.{RANK, TIME_LIMIT};
ghost use Rattle.zed_types.specs.declared.stamp.TheConstants.Stamp.{LAST_TIME};
ghost use Rattle.zed_types.specs.Limits.{
  last_time,
  largest_body,
  longest_message,
  longest_name,
  longest_word,
  most_boards,
  most_stats,
  passage_element,
  player_element,
  rank_property,
  table_columns,
  table_rows,
  table_tiles,
  time_limit_property,
  usual_body,
};

use crate::elements::{PASSAGE, PLAYER};
use crate::tile::{COLUMNS, ROWS, TILES};

/// Most bytes of a board's body that ZZT's own tools take.
pub const BODY_LIMIT: usize = 20_000;

/// Most bytes of a board's body that a world file can spell.
pub const READ_BODY_LIMIT: usize = 32_767;

/// Most boards beside the title.
pub const BOARDS_LIMIT: usize = 100;

/// Most stats of a board beside the player.
pub const STATS_LIMIT: usize = 150;

/// Most bytes of a board's name.
pub const NAME_LIMIT: usize = 50;

/// Most bytes of a board's message.
pub const MESSAGE_LIMIT: usize = 58;

/// Most bytes of a world's name and of a flag.
pub const WORD_LIMIT: usize = 20;

/// Each constant is the number that the definitions give for the formats and their limits.
pub fn numbers_of_formats()
    ensures columns { COLUMNS ≡ table_columns }
    ensures rows { ROWS ≡ table_rows }
    ensures tiles { TILES ≡ table_tiles }
    ensures boards { BOARDS_LIMIT ≡ most_boards }
    ensures stats { STATS_LIMIT ≡ most_stats }
    ensures name { NAME_LIMIT ≡ longest_name }
    ensures message { MESSAGE_LIMIT ≡ longest_message }
    ensures word { WORD_LIMIT ≡ longest_word }
    ensures usual { BODY_LIMIT ≡ usual_body }
    ensures largest { READ_BODY_LIMIT ≡ largest_body }
    ensures time { LAST_TIME ≡ last_time }
    ensures time_limit { TIME_LIMIT ≡ time_limit_property }
    ensures rank { RANK ≡ rank_property }
    ensures player { PLAYER ≡ player_element }
    ensures passage { PASSAGE ≡ passage_element }
{}
