//! What a body has.
ghost use Rattle.std.specs.Prelude.{◌≡◌, is_some};
ghost use Rattle.zed_live.specs.Boards.{board_in, home_in};
ghost use Rattle.zed_delivery.specs.Things.{has_thing as is_made};

use zed_live::LiveBoards;
use zed_op::Thing;
use zed_texts::LiveTexts;
use zed_types::{BoardId, StatId};

/// Whether a stat was made, on whichever board.
fn has_stat(boards: &LiveBoards, id: StatId) -> bool
    ensures { result ≡ is_some (home_in id boards.now) }
{
    boards.home(id).is_some()
}

/// Whether a board was made, removed or not.
fn has_board(boards: &LiveBoards, id: BoardId) -> bool
    ensures { result ≡ is_some (board_in id boards.now) }
{
    boards.get(id).is_some()
}

/// Whether a thing was made, removed or not, dead or not.
pub(crate) fn has_thing(boards: &LiveBoards, texts: &LiveTexts, thing: Thing) -> bool
    ensures { result ≡ is_made boards.now texts.now thing }
{
    match thing {
        Thing::Board(board) => has_board(boards, board),
        Thing::Stat(stat) => has_stat(boards, stat),
        Thing::Text(text) => texts.has(text),
        Thing::Element(text, byte) => texts.has_byte(text, byte),
    }
}
