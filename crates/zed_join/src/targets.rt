//! Boards that something leads to.
ghost use Rattle.std.specs.Prelude.{◌≡◌};
ghost use Rattle.zed_join.specs.Targets.{is_board_there, target};

use zed_document::View;
use zed_types::BoardId;

// Whether a board of this name is there in a view: made, and not removed.
fn is_there(view: &View, id: BoardId) -> bool
    ensures { result ≡ is_board_there view.now id }
{
    for i in 0..view.boards() {
        let (there, board) = view.board(i);
        if there == id && !board.is_removed() {
            return true;
        }
    }
    false
}

/// A board that something leads to, and whether it is there.
#[derive(Clone, Copy, PartialEq, Eq)]
pub struct Target {
    pub board: Option<BoardId>,
    pub is_there: bool,
}

impl Target {
    /// As a view shows it.
    pub fn of(view: &View, board: Option<BoardId>) -> Target
        ensures { result ≡ target view.now board }
    {
        Target {
            board,
            is_there: match board {
                Some(board) => is_there(view, board),
                None => false,
            },
        }
    }
}
