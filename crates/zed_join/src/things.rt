//! Boards and stats by their names, in the four views.
ghost use Rattle.std.specs.Prelude.{◌≡◌, option_map};
ghost use Rattle.std.specs.Option.{option_copied};
ghost use Rattle.zed_types.specs.declared.names.BoardId.{BoardId as TheBoard};
ghost use Rattle.zed_laws.specs.Winners.{find_board, find_stat};
ghost use Rattle.zed_live.specs.BoardStats.{shown_stats};
ghost use Rattle.zed_join.specs.declared.sides.Views.{Views as TheViews};
ghost use Rattle.zed_join.specs.Things.{IsBoard, IsStat, shown_as, shown_stat_as, stat_on};

use crate::sides::Views;
use std::marker::Model;
use zed_document::View;
use zed_live::LiveBoard;
use zed_sides::Side;
use zed_stats::LiveStat;
use zed_types::{BoardId, StatId};

// The board of a name in a view, removed or not, if it was made there.
fn board_named<'a>(view: &View<'a>, id: BoardId) -> Option<&'a LiveBoard>
    ensures { shown_as id (option_copied result) ≡ find_board id view.now.boards }
{
    for i in 0..view.boards() {
        let (there, board) = view.board(i);
        if there == id {
            return Some(board);
        }
    }
    None
}

// The stat of a name on this board, removed or not, if it was made there.
fn stat_in<'a>(home: &'a LiveBoard, id: StatId) -> Option<&'a LiveStat>
    ensures { shown_stat_as id (option_copied result) ≡ find_stat id (shown_stats home.now.stats) }
{
    for j in 0..home.stats.count() {
        let (there, stat) = home.stats.at(j);
        if there == id {
            return Some(stat);
        }
    }
    None
}

// The stat of a name on a board, removed or not, if it was made there.
fn stat_named<'a>(board: Option<&'a LiveBoard>, id: StatId) -> Option<&'a LiveStat>
    ensures { (b : TheBoard) → shown_stat_as id (option_copied result)
        ≡ stat_on id (shown_as b (option_copied board.entry)) }
{
    match board {
        Some(home) => stat_in(home, id),
        None => None,
    }
}

/// A board in each view that has it.
#[derive(Drop)]
pub struct BoardIn<'a> {
    pub base: Option<&'a LiveBoard>,
    pub mine: Option<&'a LiveBoard>,
    pub theirs: Option<&'a LiveBoard>,
    pub union: Option<&'a LiveBoard>,
}

impl<'a> Model for BoardIn<'a> {
    ghost use Rattle.std.specs.Option.{option_copied};
    ghost use Rattle.zed_join.specs.Things.{Boards};

    ghost Value = { Boards };

    ghost view = { λ b. record {
      base = option_copied b.base;
      mine = option_copied b.mine;
      theirs = option_copied b.theirs;
      union = option_copied b.union;
    } };
}

impl<'a> BoardIn<'a> {
    /// The board of a name.
    pub fn of(views: &Views<'a>, id: BoardId) -> BoardIn<'a>
        ensures { IsBoard views.now id result }
    {
        BoardIn {
            base: board_named(&views.base, id),
            mine: board_named(&views.mine, id),
            theirs: board_named(&views.theirs, id),
            union: board_named(&views.union, id),
        }
    }

    /// That of a side.
    pub fn on(&self, side: Side) -> Option<&'a LiveBoard> {
        match side {
            Side::Mine => self.mine,
            Side::Theirs => self.theirs,
        }
    }
}

/// A stat in each view that has it.
#[derive(Drop)]
pub struct StatIn<'a> {
    pub base: Option<&'a LiveStat>,
    pub mine: Option<&'a LiveStat>,
    pub theirs: Option<&'a LiveStat>,
    pub union: Option<&'a LiveStat>,
}

impl<'a> Model for StatIn<'a> {
    ghost use Rattle.std.specs.Option.{option_copied};
    ghost use Rattle.zed_join.specs.Things.{Stats};

    ghost Value = { Stats };

    ghost view = { λ s. record {
      base = option_copied s.base;
      mine = option_copied s.mine;
      theirs = option_copied s.theirs;
      union = option_copied s.union;
    } };
}

impl<'a> StatIn<'a> {
    /// The stat of a name on a board.
    pub fn of(board: &BoardIn<'a>, id: StatId) -> StatIn<'a>
        ensures { (w : TheViews) (b : TheBoard) → IsBoard w b board.now → IsStat w b id result }
    {
        StatIn {
            base: stat_named(board.base, id),
            mine: stat_named(board.mine, id),
            theirs: stat_named(board.theirs, id),
            union: stat_named(board.union, id),
        }
    }

    /// That of a side.
    pub fn on(&self, side: Side) -> Option<&'a LiveStat> {
        match side {
            Side::Mine => self.mine,
            Side::Theirs => self.theirs,
        }
    }
}

/// Whether a board is made and not removed.
pub fn is_shown(board: Option<&LiveBoard>) -> bool {
    match board {
        Some(board) => !board.is_removed(),
        None => false,
    }
}
