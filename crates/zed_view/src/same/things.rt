//! Whether stats, boards and texts show the same under the same names.
ghost use Rattle.std.specs.Prelude.{◌≡◌, ◌↔◌, IsTrue};
ghost use Rattle.zed_live.specs.Board.{shown_board};
ghost use Rattle.zed_live.specs.BoardStats.{shown_stats};
ghost use Rattle.zed_live.specs.Boards.{shown_boards};
ghost use Rattle.zed_live.specs.Stat.{shown_stat};
ghost use Rattle.zed_texts.specs.Shows.{shown_texts};
ghost use Rattle.zed_texts.specs.Texts.{elements_of};
ghost use Rattle.zed_view.specs.Shown.{shown_text};

use crate::same::header::properties_same;
use crate::same::listed::{Listed, lists_same};
use crate::same::tiles::tiles_same;
use zed_code::Text;
use zed_edit::{Board, Stat, Text as PlainText};
use zed_live::{LiveBoard, LiveBoards};
use zed_stats::{LiveStat, Stats};
use zed_texts::LiveTexts;
use zed_types::{BoardId, StatId, TextId};

/// Whether two stats have the same name and show the same.
fn stat_same(id: StatId, stat: &LiveStat, other_id: StatId, other: &LiveStat) -> bool
    ensures { IsTrue result ↔ shown_stat id stat.now ≡ shown_stat other_id other.now }
{
    id == other_id
        && stat.is_player == other.is_player
        && stat.values.fields.is_same(&other.values.fields)
        && stat.values.position == other.values.position
        && stat.values.follower == other.values.follower
        && stat.values.leader == other.values.leader
        && stat.removed == other.removed
}

impl Listed for Stats {
    type Item = Stat;

    ghost shown = { λ stats. shown_stats stats };

    fn len(&self) -> usize {
        self.count()
    }

    fn is_same_at(&self, other: &Stats, i: usize) -> bool {
        let (id, stat) = self.at(i);
        let (other_id, other_stat) = other.at(i);
        stat_same(id, stat, other_id, other_stat)
    }
}

/// Whether two boards have the same name and show the same.
fn board_same(id: BoardId, board: &LiveBoard, other_id: BoardId, other: &LiveBoard) -> bool
    ensures { IsTrue result ↔ shown_board id board.now ≡ shown_board other_id other.now }
{
    id == other_id
        && tiles_same(board.cells.table(), other.cells.table())
        && properties_same(&board.properties, &other.properties)
        && lists_same(&board.stats, &other.stats)
        && board.is_removed() == other.is_removed()
}

impl Listed for LiveBoards {
    type Item = Board;

    ghost shown = { λ boards. shown_boards boards };

    fn len(&self) -> usize {
        self.count()
    }

    fn is_same_at(&self, other: &LiveBoards, i: usize) -> bool {
        let (id, board) = self.at(i);
        let (other_id, other_board) = other.at(i);
        board_same(id, board, other_id, other_board)
    }
}

/// Whether two texts have the same name and the same elements, dead ones included.
fn text_same(id: TextId, text: &Text, other_id: TextId, other: &Text) -> bool
    ensures { IsTrue result ↔ shown_text id text.now ≡ shown_text other_id other.now }
{
    id == other_id && text.same(other)
}

impl Listed for LiveTexts {
    type Item = PlainText;

    ghost shown = { λ texts. shown_texts (elements_of texts) };

    fn len(&self) -> usize {
        self.count()
    }

    fn is_same_at(&self, other: &LiveTexts, i: usize) -> bool {
        let (id, text) = self.at(i);
        let (other_id, other_text) = other.at(i);
        text_same(id, text, other_id, other_text)
    }
}
