//! What a document shows, lent from its live parts, for an export.
ghost use Rattle.std.specs.Prelude.{◌≡◌, ◌<◌, length, None, Some};
ghost use Rattle.zed_live.specs.Board.{shown_board};
ghost use Rattle.zed_live.specs.Shown.{shown as shown_header, shown_properties};
ghost use Rattle.zed_live.specs.Stat.{shown_stat};
ghost use Rattle.zed_view.specs.View.{board_at, stat_at};
ghost use Rattle.std.specs.Option.{option_copied};
ghost use Rattle.zed_edit.specs.Document.{text, elements};
ghost use Rattle.zed_view.specs.Shown.{shown, spelled};

use std::marker::Model;
use zed_code::Text;
use zed_inbox::Inbox;
use zed_live::{LiveBoard, LiveBoards, LiveDocument, LiveHeader, LiveProperties};
use zed_stats::{LiveStat, Stats};
use zed_texts::LiveTexts;
use zed_types::{BoardId, StatId, TILES, TextId, Tile};

/// What a document shows, lent: its header, boards, cells, stats and texts, removed and dead things
/// included. Boards, and the stats of each board, are numbered in the order in which they were
/// made. The caller keeps these numbers below `boards` and `stats`. Contracts see the plain
/// document. None of its calls takes memory.
#[derive(Drop)]
pub struct View<'a> {
    pub(crate) live: &'a LiveDocument,
    pub(crate) texts: &'a LiveTexts,
    inbox: &'a Inbox,
}

impl<'a> Model for View<'a> {
    ghost use Rattle.zed_edit.specs.declared.plain.Plain.{Plain as ThePlain};
    ghost use Rattle.zed_view.specs.Shown.{shown};

    ghost Value = { ThePlain };

    ghost view = { λ v. shown v.live.now v.texts.now v.inbox.now };
}

impl<'a> View<'a> {
    /// What live parts show, those of one document.
    pub fn of(live: &'a LiveDocument, texts: &'a LiveTexts, inbox: &'a Inbox) -> View<'a>
        ensures { result ≡ shown live.now texts.now inbox.now }
    {
        View { live, texts, inbox }
    }

    /// The header.
    pub fn header(&self) -> &'a LiveHeader
        ensures { shown_header result.now ≡ self.now.header }
    {
        let header: &'a LiveHeader = &self.live.header;
        header
    }

    /// How many boards were made, removed ones too.
    pub fn boards(&self) -> usize
        ensures { result ≡ length self.now.boards }
    {
        self.live.boards.count()
    }

    /// A board under its name, removed or not.
    #[tactic(auto, using(crate::proofs::Numbered::board_there))]
    pub fn board(&self, i: usize) -> (BoardId, &'a LiveBoard)
        requires { i < length self.now.boards }
        ensures { shown_board result.0 result.1.now ≡ board_at self.now i }
    {
        let boards: &'a LiveBoards = &self.live.boards;
        boards.at(i)
    }

    /// The properties of a board.
    pub fn properties(&self, i: usize) -> &'a LiveProperties
        requires { i < length self.now.boards }
        ensures { shown_properties result.now ≡ (board_at self.now i).properties }
    {
        let (_, board) = self.board(i);
        &board.properties
    }

    /// All tiles of a board, row after row, lent.
    pub fn table(&self, i: usize) -> &[Tile; TILES]
        requires { i < length self.now.boards }
        ensures { result.now ≡ (board_at self.now i).tiles }
    {
        let (_, board) = self.board(i);
        board.cells.table()
    }

    /// How many stats were made on a board, removed ones too. The first is its player.
    pub fn stats(&self, i: usize) -> usize
        requires { i < length self.now.boards }
        ensures { result ≡ length (board_at self.now i).stats }
    {
        let (_, board) = self.board(i);
        board.stats.count()
    }

    /// A stat under its name, removed or not.
    #[tactic(auto, using(crate::proofs::Numbered::stat_there))]
    pub fn stat(&self, i: usize, j: usize) -> (StatId, &'a LiveStat)
        requires board { i < length self.now.boards }
        requires stat { j < length (board_at self.now i).stats }
        ensures { shown_stat result.0 result.1.now ≡ stat_at (board_at self.now i) j }
    {
        let (_, board) = self.board(i);
        let stats: &'a Stats = &board.stats;
        stats.at(j)
    }

    /// The live text of a name, if it was made.
    #[tactic(auto, using(crate::proofs::NamedTexts::of_some_text, crate::proofs::NamedTexts::of_no_text))]
    pub(crate) fn text(&self, id: TextId) -> Option<&'a Text>
        ensures { spelled (option_copied result) ≡ elements self.now id }
    {
        let texts: &'a LiveTexts = self.texts;
        texts.get(id)
    }

    /// How many live bytes a text has.
    pub fn length(&self, id: TextId) -> usize
        ensures { result ≡ length (text self.now id) }
    {
        match self.text(id) {
            Some(text) => text.length(),
            None => 0,
        }
    }
}
