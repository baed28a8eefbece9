//! What things are called: boards by their names, stats by the first line of their program.
ghost use Rattle.std.specs.Prelude.{◌<◌, length};

use std::alloc::{AllocError, Global};
use std::collections::BTreeMap;
use zed_document::{View, append_text};
use zed_join::is_shown;
use zed_live::LiveBoard;
use zed_log::{put_element, put_number, put_quoted, put_text};
use zed_stats::LiveStat;
use zed_types::{BoardId, BoardText, StatByte, StatId, TextId, tile_at};

// A board: its place in the view, and its number unless it is removed.
#[derive(Clone, Copy)]
struct KnownBoard {
    at: usize,
    number: Option<usize>,
}

// A stat: its board's place in the view, its own, and its number unless it is removed.
#[derive(Clone, Copy)]
struct KnownStat {
    board: usize,
    at: usize,
    number: Option<usize>,
}

/// What the things of a view are called.
#[derive(Drop)]
pub(crate) struct Names {
    boards: BTreeMap<BoardId, KnownBoard>,
    stats: BTreeMap<StatId, KnownStat>,
    // The first line of each text, so that it is read once.
    labels: BTreeMap<TextId, Vec<u8>>,
    alloc: Global,
}

const LINE_END: u8 = 13;

// The stat at its places in a view.
fn stat_at<'a>(view: &View<'a>, known: KnownStat) -> Option<&'a LiveStat> {
    if view.boards() <= known.board || view.stats(known.board) <= known.at {
        return None;
    }
    let (_, stat) = view.stat(known.board, known.at);
    Some(stat)
}

// The first line of a text, without its end.
fn first_line(bytes: &[u8]) -> &[u8] {
    for (i, byte) in bytes.iter().enumerate() {
        if *byte == LINE_END {
            return bytes.split_at(i).0;
        }
    }
    bytes
}

impl Names {
    fn note_label(&mut self, view: &View, text: TextId) -> Result<(), AllocError> {
        if self.labels.contains_key(&text) {
            return Ok(());
        }
        let mut program = Vec::new(self.alloc);
        append_text(view, text, &mut program)?;
        let label = Vec::from_slice(self.alloc, first_line(program.as_slice()))?;
        self.labels.insert(text, label)?;
        Ok(())
    }

    fn note_stats(&mut self, view: &View, board: usize) -> Result<(), AllocError>
        requires { board < length view.now.boards }
    {
        let mut number: usize = 0;
        for at in 0..view.stats(board) {
            let (id, stat) = view.stat(board, at);
            let known = KnownStat {
                board,
                at,
                number: if stat.removed { None } else { Some(number) },
            };
            if !stat.removed {
                number = number.saturating_add(1);
            }
            self.stats.insert(id, known)?;
            if let Some(text) = stat.values.fields.text {
                self.note_label(view, text)?;
            }
        }
        Ok(())
    }

    /// What the things of a view are called.
    pub(crate) fn of(alloc: Global, view: &View) -> Result<Names, AllocError> {
        let mut names = Names {
            boards: BTreeMap::new(alloc),
            stats: BTreeMap::new(alloc),
            labels: BTreeMap::new(alloc),
            alloc,
        };
        for at in 0..view.boards() {
            let (id, _) = view.board(at);
            names.boards.insert(id, KnownBoard { at, number: None })?;
            names.note_stats(view, at)?;
        }
        for (number, at) in view.first_boards(alloc, None).as_slice().iter().enumerate() {
            let (id, _) = view.board(*at);
            let number = Some(number);
            names.boards.insert(id, KnownBoard { at: *at, number })?;
        }
        Ok(names)
    }

    /// A board of the view, if it was made.
    pub(crate) fn board<'a>(&self, view: &View<'a>, id: BoardId) -> Option<&'a LiveBoard> {
        match self.boards.get(&id) {
            Some(known) if known.at < view.boards() => {
                let (_, board) = view.board(known.at);
                Some(board)
            }
            _ => None,
        }
    }

    /// A stat of the view, if it was made.
    pub(crate) fn stat<'a>(&self, view: &View<'a>, id: StatId) -> Option<&'a LiveStat> {
        match self.stats.get(&id) {
            Some(known) => stat_at(view, *known),
            None => None,
        }
    }

    /// Appends the name of a board alone.
    pub(crate) fn put_name(
        &self,
        out: &mut Vec<u8>,
        view: &View,
        id: BoardId,
    ) -> Result<(), AllocError> {
        match self.board(view, id) {
            Some(board) => put_quoted(out, board.properties.text(BoardText::Name)),
            None => put_text(out, "\"\""),
        }
    }

    /// Appends what a board is called: its number and its name.
    pub(crate) fn put_board(
        &self,
        out: &mut Vec<u8>,
        view: &View,
        id: BoardId,
    ) -> Result<(), AllocError> {
        let Some(known) = self.boards.get(&id) else {
            return put_text(out, "no board");
        };
        match known.number {
            Some(number) => {
                put_text(out, "board ")?;
                put_number(out, number as u64)?;
            }
            None if is_shown(self.board(view, id)) => put_text(out, "board")?,
            None => put_text(out, "removed board")?,
        }
        put_text(out, " ")?;
        self.put_name(out, view, id)
    }

    // The first line of the program of a stat, or nothing if it has none.
    fn label_of(&self, stat: &LiveStat) -> &[u8] {
        match stat.values.fields.text {
            Some(text) => match self.labels.get(&text) {
                Some(label) => label.as_slice(),
                None => &[],
            },
            None => &[],
        }
    }

    // Appends the first line of the program of a stat, or the element at its place if it has none.
    fn put_label(
        &self,
        out: &mut Vec<u8>,
        view: &View,
        board: usize,
        stat: &LiveStat,
    ) -> Result<(), AllocError> {
        let label = self.label_of(stat);
        if !label.is_empty() {
            return put_quoted(out, label);
        }
        if view.boards() <= board {
            return put_text(out, "-");
        }
        let (x, y) = (stat.values.byte(StatByte::X), stat.values.byte(StatByte::Y));
        match tile_at(view.table(board), x, y) {
            Some(tile) => put_element(out, tile.element),
            None => put_text(out, "-"),
        }
    }

    /// Appends what a stat is called: its number and the first line of its program; and its board.
    pub(crate) fn put_stat(
        &self,
        out: &mut Vec<u8>,
        view: &View,
        id: StatId,
    ) -> Result<(), AllocError> {
        let Some(known) = self.stats.get(&id) else {
            return put_text(out, "no stat");
        };
        match known.number {
            Some(number) => {
                put_text(out, "stat ")?;
                put_number(out, number as u64)?;
            }
            None => put_text(out, "removed stat")?,
        }
        if let Some(stat) = stat_at(view, *known) {
            put_text(out, " ")?;
            self.put_label(out, view, known.board, stat)?;
        }
        if known.board < view.boards() {
            put_text(out, " of ")?;
            let (board, _) = view.board(known.board);
            self.put_board(out, view, board)?;
        }
        Ok(())
    }
}
