//! What a document shows, and what the replay of its edits does.
use crate::desk::Desk;
use crate::sheet::Sheet;
use std::alloc::Global;
use zed_document::{Document, View, append_text};
use zed_edit::{Plain, replay};
use zed_export::{ExportError, export, save, warnings};
use zed_types::{
    BODY_LIMIT, BoardId, Name, READ_BODY_LIMIT, Side, StatByte, StatId, StatNumber, TextId,
    ThirdParameter,
};

fn board_name(id: Option<BoardId>) -> Option<Name> {
    match id {
        Some(id) => Some(id.name),
        None => None,
    }
}

fn stat_name(id: Option<StatId>) -> Option<Name> {
    match id {
        Some(id) => Some(id.name),
        None => None,
    }
}

fn put_target(sheet: &mut Sheet, p3: ThirdParameter) {
    match p3 {
        ThirdParameter::Byte(byte) => sheet.show(&byte),
        ThirdParameter::Board(id) => sheet.show_name(Some(id.name)),
    }
}

/// How many boards the exported world has.
fn boards_of(alloc: Global, document: &Document) -> Result<usize, ExportError> {
    match export(alloc, document, BODY_LIMIT) {
        Ok(world) => Ok(world.boards().len()),
        Err(error) => Err(error),
    }
}

/// What the replay shows: the stamps of held edits, a text and its length, a board by its number, or a stat.
fn put_replayed(sheet: &mut Sheet, plain: &Plain) {
    let asked = sheet.number();
    let name = sheet.name();
    let n = sheet.size();
    match asked {
        0 => sheet.show(&plain.held()),
        1 => {
            sheet.show(&plain.length(TextId { name }));
            let text = plain.text(sheet.alloc(), TextId { name });
            sheet.show(&text)
        }
        2 => sheet.show_name(board_name(plain.board_numbered(n))),
        _ => sheet.show_name(stat_name(plain.stat_numbered(BoardId { name }, n))),
    }
}

/// Whether a text is there, the name of its byte at a position, and its bytes.
fn put_text(sheet: &mut Sheet, view: &View) {
    let id = TextId { name: sheet.name() };
    let is_there = view.has_text(id);
    let name = view.name_at(id, sheet.size());
    sheet.stop(&is_there);
    match name {
        Some(byte) => sheet.show_name(Some(byte.name)),
        None => sheet.show_name(None),
    }
    let mut out = Vec::new(sheet.alloc());
    let _ = append_text(view, id, &mut out);
    sheet.show(&out)
}

/// The tile at a place, the rank and the exits of a board, by its place among those that were made.
fn put_board(sheet: &mut Sheet, view: &View, i: usize) {
    let place = sheet.size();
    if i < view.boards() {
        let properties = view.properties(i);
        sheet.stop(&view.table(i).get(place));
        sheet.show(&properties.rank());
        sheet.show_name(board_name(properties.exit(Side::North)));
        sheet.show_name(board_name(properties.exit(Side::South)));
        sheet.show_name(board_name(properties.exit(Side::West)));
        sheet.show_name(board_name(properties.exit(Side::East)))
    }
}

/// The registers of a stat, by its place among those of its board that were made.
fn put_stat(sheet: &mut Sheet, view: &View, i: usize) {
    let j = sheet.size();
    if i < view.boards() && j < view.stats(i) {
        let (id, stat) = view.stat(i, j);
        let values = &stat.values;
        sheet.stop(&stat.removed);
        sheet.show_name(Some(id.name));
        sheet.show(&values.byte(StatByte::X));
        sheet.show(&values.byte(StatByte::Y));
        sheet.show(&values.number(StatNumber::Cycle));
        sheet.show(&values.number(StatNumber::Position));
        put_target(sheet, values.fields.p3);
        sheet.show_name(stat_name(values.follower));
        sheet.show_name(stat_name(values.leader))
    }
}

/// What a view shows: a text, a board or a stat.
fn put_viewed(sheet: &mut Sheet, view: &View) {
    match sheet.number() {
        0 => put_text(sheet, view),
        1 => {
            let i = sheet.size();
            put_board(sheet, view, i)
        }
        _ => {
            let i = sheet.size();
            put_stat(sheet, view, i)
        }
    }
}

impl Desk<'_> {
    pub fn replayed(&mut self) {
        self.sheet.start();
        match replay(self.sheet.alloc(), self.one.edits()) {
            Ok(plain) => {
                self.sheet.stop(&true);
                put_replayed(&mut self.sheet, &plain)
            }
            Err(error) => self.sheet.stop(&error),
        }
    }

    /// The board of a number; of a name the stat of a number, if it is a board, the text, if it is a stat, and if it is a text its length and
    /// how often its runs were looked at.
    pub fn found(&mut self) {
        let name = self.sheet.name();
        let n = self.sheet.size();
        self.sheet.start();
        let board = self.one.board(n);
        let stat = self.one.stat(BoardId { name }, n);
        let text = self.one.text_of(StatId { name });
        let length = self.one.length(TextId { name });
        let visits = self.one.visits(TextId { name });
        self.sheet.stop(&length);
        self.sheet.show(&visits);
        match board {
            Ok(id) => self.sheet.show_name(board_name(id)),
            Err(error) => self.sheet.show(&error),
        }
        match stat {
            Ok(id) => self.sheet.show_name(stat_name(id)),
            Err(error) => self.sheet.show(&error),
        }
        match text {
            Ok(Some(id)) => self.sheet.show_name(Some(id.name)),
            Ok(None) => self.sheet.show_name(None),
            Err(error) => self.sheet.show(&error),
        }
    }

    pub fn text(&mut self) {
        let name = self.sheet.name();
        self.sheet.start();
        let answer = self.one.text(TextId { name });
        self.sheet.stop(&answer)
    }

    pub fn viewed(&mut self) {
        self.sheet.start();
        match self.one.view() {
            Ok(view) => put_viewed(&mut self.sheet, &view),
            Err(error) => self.sheet.stop(&error),
        }
    }

    pub fn exported(&mut self) {
        self.sheet.start();
        let answer = boards_of(self.sheet.alloc(), &self.one);
        self.sheet.stop(&answer)
    }

    /// The world file with bodies of at most so many bytes.
    pub fn file(&mut self) {
        let limit = self.sheet.size().min(READ_BODY_LIMIT);
        self.sheet.start();
        let answer = save(self.sheet.alloc(), &self.one, limit);
        self.sheet.stop(&answer)
    }

    /// How many warnings there are of the exported world.
    pub fn warned(&mut self) {
        if let Ok(world) = export(self.sheet.alloc(), &self.one, BODY_LIMIT) {
            self.sheet.start();
            match warnings(self.sheet.alloc(), &world) {
                Ok(found) => self.sheet.stop(&found.len()),
                Err(error) => self.sheet.stop(&error),
            }
        }
    }
}
