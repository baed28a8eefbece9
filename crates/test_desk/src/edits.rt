//! Edits and worlds as they are read, and written again.
use crate::desk::Desk;
use crate::sheet::Sheet;
use std::alloc::Global;
use zed_editfile::{EditReader, write_edit};
use zed_op::{Edit, EditError, Op, Thing, check, names};
use zed_types::{BoardId, READ_BODY_LIMIT};
use zed_world::{WorldError, is_canonical, read_world, write_world};

fn put_record(alloc: Global, edit: &Edit, out: &mut Vec<u8>) {
    if let Ok(()) = check(alloc, edit) {
        let _ = write_edit(edit, out);
    }
}

/// The kind of a thing and its name, and of a byte that of its text too.
fn put_thing(sheet: &mut Sheet, thing: Thing) {
    let (kind, name) = match thing {
        Thing::Board(id) => (0_u8, id.name),
        Thing::Stat(id) => (1, id.name),
        Thing::Text(id) => (2, id.name),
        Thing::Element(id, byte) => {
            sheet.show_name(Some(id.name));
            (3, byte.name)
        }
    };
    sheet.show(&kind);
    sheet.show_name(Some(name))
}

/// Whether an edit has an equal copy.
fn has_copy(edit: &Edit) -> Result<bool, EditError> {
    match edit.copy() {
        Ok(copy) => Ok(copy.is_same(edit)),
        Err(error) => Err(error),
    }
}

/// What is written of a world file.
fn again(alloc: Global, bytes: &[u8], limit: usize) -> Result<Vec<u8>, WorldError> {
    match read_world(alloc, bytes) {
        Ok(world) => write_world(alloc, &world, limit.min(READ_BODY_LIMIT)),
        Err(error) => Err(error),
    }
}

impl Desk<'_> {
    /// Begins an edit file, of any world, or behind a 1 of the world of this number.
    pub fn begin_reading(&mut self) {
        let is_asked = self.sheet.number() == 1;
        let world = self.sheet.number();
        let asked = if is_asked { Some(world) } else { None };
        self.reader = EditReader::new(self.sheet.alloc(), asked);
        self.edits.truncate(0)
    }

    /// Reads bytes of it in pieces of this size: what the last piece is answered, and the world.
    pub fn feed(&mut self) {
        let size = self.sheet.size();
        let bytes = self.sheet.bytes();
        let mut answer = Ok(());
        for piece in bytes.chunks(size.max(1)) {
            answer = self.reader.feed(piece, &mut self.edits);
        }
        self.sheet.show(&answer);
        self.sheet.show(&self.reader.world())
    }

    /// Ends it: the answer, how many edits were read, and their records.
    pub fn finish(&mut self) {
        let mut out = Vec::new(self.sheet.alloc());
        for edit in self.edits.iter() {
            put_record(self.sheet.alloc(), edit, &mut out);
        }
        self.sheet.show(&self.reader.finish());
        self.sheet.show(&self.edits.len());
        self.sheet.show(&out)
    }

    /// Puts the one edit that never fits and isn't read behind those that were: a removal of the title.
    pub fn misfit(&mut self) {
        let stamp = self.sheet.stamp();
        let op = Op::BoardRemove(BoardId::TITLE);
        let _ = self.edits.push(Edit { stamp, op });
    }

    /// Whether a world file is canonical, and what is written of it with bodies of at most so many bytes.
    pub fn world(&mut self) {
        let alloc = self.sheet.alloc();
        let limit = self.sheet.size();
        let bytes = self.sheet.bytes();
        self.sheet.show(&is_canonical(alloc, bytes.as_slice()));
        self.sheet.show(&again(alloc, bytes.as_slice(), limit))
    }

    /// Whether an edit fits.
    pub fn checked(&mut self) {
        if let Some(edit) = self.edits.get(self.sheet.size()) {
            self.sheet.start();
            let answer = check(self.sheet.alloc(), edit);
            self.sheet.stop(&answer)
        }
    }

    /// Whether an edit has an equal copy.
    pub fn copied(&mut self) {
        if let Some(edit) = self.edits.get(self.sheet.size()) {
            self.sheet.start();
            let answer = has_copy(edit);
            self.sheet.stop(&answer)
        }
    }

    /// What an edit names.
    pub fn named(&mut self) {
        if let Some(edit) = self.edits.get(self.sheet.size()) {
            self.sheet.start();
            let things = names(self.sheet.alloc(), edit);
            self.sheet.stop(&things.len());
            for thing in things.as_slice() {
                put_thing(&mut self.sheet, *thing)
            }
        }
    }
}
