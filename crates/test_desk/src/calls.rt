//! Calls that change a document, and what is asked of its edits.
use crate::desk::Desk;
use std::mem;
use zed_document::{Document, DocumentError};
use zed_editfile::write_file;
use zed_op::{Edit, Op};
use zed_types::{Bytes, Stamp, TextId};

fn copy_of(edit: Option<&Edit>) -> Option<Edit> {
    match edit?.copy() {
        Ok(copy) => Some(copy),
        Err(_) => None,
    }
}

fn op_of(edit: Option<&Edit>) -> Option<Op> {
    let Edit { op, .. } = copy_of(edit)?;
    Some(op)
}

fn stamp_of(made: Result<Edit, DocumentError>) -> Result<Stamp, DocumentError> {
    match made {
        Ok(edit) => Ok(edit.stamp),
        Err(error) => Err(error),
    }
}

impl Desk<'_> {
    /// Begins a document of this world: how many edits it has.
    pub fn begin(&mut self) {
        let world = self.sheet.number();
        self.sheet.start();
        self.one = Document::new(self.sheet.alloc(), world);
        self.sheet.stop(&self.one.edits().len())
    }

    pub fn swap(&mut self) {
        mem::swap(&mut self.one, &mut self.other)
    }

    /// Delivers an edit.
    pub fn deliver(&mut self) {
        if let Some(edit) = copy_of(self.edits.get(self.sheet.size())) {
            self.sheet.start();
            match self.one.deliver(edit) {
                Ok(told) => self
                    .sheet
                    .stop(&(told.state as u8, told.woken, told.visits)),
                Err(error) => self.sheet.stop(&error),
            }
        }
    }

    /// Makes, as a replica, an edit that does what another does: its stamp.
    pub fn author(&mut self) {
        let replica = self.sheet.short();
        if let Some(op) = op_of(self.edits.get(self.sheet.size())) {
            self.sheet.start();
            let answer = stamp_of(self.one.author(replica, op));
            self.sheet.stop(&answer)
        }
    }

    /// Inserts, as a replica, bytes before a position of a text: the stamp of the edit.
    pub fn insert(&mut self) {
        let replica = self.sheet.short();
        let name = self.sheet.name();
        let position = self.sheet.size();
        let bytes = Bytes::new(self.sheet.bytes());
        self.sheet.start();
        let made = self
            .one
            .insert_text(replica, TextId { name }, position, bytes);
        self.sheet.stop(&stamp_of(made))
    }

    /// Deletes, as a replica, the bytes of a text from a position up to another: how many edits that makes.
    pub fn delete(&mut self) {
        let replica = self.sheet.short().max(1);
        let name = self.sheet.name();
        let (from, to) = (self.sheet.size(), self.sheet.size());
        self.sheet.start();
        match self.one.delete_text(replica, TextId { name }, from, to) {
            Ok(edits) => self.sheet.stop(&edits.len()),
            Err(error) => self.sheet.stop(&error),
        }
    }

    pub fn merge(&mut self) {
        self.sheet.start();
        let answer = self.one.merge(&self.other);
        self.sheet.stop(&answer)
    }

    pub fn deliver_none(&mut self) {
        let none = Vec::new(self.sheet.alloc());
        self.sheet.start();
        let answer = self.one.deliver_all(none);
        self.sheet.stop(&answer)
    }

    pub fn repair(&mut self) {
        self.sheet.start();
        let answer = self.one.repair();
        self.sheet.stop(&answer)
    }

    /// The edit file, and whether each edit is held.
    pub fn log(&mut self) {
        let edits = self.one.edits();
        if let Ok(file) = write_file(self.sheet.alloc(), self.one.world(), edits) {
            self.sheet.show(&file);
        }
        for edit in edits {
            self.sheet.show(&self.one.is_held(edit.stamp))
        }
    }

    /// The world, how many edits there are and how many are held, and whether the one of a stamp is.
    pub fn held(&mut self) {
        let stamp = self.sheet.stamp();
        self.sheet.start();
        let (world, edits) = (self.one.world(), self.one.edits().len());
        let (held, is_held) = (self.one.held(), self.one.is_held(stamp));
        self.sheet.stop(&is_held);
        self.sheet.show(&world);
        self.sheet.show(&edits);
        self.sheet.show(&held)
    }

    /// Whether both documents show the same.
    pub fn same(&mut self) {
        self.sheet.start();
        let answer = self.one.same(&self.other);
        self.sheet.stop(&answer)
    }
}
