//! What a script works on, and what its lines ask of it.
use crate::programs::put_program;
use crate::sheet::Sheet;
use std::alloc::Global;
use zed_document::Document;
use zed_editfile::EditReader;
use zed_op::Edit;

/// Two documents and the edits that were read. Calls are made of the `one`.
#[derive(Drop)]
pub struct Desk<'a> {
    pub sheet: Sheet<'a>,
    pub one: Document,
    pub other: Document,
    pub reader: EditReader,
    pub edits: Vec<Edit>,
}

impl Desk<'_> {
    fn read(&mut self, call: u64) {
        match call {
            0 => self.begin_reading(),
            1 => self.feed(),
            2 => self.finish(),
            3 => self.misfit(),
            4 => self.world(),
            _ => put_program(&mut self.sheet),
        }
    }

    fn change(&mut self, call: u64) {
        match call {
            10 => self.begin(),
            11 => self.swap(),
            12 => self.deliver(),
            13 => self.author(),
            14 => self.insert(),
            15 => self.delete(),
            16 => self.merge(),
            17 => self.deliver_none(),
            _ => self.repair(),
        }
    }

    fn ask(&mut self, call: u64) {
        match call {
            20 => self.log(),
            21 => self.held(),
            22 => self.same(),
            23 => self.replayed(),
            24 => self.checked(),
            25 => self.copied(),
            _ => self.named(),
        }
    }

    fn see(&mut self, call: u64) {
        match call {
            30 => self.found(),
            31 => self.text(),
            32 => self.viewed(),
            33 => self.exported(),
            34 => self.file(),
            _ => self.warned(),
        }
    }

    fn answer(&mut self) {
        for _ in 0..usize::MAX {
            if !self.sheet.begin_line() {
                break;
            }
            let call = self.sheet.number();
            match call / 10 {
                0 => self.read(call),
                1 => self.change(call),
                2 => self.ask(call),
                _ => self.see(call),
            }
            self.sheet.end_line()
        }
    }
}

/// What the lines of a script are answered.
// A function that owns documents is dear to prove, so this one does nothing else.
pub fn answers(alloc: Global, script: &[u8]) -> String {
    let mut desk = Desk {
        sheet: Sheet::new(alloc, script),
        one: Document::new(alloc, 0),
        other: Document::new(alloc, 0),
        reader: EditReader::new(alloc, None),
        edits: Vec::new(alloc),
    };
    desk.answer();
    desk.sheet.answers()
}
