//! What is printed: lines of a word and numbers. A number that finds no memory is left out, and whoever reads the lines misses it.
//! The allocator that scripts/tests/growths loads hears which growth of a call is to be refused, and no other allocator does.
use std::alloc::Global;
use std::fmt::{Debug, Write};

/// The size of requests that the allocator listens to.
const MARK: usize = 3_141_592;

/// What is printed.
#[derive(Drop)]
pub struct Sheet {
    pub text: String,
}

/// Asks that the growth of this number from here on is refused, or none if it is 0.
pub fn refuse(alloc: Global, growth: u16) {
    if growth > 0 {
        let _ = Vec::<u8>::with_capacity(alloc, MARK + usize::from(growth));
    }
}

impl Sheet {
    /// Begins a line.
    pub fn line(&mut self, word: &str) {
        let _ = self.text.push('\n');
        let _ = self.text.push_str(word);
    }

    pub fn number(&mut self, number: i64) {
        let _ = write!(self.text, " {number}");
    }

    /// A size, which 32 bits hold, or -1 for none.
    pub fn size(&mut self, size: Option<usize>) {
        self.number(match size {
            Some(size) => i64::from(u32::try_from(size).unwrap_or(u32::MAX)),
            None => -1,
        });
    }

    pub fn bytes(&mut self, word: &str, bytes: &[u8]) {
        self.line(word);
        for byte in bytes {
            self.number(i64::from(*byte));
        }
    }

    pub fn error<E: Debug>(&mut self, error: &E) {
        let _ = write!(self.text, "\n{error:?}");
    }

    /// Ends what `refuse` asked for, and tells whether a growth was refused.
    pub fn did(&mut self, alloc: Global) {
        let was_refused = Vec::<u8>::with_capacity(alloc, MARK).is_err();
        self.line("did");
        self.number(i64::from(was_refused));
    }
}
