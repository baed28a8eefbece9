//! What a program tells of rows, in words and lines. Where memory lacks for that, something is left out, and the script doesn't find what it
//! wants.
use std::alloc::{AllocError, Global};
use std::fmt::{Debug, Write};

/// What was told so far.
#[derive(Drop)]
pub struct Told {
    text: String,
}

fn put_number(out: &mut String, number: u64) -> Result<(), AllocError> {
    write!(out, "{number} ")
}

fn put_shown<T: Debug>(out: &mut String, it: &T) -> Result<(), AllocError> {
    writeln!(out, "{it:?}")
}

/// A digit of a hexadecimal number.
fn digit_of(digit: u8) -> char {
    match digit {
        0..=9 => char::from(b'0' + digit),
        10..=15 => char::from(b'a' + (digit - 10)),
        _ => '?',
    }
}

impl Told {
    pub fn new(alloc: Global) -> Told {
        Told {
            text: String::new(alloc),
        }
    }

    pub fn as_str(&self) -> &str {
        self.text.as_str()
    }

    fn put(&mut self, it: char) {
        let _ = self.text.push(it);
    }

    /// Tells a number.
    pub fn number(&mut self, number: u64) {
        let _ = put_number(&mut self.text, number);
    }

    /// Tells 1 where something is so, and 0 where it isn't.
    pub fn flag(&mut self, is_so: bool) {
        self.number(if is_so { 1 } else { 0 })
    }

    /// Tells a count or a place.
    pub fn size(&mut self, size: usize) {
        self.number(size as u64)
    }

    /// Tells two hexadecimal digits.
    pub fn byte(&mut self, byte: u8) {
        self.put(digit_of(byte / 16));
        self.put(digit_of(byte % 16))
    }

    /// Tells bytes, by pairs of hexadecimal digits.
    pub fn bytes(&mut self, bytes: &[u8]) {
        for byte in bytes {
            self.byte(*byte);
        }
        self.put(' ')
    }

    /// Tells a word, and ends the line.
    pub fn last(&mut self, word: &str) {
        let _ = self.text.push_str(word);
        self.end()
    }

    /// Tells a value, and ends the line.
    pub fn shown<T: Debug>(&mut self, it: &T) {
        let _ = put_shown(&mut self.text, it);
    }

    /// Ends the line.
    pub fn end(&mut self) {
        self.put('\n')
    }
}
