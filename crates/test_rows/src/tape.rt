//! Rows of words that a script hands to a program. Nothing is refused of them: a word that is missing is empty, and a number 0. The script
//! then doesn't find what it wants.
use std::alloc::Global;

/// The words that are left of a row, and the rows behind it.
#[derive(Clone, Copy)]
pub struct Tape<'a> {
    row: &'a str,
    behind: &'a str,
}

/// A hexadecimal digit.
fn digit_of(byte: u8) -> u8 {
    match byte {
        b'a'..=b'f' => byte - b'a' + 10,
        _ => byte & 15,
    }
}

impl<'a> Tape<'a> {
    pub fn new(rows: &'a str) -> Tape<'a> {
        Tape {
            row: "",
            behind: rows,
        }
    }

    /// Goes on to the next row, if there is one.
    pub fn next_row(&mut self) -> bool {
        match self.behind.split_once('\n') {
            Some((row, behind)) => {
                self.row = row;
                self.behind = behind;
                true
            }
            None => false,
        }
    }

    /// Whether no word is left of the row.
    pub fn is_done(&self) -> bool {
        self.row.is_empty()
    }

    /// The next word.
    pub fn word(&mut self) -> &'a str {
        match self.row.split_once(' ') {
            Some((word, row)) => {
                self.row = row;
                word
            }
            None => {
                let word = self.row;
                self.row = "";
                word
            }
        }
    }

    /// The first letter of the next word.
    pub fn letter(&mut self) -> u8 {
        match self.word().as_bytes().first() {
            Some(letter) => *letter,
            None => 0,
        }
    }

    pub fn number(&mut self) -> u64 {
        match self.word().parse::<u64>() {
            Ok(number) => number,
            Err(_) => 0,
        }
    }

    pub fn size(&mut self) -> usize {
        self.number() as usize
    }

    pub fn short(&mut self) -> u16 {
        u16::try_from(self.number()).unwrap_or(0)
    }

    /// A number, or none: one more than the number, or 0.
    pub fn option(&mut self) -> Option<u64> {
        self.number().checked_sub(1)
    }

    /// Bytes by pairs of hexadecimal digits.
    pub fn bytes(&mut self, alloc: Global) -> Vec<u8> {
        let mut bytes = Vec::new(alloc);
        for pair in self.word().as_bytes().chunks(2) {
            if let [high, low] = pair {
                let _ = bytes.push(digit_of(*high).wrapping_mul(16) | digit_of(*low));
            }
        }
        bytes
    }
}
