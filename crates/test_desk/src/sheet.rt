//! A script as it is read, and the answers. Behind the end of a line numbers are 0, and there are no bytes.
use std::alloc::{AllocError, Global};
use std::fmt::{Debug, Write};
use zed_types::{Name, Stamp};

/// The size of the requests by which growths are refused: scripts/tests/growths.c listens to it, and any other allocator doesn't.
const MARK: usize = 3_141_592;

/// What is left of a script, and the answers.
#[derive(Drop)]
pub struct Sheet<'a> {
    alloc: Global,
    script: &'a [u8],
    at: usize,
    answers: String,
    /// The growth of this line's call that is refused, from 1, or 0.
    nth: usize,
}

fn put<T: Debug>(out: &mut String, it: &T) -> Result<(), AllocError> {
    write!(out, "{it:?} ")
}

fn value_of(digit: u8) -> u8 {
    if digit.is_ascii_digit() {
        digit.wrapping_sub(b'0')
    } else {
        digit.wrapping_sub(b'a').wrapping_add(10)
    }
}

impl<'a> Sheet<'a> {
    pub fn new(alloc: Global, script: &'a [u8]) -> Sheet<'a> {
        Sheet {
            alloc,
            script,
            at: 0,
            answers: String::new(alloc),
            nth: 0,
        }
    }

    pub fn alloc(&self) -> Global {
        self.alloc
    }

    pub fn answers(self) -> String {
        self.answers
    }

    /// Passes a byte, unless the line ends there.
    fn next(&mut self) -> u8 {
        match self.script.get(self.at) {
            Some(byte) if *byte != b'\n' => {
                self.at = self.at.saturating_add(1);
                *byte
            }
            _ => b'\n',
        }
    }

    pub fn number(&mut self) -> u64 {
        let mut number = 0_u64;
        for _ in 0..21_u8 {
            let byte = self.next();
            if !byte.is_ascii_digit() {
                break;
            }
            let digit = u64::from(value_of(byte));
            number = number.wrapping_mul(10).wrapping_add(digit);
        }
        number
    }

    pub fn size(&mut self) -> usize {
        usize::try_from(self.number()).unwrap_or(usize::MAX)
    }

    pub fn short(&mut self) -> u16 {
        u16::try_from(self.number()).unwrap_or(u16::MAX)
    }

    pub fn stamp(&mut self) -> Stamp {
        let time = self.number();
        let replica = self.short();
        Stamp { time, replica }
    }

    pub fn name(&mut self) -> Name {
        let stamp = self.stamp();
        let index = u32::try_from(self.number()).unwrap_or(u32::MAX);
        Name { stamp, index }
    }

    pub fn bytes(&mut self) -> Vec<u8> {
        let mut out = Vec::new(self.alloc);
        for _ in 0..self.script.len() {
            let high = self.next();
            if high == b' ' || high == b'\n' {
                break;
            }
            let low = value_of(self.next());
            let _ = out.push(value_of(high).wrapping_mul(16) | low);
        }
        out
    }

    /// Prints a part of the answer.
    pub fn show<T: Debug>(&mut self, it: &T) {
        let _ = put(&mut self.answers, it);
    }

    pub fn show_name(&mut self, name: Option<Name>) {
        match name {
            Some(name) => self.show(&(name.stamp.time, name.stamp.replica, name.index)),
            None => self.show(&false),
        }
    }

    /// Begins a line, if there is one more.
    pub fn begin_line(&mut self) -> bool {
        self.nth = self.size();
        self.at < self.script.len()
    }

    pub fn end_line(&mut self) {
        let _ = self.answers.push('\n');
        for _ in 0..self.script.len() {
            if self.next() == b'\n' {
                break;
            }
        }
        self.at = self.at.saturating_add(1)
    }

    /// Begins the call.
    pub fn start(&self) {
        if 0 < self.nth {
            let _ = Vec::<u8>::with_capacity(self.alloc, MARK.saturating_add(self.nth));
        }
    }

    /// Ends the call: prints whether a growth was refused, and the answer.
    pub fn stop<T: Debug>(&mut self, answer: &T) {
        let was_refused = 0 < self.nth && Vec::<u8>::with_capacity(self.alloc, MARK).is_err();
        self.show(&was_refused);
        self.show(answer)
    }
}
