//! What the rows of a section are done with: where they stand, how they came out so far, and what is told of them.
use crate::receiving::{tell_received, tell_sent};
use crate::traces::Traces;
use std::alloc::{AllocError, Global};
use std::fmt::Debug;
use std::rc::Rc;
use test_rows::{Tape, Told, refuse, was_refused};

/// How the rows of a section came out so far, where a growth was to be refused.
#[derive(Clone, Copy, Debug, PartialEq, Eq)]
pub enum Outcome {
    /// None was.
    Whole,
    /// One was.
    Refused,
    /// One was that the host wanted: a call of the host failed.
    Device,
}

/// Set in the number at the head of a row whose growths are refused.
const IS_TRIED: u64 = 8;

impl Outcome {
    /// What is set in the number at the head of each row that is done where they came out so.
    fn mark(self) -> u64 {
        match self {
            Outcome::Whole => 1,
            Outcome::Refused => 2,
            Outcome::Device => 4,
        }
    }
}

/// Rows, and what is told of them.
#[derive(Drop)]
pub struct Desk<'a> {
    pub alloc: Global,
    pub tape: Tape<'a>,
    pub told: Told,
    pub traces: Rc<Traces>,
    pub outcome: Outcome,
    /// Words of chance.
    pub chances: Vec<u16>,
    /// The growth that is refused in this turn, or 0.
    nth: usize,
    /// The same of the row that is done.
    growth: usize,
}

impl<'a> Desk<'a> {
    pub fn new(alloc: Global, tape: Tape<'a>, nth: usize) -> Result<Desk<'a>, AllocError> {
        Ok(Desk {
            alloc,
            tape,
            told: Told::new(alloc),
            traces: Traces::new(alloc)?,
            outcome: Outcome::Whole,
            chances: Vec::new(alloc),
            nth,
            growth: 0,
        })
    }

    /// Goes on to the next row that is done. Its letter, or a full stop where there is none.
    pub fn next(&mut self) -> u8 {
        for _ in 0..usize::MAX {
            if !self.tape.next_row() {
                return b'.';
            }
            let marks = self.tape.number();
            if marks & self.outcome.mark() > 0 {
                self.growth = if marks & IS_TRIED > 0 { self.nth } else { 0 };
                return self.tape.letter();
            }
        }
        b'.'
    }

    /// Takes the words of chance that are left in the row.
    pub fn take_chances(&mut self) {
        self.chances.clear();
        for _ in 0..usize::MAX {
            if self.tape.is_done() {
                return;
            }
            let _ = self.chances.push(self.tape.short());
        }
    }

    /// Asks for the growth to be refused.
    pub fn refuse(&self) {
        refuse(self.alloc, self.growth)
    }

    /// Ends that, and says whether it was refused.
    pub fn was_refused(&self) -> bool {
        self.growth > 0 && was_refused(self.alloc)
    }

    /// Ends the refusing in a call, and tells whether a growth was refused in it.
    fn end_call(&mut self) {
        let was_refused = self.was_refused();
        if was_refused {
            self.outcome = Outcome::Refused;
        }
        self.told.flag(was_refused)
    }

    /// Tells a call and what it answers.
    pub fn take<T: Debug>(&mut self, answer: &T) {
        self.end_call();
        self.told.shown(answer)
    }

    /// Tells a call and a word.
    pub fn take_word(&mut self, word: &str) {
        self.end_call();
        self.told.last(word)
    }

    /// Does a row that needs neither a host nor a session.
    pub fn look(&mut self, letter: u8) {
        match letter {
            b'c' => self.traces.tell_counts(&mut self.told),
            b'l' => self.traces.tell_left(&mut self.told),
            b'f' => self.traces.tell_frame(&mut self.told),
            b'r' => tell_received(self),
            b's' => tell_sent(self),
            _ => self.told.last("no such row"),
        }
    }

    /// Does the rows up to one that ends them.
    pub fn look_on(&mut self) {
        for _ in 0..usize::MAX {
            match self.next() {
                b'.' => return,
                letter => self.look(letter),
            }
        }
    }
}
