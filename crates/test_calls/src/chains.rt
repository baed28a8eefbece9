//! Many edits of which each waits for the one behind it.
use std::alloc::{AllocError, Global};
use zed_document::{Delivered, Document, Intake, State};
use zed_op::{Edit, Op, check};
use zed_types::{Bytes, ElemId, Stamp, TextId};

/// How many edits the chain has.
const CHAIN: u64 = 20_000;

/// When the text is added, which is before the first of them.
const ADDED: u64 = 2;

fn stamp(time: u64) -> Stamp {
    Stamp { time, replica: 1 }
}

fn text() -> TextId {
    TextId::new(stamp(ADDED), 0)
}

/// The letter that an edit of the chain puts.
fn letter(nth: u64) -> u8 {
    b'a' + (nth % 26) as u8
}

/// The byte that an edit of the chain puts its letter behind: that of the edit before it, or none for the first.
fn before(nth: u64) -> Option<ElemId> {
    match nth.checked_sub(1) {
        Some(before) => Some(ElemId::new(stamp(before.saturating_add(ADDED + 1)), 0)),
        None => None,
    }
}

/// Delivers an edit.
fn deliver(alloc: Global, intake: &mut Intake, time: u64, op: Op) -> Option<Delivered> {
    let edit = Edit {
        stamp: stamp(time),
        op,
    };
    match check(alloc, &edit) {
        Ok(()) => intake.deliver(edit).ok(),
        Err(_) => None,
    }
}

/// Delivers an edit of the chain, counted from 0.
fn deliver_nth(alloc: Global, intake: &mut Intake, nth: u64) -> Option<Delivered> {
    match [letter(nth)].to_vec(alloc) {
        Ok(letter) => {
            let op = Op::TextInsert(text(), before(nth), Bytes::new(letter));
            deliver(alloc, intake, nth.saturating_add(ADDED + 1), op)
        }
        Err(AllocError) => None,
    }
}

/// Whether a delivery is told so: the first edit of the chain wakes all others, and each of these is held.
fn is_told(nth: u64, told: Option<Delivered>) -> bool {
    match told {
        Some(told) if nth == 0 => told.state == State::Taken && told.woken as u64 == CHAIN - 1,
        Some(told) => told.state == State::Held && told.woken == 0,
        None => false,
    }
}

/// Delivers the edits of the chain, the last one first; whether each is told so.
fn are_told(alloc: Global, intake: &mut Intake) -> bool {
    for k in 1..=CHAIN {
        let nth = CHAIN - k;
        if !is_told(nth, deliver_nth(alloc, intake, nth)) {
            return false;
        }
    }
    true
}

/// Whether these are the letters of the chain.
fn are_letters(bytes: &[u8]) -> bool {
    for (nth, byte) in bytes.iter().enumerate() {
        if *byte != letter(nth as u64) {
            return false;
        }
    }
    bytes.len() as u64 == CHAIN
}

/// Whether a document holds nothing, and its text has all letters in their order.
fn is_whole(document: &Document) -> bool {
    match document.text(text()) {
        Ok(bytes) => document.held() == 0 && are_letters(bytes.as_slice()),
        Err(_) => false,
    }
}

// A function that owns a document is dear to prove, so this one does little else.
fn is_taken_back(alloc: Global) -> bool {
    let mut intake = Intake::of(Document::new(alloc, 7));
    let is_begun = deliver(alloc, &mut intake, ADDED, Op::TextAdd).is_some();
    is_begun && are_told(alloc, &mut intake) && is_whole(&intake.close())
}

#[test]
fn a_long_chain_comes_last_first(rt: HostRuntime) {
    assert!(rt; is_taken_back(rt.alloc()));
}
