//! A text that is cut into thousands of runs, by letters typed and deleted at random places, beside a plain list of its bytes.
use std::alloc::Global;
use zed_document::{Delivered, Document, State};
use zed_op::{Edit, Op};
use zed_types::{ByteRange, Bytes, ElemId, Stamp, TextId};

/// How many bytes the text begins with, and how many edits come then.
const BEGUN: u32 = 3_000;

const TYPED: u64 = 2_000;

/// The edit `nth` has the time 4 + nth * SPREAD, and that of the time 4 + k is the edit k * BACK, each without multiples of TYPED.
const SPREAD: u64 = 777;

const BACK: u64 = 713;

/// At every so many edits the document is compared with the list.
const COMPARED: u64 = 250;

/// The most runs of a block.
const BLOCK: u64 = 64;

fn stamp(time: u64, replica: u16) -> Stamp {
    Stamp { time, replica }
}

fn text() -> TextId {
    TextId::new(stamp(2, 1), 0)
}

/// A byte of the insertion that the text begins with.
fn begun(index: u32) -> ElemId {
    ElemId::new(stamp(3, 1), index)
}

/// A number below a bound, by another number and in no order of these; 0 where the bound is 0.
fn scattered(nth: u64, bound: usize) -> usize {
    let mixed = nth.wrapping_mul(0x9e37_79b9_7f4a_7c15);
    let scattered = (mixed ^ (mixed >> 32)).wrapping_mul(0xbf58_476d_1ce4_e5b9);
    (scattered >> 33) as usize % bound.max(1)
}

/// A number of a byte. None is greater.
fn narrow(number: usize) -> u32 {
    u32::try_from(number).unwrap_or(u32::MAX)
}

/// An edit: a letter that is put behind a byte, or the deletion of the byte.
#[derive(Clone, Copy)]
struct Typed {
    stamp: Stamp,
    byte: ElemId,
    letter: Option<u8>,
}

/// A byte as it is listed.
#[derive(Clone, Copy)]
struct Listed {
    name: ElemId,
    byte: u8,
    is_alive: bool,
}

/// The list of the bytes that the text begins with.
fn first_list(alloc: Global) -> Vec<Listed> {
    let mut listed = Vec::new(alloc);
    for index in 0..BEGUN {
        let _ = listed.push(Listed {
            name: begun(index),
            byte: b'A' + (index % 26) as u8,
            is_alive: true,
        });
    }
    listed
}

/// The place behind a byte, or the head.
fn behind(listed: &[Listed], name: ElemId) -> usize {
    for (place, there) in listed.iter().enumerate() {
        if there.name == name {
            return place.saturating_add(1);
        }
    }
    0
}

/// From a place on, the first one behind all bytes of later stamps.
fn past_later(listed: &[Listed], from: usize, stamp: Stamp) -> usize {
    let mut at = from;
    for there in listed.iter().skip(from) {
        if !stamp.is_before(there.name.name.stamp) {
            return at;
        }
        at = at.saturating_add(1);
    }
    at
}

fn kill(listed: &mut [Listed], name: ElemId) {
    for there in listed.iter_mut() {
        if there.name == name {
            there.is_alive = false;
        }
    }
}

/// Puts the letter of an edit into a list.
fn put(listed: &mut Vec<Listed>, at: usize, stamp: Stamp, byte: u8) {
    let new = Listed {
        name: ElemId::new(stamp, 0),
        byte,
        is_alive: true,
    };
    let _ = listed.insert(at.min(listed.len()), new);
}

/// Puts an edit into a list that takes edits as they come, in any order of their stamps.
fn list(listed: &mut Vec<Listed>, typed: &Typed) {
    match typed.letter {
        Some(letter) => {
            let at = past_later(listed, behind(listed, typed.byte), typed.stamp);
            put(listed, at, typed.stamp, letter)
        }
        None => kill(listed, typed.byte),
    }
}

/// Puts an edit into a list that takes edits in the order of their stamps.
fn list_next(listed: &mut Vec<Listed>, typed: &Typed) {
    match typed.letter {
        Some(letter) => {
            let at = behind(listed, typed.byte);
            put(listed, at, typed.stamp, letter)
        }
        None => kill(listed, typed.byte),
    }
}

/// The list of these edits in the order of their stamps.
fn rising(alloc: Global, all: &[Typed]) -> Vec<Listed> {
    let mut listed = first_list(alloc);
    for k in 0..TYPED {
        if let Some(typed) = all.get((k.saturating_mul(BACK) % TYPED) as usize) {
            list_next(&mut listed, typed);
        }
    }
    listed
}

/// The live bytes of a list.
fn alive(alloc: Global, listed: &[Listed]) -> Vec<u8> {
    let mut bytes = Vec::new(alloc);
    for there in listed {
        if there.is_alive {
            let _ = bytes.push(there.byte);
        }
    }
    bytes
}

/// Whether the text reads as a list does.
fn reads_as(alloc: Global, document: &Document, listed: &[Listed]) -> bool {
    match document.text(text()) {
        Ok(bytes) => bytes.as_slice() == alive(alloc, listed).as_slice(),
        Err(_) => false,
    }
}

/// What the edit does that comes after so many: something at a random byte of an earlier stamp. Its own stamp is that of a random time, and
/// each time comes once.
fn next_typed(listed: &[Listed], nth: u64) -> Typed {
    let time = nth.saturating_mul(SPREAD) % TYPED + 4;
    let stamp = stamp(time, (time % 3) as u16 + 1);
    let mut byte = begun(narrow(scattered(nth, BEGUN as usize)));
    if let Some(there) = listed.get(scattered(nth, listed.len())) {
        if there.name.name.stamp.is_before(stamp) {
            byte = there.name;
        }
    }
    let letter = if nth % 8 == 7 {
        None
    } else {
        Some(b'a' + (nth % 26) as u8)
    };
    Typed {
        stamp,
        byte,
        letter,
    }
}

/// Delivers an edit; what is told of it.
fn deliver(document: &mut Document, stamp: Stamp, op: Op) -> Option<Delivered> {
    document.deliver(Edit { stamp, op }).ok()
}

/// Delivers what was typed.
fn deliver_typed(alloc: Global, document: &mut Document, typed: &Typed) -> Option<Delivered> {
    let name = typed.byte.name;
    match typed.letter {
        Some(letter) => {
            let bytes = [letter].to_vec(alloc).ok()?;
            let op = Op::TextInsert(text(), Some(typed.byte), Bytes::new(bytes));
            deliver(document, typed.stamp, op)
        }
        None => {
            let range = ByteRange {
                stamp: name.stamp,
                first: name.index,
                last: name.index,
            };
            deliver(document, typed.stamp, Op::TextDelete(text(), range))
        }
    }
}

/// Delivers the bytes that the text begins with; how many runs were looked at.
fn begin(document: &mut Document, bytes: Vec<u8>) -> Option<u64> {
    deliver(document, stamp(2, 1), Op::TextAdd)?;
    let op = Op::TextInsert(text(), None, Bytes::new(bytes));
    Some(deliver(document, stamp(3, 1), op)?.visits)
}

/// Whether an edit was taken at once, with at least one and at most so many runs looked at.
fn is_taken(told: &Delivered, most: u64) -> bool {
    told.state == State::Taken && told.woken == 0 && 1 <= told.visits && told.visits <= most
}

/// Delivers all edits, and keeps them; how many runs were looked at, or nothing where one comes out otherwise than in the list.
fn types(
    alloc: Global,
    document: &mut Document,
    listed: &mut Vec<Listed>,
    all: &mut Vec<Typed>,
) -> Option<u64> {
    let mut visits = begin(document, alive(alloc, listed.as_slice()))?;
    for nth in 0..TYPED {
        let typed = next_typed(listed.as_slice(), nth);
        let _ = all.push(typed);
        list(listed, &typed);
        let told = deliver_typed(alloc, document, &typed)?;
        visits = visits.saturating_add(told.visits);
        // each edit before cut the text into two runs more at most
        let most = nth.saturating_mul(2).saturating_add(2);
        let is_compared = nth % COMPARED == 0;
        if !is_taken(&told, most) || (is_compared && !reads_as(alloc, document, listed)) {
            return None;
        }
    }
    Some(visits)
}

/// Whether no more runs were looked at than a block has for each edit: sought from the front it would be thrice as many.
fn are_few(document: &Document, visits: u64) -> bool {
    document.visits(text()) == Ok(visits) && visits <= TYPED * BLOCK
}

// A function that owns a document is dear to prove, so this one does little else.
fn is_typed(alloc: Global, listed: &mut Vec<Listed>, all: &mut Vec<Typed>) -> bool {
    let mut document = Document::new(alloc, 7);
    match types(alloc, &mut document, listed, all) {
        Some(visits) => {
            are_few(&document, visits)
                && reads_as(alloc, &document, listed.as_slice())
                && reads_as(alloc, &document, rising(alloc, all.as_slice()).as_slice())
        }
        None => false,
    }
}

#[test]
fn letters_are_typed_at_random_places(rt: HostRuntime) {
    let alloc = rt.alloc();
    assert!(rt; is_typed(alloc, &mut first_list(alloc), &mut Vec::new(alloc)));
}
