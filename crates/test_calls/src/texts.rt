//! Texts of a document whose growths are refused, which a document that is stale then doesn't show.
ghost use Rattle.std.specs.Prelude.{◌≡◌, ◌∷◌, [], IfSome};
ghost use Rattle.zed_texts.specs.Texts.{elements_of};

use crate::growths::refuse_each;
use crate::pieces::{Piece, RUNS, made_of};
use crate::stamps::stamp;
use std::alloc::{AllocError, Global};
use test_rows::{Turn, refuse, turn_of, was_refused};
use zed_edit::made_by;
use zed_op::{Edit, Op, check};
use zed_texts::LiveTexts;
use zed_types::{ByteRange, Bytes, ElemId, Name, Stamp, TextId};

/// The stamps of the edit that adds the text, and of others.
const MADE: Stamp = stamp!(2, 1);

const FIRST: Stamp = stamp!(3, 1);

const SECOND: Stamp = stamp!(4, 2);

const LAST: Stamp = stamp!(5, 3);

const CODE: TextId = TextId {
    name: Name {
        stamp: MADE,
        index: 0,
    },
};

/// A world file of an empty title and its player, whose program is `#end`.
const WORLD: &[Piece] = &[
    (b"\xff\xff\0\0\x2a\0\x05", 505),
    (b"\xc8", 52),
    (RUNS, 0),
    (b"\xff", 65),
    (b"\x1e\x0c", 20),
    (b"\x1e\x0c\0\0\0\0\x01\0\0\0\0\xff\xff\xff\xff", 8),
    (b"\x04", 9),
    (b"#end", 0),
];

/// A text without a byte.
fn begun(alloc: Global) -> Option<LiveTexts>
    ensures { IfSome result (λ texts. elements_of texts ≡ (CODE, []) ∷ []) }
{
    let mut texts = LiveTexts::new(alloc);
    let edit = Edit {
        stamp: MADE,
        op: Op::TextAdd,
    };
    let Ok(()) = check(alloc, &edit) else {
        return None;
    };
    match texts.take(alloc, &edit) {
        Ok(()) => Some(texts),
        Err(AllocError) => None,
    }
}

/// The first byte of the first author, deleted by the third.
fn first_byte() -> ByteRange
    ensures { result ≡ record { stamp = FIRST; first = 0; last = 0 } }
{
    ByteRange {
        stamp: FIRST,
        first: 0,
        last: 0,
    }
}

/// How many live bytes the text has.
fn length_of(texts: &LiveTexts) -> usize {
    match texts.get(CODE) {
        Some(text) => text.length(),
        None => 0,
    }
}

/// Whether what the texts tell is told without memory.
fn tell_without_memory(alloc: Global, texts: &mut LiveTexts, edit: &Edit) -> bool {
    refuse(alloc, 1);
    texts.hint(edit);
    let is_told = length_of(texts) == 0
        && texts.has(CODE)
        && !texts.has_byte(CODE, ElemId::new(FIRST, 0))
        && texts.count() == 1
        && texts.looks() == 0;
    !was_refused(alloc) && is_told
}

fn are_told(alloc: Global) -> bool {
    let edit = Edit {
        stamp: LAST,
        op: Op::TextDelete(CODE, first_byte()),
    };
    match begun(alloc) {
        Some(mut texts) => tell_without_memory(alloc, &mut texts, &edit),
        None => false,
    }
}

#[test]
fn readers_take_no_memory_refused(rt: HostRuntime) {
    assert!(rt; are_told(rt.alloc()));
}

/// How a call came out that answered so, of texts that have so many texts or bytes, where there were so many, and one more is wanted.
fn turn_after(alloc: Global, answer: Result<(), AllocError>, now: usize, before: usize) -> Turn {
    let is_whole = answer.is_ok() && now == before.saturating_add(1);
    turn_of(
        was_refused(alloc),
        is_whole,
        answer.is_err() && now == before,
    )
}

/// Opens the texts of a world beside another.
fn open_once(alloc: Global, nth: usize) -> Option<Turn> {
    let edit = Edit {
        stamp: Stamp::GENESIS,
        op: Op::Genesis(Bytes::new(made_of(alloc, WORLD))),
    };
    let Ok(()) = check(alloc, &edit) else {
        return None;
    };
    let Ok(made) = made_by(alloc, &edit) else {
        return None;
    };
    let Some(mut texts) = begun(alloc) else {
        return None;
    };
    refuse(alloc, nth);
    let answer = texts.open(alloc, &edit, made.texts.as_slice());
    Some(turn_after(alloc, answer, texts.count(), 1))
}

/// Adds a first text.
fn add_once(alloc: Global, nth: usize) -> Option<Turn> {
    let edit = Edit {
        stamp: MADE,
        op: Op::TextAdd,
    };
    let Ok(()) = check(alloc, &edit) else {
        return None;
    };
    let mut texts = LiveTexts::new(alloc);
    refuse(alloc, nth);
    let answer = texts.take(alloc, &edit);
    Some(turn_after(alloc, answer, texts.count(), 0))
}

/// Takes a first insertion.
fn insert_once(alloc: Global, nth: usize) -> Option<Turn> {
    let Ok(letter) = b"x".to_vec(alloc) else {
        return None;
    };
    let edit = Edit {
        stamp: SECOND,
        op: Op::TextInsert(CODE, None, Bytes::new(letter)),
    };
    let Ok(()) = check(alloc, &edit) else {
        return None;
    };
    let Some(mut texts) = begun(alloc) else {
        return None;
    };
    refuse(alloc, nth);
    let answer = texts.take(alloc, &edit);
    Some(turn_after(alloc, answer, length_of(&texts), 0))
}

/// Takes a deletion in a text without a run.
fn delete_once(alloc: Global, nth: usize) -> Option<Turn> {
    let edit = Edit {
        stamp: LAST,
        op: Op::TextDelete(CODE, first_byte()),
    };
    let Ok(()) = check(alloc, &edit) else {
        return None;
    };
    let Some(mut texts) = begun(alloc) else {
        return None;
    };
    refuse(alloc, nth);
    let is_done = texts.take(alloc, &edit).is_ok();
    let is_one = texts.count() == 1;
    Some(turn_of(was_refused(alloc), is_done && is_one, !is_done && is_one))
}

#[test]
fn a_refused_growth_leaves_the_texts(rt: HostRuntime) {
    let alloc = rt.alloc();
    assert!(rt; refuse_each!(nth => open_once(alloc, nth).unwrap_or(Turn::Wrong)));
    assert!(rt; refuse_each!(nth => add_once(alloc, nth).unwrap_or(Turn::Wrong)));
    assert!(rt; refuse_each!(nth => insert_once(alloc, nth).unwrap_or(Turn::Wrong)));
    assert!(rt; refuse_each!(nth => delete_once(alloc, nth).unwrap_or(Turn::Wrong)));
}
