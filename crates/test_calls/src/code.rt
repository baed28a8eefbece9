//! Texts whose growths are refused, which a document that is stale then doesn't show.
ghost use Rattle.std.specs.Prelude.{◌≡◌, ◌∷◌, [], IfOk};
ghost use Rattle.zed_types.specs.Text.{run_from};
ghost use Rattle.zed_types.specs.Stamp.{genesis_stamp};
ghost use Rattle.zed_code.specs.Text.{elements};

use crate::growths::{refuse_each, turn_of};
use crate::stamps::{first_of, stamp};
use std::alloc::{AllocError, Global};
use test_rows::{Turn, refuse, was_refused};
use zed_code::Text;
use zed_types::{ElemId, Stamp};

/// The stamps of edits that put bytes.
const X: Stamp = stamp!(2, 1);

const Y: Stamp = stamp!(2, 2);

/// The text `AB` of the edit that makes the world.
fn letters(alloc: Global) -> Result<Text, AllocError>
    ensures { IfOk result (λ t. elements t ≡ run_from genesis_stamp 0 (65 ∷ 66 ∷ [])) }
{
    Text::genesis(alloc, b"AB")
}

/// Whether a text has these bytes.
fn reads(text: &Text, wanted: &[u8]) -> bool {
    match text.text() {
        Ok(bytes) => bytes.as_slice() == wanted,
        Err(AllocError) => false,
    }
}

fn genesis_once(alloc: Global, nth: usize) -> Turn {
    refuse(alloc, nth);
    match letters(alloc) {
        Ok(text) => turn_of(alloc, text.length() == 2, false),
        Err(AllocError) => turn_of(alloc, false, true),
    }
}

#[test]
fn each_growth_of_a_first_text_refused(rt: HostRuntime) {
    assert!(rt; refuse_each!(nth => genesis_once(rt.alloc(), nth)));
}

fn text_once(alloc: Global, text: &Text, nth: usize) -> Turn {
    refuse(alloc, nth);
    match text.text() {
        Ok(bytes) => turn_of(alloc, bytes.as_slice() == b"AB".as_slice(), false),
        Err(AllocError) => turn_of(alloc, false, true),
    }
}

fn reads_each(alloc: Global, text: &Text) -> bool {
    refuse_each!(nth => text_once(alloc, text, nth))
}

fn letters_read_each(alloc: Global) -> bool {
    match letters(alloc) {
        Ok(text) => reads_each(alloc, &text),
        Err(AllocError) => false,
    }
}

#[test]
fn each_growth_of_the_bytes_refused(rt: HostRuntime) {
    assert!(rt; letters_read_each(rt.alloc()));
}

/// Whether what a text of two letters tells is so.
fn tells(text: &Text) -> bool {
    let (first, second) = (
        ElemId::new(Stamp::GENESIS, 0),
        ElemId::new(Stamp::GENESIS, 1),
    );
    text.length() == 2
        && text.byte_at(1) == Some(b'B')
        && text.elem_at(0) == Some(first)
        && text.has(second)
        && text.visits() == 0
        && text.same(text)
}

/// Whether that is told without memory.
fn tells_without_memory(alloc: Global, text: &mut Text) -> bool {
    refuse(alloc, 1);
    text.hint(ElemId::new(Stamp::GENESIS, 1));
    let is_told = tells(text);
    !was_refused(alloc) && is_told
}

fn letters_tell(alloc: Global) -> bool {
    match letters(alloc) {
        Ok(mut text) => tells_without_memory(alloc, &mut text),
        Err(AllocError) => false,
    }
}

/// Whether a text without a byte is made without memory.
fn begins_without_memory(alloc: Global) -> bool {
    refuse(alloc, 1);
    let text = Text::new(alloc);
    !was_refused(alloc) && text.length() == 0 && text.visits() == 0
}

#[test]
fn a_text_without_a_byte_takes_no_memory_refused(rt: HostRuntime) {
    assert!(rt; begins_without_memory(rt.alloc()));
}

#[test]
fn readers_take_no_memory_refused(rt: HostRuntime) {
    assert!(rt; letters_tell(rt.alloc()));
}

/// Whether insertions of nothing look at no run of an empty text, and at the one run of another, and leave the bytes.
fn nothing_is_put(alloc: Global) -> Result<bool, AllocError> {
    let mut text = Text::new(alloc);
    text.insert(None, X, b"")?;
    let first = text.visits();
    text.insert(None, X, b"x")?;
    let before = text.visits();
    text.insert(None, Y, b"")?;
    Ok(first == 0 && text.visits().checked_sub(before) == Some(1) && reads(&text, b"x"))
}

#[test]
fn an_insertion_of_nothing_changes_nothing(rt: HostRuntime) {
    assert!(rt; matches!(nothing_is_put(rt.alloc()), Ok(true)));
}

/// Inserts with a growth refused. Then the text is as it was, and takes the insertion when that is tried again.
fn insert_once(alloc: Global, nth: usize) -> Result<Turn, AllocError> {
    let mut text = Text::genesis(alloc, b"ABC")?;
    text.delete(Stamp::GENESIS, 1, 1)?;
    refuse(alloc, nth);
    let answer = text.insert(first_of(Stamp::GENESIS), X, b"x");
    if !was_refused(alloc) {
        let is_whole = answer.is_ok() && reads(&text, b"AxC");
        return Ok(test_rows::turn_of(false, is_whole, false));
    }
    if answer.is_ok() || !reads(&text, b"AC") {
        return Ok(Turn::Wrong);
    }
    text.insert(first_of(Stamp::GENESIS), X, b"x")?;
    Ok(test_rows::turn_of(true, false, reads(&text, b"AxC")))
}

/// Deletes with a growth refused, and then the text is as it was.
fn delete_once(alloc: Global, nth: usize) -> Result<Turn, AllocError> {
    let mut text = letters(alloc)?;
    text.insert(first_of(Stamp::GENESIS), X, b"x")?;
    refuse(alloc, nth);
    let is_done = text.delete(Stamp::GENESIS, 0, 0).is_ok();
    let was_refused = was_refused(alloc);
    let is_whole = is_done && reads(&text, b"xB");
    let is_kept = !is_done && reads(&text, b"AxB");
    Ok(test_rows::turn_of(was_refused, is_whole, is_kept))
}

#[test]
fn a_refused_growth_leaves_the_text(rt: HostRuntime) {
    let alloc = rt.alloc();
    assert!(rt; refuse_each!(nth => insert_once(alloc, nth).unwrap_or(Turn::Wrong)));
    assert!(rt; refuse_each!(nth => delete_once(alloc, nth).unwrap_or(Turn::Wrong)));
}
