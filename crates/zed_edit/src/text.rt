//! What edits do to a text.

ghost use Rattle.std.specs.Prelude.{◌≡◌, ◌≤◌, ◌<◌, ◌^◌, ◌++◌, ◌-◌, ◌∷◌, [], take, drop, length, IfOk, IfErr, IfSome};
ghost use Rattle.std.specs.List.{position};
ghost use Rattle.zed_types.specs.Names.{same_element};
ghost use Rattle.zed_types.specs.Text.{run_from, put_after, kill, kill_within, is_within as is_in_range};
ghost use Rattle.zed_edit.specs.Document.{text_if, change_texts};

use crate::plain::Text;
use std::alloc::{AllocError, Global};
use zed_op::EditError;
use zed_types::{ByteRange, ElemId, Seq, Stamp, TextByte, TextId};

/// The bytes of an insertion under their names.
pub(crate) fn run_of(alloc: Global, stamp: Stamp, bytes: &[u8]) -> Result<Vec<TextByte>, AllocError>
    requires { length bytes.now < 2 ^ 32 }
    ensures { IfOk result (λ run. run.items ≡ run_from stamp 0 bytes.now) }
{
    let mut run = Vec::with_capacity(alloc, bytes.len())?;
    for (i, byte) in bytes.iter().enumerate() {
        run.push(TextByte {
            id: ElemId::new(stamp, i as u32),
            byte: *byte,
            alive: true,
        })?;
    }
    Ok(run)
}

fn place_of(elements: &Seq<TextByte>, a: ElemId) -> Option<usize>
    ensures place { result ≡ position (λ x. same_element x.id a) elements.now }
    ensures bound { IfSome result (λ i. i < 2 ^ 64 - 1) }
{
    elements.as_slice().iter().position(|x| x.id == a)
}

/// Puts a run directly after the byte named, or at the head.
fn put_run(
    elements: &mut Seq<TextByte>,
    after: Option<ElemId>,
    run: Vec<TextByte>,
) -> Result<(), AllocError>
    ensures { IfOk result (λ _. elements.new ≡ put_after after run.items elements.old) }
{
    match after {
        None => elements.insert_all(0, run),
        Some(a) => {
            match place_of(elements, a) {
                Some(i) => elements.insert_all(i + 1, run),
                None => Ok(()),
            }
        }
    }
}

/// Where an edit puts bytes, and the stamp that names them.
#[derive(Clone, Copy)]
pub(crate) struct Insertion {
    pub(crate) text: TextId,
    pub(crate) after: Option<ElemId>,
    pub(crate) stamp: Stamp,
}

fn insert_if(alloc: Global, text: &mut Text, put: Insertion, bytes: &[u8]) -> Result<(), EditError>
    requires { length bytes.now < 2 ^ 32 }
    ensures put { IfOk result (λ _.
        text.new ≡ text_if put.text (put_after put.after (run_from put.stamp 0 bytes.now)) text.old) }
    ensures err { IfErr result (λ e. e ≡ EditError.Memory) }
{
    if text.id == put.text {
        let run = run_of(alloc, put.stamp, bytes)?;
        put_run(&mut text.elements, put.after, run)?;
    }
    Ok(())
}

/// Puts the bytes of an insertion into the text of a name.
pub(crate) fn insert_bytes(
    alloc: Global,
    texts: &mut [Text],
    put: Insertion,
    bytes: &[u8],
) -> Result<(), EditError>
    requires { length bytes.now < 2 ^ 32 }
    ensures put { IfOk result (λ _. texts.new
        ≡ change_texts put.text (put_after put.after (run_from put.stamp 0 bytes.now)) texts.old) }
    ensures err { IfErr result (λ e. e ≡ EditError.Memory) }
{
    for x in texts.iter_mut() {
        insert_if(alloc, x, put, bytes)?;
    }
    Ok(())
}

fn is_within(range: ByteRange, a: ElemId) -> bool
    ensures { result ≡ is_in_range range a }
{
    a.name.stamp == range.stamp && range.first <= a.name.index && a.name.index <= range.last
}

fn kill_if(element: &mut TextByte, range: ByteRange)
    ensures { element.new ≡ kill_within range element.old }
{
    if is_within(range, element.id) {
        element.alive = false;
    }
}

fn kill_bytes(elements: &mut [TextByte], range: ByteRange)
    ensures { elements.new ≡ kill range elements.old }
{
    for x in elements.iter_mut() {
        kill_if(x, range);
    }
}

fn delete_if(text: &mut Text, t: TextId, range: ByteRange)
    ensures { text.new ≡ text_if t (kill range) text.old }
{
    if text.id == t {
        kill_bytes(text.elements.as_mut_slice(), range);
    }
}

/// Marks bytes of the text of a name dead.
pub(crate) fn delete_bytes(texts: &mut [Text], t: TextId, range: ByteRange)
    ensures { texts.new ≡ change_texts t (kill range) texts.old }
{
    for x in texts.iter_mut() {
        delete_if(x, t, range);
    }
}
