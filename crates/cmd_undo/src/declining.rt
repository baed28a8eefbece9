//! What is answered where nothing is undone: nothing is written or printed, a note says why, and the
//! status is 1.
ghost use Rattle.std.specs.Prelude.{◌≡◌, ◌++◌, IfOk, OnOk, string_bytes};
ghost use Rattle.cmd_undo.specs.Declining.{built_on_it, declined as declined_for, missing_front, missing_text, needed_front, needed_text, no_such};

use std::alloc::{AllocError, Global};
use zed_driver::Effect;
use zed_log::{Length, marked_line_at, put_text};
use zed_op::Edit;
use zed_types::{Bytes, Stamp};

// Nothing is undone, and this is why.
fn declined(alloc: Global, note: Vec<u8>) -> Effect
    ensures { result ≡ declined_for note.items }
{
    Effect::new(Vec::new(alloc), None, 1).with_note(Bytes::new(note))
}

fn missing_head(alloc: Global, stamp: Stamp) -> Result<String, AllocError>
    ensures { IfOk result (λ head. string_bytes head ≡ missing_front stamp) }
{
    let Stamp { time, replica } = stamp;
    format!(in alloc; "zztool: NoSuch\n{time}.{replica}")
}

#[tactic(auto, unfolding(crate::specs::Declining::no_such))]
fn put_no_such(note: &mut Vec<u8>) -> Result<(), AllocError>
    ensures { OnOk result (note.new.items ≡ note.old.items ++ no_such) }
{
    put_text(
        note,
        " is no edit that can be undone: 'log' has the stamps\n",
    )
}

fn missing_note(alloc: Global, stamp: Stamp) -> Result<Vec<u8>, AllocError>
    ensures { IfOk result (λ note. note.items ≡ missing_text stamp) }
{
    let mut note = missing_head(alloc, stamp)?.into_bytes();
    put_no_such(&mut note)?;
    Ok(note)
}

fn needed_head(alloc: Global, stamp: Stamp) -> Result<String, AllocError>
    ensures { IfOk result (λ head. string_bytes head ≡ needed_front stamp) }
{
    let Stamp { time, replica } = stamp;
    format!(in alloc; "zztool: NeededBy {time} {replica}")
}

#[tactic(auto, unfolding(crate::specs::Declining::built_on_it))]
fn put_built_on_it(note: &mut Vec<u8>) -> Result<(), AllocError>
    ensures { OnOk result (note.new.items ≡ note.old.items ++ built_on_it) }
{
    put_text(note, "\nbuilt on it: ")
}

fn needed_note(alloc: Global, edit: &Edit) -> Result<Vec<u8>, AllocError>
    ensures { IfOk result (λ note. note.items ≡ needed_text edit.now) }
{
    let mut note = needed_head(alloc, edit.stamp)?.into_bytes();
    put_built_on_it(&mut note)?;
    marked_line_at(edit, false, Length::Short, &mut note)?;
    Ok(note)
}

/// No edit of this stamp can be undone.
pub(crate) fn declined_missing(alloc: Global, stamp: Stamp) -> Result<Effect, AllocError>
    ensures { IfOk result (λ x. x ≡ declined_for (missing_text stamp)) }
{
    let note = missing_note(alloc, stamp)?;
    Ok(declined(alloc, note))
}

/// An edit of another author needs what is to be undone.
pub(crate) fn declined_needed(alloc: Global, edit: &Edit) -> Result<Effect, AllocError>
    ensures { IfOk result (λ x. x ≡ declined_for (needed_text edit.now)) }
{
    let note = needed_note(alloc, edit)?;
    Ok(declined(alloc, note))
}
