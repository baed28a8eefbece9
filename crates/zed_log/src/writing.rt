//! The line of an edit.
ghost use Rattle.std.specs.Prelude.{◌≡◌, ◌++◌, IfOk, OnErr, OnOk};
ghost use Rattle.zed_log.specs.Line.{line_text, marked_at, marked_line, text_at};

use crate::length::Length;
use crate::put::{put_number, put_text};
use crate::put_op::put_op_at;
use std::alloc::{AllocError, Global};
use zed_op::Edit;

#[tactic(auto, unfolding(crate::specs::Line::text_at))]
fn line_of(alloc: Global, edit: &Edit, length: Length) -> Result<Vec<u8>, AllocError>
    ensures { IfOk result (λ line. line.items ≡ text_at length edit.now) }
{
    let mut line = Vec::new(alloc);
    put_number(&mut line, edit.stamp.time)?;
    put_text(&mut line, " ")?;
    put_number(&mut line, u64::from(edit.stamp.replica))?;
    put_text(&mut line, "  ")?;
    put_op_at(&mut line, &edit.op, length)?;
    put_text(&mut line, "\n")?;
    Ok(line)
}

/// Appends the full line of an edit, with a line feed at its end: time, replica, what it does, what
/// it names and what it sets. The only refusal is want of memory; then nothing is appended.
pub fn line(edit: &Edit, out: &mut Vec<u8>) -> Result<(), AllocError>
    ensures ok { OnOk result (out.new.items ≡ out.old.items ++ line_text edit.now) }
    ensures kept { OnErr result (out.new.items ≡ out.old.items) }
{
    let line = line_of(*out.allocator(), edit, Length::Full)?;
    out.extend_from_slice(&line)
}

fn marked_line_of(
    alloc: Global,
    edit: &Edit,
    is_held: bool,
    length: Length,
) -> Result<Vec<u8>, AllocError>
    ensures { IfOk result (λ line. line.items ≡ marked_at length is_held edit.now) }
{
    let mut marked = Vec::new(alloc);
    if is_held {
        put_text(&mut marked, "held ")?;
    }
    let line = line_of(alloc, edit, length)?;
    marked.extend_from_slice(&line)?;
    Ok(marked)
}

/// Appends the line of an edit, short or in full, with the mark `held ` in front if it is held. The
/// only refusal is want of memory; then nothing is appended.
pub fn marked_line_at(
    edit: &Edit,
    is_held: bool,
    length: Length,
    out: &mut Vec<u8>,
) -> Result<(), AllocError>
    ensures ok { OnOk result (out.new.items ≡ out.old.items ++ marked_at length is_held edit.now) }
    ensures kept { OnErr result (out.new.items ≡ out.old.items) }
{
    let marked = marked_line_of(*out.allocator(), edit, is_held, length)?;
    out.extend_from_slice(&marked)
}

/// The same in full.
pub fn marked_line(edit: &Edit, is_held: bool, out: &mut Vec<u8>) -> Result<(), AllocError>
    ensures ok { OnOk result (out.new.items ≡ out.old.items ++ marked_line is_held edit.now) }
    ensures kept { OnErr result (out.new.items ≡ out.old.items) }
{
    marked_line_at(edit, is_held, Length::Full, out)
}
