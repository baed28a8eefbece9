//! What is printed of what was undone, or would be. No contract says what that is.
use std::alloc::{AllocError, Global};
use zed_document::Document;
use zed_log::{Length, marked_line_at, put_number, put_text};
use zed_op::{Edit, Op};
use zed_undo::{marked, needs};

// How many edits of those that are left need one that isn't.
fn needing(document: &Document, left: &Document) -> usize {
    let mut count: usize = 0;
    for edit in left.edits() {
        if needs(document, left, edit) {
            count = count.saturating_add(1);
        }
    }
    count
}

// How many of these are of the author.
fn own_needing(document: &Document, left: &Document, replica: u16) -> usize {
    let mut count: usize = 0;
    for edit in left.edits() {
        if edit.stamp.replica == replica && needs(document, left, edit) {
            count = count.saturating_add(1);
        }
    }
    count
}

// How many stats new edits make anew: those that they remove and add again.
fn made_anew(edits: &[Edit]) -> usize {
    let mut added: usize = 0;
    let mut removed: usize = 0;
    for edit in edits {
        match &edit.op {
            Op::StatAdd(_, _) => added = added.saturating_add(1),
            Op::StatRemove(_) => removed = removed.saturating_add(1),
            _ => {}
        }
    }
    added.min(removed)
}

// Appends a count and its words, unless it is none.
fn put_count(out: &mut Vec<u8>, count: usize, words: &str) -> Result<(), AllocError> {
    if count == 0 {
        return Ok(());
    }
    put_text(out, ", ")?;
    put_number(out, count as u64)?;
    put_text(out, words)
}

// Appends the stamp of an edit.
fn put_stamp(out: &mut Vec<u8>, edit: &Edit) -> Result<(), AllocError> {
    put_number(out, edit.stamp.time)?;
    put_text(out, ".")?;
    put_number(out, u64::from(edit.stamp.replica))
}

// Appends how many edits were taken, how many there are then, and the stamps of the new ones.
fn put_taken(out: &mut Vec<u8>, had: usize, edits: &[Edit]) -> Result<(), AllocError> {
    put_number(out, edits.len() as u64)?;
    put_text(out, " taken, ")?;
    put_number(out, had.saturating_add(edits.len()) as u64)?;
    put_text(out, " edits")?;
    if let (Some(first), Some(last)) = (edits.first(), edits.last()) {
        put_text(out, ": ")?;
        put_stamp(out, first)?;
        if edits.len() > 1 {
            put_text(out, " to ")?;
            put_stamp(out, last)?;
        }
    }
    put_text(out, "\n")
}

// Appends the lines of the edits that are marked.
fn put_marked(out: &mut Vec<u8>, document: &Document, marks: &[bool]) -> Result<(), AllocError> {
    for (edit, mark) in document.edits().iter().zip(marks.iter()) {
        if *mark {
            marked_line_at(edit, document.is_held(edit.stamp), Length::Short, out)?;
        }
    }
    Ok(())
}

// Appends the lines of the edits that go with them, marked so.
fn put_needing(out: &mut Vec<u8>, document: &Document, left: &Document) -> Result<(), AllocError> {
    for edit in left.edits() {
        if needs(document, left, edit) {
            put_text(out, "with it ")?;
            marked_line_at(edit, false, Length::Short, out)?;
        }
    }
    Ok(())
}

// Appends how many edits are undone, what goes with them, and what was taken for that.
fn put_counts(
    out: &mut Vec<u8>,
    document: &Document,
    left: &Document,
    replica: u16,
    marks: &[bool],
    edits: &[Edit],
) -> Result<(), AllocError> {
    let own = own_needing(document, left, replica);
    let others = needing(document, left).saturating_sub(own);
    put_number(out, marked(marks) as u64)?;
    put_text(out, " undone")?;
    put_count(out, own, " of yours with them")?;
    put_count(out, others, " of others with them")?;
    put_count(out, made_anew(edits), " stats made anew")?;
    put_text(out, "\n")?;
    put_taken(out, document.edits().len(), edits)
}

/// What is told of edits of a document that were undone by these.
pub(crate) fn undone_text(
    alloc: Global,
    document: &Document,
    left: &Document,
    replica: u16,
    marks: &[bool],
    edits: &[Edit],
) -> Result<Vec<u8>, AllocError> {
    let mut out = Vec::new(alloc);
    put_counts(&mut out, document, left, replica, marks, edits)?;
    Ok(out)
}

/// The same of edits that would be undone, behind their lines and those of what goes with them.
pub(crate) fn trial_text(
    alloc: Global,
    document: &Document,
    left: &Document,
    replica: u16,
    marks: &[bool],
    edits: &[Edit],
) -> Result<Vec<u8>, AllocError> {
    let mut out = Vec::new(alloc);
    put_marked(&mut out, document, marks)?;
    put_needing(&mut out, document, left)?;
    put_counts(&mut out, document, left, replica, marks, edits)?;
    Ok(out)
}
