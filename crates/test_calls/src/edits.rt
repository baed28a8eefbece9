//! Edit files are fed and written with each growth refused. What is read of other edit files is in the rows of readings.
use crate::growths::{refuse_each, turn_of};
use std::alloc::Global;
use test_rows::{Turn, refuse, was_refused};
use zed_editfile::{EditFileError, EditReader, write_edit, write_head};
use zed_op::{Cause, Edit, EditError, Op, check};
use zed_types::{BoardId, Name, Rectangle, Stamp, StatId, Tile};

/// A file of one edit of world 7: replica 1 sets cell (5,5) of the title at time 2.
const ONE_CELL: &[u8] =
    b"ZED\x02\x07\0\0\0\0\0\0\0\x1b\0\0\0\x02\0\0\0\0\0\x01\0\x06\x01\0\0\0\0\0\0\0\0\0\0\0\x05\x05\x05\x05\x15\x0e";

fn one_cell() -> Edit {
    let cells = Rectangle {
        left: 5,
        top: 5,
        right: 5,
        bottom: 5,
    };
    let tile = Tile {
        element: 21,
        colour: 14,
    };
    let stamp = Stamp {
        time: 2,
        replica: 1,
    };
    Edit {
        stamp,
        op: Op::SetCells(BoardId::TITLE, cells, tile),
    }
}

/// Whether the edit of the file was read, and no other.
fn is_one_cell(edits: &[Edit]) -> bool {
    match edits {
        [edit] => edit.is_same(&one_cell()),
        _ => false,
    }
}

fn is_memory(answer: Result<(), EditFileError>) -> bool {
    matches!(answer, Err(EditFileError::Memory))
}

/// Feeds two pieces that end the file, and asks for the refusal before the first.
fn feed_on(
    alloc: Global,
    reader: &mut EditReader,
    out: &mut Vec<Edit>,
    pieces: (&[u8], &[u8]),
    nth: usize,
) -> Turn {
    refuse(alloc, nth);
    let first = reader.feed(pieces.0, out);
    let second = reader.feed(pieces.1, out);
    let is_whole = first.is_ok() && second.is_ok() && is_one_cell(out.as_slice());
    let is_memory = is_memory(second) && is_memory(reader.finish()) && out.is_empty();
    turn_of(alloc, is_whole, is_memory)
}

/// Feeds the file in pieces that end at these places, and asks for the refusal behind the first piece.
fn feed_once(alloc: Global, begun: usize, fed: usize, nth: usize) -> Turn {
    let (front, end) = ONE_CELL.split_at(fed.min(ONE_CELL.len()));
    let (begin, middle) = front.split_at(begun.min(front.len()));
    let mut out = Vec::new(alloc);
    let mut reader = EditReader::new(alloc, None);
    if reader.feed(begin, &mut out).is_err() {
        return Turn::Wrong;
    }
    feed_on(alloc, &mut reader, &mut out, (middle, end), nth)
}

#[test]
fn each_growth_of_feed_refused(rt: HostRuntime) {
    // the first piece ends inside the head, and the second inside the record
    assert!(rt; refuse_each!(nth => feed_once(rt.alloc(), 5, 30, nth)));
}

#[test]
fn each_growth_of_a_head_and_a_record_refused(rt: HostRuntime) {
    // the first piece has no byte, and the second ends inside the head
    assert!(rt; refuse_each!(nth => feed_once(rt.alloc(), 0, 5, nth)));
}

/// Whether a reader that was fed the file tells its world and that it ended well, without memory.
fn tells_without_memory(alloc: Global, reader: &EditReader) -> bool {
    refuse(alloc, 1);
    let is_told = reader.world() == Some(7) && reader.finish().is_ok();
    !was_refused(alloc) && is_told
}

/// The same of a reader that is fed the file.
fn is_told(alloc: Global) -> bool {
    let mut out = Vec::new(alloc);
    let mut reader = EditReader::new(alloc, None);
    reader.feed(ONE_CELL, &mut out).is_ok() && tells_without_memory(alloc, &reader)
}

#[test]
fn what_a_reader_tells_takes_no_memory_refused(rt: HostRuntime) {
    assert!(rt; is_told(rt.alloc()));
}

/// How a call came out that answered so and left these bytes, of which those are wanted.
fn written(alloc: Global, answer: Result<(), EditFileError>, out: &[u8], wanted: &[u8]) -> Turn {
    let is_memory = is_memory(answer) && out.is_empty();
    turn_of(alloc, answer.is_ok() && out == wanted, is_memory)
}

fn write_head_once(alloc: Global, nth: usize) -> Turn {
    let mut out = Vec::new(alloc);
    refuse(alloc, nth);
    let answer = write_head(7, &mut out);
    written(alloc, answer, out.as_slice(), ONE_CELL.split_at(12).0)
}

#[test]
fn each_growth_of_write_head_refused(rt: HostRuntime) {
    assert!(rt; refuse_each!(nth => write_head_once(rt.alloc(), nth)));
}

/// Writes an edit, which has to fit.
fn write_once(alloc: Global, edit: &Edit, nth: usize) -> Turn {
    if check(alloc, edit).is_err() {
        return Turn::Wrong;
    }
    let mut out = Vec::new(alloc);
    refuse(alloc, nth);
    let answer = write_edit(edit, &mut out);
    written(alloc, answer, out.as_slice(), ONE_CELL.split_at(12).1)
}

#[test]
fn each_growth_of_write_edit_refused(rt: HostRuntime) {
    assert!(rt; refuse_each!(nth => write_once(rt.alloc(), &one_cell(), nth)));
}

/// The first time that is too late: no edit file spells it.
const TOO_LATE: Stamp = Stamp {
    time: 281_474_976_710_656,
    replica: 1,
};

const IN_TIME: Stamp = Stamp {
    time: 9,
    replica: 1,
};

/// Whether an edit is refused for a stamp.
fn has_bad_stamp(alloc: Global, stamp: Stamp, op: Op) -> bool {
    is_bad_stamp(check(alloc, &Edit { stamp, op }))
}

fn is_bad_stamp(answer: Result<(), EditError>) -> bool {
    matches!(answer, Err(EditError::BadEdit(Cause::Stamp)))
}

#[test]
fn times_that_are_too_late(rt: HostRuntime) {
    let late = StatId {
        name: Name {
            stamp: TOO_LATE,
            index: 0,
        },
    };
    assert!(rt; has_bad_stamp(rt.alloc(), TOO_LATE, Op::TextAdd));
    assert!(rt; has_bad_stamp(rt.alloc(), IN_TIME, Op::StatRemove(late)));
}
