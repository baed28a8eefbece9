//! What any document does: it takes the edit that makes the world, and saves it; and thousands of deliveries take few growths.
use crate::pieces::{EMPTY, made_of};
use std::alloc::Global;
use test_rows::{MOST, refuse, was_refused};
use zed_document::{Document, State};
use zed_export::save;
use zed_op::{Edit, Op};
use zed_types::{BODY_LIMIT, BoardId, Bytes, Rectangle, Stamp, Tile};

/// How many edits come behind the first.
const MANY: u64 = 2_000;

/// Delivers an edit; whether it was taken.
fn takes(document: &mut Document, stamp: Stamp, op: Op) -> bool {
    match document.deliver(Edit { stamp, op }) {
        Ok(told) => told.state == State::Taken,
        Err(_) => false,
    }
}

/// Delivers the edit that makes the world.
fn begins(alloc: Global, document: &mut Document) -> bool {
    let world = Bytes::new(made_of(alloc, EMPTY));
    takes(document, Stamp::GENESIS, Op::Genesis(world))
}

/// Whether it is saved as these bytes.
fn saves(alloc: Global, document: &Document, wanted: &[u8]) -> bool {
    match save(alloc, document, BODY_LIMIT) {
        Ok(file) => file.as_slice() == wanted,
        Err(_) => false,
    }
}

fn is_saved(alloc: Global) -> bool {
    let mut document = Document::new(alloc, 7);
    begins(alloc, &mut document) && saves(alloc, &document, made_of(alloc, EMPTY).as_slice())
}

/// The world of one board is delivered, and its file of 710 bytes saved: neither call just answers that memory lacks.
#[test]
fn a_new_document_is_made_and_saved(rt: HostRuntime) {
    assert!(rt; made_of(rt.alloc(), EMPTY).len() == 710 && is_saved(rt.alloc()));
}

/// Sets the cell at (5,5) of the title at a time.
fn sets(document: &mut Document, time: u64) -> bool {
    let cells = Rectangle {
        left: 5,
        top: 5,
        right: 5,
        bottom: 5,
    };
    let stamp = Stamp { time, replica: 1 };
    takes(
        document,
        stamp,
        Op::SetCells(BoardId::TITLE, cells, Tile::EMPTY),
    )
}

/// Sets it at many times, whose order is that of the stamps.
fn sets_many(document: &mut Document) -> bool {
    for k in 0..MANY {
        if !sets(document, k.saturating_add(2)) {
            return false;
        }
    }
    true
}

/// Whether so many deliveries take fewer growths than can be refused, which are twice as many: in a body that replays the edits before, or
/// copies them, at each delivery it would be a thousand times as many.
fn take_few_growths(alloc: Global, document: &mut Document) -> bool {
    refuse(alloc, MOST);
    let are_taken = sets_many(document);
    !was_refused(alloc) && are_taken
}

fn deliveries_take_few(alloc: Global) -> bool {
    let mut document = Document::new(alloc, 7);
    begins(alloc, &mut document) && take_few_growths(alloc, &mut document)
}

#[test]
fn many_deliveries_take_few_growths_refused(rt: HostRuntime) {
    assert!(rt; deliveries_take_few(rt.alloc()));
}
