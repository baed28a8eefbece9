//! The note of `take`: what it took, where that is more than cells of boards that stay.
ghost use Rattle.std.specs.Prelude.{◌≡◌, ◌<◌, ◌++◌, IfOk, OnOk, false, length, map};
ghost use Rattle.std.specs.List.{All, flat_map};
ghost use Rattle.zed_edit.specs.Replay.{replay};
ghost use Rattle.zed_laws.specs.NameOrder.{IsOrdered};
ghost use Rattle.zed_view.specs.View.{board_at};
ghost use Rattle.cmd_take.specs.Changes.{are_too_many, world_boards};
ghost use Rattle.cmd_take.specs.Note.{added_line, and_counted, board_line, board_lines, board_told, counted, counts_line, header_line, noting, removed_line, told};
ghost use Rattle.cmd_take.specs.Steps.{Gives};

use crate::changes::{Counts, counts_of, is_removed, registers_of, removals};
use crate::opening::Forcing;
use crate::reason::DrawingReason;
use smallvec::SmallVec;
use std::alloc::{AllocError, Global};
use zed_document::{Document, View};
use zed_driver::{Effect, Stop};
use zed_edit::{Edit, Op};
use zed_laws::replay_is_ordered;
use zed_log::{put_number, put_quoted, put_text};
use zed_types::{BoardText, Bytes};

// The places in a view of the boards of its world, by their numbers.
fn boards_by_number(alloc: Global, view: &View) -> SmallVec<usize, 102>
    requires { IsOrdered view.now }
    ensures boards { map (board_at view.now) result.items ≡ world_boards view.now }
    ensures within { All (λ i. i < length view.now.boards) result.items }
{
    view.first_boards(alloc, None)
}

// A count, and the word for one or for more.
#[tactic(auto, unfolding(crate::specs::Note::counted))]
fn put_counted(out: &mut Vec<u8>, count: usize, one: &str, many: &str) -> Result<(), AllocError>
    ensures { OnOk result (out.new.items ≡ out.old.items ++ counted count one.now many.now) }
{
    put_number(out, count as u64)?;
    put_text(out, " ")?;
    if count == 1 {
        put_text(out, one)
    } else {
        put_text(out, many)
    }
}

// The same behind a comma; nothing where it is 0.
#[tactic(auto, unfolding(crate::specs::Note::and_counted))]
fn put_and_counted(out: &mut Vec<u8>, count: usize, one: &str, many: &str) -> Result<(), AllocError>
    ensures { OnOk result (out.new.items ≡ out.old.items ++ and_counted count one.now many.now) }
{
    if count == 0 {
        return Ok(());
    }
    put_text(out, ", ")?;
    put_counted(out, count, one, many)
}

// A board, by its number and its name.
#[tactic(auto, unfolding(crate::specs::Note::board_told))]
fn put_board(out: &mut Vec<u8>, number: usize, name: &[u8]) -> Result<(), AllocError>
    ensures { OnOk result (out.new.items ≡ out.old.items ++ board_told number name.now) }
{
    put_text(out, "board ")?;
    put_number(out, number as u64)?;
    put_text(out, " ")?;
    put_quoted(out, name)
}

// The line of a board that was removed.
#[tactic(auto, unfolding(crate::specs::Note::removed_line))]
fn put_removed(out: &mut Vec<u8>, number: usize, name: &[u8]) -> Result<(), AllocError>
    ensures { OnOk result (out.new.items ≡ out.old.items ++ removed_line number name.now) }
{
    put_board(out, number, name)?;
    put_text(out, " removed\n")
}

// The line of one that was changed.
#[tactic(auto, unfolding(crate::specs::Note::counts_line))]
fn put_counts(
    out: &mut Vec<u8>,
    number: usize,
    name: &[u8],
    counts: &Counts,
) -> Result<(), AllocError>
    ensures { OnOk result (out.new.items ≡ out.old.items ++ counts_line number name.now counts.now) }
{
    put_board(out, number, name)?;
    put_text(out, ": ")?;
    put_counted(out, counts.cells, "cell", "cells")?;
    put_and_counted(out, counts.properties, "property", "properties")?;
    put_and_counted(out, counts.stats, "stat", "stats")?;
    put_and_counted(out, counts.programs, "program", "programs")?;
    put_text(out, "\n")
}

// The line of a board of the base, if it was removed, or more than cells of it changed.
fn put_board_line(
    out: &mut Vec<u8>,
    view: &View,
    i: usize,
    number: usize,
    edits: &[Edit],
) -> Result<(), AllocError>
    requires { i < length view.now.boards }
    ensures { OnOk result (out.new.items
        ≡ out.old.items ++ board_line edits.now number (board_at view.now i)) }
{
    let (id, _) = view.board(i);
    let name = view.properties(i).text(BoardText::Name);
    if is_removed(id, edits) {
        return put_removed(out, number, name);
    }
    let counts = counts_of(view, i, edits)?;
    if counts.is_more() {
        put_counts(out, number, name, &counts)
    } else {
        Ok(())
    }
}

// The lines of boards by their numbers.
fn put_board_lines(
    out: &mut Vec<u8>,
    view: &View,
    places: &[usize],
    edits: &[Edit],
) -> Result<(), AllocError>
    requires { All (λ i. i < length view.now.boards) places.now }
    ensures { OnOk result (out.new.items
        ≡ out.old.items ++ board_lines edits.now 0 (map (board_at view.now) places.now)) }
{
    for (number, i) in places.iter().enumerate() {
        put_board_line(out, view, *i, number, edits)?;
    }
    Ok(())
}

// The line of a board that was added.
fn put_added(out: &mut Vec<u8>, op: &Op) -> Result<(), AllocError>
    ensures { OnOk result (out.new.items ≡ out.old.items ++ added_line op.now) }
{
    match op {
        Op::BoardAdd(name) => {
            put_text(out, "board ")?;
            put_quoted(out, name.as_slice())?;
            put_text(out, " added\n")
        }
        _ => Ok(()),
    }
}

// The lines of boards that were added.
fn put_all_added(out: &mut Vec<u8>, edits: &[Edit]) -> Result<(), AllocError>
    ensures { OnOk result (out.new.items
        ≡ out.old.items ++ flat_map (λ e. added_line e.op) edits.now) }
{
    for edit in edits {
        put_added(out, &edit.op)?;
    }
    Ok(())
}

// How many registers of the header are set, if some are.
fn put_header(out: &mut Vec<u8>, edits: &[Edit]) -> Result<(), AllocError>
    ensures { OnOk result (out.new.items ≡ out.old.items ++ header_line edits.now) }
{
    let count = registers_of(edits)?;
    if count == 0 {
        return Ok(());
    }
    put_text(out, "world: ")?;
    put_counted(out, count, "register", "registers")?;
    put_text(out, "\n")
}

// The lines of edits that were taken beside what a view shows, whose boards are at these places.
fn note_of(
    alloc: Global,
    view: &View,
    places: &[usize],
    edits: &[Edit],
) -> Result<Vec<u8>, AllocError>
    requires { All (λ i. i < length view.now.boards) places.now }
    ensures { IfOk result (λ text. text.items
        ≡ header_line edits.now ++ board_lines edits.now 0 (map (board_at view.now) places.now)
        ++ flat_map (λ e. added_line e.op) edits.now) }
{
    let mut out = Vec::new(alloc);
    put_header(&mut out, edits)?;
    put_board_lines(&mut out, view, places, edits)?;
    put_all_added(&mut out, edits)?;
    Ok(out)
}

// Whether so many boards that go are more than half of so many, the title beside, and that isn't
// forced.
fn are_too_many(forcing: Forcing, boards: usize, removed: usize) -> bool
    ensures { result ≡ are_too_many forcing boards removed }
{
    match forcing {
        Forcing::Careful => boards.saturating_sub(1) / 2 < removed,
        Forcing::Forced => false,
    }
}

// The note of edits that are taken beside what a view shows.
fn told_of(
    alloc: Global,
    forcing: Forcing,
    view: &View,
    edits: &[Edit],
) -> Result<Vec<u8>, Stop<DrawingReason>>
    requires { IsOrdered view.now }
    ensures { Gives (λ note. note.items) (λ r. r ≡ told forcing view.now edits.now) result }
{
    let order = boards_by_number(alloc, view);
    let places = order.as_slice();
    let removed = removals(edits)?;
    if are_too_many(forcing, places.len(), removed) {
        return Err(Stop::Refused(DrawingReason::TakesAway(removed)));
    }
    Ok(note_of(alloc, view, places, edits)?)
}

/// The note of edits that are taken beside a base. TakesAway if more than half of its boards beside
/// the title go, and that isn't forced; Memory.
pub(crate) fn told(
    alloc: Global,
    forcing: Forcing,
    base: &Document,
    edits: &Vec<Edit>,
) -> Result<Vec<u8>, Stop<DrawingReason>>
    requires { base.now.is_stale ≡ false }
    ensures { Gives (λ note. note.items)
        (λ r. r ≡ told forcing (replay base.now.edits) edits.now.items) result }
{
    // Its contract says that the edits rise, as the law wants it.
    base.edits();
    replay_is_ordered();
    match base.view() {
        Ok(view) => told_of(alloc, forcing, &view, edits.as_slice()),
        // it isn't stale
        Err(_) => Err(Stop::Memory),
    }
}

/// The same effect with a note that says something.
pub(crate) fn noting(effect: Effect, note: Vec<u8>) -> Effect
    ensures { result ≡ noting note.items effect }
{
    if note.is_empty() {
        effect
    } else {
        effect.with_note(Bytes::new(note))
    }
}
