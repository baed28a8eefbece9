//! Edits that lead from what a base shows to a world.
ghost use Rattle.std.specs.Prelude.{◌≡◌, ◌⊎◌, Err, IfErr, IfOk, Ok, OnOk};
ghost use Rattle.zed_world.specs.Reading.{world_at};
ghost use Rattle.zed_world.specs.Writing.{HasText, world_text};
ghost use Rattle.zed_edit.specs.Replay.{replay};
ghost use Rattle.zed_export.specs.Limits.{saved};
ghost use Rattle.zed_export.specs.World.{world_of};
ghost use Rattle.zed_take.specs.Refusals.{CanBegin, IsBase, IsLate, IsOver, IsOverFirst, IsRefused, IsWithin, over_told};
ghost use Rattle.zed_take.specs.Taken.{AreTaken, Joins, LeadsTo, next_stamp as stamp_after};

use crate::checking::{are_from, check_fit, file_with};
use crate::error::TakeError;
use crate::plan_error::PlanError;
use crate::planning::plan_edits;
use std::alloc::{AllocError, Global};
use zed_document::Document;
use zed_export::{ExportError, export, save};
use zed_history::next_stamp;
use zed_op::Edit;
use zed_types::{READ_BODY_LIMIT, Stamp};
use zed_world::{World, WorldError, write_world};

/// Why a world can't be written: a board is too large.
fn over_of(error: WorldError) -> Option<TakeError>
    ensures { result ≡ over_told error }
{
    match error {
        WorldError::BoardOver { board, bytes } => Some(TakeError::WorldOver { board, bytes }),
        _ => None,
    }
}

/// The text of a world. A board that is too large is refused before any want of memory.
fn text_of(alloc: Global, world: &World) -> Result<Result<Vec<u8>, AllocError>, TakeError>
    ensures fits { OnOk result (HasText 32767 world.now) }
    ensures text { IfOk result (λ r. IfOk r (λ text. text.items ≡ world_text world.now)) }
    ensures back { IfOk result (λ r. IfOk r (λ text. world_at text.items ≡ Ok world.now)) }
    ensures over { IfErr result (IsOver world.now) }
{
    match write_world(alloc, world, READ_BODY_LIMIT) {
        Ok(text) => Ok(Ok(text)),
        Err(error) => match over_of(error) {
            Some(over) => Err(over),
            None => Ok(Err(AllocError)),
        },
    }
}

/// The file of a base. Its refusals come before any want of memory.
fn file_of(alloc: Global, base: &Document) -> Result<Result<Vec<u8>, AllocError>, TakeError>
    ensures fine { OnOk result (IsWithin base.now) }
    ensures saved { IfOk result (λ r. IfOk r (λ file.
        saved 32767 (replay base.now.edits) ≡ Ok file.items)) }
    ensures back { IfOk result (λ r. IfOk r (λ file.
        world_at file.items ≡ Ok (world_of (replay base.now.edits)))) }
    ensures base { IfErr result (IsBase base.now) }
{
    match save(alloc, base, READ_BODY_LIMIT) {
        Ok(file) => Ok(Ok(file)),
        Err(ExportError::Memory) => Ok(Err(AllocError)),
        Err(error) => Err(TakeError::Base(error)),
    }
}

/// Edits that lead from a document that can be exported to a world, as they are planned.
fn planned(
    alloc: Global,
    base: &Document,
    world: &World,
    first: Stamp,
) -> Result<Vec<Edit>, PlanError> {
    let Ok(before) = export(alloc, base, READ_BODY_LIMIT) else {
        return Err(PlanError::Memory);
    };
    match base.view() {
        Ok(view) => plan_edits(alloc, &view, &before, world, first),
        Err(_) => Err(PlanError::NotTaken),
    }
}

/// Edits that were planned, once they were tried: they lead to the world whose text this is.
fn tried(
    alloc: Global,
    base: &Document,
    world: &World,
    text: &[u8],
    first: Stamp,
    edits: Vec<Edit>,
) -> Result<Vec<Edit>, PlanError>
    requires { world_at text.now ≡ Ok world.now }
    ensures { IfOk result (λ taken. LeadsTo base.now.edits world.now first taken.items) }
{
    check_fit(alloc, &edits)?;
    if !are_from(first, &edits) {
        return Err(PlanError::NotTaken);
    }
    let file = file_with(alloc, base, &edits)?;
    if file.as_slice() == text {
        Ok(edits)
    } else {
        Err(PlanError::NotTaken)
    }
}

/// Edits that lead from a base to a world, from a stamp on: none where it shows the world already.
#[tactic(auto, using(crate::proofs::Showing::shown, crate::proofs::Showing::not_shown, crate::proofs::Showing::late))]
fn sought(
    alloc: Global,
    base: &Document,
    world: &World,
    first: Stamp,
) -> Result<Vec<Edit>, TakeError>
    ensures taken { IfOk result (λ edits.
        AreTaken base.now.edits world.now first edits.items) }
    ensures fine { OnOk result (HasText 32767 world.now × IsWithin base.now) }
    ensures err { IfErr result (λ e. IsOverFirst base.now world.now e ⊎ (HasText 32767 world.now
        × IsWithin base.now × IsLate base.now.edits world.now e)) }
{
    let text = text_of(alloc, world)?;
    let file = file_of(alloc, base)?;
    let (text, file) = (text?, file?);
    if file.as_slice() == text.as_slice() {
        return Ok(Vec::new(alloc));
    }
    let edits = planned(alloc, base, world, first)?;
    Ok(tried(alloc, base, world, &text, first, edits)?)
}

/// The edits of a replica that lead from what a base shows to a world that another editor left: the
/// base with these edits shows that world. Their times follow all those of the document, one after
/// the other. The document has the edits of the base, and may have more. If the base shows the
/// world already, there are no edits.
///
/// Refusals, in order: ClockSpent if no time is left; WorldOver for the first board of the world
/// that, written again, has more than 32,767 bytes, with its number and its bytes; Base if the base
/// can't be exported at that limit, and why; then Memory, or ClockSpent if the edits need more
/// times than are left, or NotTaken if the edits that were found don't lead to the world. The last
/// two never come if the base shows the world already. The first three come before any want of
/// memory.
pub fn take(
    alloc: Global,
    document: &Document,
    base: &Document,
    world: &World,
    replica: u16,
) -> Result<Vec<Edit>, TakeError>
    ensures taken { IfOk result (λ edits. AreTaken base.now.edits world.now
        (stamp_after document.now.edits replica) edits.items) }
    ensures joins { IfOk result (λ edits. Joins document.now.edits edits.items) }
    ensures err { IfErr result (λ e. IsRefused document.now base.now world.now e
        ⊎ (CanBegin document.now base.now world.now × IsLate base.now.edits world.now e)) }

    // Just these refusals come first, before any want of memory.
    ensures refused { (e : TakeError) → IsRefused document.now base.now world.now e
        → result ≡ Err e }
{
    match next_stamp(document.edits(), replica) {
        Some(first) => sought(alloc, base, world, first),
        None => Err(TakeError::ClockSpent),
    }
}
