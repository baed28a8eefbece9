//! Edits that lead to the world of those that are left.
ghost use Rattle.std.specs.Prelude.{◌≡◌, ◌≢◌, ◌⊎◌, ◌++◌, IfErr, IfOk, IfSome, MatchOption, Ok, OnOk, false};
ghost use Rattle.std.specs.Bool.{OnFalse};
ghost use Rattle.zed_world.specs.Contents.{Contents};
ghost use Rattle.zed_world.specs.Writing.{HasText, world_text};
ghost use Rattle.zed_edit.specs.Replay.{replay};
ghost use Rattle.zed_export.specs.declared.error.ExportError.TheVariants.{Memory as LacksMemory};
ghost use Rattle.zed_export.specs.Limits.{saved};
ghost use Rattle.zed_op.specs.Set.{AllFit, union};
ghost use Rattle.zed_take.specs.Refusals.{CanBegin, IsLate, IsRefused};
ghost use Rattle.zed_take.specs.declared.error.TakeError.TheVariants.{Memory};
ghost use Rattle.zed_take.specs.Taken.{AreFrom, AreTaken, LeadsTo, Shows, next_stamp as stamp_after};

use crate::plan_error::PlanError;
use crate::planning::plan_edits;
use std::alloc::{AllocError, Global};
use zed_document::{Document, DocumentError, copies_of};
use zed_export::{ExportError, save};
use zed_history::next_stamp;
use zed_op::{Edit, EditError, check, rising_lists_are_sets};
use zed_take::{TakeError, take};
use zed_types::{READ_BODY_LIMIT, Stamp};
use zed_world::{World, WorldError, write_world};

// Whether all edits fit.
fn check_fit(alloc: Global, edits: &[Edit]) -> Result<(), PlanError>
    ensures { OnOk result (AllFit edits.now) }
{
    for edit in edits {
        match check(alloc, edit) {
            Ok(()) => {}
            Err(EditError::Memory) => return Err(PlanError::Memory),
            Err(EditError::BadEdit(_)) => return Err(PlanError::NotPlanned),
        }
    }
    Ok(())
}

// Refuses edits that aren't those of one replica, time after time from a first stamp on.
fn check_stamps(first: Stamp, edits: &[Edit]) -> Result<(), PlanError>
    ensures { OnOk result (AreFrom first edits.now) }
{
    let mut stamp = first;
    for edit in edits {
        if edit.stamp != stamp || stamp.time > Stamp::LAST_TIME {
            return Err(PlanError::NotPlanned);
        }
        stamp = Stamp {
            time: stamp.time + 1,
            replica: stamp.replica,
        };
    }
    Ok(())
}

// A document of its own with the edits of another one.
fn copy_of(alloc: Global, document: &Document) -> Result<Document, PlanError>
    ensures edits { IfOk result (λ copy. copy.edits ≡ document.now.edits) }
    ensures sound { IfOk result (λ copy. copy.is_stale ≡ false) }
{
    rising_lists_are_sets();
    document.edits();
    let mut copy = Document::new(alloc, document.world());
    match copy.merge(document) {
        Ok(()) => Ok(copy),
        Err(_) => Err(PlanError::Memory),
    }
}

// Joins edits that fit to a document, where none of them clashes.
fn join(document: &mut Document, edits: Vec<Edit>) -> Result<(), PlanError>
    requires fit { AllFit edits.items }
    requires sound { document.old.is_stale ≡ false }
    ensures { OnOk result (document.new.edits ≡ union document.old.edits edits.items) }
{
    match document.deliver_all(edits) {
        Ok(()) => Ok(()),
        Err(DocumentError::Memory) => Err(PlanError::Memory),
        Err(_) => Err(PlanError::NotPlanned),
    }
}

// A document of its own with the edits of another one and these beside.
fn copy_with(alloc: Global, document: &Document, edits: &[Edit]) -> Result<Document, PlanError>
    requires { AllFit edits.now }
    ensures { IfOk result (λ copy. copy.edits ≡ union document.now.edits edits.now) }
{
    let mut copy = copy_of(alloc, document)?;
    join(&mut copy, copies_of(alloc, edits)?)?;
    Ok(copy)
}

// The edits that a document takes, which is its own base.
fn taken(
    alloc: Global,
    document: &Document,
    world: &World,
    replica: u16,
) -> Result<Vec<Edit>, PlanError>
    ensures { IfOk result (λ edits. AreTaken document.now.edits world.now
        (stamp_after document.now.edits replica) edits.items) }
{
    match take(alloc, document, document, world, replica) {
        Ok(edits) => Ok(edits),
        Err(TakeError::Memory) => Err(PlanError::Memory),
        Err(_) => Err(PlanError::NotPlanned),
    }
}

// One list of edits behind another.
fn joined(edits: Vec<Edit>, rest: Vec<Edit>) -> Result<Vec<Edit>, PlanError>
    ensures { IfOk result (λ all. all.items ≡ edits.items ++ rest.items) }
{
    let mut all = edits;
    let mut rest = rest;
    all.append(&mut rest)?;
    Ok(all)
}

// Edits that were planned, and behind them those that lead on to a world.
fn followed(
    alloc: Global,
    document: &Document,
    world: &World,
    replica: u16,
    edits: Vec<Edit>,
) -> Result<Vec<Edit>, PlanError>
    requires { AllFit edits.items }
    ensures { IfOk result (λ all. AllFit all.items
        × Shows (union document.now.edits all.items) world.now) }
{
    let with = copy_with(alloc, document, edits.as_slice())?;
    let rest = taken(alloc, &with, world, replica)?;
    joined(edits, rest)
}

// Edits from a first stamp on that lead to the world of another document, begun with its boards, stats and texts.
#[tactic(auto, using(crate::proofs::Led::leads_so))]
fn by_names(
    alloc: Global,
    document: &Document,
    left: &Document,
    world: &World,
    first: Stamp,
) -> Result<Vec<Edit>, PlanError>
    requires { first ≡ stamp_after document.now.edits first.replica }
    ensures { IfOk result (λ edits. LeadsTo document.now.edits world.now first edits.items) }
{
    let edits = plan_edits(alloc, document, left, first)?;
    if edits.is_empty() {
        return Err(PlanError::NotPlanned);
    }
    check_fit(alloc, &edits)?;
    let all = followed(alloc, document, world, first.replica, edits)?;
    check_stamps(first, &all)?;
    Ok(all)
}

// Refuses want of memory alone.
fn check_memory(error: ExportError) -> Result<(), AllocError>
    ensures { OnOk result (error ≡ LacksMemory → ⊥) }
{
    match error {
        ExportError::Memory => Err(AllocError),
        _ => Ok(()),
    }
}

// The world file of a document. None if it is over a limit, and shows no world.
fn file_of(alloc: Global, document: &Document) -> Result<Option<Vec<u8>>, AllocError>
    requires { document.now.is_stale ≡ false }
    ensures { IfOk result (λ o. MatchOption o
        ((w : Contents) → Shows document.now.edits w → ⊥)
        (λ file. saved 32767 (replay document.now.edits) ≡ Ok file.items)) }
{
    match save(alloc, document, READ_BODY_LIMIT) {
        Ok(file) => Ok(Some(file)),
        Err(error) => {
            check_memory(error)?;
            Ok(None)
        }
    }
}

// The text of a world, if it can be written: it is None only if a board is over the limit.
fn text_of(alloc: Global, world: &World) -> Result<Option<Vec<u8>>, AllocError>
    ensures { IfOk result (λ o. MatchOption o (HasText 32767 world.now → ⊥)
        (λ text. text.items ≡ world_text world.now)) }
{
    match write_world(alloc, world, READ_BODY_LIMIT) {
        Ok(text) => Ok(Some(text)),
        Err(error) => match error {
            WorldError::Memory => Err(AllocError),
            _ => Ok(None),
        },
    }
}

// Whether a file has the text of a world: false only where it hasn't.
fn may_be(alloc: Global, file: &[u8], world: &World) -> Result<bool, AllocError>
    ensures { IfOk result (λ b. OnFalse b (file.now ≢ world_text world.now)) }
{
    let Some(text) = text_of(alloc, world)? else {
        return Ok(true);
    };
    if file == text.as_slice() {
        return Ok(true);
    }
    Ok(false)
}

// Whether a document shows a world: false only where it doesn't.
#[tactic(auto, using(crate::proofs::Led::not_shown))]
fn may_show(alloc: Global, document: &Document, world: &World) -> Result<bool, AllocError>
    requires { document.now.is_stale ≡ false }
    ensures { IfOk result (λ b. OnFalse b (Shows document.now.edits world.now → ⊥)) }
{
    match file_of(alloc, document)? {
        Some(file) => may_be(alloc, &file, world),
        None => Ok(false),
    }
}

// The same edits as the first try, unless the document may show the world already.
fn unless_shown(
    alloc: Global,
    document: &Document,
    world: &World,
    first: Stamp,
    edits: Vec<Edit>,
) -> Result<Option<Vec<Edit>>, AllocError>
    requires sound { document.now.is_stale ≡ false }
    requires leads { LeadsTo document.now.edits world.now first edits.items }
    ensures { IfOk result (λ o. IfSome o (λ edits.
        AreTaken document.now.edits world.now first edits.items)) }
{
    if may_show(alloc, document, world)? {
        Ok(None)
    } else {
        Ok(Some(edits))
    }
}

// The first try: boards, stats and texts by their names, and then what is left to be done.
fn first_try(
    alloc: Global,
    document: &Document,
    left: &Document,
    world: &World,
    replica: u16,
) -> Result<Option<Vec<Edit>>, AllocError>
    requires { document.now.is_stale ≡ false }
    ensures { IfOk result (λ o. IfSome o (λ edits. AreTaken document.now.edits world.now
        (stamp_after document.now.edits replica) edits.items)) }
{
    let Some(first) = next_stamp(document.edits(), replica) else {
        return Ok(None);
    };
    match by_names(alloc, document, left, world, first) {
        Ok(edits) => unless_shown(alloc, document, world, first, edits),
        Err(PlanError::Memory) => Err(AllocError),
        Err(PlanError::NotPlanned) => Ok(None),
    }
}

/// Edits of a replica that lead from a document to the world of another one, which has some of its
/// edits. The document with these edits shows that world; where it shows it already, there are none.
/// Their times follow all those of the document, one after the other. A removed board or stat comes
/// back as a new one, with its text. The document itself may be over a limit.
///
/// Refusals: Memory; else those of `take` from a document that is its own base, which is what is
/// tried where no edits were found otherwise.
pub fn edits_to(
    alloc: Global,
    document: &Document,
    left: &Document,
    world: &World,
    replica: u16,
) -> Result<Vec<Edit>, TakeError>
    requires { document.now.is_stale ≡ false }
    ensures taken { IfOk result (λ edits. AreTaken document.now.edits world.now
        (stamp_after document.now.edits replica) edits.items) }
    ensures err { IfErr result (λ e. (e ≡ Memory) ⊎ (IsRefused document.now document.now world.now e
        ⊎ (CanBegin document.now document.now world.now
        × IsLate document.now.edits world.now e))) }
{
    match first_try(alloc, document, left, world, replica)? {
        Some(edits) => Ok(edits),
        None => take(alloc, document, document, world, replica),
    }
}
