//! Edits that were planned, tried before they are handed out.
ghost use Rattle.std.specs.Prelude.{◌≡◌, ◌⊎◌, false, Ok, IfErr, IfOk, OnOk};
ghost use Rattle.std.specs.Bool.{OnTrue};
ghost use Rattle.zed_world.specs.Reading.{world_at};
ghost use Rattle.zed_op.specs.Set.{AllFit, union};
ghost use Rattle.zed_edit.specs.Replay.{replay};
ghost use Rattle.zed_export.specs.Limits.{saved};
ghost use Rattle.zed_export.specs.World.{world_of};
ghost use Rattle.zed_take.specs.Taken.{AreFrom, Joins};

use crate::plan_error::PlanError;
use std::alloc::Global;
use zed_document::{Document, DocumentError, copies_of};
use zed_export::{ExportError, save};
use zed_op::{Edit, EditError, check, rising_lists_are_sets};
use zed_types::{READ_BODY_LIMIT, Stamp};

/// Whether all edits fit.
pub(crate) fn check_fit(alloc: Global, edits: &[Edit]) -> Result<(), PlanError>
    ensures { OnOk result (AllFit edits.now) }
{
    for edit in edits {
        match check(alloc, edit) {
            Ok(()) => {}
            Err(EditError::Memory) => return Err(PlanError::Memory),
            Err(EditError::BadEdit(_)) => return Err(PlanError::NotTaken),
        }
    }
    Ok(())
}

/// Whether edits are those of one replica, time after time from a first stamp on.
pub(crate) fn are_from(first: Stamp, edits: &[Edit]) -> bool
    ensures { OnTrue result (AreFrom first edits.now) }
{
    let mut stamp = first;
    for edit in edits {
        if edit.stamp != stamp || stamp.time > Stamp::LAST_TIME {
            return false;
        }
        stamp = Stamp {
            time: stamp.time + 1,
            replica: stamp.replica,
        };
    }
    true
}

/// A document of its own with the edits of another one.
fn copy_of(alloc: Global, base: &Document) -> Result<Document, PlanError>
    ensures edits { IfOk result (λ copy. copy.edits ≡ base.now.edits) }
    ensures sound { IfOk result (λ copy. copy.is_stale ≡ false) }
{
    rising_lists_are_sets();
    base.edits();
    let mut copy = Document::new(alloc, base.world());
    match copy.merge(base) {
        Ok(()) => Ok(copy),
        Err(_) => Err(PlanError::Memory),
    }
}

/// Joins edits that fit to a document, where none of them clashes.
fn join(document: &mut Document, edits: Vec<Edit>) -> Result<(), PlanError>
    requires fit { AllFit edits.items }
    requires sound { document.old.is_stale ≡ false }
    ensures edits { OnOk result (document.new.edits ≡ union document.old.edits edits.items) }
    ensures joins { OnOk result (Joins document.old.edits edits.items) }
{
    match document.deliver_all(edits) {
        Ok(()) => Ok(()),
        Err(DocumentError::Memory) => Err(PlanError::Memory),
        Err(_) => Err(PlanError::NotTaken),
    }
}

/// A document of its own with the edits of another one and these beside, where none of them clashes.
fn copy_with(alloc: Global, base: &Document, edits: &[Edit]) -> Result<Document, PlanError>
    requires { AllFit edits.now }
    ensures edits { IfOk result (λ copy. copy.edits ≡ union base.now.edits edits.now) }
    ensures joins { OnOk result (Joins base.now.edits edits.now) }
{
    let mut copy = copy_of(alloc, base)?;
    join(&mut copy, copies_of(alloc, edits)?)?;
    Ok(copy)
}

/// The file of a document with more edits, where none of them clashes.
pub(crate) fn file_with(
    alloc: Global,
    base: &Document,
    edits: &[Edit],
) -> Result<Vec<u8>, PlanError>
    requires { AllFit edits.now }
    ensures joins { OnOk result (Joins base.now.edits edits.now) }
    ensures saved { IfOk result (λ file.
        saved 32767 (replay (union base.now.edits edits.now)) ≡ Ok file.items) }
    ensures back { IfOk result (λ file.
        world_at file.items ≡ Ok (world_of (replay (union base.now.edits edits.now)))) }
{
    let document = copy_with(alloc, base, edits)?;
    match save(alloc, &document, READ_BODY_LIMIT) {
        Ok(file) => Ok(file),
        Err(ExportError::Memory) => Err(PlanError::Memory),
        Err(_) => Err(PlanError::NotTaken),
    }
}
