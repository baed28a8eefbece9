//! A world file that is written for another editor, with the base beside it.
ghost use Rattle.std.specs.Prelude.{◌≡◌, ◌∷◌, ◌++◌, [], if◌then◌else◌, Err, IfErr, IfOk, List, OnErr, OnOk, MatchBool, None, Some, IfSome, false, option_map};
ghost use Rattle.zed_types.specs.Stamp.{before};
ghost use Rattle.zed_op.specs.declared.op.Edit.{Edit as TheEdit};
ghost use Rattle.zed_driver.specs.declared.command.Stop.TheVariants.{Memory};
ghost use Rattle.zed_edit.specs.Replay.{replay};
ghost use Rattle.zed_export.specs.Limits.{exported as shown};
ghost use Rattle.zed_take.specs.Taken.{Shows};
ghost use Rattle.cmd_take.specs.Base.{edits_of_base};
ghost use Rattle.cmd_take.specs.Opening.{IsExported, IsSame, IsSaved, TriedWorld, opened_as, up_to};
ghost use Rattle.cmd_take.specs.Steps.{Gives};
ghost use Rattle.cmd_take.specs.Stops.{DrawingStop};
ghost use Rattle.zed_world.specs.Writing.{HasText};

use crate::reading::world_in;
use crate::reason::{DrawingReason, drawing_stop};
use crate::telling::{beside_of, writes_and_tells};
use std::alloc::{AllocError, Global};
use zed_document::Document;
use zed_driver::{Effect, Input, Output, Stop};
use zed_edit::Edit;
use zed_editfile::write_file;
use zed_export::save;
use zed_files::{bytes_told, deliver_all};
use zed_op::rising_lists_are_sets;
use zed_refusal::export_stop;
use zed_types::{READ_BODY_LIMIT, Stamp};
use zed_world::{World, WorldError, write_world};

/// Whether `open` replaces a world file that was drawn in, and whether `take` removes more than half
/// of the boards.
#[derive(Clone, Copy)]
pub enum Forcing {
    /// That is refused.
    Careful,
    /// It is done without a look.
    Forced,
}

// Adds a copy of an edit, unless its stamp is behind the last one.
fn push_up_to(copies: &mut Vec<Edit>, edit: &Edit, last: Stamp) -> Result<(), AllocError>
    ensures { OnOk result (copies.new.items ≡ (if before last edit.now.stamp
        then copies.old.items else copies.old.items ++ edit.now ∷ [])) }
{
    if last.is_before(edit.stamp) {
        return Ok(());
    }
    let Ok(copy) = edit.copy() else {
        return Err(AllocError);
    };
    copies.push(copy)?;
    Ok(())
}

// Copies of the edits up to a stamp.
fn edits_up_to(alloc: Global, edits: &[Edit], last: Stamp) -> Result<Vec<Edit>, AllocError>
    ensures { IfOk result (λ copies. copies.items ≡ up_to (Some last) edits.now) }
{
    let mut copies = Vec::new(alloc);
    for edit in edits {
        push_up_to(&mut copies, edit, last)?;
    }
    Ok(copies)
}

// A document of its own with the edits of another one up to a stamp.
fn copy_up_to(alloc: Global, document: &Document, last: Stamp) -> Result<Document, AllocError>
    ensures edits { IfOk result (λ copy. copy.edits ≡ up_to (Some last) document.now.edits) }
    ensures sound { IfOk result (λ copy. copy.is_stale ≡ false) }
{
    let edits = edits_up_to(alloc, document.edits(), last)?;
    rising_lists_are_sets();
    let mut copy = Document::new(alloc, document.world());
    // Edits of one document don't clash, so this can lack nothing but memory.
    match deliver_all(&mut copy, edits) {
        Ok(()) => Ok(copy),
        Err(_) => Err(AllocError),
    }
}

// The world file of a document.
fn saved(alloc: Global, document: &Document) -> Result<Vec<u8>, Stop<DrawingReason>>
    requires { document.now.is_stale ≡ false }
    ensures exported { Gives (λ text. text.items) (IsExported document.now.edits) result }
    ensures back { IfOk result (λ text. IsSaved document.now.edits text.items) }
    ensures limits { (e : DrawingStop) → IsExported document.now.edits (Err e)
        → result ≡ Err e }
{
    match save(alloc, document, READ_BODY_LIMIT) {
        Ok(text) => Ok(text),
        Err(error) => Err(drawing_stop(export_stop(error))),
    }
}

/// The world file of a document as its edits up to a stamp make it, or all of them.
pub(crate) fn exported(
    alloc: Global,
    document: &Document,
    until: Option<Stamp>,
) -> Result<Vec<u8>, Stop<DrawingReason>>
    requires { document.now.is_stale ≡ false }
    ensures exported { Gives (λ text. text.items)
        (IsExported (up_to until document.now.edits)) result }
    ensures back { IfOk result (λ text. IsSaved (up_to until document.now.edits) text.items) }
    ensures limits { (e : DrawingStop) → until ≡ None
        → IsExported document.now.edits (Err e) → result ≡ Err e }
{
    match until {
        None => saved(alloc, document),
        Some(last) => {
            let earlier = copy_up_to(alloc, document, last)?;
            saved(alloc, &earlier)
        }
    }
}

/// Whether a world is the one that was exported to this file.
#[tactic(auto, unfolding(zed_world::specs::Writing::written))]
pub(crate) fn is_of(alloc: Global, world: &World, file: &[u8]) -> Result<bool, AllocError>
    ensures is { (es : List TheEdit) → IsSaved es file.now → IfOk result (λ is.
        MatchBool is (Shows es world.now) (Shows es world.now → ⊥)) }
    ensures memory_only_when { OnErr result (HasText 32767 world.now) }
{
    match write_world(alloc, world, READ_BODY_LIMIT) {
        Ok(text) => Ok(text.as_slice() == file),
        Err(error) => match error {
            WorldError::Memory => Err(AllocError),
            _ => Ok(false),
        },
    }
}

/// Refuses a world that isn't the one that a document shows.
pub(crate) fn check_same(
    alloc: Global,
    document: &Document,
    world: &World,
) -> Result<(), Stop<DrawingReason>>
    requires { document.now.is_stale ≡ false }
    ensures same { Gives (λ u. u)
        (IsSame world.now (shown 32767 (replay document.now.edits))) result }
    ensures limits { (e : DrawingStop) → IsExported document.now.edits (Err e)
        → result ≡ Err e }
{
    let file = saved(alloc, document)?;
    let is_same = is_of(alloc, world, file.as_slice())?;
    if is_same {
        Ok(())
    } else {
        Err(Stop::Refused(DrawingReason::NotTaken))
    }
}

/// The same of the base that was found, or of the document where that is its own base.
pub(crate) fn check_found(
    alloc: Global,
    document: &Document,
    found: &Option<Document>,
    world: &World,
) -> Result<(), Stop<DrawingReason>>
    requires sound { document.now.is_stale ≡ false }
    requires base { IfSome found.now (λ d. d.is_stale ≡ false) }
    ensures { Gives (λ u. u) (IsSame world.now (shown 32767 (replay (edits_of_base
        (option_map (λ d. d.edits) found.now) document.now.edits)))) result }
{
    match found {
        Some(own) => check_same(alloc, own, world),
        None => check_same(alloc, document, world),
    }
}

// The world of the bytes of a file that is there.
fn found_world(alloc: Global, bytes: &[u8]) -> Result<Option<World>, Stop<DrawingReason>>
    ensures { Gives (λ found. found) (TriedWorld (Input.Bytes bytes.now)) result }
{
    let world = world_in(alloc, bytes)?;
    Ok(Some(world))
}

/// The world of a world file, if it is there. Its bytes are dropped then.
pub(crate) fn tried_world(alloc: Global, file: Input) -> Result<Option<World>, Stop<DrawingReason>>
    ensures { Gives (λ found. found) (TriedWorld file) result }
{
    match file {
        Input::Bytes(bytes) => found_world(alloc, bytes.as_slice()),
        Input::Missing => Ok(None),
        Input::Failed => Err(Stop::File),
    }
}

/// What is written: the world file, and the base beside it.
pub(crate) fn effect_of(
    alloc: Global,
    document: &Document,
    world: &str,
    text: Vec<u8>,
) -> Result<Effect, AllocError>
    ensures { IfOk result (λ x.
        x ≡ opened_as world.now (document.now.world, document.now.edits) text.items) }
{
    let line = bytes_told(alloc, text.len())?;
    let Ok(edits) = write_file(alloc, document.world(), document.edits()) else {
        // the only refusal is Memory
        return Err(AllocError);
    };
    let base = beside_of(alloc, world)?;
    let mut files = Vec::new(alloc);
    files.push(Output::new(alloc, world, text)?)?;
    files.push(Output::new(alloc, base.as_str(), edits)?)?;
    Ok(writes_and_tells(files, line))
}
