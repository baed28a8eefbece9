//! What is done with the documents of the files.
ghost use Rattle.std.specs.Prelude.{◌≡◌, IfOk, MatchResult, false, length, option_map};
ghost use Rattle.zed_driver.specs.declared.command.Stop.TheVariants.{Memory};
ghost use Rattle.zed_op.specs.Set.{AllFit, union};
ghost use Rattle.zed_take.specs.Taken.{Joins};
ghost use Rattle.zed_undo.specs.Choosing.{chosen_of, wanted_of};
ghost use Rattle.zed_undo.specs.Leaving.{left_by};
ghost use Rattle.cmd_take.specs.Steps.{Gives};
ghost use Rattle.cmd_take.specs.Stops.{take_stop as taking_stop};
ghost use Rattle.cmd_take.specs.Taking.{IsTaken, grown};
ghost use Rattle.cmd_undo.specs.declared.manner.Trial.TheVariants.{Dry as IsDry, Real as IsReal};
ghost use Rattle.cmd_undo.specs.Declining.{declined as declined_for, missing_text, needed_text};
ghost use Rattle.cmd_undo.specs.Undoing.{IsGiven, IsShown, IsTakenBack, Undoes, UndoesChosen, between, choice_stop as choosing_stop, choice_told, stopping as stopping_one};

use crate::declining::{declined_missing, declined_needed};
use crate::manner::{Manner, Others, Trial};
use crate::telling::{trial_text, undone_text};
use cmd_take::{DrawingReason, drawing_stop};
use std::alloc::{AllocError, Global};
use zed_document::Document;
use zed_driver::{Effect, Output, Stop};
use zed_editfile::write_file;
use zed_export::export;
use zed_op::Edit;
use zed_refusal::{Reason, export_stop};
use zed_take::{TakeError, deliver};
use zed_types::{Bytes, READ_BODY_LIMIT, Stamp};
use zed_undo::{
    Choice, ChoiceError, document_left, edits_to, first_missing, first_needed, marks_between,
    marks_chosen,
};
use zed_world::World;

// Why it stops at a taking.
fn take_stop(error: TakeError) -> Stop<DrawingReason>
    ensures { result ≡ taking_stop error }
{
    match error {
        TakeError::Memory => Stop::Memory,
        TakeError::Base(error) => drawing_stop(export_stop(error)),
        TakeError::WorldOver { board, bytes } => {
            Stop::Refused(DrawingReason::Common(Reason::BoardOver { board, bytes }))
        }
        TakeError::ClockSpent => Stop::Refused(DrawingReason::Common(Reason::ClockSpent)),
        TakeError::NotTaken => Stop::Refused(DrawingReason::NotTaken),
    }
}

// Why nothing can be chosen.
fn choice_stop(error: ChoiceError) -> Stop<DrawingReason>
    ensures { result ≡ choosing_stop error }
{
    match error {
        ChoiceError::Memory => Stop::Memory,
        ChoiceError::NoBoard => Stop::Refused(DrawingReason::Common(Reason::NoBoard)),
        ChoiceError::OutOfRange => Stop::Refused(DrawingReason::Common(Reason::OutOfRange)),
    }
}

// The world of a document that isn't stale.
fn world_shown(alloc: Global, document: &Document) -> Result<World, Stop<DrawingReason>>
    requires { document.now.is_stale ≡ false }
    ensures { Gives (λ w. w) (IsShown document.now.edits) result }
{
    match export(alloc, document, READ_BODY_LIMIT) {
        Ok(world) => Ok(world),
        Err(error) => Err(drawing_stop(export_stop(error))),
    }
}

// The edits of a replica that lead to a world.
#[tactic(none)]
fn edits_taken(
    alloc: Global,
    document: &Document,
    left: &Document,
    world: &World,
    replica: u16,
) -> Result<Vec<Edit>, Stop<DrawingReason>>
    requires { document.now.is_stale ≡ false }
    ensures taken { Gives (λ edits. edits.items)
        (IsTaken document.now.edits document.now.edits world.now replica) result }
    ensures fit { IfOk result (λ edits. AllFit edits.items) }
    ensures joins { IfOk result (λ edits. Joins document.now.edits edits.items) }
{
    match edits_to(alloc, document, left, world, replica) {
        Ok(edits) => Ok(edits),
        Err(error) => Err(take_stop(error)),
    }
}

// The file of a document, where it has more edits than it had.
fn file_grown(
    alloc: Global,
    file: &str,
    had: usize,
    document: &Document,
) -> Result<Vec<Output>, AllocError>
    ensures { IfOk result (λ files. files.items
        ≡ grown file.now document.now.world had document.now.edits) }
{
    let mut files = Vec::new(alloc);
    if document.edits().len() == had {
        return Ok(files);
    }
    let Ok(text) = write_file(alloc, document.world(), document.edits()) else {
        // the only refusal is Memory
        return Err(AllocError);
    };
    files.push(Output::new(alloc, file, text)?)?;
    Ok(files)
}

// How many edits a document has.
fn count_of(document: &Document) -> usize
    ensures { result ≡ length document.now.edits }
{
    document.edits().len()
}

// The file of a document that gets edits, where these are some.
#[tactic(none)]
fn file_with(
    alloc: Global,
    file: &str,
    document: &mut Document,
    edits: Vec<Edit>,
) -> Result<Vec<Output>, AllocError>
    requires fit { AllFit edits.items }
    requires joins { Joins document.old.edits edits.items }
    requires sound { document.old.is_stale ≡ false }
    ensures { IfOk result (λ files. files.items ≡ grown file.now document.old.world
        (length document.old.edits) (union document.old.edits edits.items)) }
{
    let had = count_of(document);
    deliver(document, edits)?;
    file_grown(alloc, file, had, document)
}

// A document gets edits, and its file is written.
fn undone_really(
    alloc: Global,
    file: &str,
    document: &mut Document,
    left: &Document,
    replica: u16,
    marks: &[bool],
    edits: Vec<Edit>,
) -> Result<Effect, AllocError>
    requires fit { AllFit edits.items }
    requires joins { Joins document.old.edits edits.items }
    requires sound { document.old.is_stale ≡ false }
    ensures { IfOk result (λ x. IsGiven IsReal file.now
        (document.old.world, document.old.edits) edits.items x) }
{
    let text = undone_text(alloc, document, left, replica, marks, &edits)?;
    let files = file_with(alloc, file, document, edits)?;
    Ok(Effect::new(files, Some(Bytes::new(text)), 0))
}

// It is only told what a document would get.
fn undone_dryly(
    alloc: Global,
    file: &str,
    document: &Document,
    left: &Document,
    replica: u16,
    marks: &[bool],
    edits: &Vec<Edit>,
) -> Result<Effect, AllocError>
    ensures { IfOk result (λ x. IsGiven IsDry file.now
        (document.now.world, document.now.edits) edits.now.items x) }
{
    let text = trial_text(alloc, document, left, replica, marks, edits)?;
    Ok(Effect::prints(alloc, text, 0))
}

// A document gets edits, or would.
fn given(
    alloc: Global,
    trial: Trial,
    file: &str,
    document: &mut Document,
    left: &Document,
    replica: u16,
    marks: &[bool],
    edits: Vec<Edit>,
) -> Result<Effect, AllocError>
    requires fit { AllFit edits.items }
    requires joins { Joins document.old.edits edits.items }
    requires sound { document.old.is_stale ≡ false }
    ensures { IfOk result (λ x. IsGiven trial file.now
        (document.old.world, document.old.edits) edits.items x) }
{
    match trial {
        Trial::Real => undone_really(alloc, file, document, left, replica, marks, edits),
        Trial::Dry => undone_dryly(alloc, file, document, left, replica, marks, &edits),
    }
}

// The edits of a document that are marked are undone; this is the document without them.
#[tactic(none)]
fn taken_back(
    alloc: Global,
    trial: Trial,
    file: &str,
    document: &mut Document,
    left: &Document,
    replica: u16,
    marks: &[bool],
) -> Result<Effect, Stop<DrawingReason>>
    requires sound { document.old.is_stale ≡ false }
    requires left { left.now.edits ≡ left_by marks.now document.old.edits }
    requires left_sound { left.now.is_stale ≡ false }
    ensures { Gives (λ x. x) (IsTakenBack trial file.now replica marks.now
        (document.old.world, document.old.edits)) result }
{
    let world = world_shown(alloc, left)?;
    let edits = edits_taken(alloc, document, left, &world, replica)?;
    let effect = given(alloc, trial, file, document, left, replica, marks, edits)?;
    Ok(effect)
}

// The edit of another author that stops it.
fn stopping<'d>(
    others: Others,
    document: &Document,
    left: &'d Document,
    replica: u16,
) -> Option<&'d Edit>
    ensures { option_map (λ e. e.now) result
        ≡ stopping_one others replica document.now.edits left.now.edits }
{
    match others {
        Others::Spared => first_needed(document, left, replica),
        Others::Included => None,
    }
}

// Nothing is undone, since this edit of another author needs what is to be.
fn stopped_by(alloc: Global, edit: &Edit) -> Result<Effect, Stop<DrawingReason>>
    ensures { MatchResult result (λ x. x ≡ declined_for (needed_text edit.now)) (λ e. e ≡ Memory) }
{
    Ok(declined_needed(alloc, edit)?)
}

/// The edits of a document that are marked are undone, unless another author's edit needs one of
/// them.
pub(crate) fn undo_marked(
    alloc: Global,
    manner: Manner,
    file: &str,
    document: &mut Document,
    replica: u16,
    marks: &[bool],
) -> Result<Effect, Stop<DrawingReason>>
    requires { document.old.is_stale ≡ false }
    ensures { Gives (λ x. x) (Undoes file.now manner replica marks.now
        (document.old.world, document.old.edits)) result }
{
    let left = document_left(alloc, document, marks)?;
    match stopping(manner.others, document, &left, replica) {
        Some(edit) => stopped_by(alloc, edit),
        None => taken_back(alloc, manner.trial, file, document, &left, replica, marks),
    }
}

// What is chosen of a document.
fn chosen(
    alloc: Global,
    document: &Document,
    choice: &Choice<'_>,
) -> Result<Vec<bool>, Stop<DrawingReason>>
    requires { document.now.is_stale ≡ false }
    ensures { Gives (λ marks. marks.items)
        (λ m. m ≡ choice_told (chosen_of document.now.edits (wanted_of choice.now))) result }
{
    match marks_chosen(alloc, document, choice) {
        Ok(marks) => Ok(marks),
        Err(error) => Err(choice_stop(error)),
    }
}

// Nothing is undone, since no edit of this stamp can be.
fn missed(alloc: Global, stamp: Stamp) -> Result<Effect, Stop<DrawingReason>>
    ensures { MatchResult result (λ x. x ≡ declined_for (missing_text stamp)) (λ e. e ≡ Memory) }
{
    Ok(declined_missing(alloc, stamp)?)
}

/// What is chosen of a document is undone, unless a stamp is one of no edit that can be.
pub(crate) fn undo_chosen(
    alloc: Global,
    manner: Manner,
    file: &str,
    document: &mut Document,
    replica: u16,
    choice: &Choice<'_>,
) -> Result<Effect, Stop<DrawingReason>>
    requires { document.old.is_stale ≡ false }
    ensures { Gives (λ x. x) (UndoesChosen file.now manner replica (wanted_of choice.now)
        (document.old.world, document.old.edits)) result }
{
    let marks = chosen(alloc, document, choice)?;
    match first_missing(document, choice.stamps) {
        Some(stamp) => missed(alloc, stamp),
        None => undo_marked(alloc, manner, file, document, replica, marks.as_slice()),
    }
}

// Marks the edits that a newer document has and an older one doesn't have.
fn marks_of(
    alloc: Global,
    document: &Document,
    newer: &Document,
    older: &Document,
) -> Result<Vec<bool>, AllocError>
    ensures { IfOk result (λ marks. marks.items ≡ between (newer.now.world, newer.now.edits)
        (older.now.world, older.now.edits) document.now.edits) }
{
    marks_between(alloc, newer.edits(), older.edits(), document.edits())
}

/// The edits of a document that a newer one has and an older one doesn't have are undone.
pub(crate) fn undo_between(
    alloc: Global,
    manner: Manner,
    file: &str,
    document: &mut Document,
    replica: u16,
    newer: &Document,
    older: &Document,
) -> Result<Effect, Stop<DrawingReason>>
    requires { document.old.is_stale ≡ false }
    ensures { Gives (λ x. x) (Undoes file.now manner replica
        (between (newer.now.world, newer.now.edits) (older.now.world, older.now.edits)
        document.old.edits) (document.old.world, document.old.edits)) result }
{
    let marks = marks_of(alloc, document, newer, older)?;
    undo_marked(alloc, manner, file, document, replica, marks.as_slice())
}
