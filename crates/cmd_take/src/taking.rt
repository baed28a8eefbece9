//! What another editor drew in a world file, taken into an edit file.
ghost use Rattle.std.specs.Prelude.{◌≡◌, ◌⊎◌, ◌++◌, ℕ, Err, IfErr, IfOk, IfSome, List, None, Ok, OnOk, Some, false, length, option_map};
ghost use Rattle.zed_driver.specs.declared.command.Stop.TheVariants.{Memory};
ghost use Rattle.zed_driver.specs.Effects.{effect};
ghost use Rattle.cmd_take.specs.Steps.{Gives};
ghost use Rattle.cmd_take.specs.Stops.{take_stop as taking_stop};
ghost use Rattle.cmd_take.specs.Taking.{Draws, IsJoined, IsTaken, Takes, given, grown, made_line, taken_line};
ghost use Rattle.zed_op.specs.Set.{AllFit, union};
ghost use Rattle.zed_take.specs.declared.error.TakeError.{TakeError as TheTakeError};
ghost use Rattle.zed_take.specs.Refusals.{IsRefused};
ghost use Rattle.zed_take.specs.Taken.{Joins};

use crate::note::{noting, told};
use crate::opening::Forcing;
use crate::reason::{DrawingReason, drawing_stop, take_stop};
use crate::telling::{stamps_told, taken_told, writes_and_tells};
use std::alloc::{AllocError, Global};
use zed_document::{Document, copies_of};
use zed_driver::{Effect, Output, Stop};
use zed_edit::Edit;
use zed_editfile::write_file;
use zed_refusal::document_stop;
use zed_take::deliver;
use zed_world::World;

// Adds the file of a document to those that are to be written, where it has more edits than it had.
fn add_grown(
    alloc: Global,
    files: &mut Vec<Output>,
    name: &str,
    had: usize,
    document: &Document,
) -> Result<(), AllocError>
    ensures { OnOk result (files.new.items ≡ files.old.items
        ++ grown name.now document.now.world had document.now.edits) }
{
    if document.edits().len() == had {
        return Ok(());
    }
    let Ok(text) = write_file(alloc, document.world(), document.edits()) else {
        // the only refusal is Memory
        return Err(AllocError);
    };
    files.push(Output::new(alloc, name, text)?)?;
    Ok(())
}

// How many edits a document has.
fn count_of(document: &Document) -> usize
    ensures { result ≡ length document.now.edits }
{
    document.edits().len()
}

// How many edits were taken.
fn taken_of(edits: &Vec<Edit>) -> usize
    ensures { result ≡ length edits.now.items }
{
    edits.len()
}

// What is written and told of a file that is its own base.
fn alone_effect(
    alloc: Global,
    file: &str,
    had: usize,
    taken: usize,
    stamps: &str,
    document: &Document,
) -> Result<Effect, AllocError>
    ensures { IfOk result (λ x. x ≡ effect (grown file.now document.now.world had document.now.edits)
        (Some (made_line taken (length document.now.edits) stamps.now)) 0) }
{
    let mut files = Vec::new(alloc);
    add_grown(alloc, &mut files, file, had, document)?;
    let line = taken_told(alloc, taken, count_of(document), stamps)?;
    Ok(writes_and_tells(files, line))
}

/// The effect for a file that is its own base: its document gets edits of a replica that lead to a
/// world, and the effect writes and prints that. Refused or NotTaken if no edits are taken; Memory.
/// What refuses a taking before any edit is sought comes before any want of memory.
#[tactic(none)]
pub fn draw_alone(
    alloc: Global,
    file: &str,
    document: &mut Document,
    world: &World,
    replica: u16,
) -> Result<Effect, Stop<DrawingReason>>
    requires { document.old.is_stale ≡ false }
    ensures draws { (base : List ℕ) → Gives (λ x. x) (Draws base file.now replica
        (given (document.old.world, document.old.edits) None world.now)) result }
    ensures refused { (e : TheTakeError) → IsRefused document.old document.old world.now e
        → result ≡ Err (taking_stop e) }
{
    let had = count_of(document);
    let edits = taken_edits(alloc, document, document, world, replica)?;
    let effect = add_alone(alloc, file, document, had, edits)?;
    Ok(effect)
}

// Adds edits that were taken to a file that is its own base and had so many.
#[tactic(none)]
fn add_alone(
    alloc: Global,
    file: &str,
    document: &mut Document,
    had: usize,
    edits: Vec<Edit>,
) -> Result<Effect, AllocError>
    requires fit { AllFit edits.items }
    requires joins { Joins document.old.edits edits.items }
    requires sound { document.old.is_stale ≡ false }
    ensures { IfOk result (λ x. x ≡ effect
        (grown file.now document.old.world had (union document.old.edits edits.items))
        (Some (taken_line edits.items (length (union document.old.edits edits.items)))) 0) }
{
    let taken = taken_of(&edits);
    let stamps = stamps_told(alloc, &edits)?;
    deliver(document, edits)?;
    alone_effect(alloc, file, had, taken, stamps.as_str(), document)
}

// What `take` does with a file that is its own base.
#[tactic(none)]
fn take_alone(
    alloc: Global,
    file: &str,
    document: &mut Document,
    world: &World,
    replica: u16,
    forcing: Forcing,
) -> Result<Effect, Stop<DrawingReason>>
    requires { document.old.is_stale ≡ false }
    ensures { (base : List ℕ) → Gives (λ x. x) (Takes base file.now replica forcing
        (given (document.old.world, document.old.edits) None world.now)) result }
{
    let had = count_of(document);
    let edits = taken_edits(alloc, document, document, world, replica)?;
    let note = told(alloc, forcing, document, &edits)?;
    let effect = add_alone(alloc, file, document, had, edits)?;
    Ok(noting(effect, note))
}

// Joins copies of edits that were taken to a base.
fn deliver_copies(alloc: Global, base: &mut Document, edits: &Vec<Edit>) -> Result<(), AllocError>
    requires fit { AllFit edits.now.items }
    requires joins { Joins base.old.edits edits.now.items }
    requires sound { base.old.is_stale ≡ false }
    ensures edits { OnOk result (base.new.edits ≡ union base.old.edits edits.now.items) }
    ensures world { base.new.world ≡ base.old.world }
{
    let copies = copies_of(alloc, edits)?;
    deliver(base, copies)
}

// What is written and told of a file with a base of its own.
fn beside_effect(
    alloc: Global,
    name: &str,
    file: &str,
    base_had: usize,
    file_had: usize,
    taken: usize,
    stamps: &str,
    base: &Document,
    document: &Document,
) -> Result<Effect, AllocError>
    ensures { IfOk result (λ x. x ≡ effect (grown name.now base.now.world base_had base.now.edits
        ++ grown file.now document.now.world file_had document.now.edits)
        (Some (made_line taken (length document.now.edits) stamps.now)) 0) }
{
    let mut files = Vec::new(alloc);
    add_grown(alloc, &mut files, name, base_had, base)?;
    add_grown(alloc, &mut files, file, file_had, document)?;
    let line = taken_told(alloc, taken, count_of(document), stamps)?;
    Ok(writes_and_tells(files, line))
}

// Adds edits that were taken to a base, and then to a file that had so many.
#[tactic(none)]
fn add_to_both(
    alloc: Global,
    name: &str,
    file: &str,
    base: &mut Document,
    document: &mut Document,
    file_had: usize,
    edits: Vec<Edit>,
) -> Result<Effect, AllocError>
    requires fit { AllFit edits.items }
    requires base_joins { Joins base.old.edits edits.items }
    requires base_sound { base.old.is_stale ≡ false }
    requires file_joins { Joins document.old.edits edits.items }
    requires file_sound { document.old.is_stale ≡ false }
    ensures { IfOk result (λ x. x ≡ effect
        (grown name.now base.old.world (length base.old.edits) (union base.old.edits edits.items)
        ++ grown file.now document.old.world file_had (union document.old.edits edits.items))
        (Some (taken_line edits.items (length (union document.old.edits edits.items)))) 0) }
{
    let taken = taken_of(&edits);
    let stamps = stamps_told(alloc, &edits)?;
    let base_had = count_of(base);
    deliver_copies(alloc, base, &edits)?;
    deliver(document, edits)?;
    beside_effect(
        alloc,
        name,
        file,
        base_had,
        file_had,
        taken,
        stamps.as_str(),
        base,
        document,
    )
}

// The edits that are taken.
#[tactic(none)]
fn taken_edits(
    alloc: Global,
    document: &Document,
    base: &Document,
    world: &World,
    replica: u16,
) -> Result<Vec<Edit>, Stop<DrawingReason>>
    requires file { document.now.is_stale ≡ false }
    requires base { base.now.is_stale ≡ false }
    ensures taken { Gives (λ edits. edits.items)
        (IsTaken document.now.edits base.now.edits world.now replica) result }
    ensures fit { IfOk result (λ edits. AllFit edits.items) }
    ensures base_joins { IfOk result (λ edits. Joins base.now.edits edits.items) }
    ensures file_joins { IfOk result (λ edits. Joins document.now.edits edits.items) }
    ensures refused { (e : TheTakeError) → IsRefused document.now base.now world.now e
        → result ≡ Err (taking_stop e) }
{
    match zed_take::take(alloc, document, base, world, replica) {
        Ok(edits) => Ok(edits),
        Err(error) => Err(take_stop(error)),
    }
}

// Merges a base into a file.
#[tactic(none)]
fn join_base(document: &mut Document, base: &Document) -> Result<(), Stop<DrawingReason>>
    requires sound { document.old.is_stale ≡ false }
    requires world { base.now.world ≡ document.old.world }
    ensures ok { OnOk result (IsJoined document.old.edits (Some base.now.edits)
        (Ok document.new.edits)) }
    ensures err { IfErr result (λ e. (e ≡ Memory)
        ⊎ IsJoined document.old.edits (Some base.now.edits) (Err e)) }
    ensures sound { OnOk result (document.new.is_stale ≡ false) }
    ensures world { OnOk result (document.new.world ≡ document.old.world) }
{
    match document.merge(base) {
        Ok(()) => Ok(()),
        Err(error) => Err(drawing_stop(document_stop(error))),
    }
}

// What `take` does with a file and a base of its own.
#[tactic(none)]
fn take_beside(
    alloc: Global,
    name: &str,
    file: &str,
    document: &mut Document,
    base: &mut Document,
    world: &World,
    replica: u16,
    forcing: Forcing,
) -> Result<Effect, Stop<DrawingReason>>
    requires sound { document.old.is_stale ≡ false }
    requires base { base.old.is_stale ≡ false }
    requires world { base.old.world ≡ document.old.world }
    ensures { Gives (λ x. x) (Takes name.now file.now replica forcing
        (given (document.old.world, document.old.edits) (Some base.old.edits) world.now)) result }
{
    let had = count_of(document);
    join_base(document, base)?;
    let edits = taken_edits(alloc, document, base, world, replica)?;
    let note = told(alloc, forcing, base, &edits)?;
    let effect = add_to_both(alloc, name, file, base, document, had, edits)?;
    Ok(noting(effect, note))
}

/// What `take` does with FILE, a base of its own and WORLD.
pub(crate) fn take_world(
    alloc: Global,
    name: &str,
    file: &str,
    document: Document,
    base: Option<Document>,
    world: &World,
    replica: u16,
    forcing: Forcing,
) -> Result<Effect, Stop<DrawingReason>>
    requires sound { document.is_stale ≡ false }
    requires base { IfSome base (λ b. (b.is_stale ≡ false) × (b.world ≡ document.world)) }
    ensures { Gives (λ x. x) (Takes name.now file.now replica forcing
        (given (document.world, document.edits) (option_map (λ d. d.edits) base) world.now)) result }
{
    let mut document = document;
    match base {
        Some(mut base) => take_beside(
            alloc,
            name,
            file,
            &mut document,
            &mut base,
            world,
            replica,
            forcing,
        ),
        None => take_alone(alloc, file, &mut document, world, replica, forcing),
    }
}
