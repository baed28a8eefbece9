//! Which edits are to be undone.
ghost use Rattle.std.specs.Prelude.{◌≡◌, ◌⊎◌, ◌++◌, Err, IfOk, MatchResult, Ok, false, map};
ghost use Rattle.zed_edit.specs.Replay.{replay};
ghost use Rattle.zed_document.specs.Held.{is_among as is_among_these};
ghost use Rattle.zed_op.specs.Set.{IsRising};
ghost use Rattle.zed_undo.specs.declared.error.ChoiceError.TheVariants.{Memory};
ghost use Rattle.zed_undo.specs.Choosing.{can_be_undone, chosen_of, count_marks, first_missing as first_that_is_missing, has_stamp as has_that_stamp, is_between as is_between_them, is_chosen as is_chosen_of, is_named as is_named_in, last_of, wanted_of, without_first};

use crate::error::ChoiceError;
use std::alloc::{AllocError, Global};
use zed_document::{Document, View};
use zed_filter::{Filter, Sought, passes, sought_of};
use zed_history::spot_of;
use zed_op::Edit;
use zed_types::Stamp;

/// Which edits are to be undone: those that are all that is asked for. The edit that makes the
/// world never is.
#[derive(Clone, Copy)]
pub struct Choice<'a> {
    pub filter: Filter,
    /// Edits with these stamps; any if there is none.
    pub stamps: &'a [Stamp],
    /// So many of the last ones that are all the rest; all of them if it is none.
    pub last: Option<u16>,
}

// Whether a stamp is one of these.
fn is_among(stamps: &[Stamp], stamp: Stamp) -> bool
    ensures { result ≡ is_among_these stamps.now stamp }
{
    for named in stamps {
        if *named == stamp {
            return true;
        }
    }
    false
}

fn is_named(stamps: &[Stamp], stamp: Stamp) -> bool
    ensures { result ≡ is_named_in stamps.now stamp }
{
    stamps.is_empty() || is_among(stamps, stamp)
}

fn is_chosen(view: &View, sought: &Sought, stamps: &[Stamp], edit: &Edit) -> bool
    ensures { result ≡ is_chosen_of view.now sought.now stamps.now edit.now }
{
    edit.stamp != Stamp::GENESIS && is_named(stamps, edit.stamp) && passes(view, sought, edit)
}

// Marks the edits that pass.
fn marks_passing(
    alloc: Global,
    view: &View,
    sought: &Sought,
    stamps: &[Stamp],
    edits: &[Edit],
) -> Result<Vec<bool>, AllocError>
    ensures { IfOk result (λ marks. marks.items
        ≡ map (is_chosen_of view.now sought.now stamps.now) edits.now) }
{
    let mut marks = Vec::new(alloc);
    for edit in edits {
        marks.push(is_chosen(view, sought, stamps, edit))?;
    }
    Ok(marks)
}

/// How many are marked.
pub fn marked(marks: &[bool]) -> usize
    ensures { result ≡ count_marks marks.now }
{
    marks.iter().filter(|mark| **mark).count()
}

// The same marks without the first so many.
fn later_marks(alloc: Global, marks: &[bool], count: usize) -> Result<Vec<bool>, AllocError>
    ensures { IfOk result (λ later. later.items ≡ without_first count marks.now) }
{
    let mut later = Vec::new(alloc);
    let mut left = count;
    for mark in marks {
        if *mark && left > 0 {
            left -= 1;
            later.push(false)?;
        } else {
            later.push(*mark)?;
        }
    }
    Ok(later)
}

// The last so many marks, where only so many are asked for.
fn last_marks(alloc: Global, marks: Vec<bool>, last: Option<u16>) -> Result<Vec<bool>, AllocError>
    ensures { IfOk result (λ kept. kept.items ≡ last_of last marks.items) }
{
    match last {
        Some(count) => {
            let before = marked(&marks).saturating_sub(usize::from(count));
            later_marks(alloc, &marks, before)
        }
        None => Ok(marks),
    }
}

// Marks the edits of a document that are all that is asked for.
fn marks_sought(
    alloc: Global,
    document: &Document,
    sought: &Sought,
    choice: &Choice<'_>,
) -> Result<Vec<bool>, ChoiceError>
    requires { document.now.is_stale ≡ false }
    ensures { MatchResult result
        (λ marks. marks.items ≡ last_of choice.now.last
        (map (is_chosen_of (replay document.now.edits) sought.now choice.now.stamps.now)
        document.now.edits))
        (λ e. e ≡ Memory) }
{
    let view = match document.view() {
        Ok(view) => view,
        // a document that isn't stale has one
        Err(_) => return Err(ChoiceError::Memory),
    };
    let marks = marks_passing(alloc, &view, sought, choice.stamps, document.edits())?;
    Ok(last_marks(alloc, marks, choice.last)?)
}

/// Marks the edits of a document that isn't stale which a choice chooses. Refusals, in order:
/// NoBoard if there is no board of the filter's number, or none of its name was made; OutOfRange if
/// its cell is outside the table; NoBoard if the cell's board isn't there.
pub fn marks_chosen(
    alloc: Global,
    document: &Document,
    choice: &Choice<'_>,
) -> Result<Vec<bool>, ChoiceError>
    requires { document.now.is_stale ≡ false }
    ensures { MatchResult result
        (λ marks. chosen_of document.now.edits (wanted_of choice.now) ≡ Ok marks.items)
        (λ e. (e ≡ Memory)
        ⊎ (chosen_of document.now.edits (wanted_of choice.now) ≡ Err e)) }
{
    match sought_of(document, &choice.filter) {
        Ok(sought) => marks_sought(alloc, document, &sought, choice),
        Err(error) => Err(ChoiceError::from(error)),
    }
}

// Whether there is an edit with a stamp.
fn has_stamp(edits: &[Edit], stamp: Stamp) -> bool
    requires { IsRising edits.now }
    ensures { result ≡ has_that_stamp edits.now stamp }
{
    spot_of(edits, edits.len(), stamp).is_ok()
}

fn is_between(new: &[Edit], old: &[Edit], stamp: Stamp) -> bool
    requires new { IsRising new.now }
    requires old { IsRising old.now }
    ensures { result ≡ is_between_them new.now old.now stamp }
{
    stamp != Stamp::GENESIS && has_stamp(new, stamp) && !has_stamp(old, stamp)
}

/// Marks the edits whose stamps a newer set has and an older one doesn't have.
pub fn marks_between(
    alloc: Global,
    new: &[Edit],
    old: &[Edit],
    edits: &[Edit],
) -> Result<Vec<bool>, AllocError>
    requires new { IsRising new.now }
    requires old { IsRising old.now }
    ensures { IfOk result (λ marks. marks.items
        ≡ map (λ e. is_between_them new.now old.now e.stamp) edits.now) }
{
    let mut marks = Vec::new(alloc);
    for edit in edits {
        marks.push(is_between(new, old, edit.stamp))?;
    }
    Ok(marks)
}

// Whether an edit of this stamp can be undone.
fn is_undoable(document: &Document, stamp: Stamp) -> bool
    ensures { result ≡ can_be_undone document.now.edits stamp }
{
    stamp != Stamp::GENESIS && has_stamp(document.edits(), stamp) && !document.is_held(stamp)
}

/// The first of these stamps of which a document has no edit that can be undone: one that is there,
/// isn't held and doesn't make the world.
pub fn first_missing(document: &Document, stamps: &[Stamp]) -> Option<Stamp>
    ensures { result ≡ first_that_is_missing document.now.edits stamps.now }
{
    for stamp in stamps {
        if !is_undoable(document, *stamp) {
            return Some(*stamp);
        }
    }
    None
}
