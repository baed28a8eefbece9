//! A document without the edits that are to be undone, and what isn't done there without them.
ghost use Rattle.std.specs.Prelude.{◌≡◌, ◌++◌, ◌∷◌, [], IfOk, OnOk, false, if◌then◌else◌, option_map};
ghost use Rattle.zed_op.specs.Set.{AllFit, set_of};
ghost use Rattle.zed_undo.specs.Leaving.{first_needed as first_that_is_needed, left_by, needs as needs_one};

use std::alloc::{AllocError, Global};
use zed_document::Document;
use zed_op::{Edit, rising_lists_are_sets};

// Adds a copy of an edit, unless it is marked.
fn push_left(copies: &mut Vec<Edit>, edit: &Edit, is_marked: bool) -> Result<(), AllocError>
    ensures { OnOk result (copies.new.items ≡ (if is_marked
        then copies.old.items else copies.old.items ++ edit.now ∷ [])) }
{
    if is_marked {
        return Ok(());
    }
    let Ok(copy) = edit.copy() else {
        // the only refusal is Memory
        return Err(AllocError);
    };
    Ok(copies.push(copy)?)
}

// Copies of the edits that aren't marked.
fn edits_left(alloc: Global, marks: &[bool], edits: &[Edit]) -> Result<Vec<Edit>, AllocError>
    ensures { IfOk result (λ copies. copies.items ≡ left_by marks.now edits.now) }
{
    let mut copies = Vec::new(alloc);
    let mut rest = marks;
    for edit in edits {
        match rest.split_first() {
            Some((mark, behind)) => {
                push_left(&mut copies, edit, *mark)?;
                rest = behind;
            }
            None => return Ok(copies),
        }
    }
    Ok(copies)
}

// A document of these edits alone, which fit and agree.
fn document_of(alloc: Global, world: u64, edits: Vec<Edit>) -> Result<Document, AllocError>
    requires { AllFit edits.items }
    ensures edits { IfOk result (λ d. d.edits ≡ set_of edits.items) }
    ensures sound { IfOk result (λ d. d.is_stale ≡ false) }
{
    let mut document = Document::new(alloc, world);
    match document.deliver_all(edits) {
        Ok(()) => Ok(document),
        // edits of one document don't clash
        Err(_) => Err(AllocError),
    }
}

/// A document of its own with the edits of another one, but for those that are marked.
pub fn document_left(
    alloc: Global,
    document: &Document,
    marks: &[bool],
) -> Result<Document, AllocError>
    ensures edits { IfOk result (λ left. left.edits ≡ left_by marks.now document.now.edits) }
    ensures sound { IfOk result (λ left. left.is_stale ≡ false) }
{
    rising_lists_are_sets();
    let edits = edits_left(alloc, marks, document.edits())?;
    document_of(alloc, document.world(), edits)
}

/// Whether an edit of the document that is left needs one that isn't: it is done only with that.
pub fn needs(document: &Document, left: &Document, edit: &Edit) -> bool
    ensures { result ≡ needs_one document.now.edits left.now.edits edit.now }
{
    left.is_held(edit.stamp) && !document.is_held(edit.stamp)
}

/// The first edit of another author than this one that needs an edit that isn't left.
pub fn first_needed<'d>(document: &Document, left: &'d Document, replica: u16) -> Option<&'d Edit>
    ensures { option_map (λ e. e.now) result
        ≡ first_that_is_needed document.now.edits left.now.edits replica }
{
    for edit in left.edits() {
        if needs(document, left, edit) && edit.stamp.replica != replica {
            return Some(edit);
        }
    }
    None
}
