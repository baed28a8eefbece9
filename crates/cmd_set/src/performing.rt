//! Wishes done on a document, by edits.
ghost use Rattle.std.specs.Prelude.{◌≡◌, ◌≢◌, Err, false, OnErr, OnOk};
ghost use Rattle.zed_document.specs.Authoring.{is_spent_for};
ghost use Rattle.zed_action.specs.Deeds.{Authors, Ends, MayTakeToAuthor};
ghost use Rattle.zed_action.specs.Refusals.{memory};
ghost use Rattle.cmd_set.specs.declared.deed.Deed.TheVariants.{Two};
ghost use Rattle.cmd_set.specs.Granting.{DeedMayTake, Leaves, LeavesWish, Performs, Sets, WishMayTake};

use crate::deed::{Deed, deed_of};
use std::alloc::Global;
use zed_action::ActionError;
use zed_document::Document;
use zed_edit::Op;
use zed_set_words::Wish;

/// Makes an edit.
fn author(document: &mut Document, replica: u16, op: Op) -> Result<(), ActionError>
    requires { document.old.is_stale ≡ false }
    ensures ends { Ends (Authors document.old replica op) result document.new.edits }
    ensures kept { OnErr result (document.new.edits ≡ document.old.edits) }
    ensures sound { OnOk result (document.new.is_stale ≡ false) }
    ensures stale { (result ≢ Err memory) → document.new.is_stale ≡ false }
    ensures world { document.new.world ≡ document.old.world }
    ensures left { OnOk result (is_spent_for document.old.edits op ≡ false) }
    ensures memory_only_when { result ≡ Err memory
        → MayTakeToAuthor document.old replica op }
{
    document.author(replica, op)?;
    Ok(())
}

/// Makes two edits, one after the other.
fn author_both(
    document: &mut Document,
    replica: u16,
    first: Op,
    second: Op,
) -> Result<(), ActionError>
    requires { document.old.is_stale ≡ false }
    ensures ends { Ends (Performs document.old replica (Two first second))
        result document.new.edits }
    ensures kept { OnErr result
        (Leaves document.old replica (Two first second) document.new.edits) }
    ensures stale { (result ≢ Err memory) → document.new.is_stale ≡ false }
    ensures world { document.new.world ≡ document.old.world }
    ensures memory_only_when { result ≡ Err memory
        → is_spent_for document.old.edits first ≡ false }
{
    author(document, replica, first)?;
    author(document, replica, second)
}

fn perform(document: &mut Document, replica: u16, deed: Deed) -> Result<(), ActionError>
    requires { document.old.is_stale ≡ false }
    ensures ends { Ends (Performs document.old replica deed) result document.new.edits }
    ensures kept { OnErr result (Leaves document.old replica deed document.new.edits) }
    ensures stale { (result ≢ Err memory) → document.new.is_stale ≡ false }
    ensures world { document.new.world ≡ document.old.world }
    ensures memory_only_when { result ≡ Err memory → DeedMayTake document.old replica deed }
{
    match deed {
        Deed::One(op) => author(document, replica, op),
        Deed::Two(first, second) => author_both(document, replica, first, second),
    }
}

/// Does a wish as a replica, on a document that isn't stale. Refusals, in order: NoSuch for a
/// number without a board or stat, and for a stat without a text that is to be shared; then those
/// of authoring each edit. A refusal leaves the document as it was, except that of two edits the
/// first may be made. Memory can run out when bytes of the words are kept, and when an edit is
/// made.
pub fn grant(
    alloc: Global,
    document: &mut Document,
    replica: u16,
    wish: Wish,
) -> Result<(), ActionError>
    requires { document.old.is_stale ≡ false }
    ensures ends { Ends (Sets document.old replica wish.entry) result document.new.edits }
    ensures kept { OnErr result (LeavesWish document.old replica wish.entry document.new.edits) }
    ensures stale { (result ≢ Err memory) → document.new.is_stale ≡ false }
    ensures world { document.new.world ≡ document.old.world }
    ensures memory_only_when { result ≡ Err memory → WishMayTake document.old replica wish.entry }
{
    let deed = deed_of(alloc, document, wish)?;
    perform(document, replica, deed)
}
