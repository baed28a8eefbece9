//! The two sides, what both have, and their union.
ghost use Rattle.std.specs.Prelude.{◌≡◌, ◌∷◌, ◌++◌, [], if◌then◌else◌, Err, IfErr, IfOk, OnOk, false, not};
ghost use Rattle.zed_op.specs.Set.{AllFit, IsRising, set_of, union as union_of};
ghost use Rattle.zed_history.specs.Clash.{Agree};
ghost use Rattle.zed_edit.specs.Replay.{replay};
ghost use Rattle.zed_sides.specs.Sides.{common as common_of, knows};
ghost use Rattle.zed_join.specs.Sides.{AreSides, ClashOrMemory, Has, ShowSides, has_stamp as has_that_stamp};

use std::alloc::{AllocError, Global};
use zed_document::{Document, DocumentError, View, deliveries_come_to_sets};
use zed_edit::Edit;
use zed_history::spot_of;
use zed_op::rising_lists_are_sets;
use zed_sides::Side;
use zed_types::Stamp;

/// Two documents of one world that agree, what both have, and their union.
#[derive(Drop)]
pub struct Sides<'a> {
    pub base: Document,
    pub mine: &'a Document,
    pub theirs: &'a Document,
    pub union: Document,
}

/// What they show.
#[derive(Drop)]
pub struct Views<'a> {
    pub base: View<'a>,
    pub mine: View<'a>,
    pub theirs: View<'a>,
    pub union: View<'a>,
}

/// Whether an edit of this stamp is among these.
pub(crate) fn has_stamp(edits: &[Edit], stamp: Stamp) -> bool
    requires { IsRising edits.now }
    ensures { result ≡ has_that_stamp edits.now stamp }
{
    spot_of(edits, edits.len(), stamp).is_ok()
}

// Adds a copy of an edit that is among others too.
fn push_common(copies: &mut Vec<Edit>, edit: &Edit, others: &[Edit]) -> Result<(), AllocError>
    requires { IsRising others.now }
    ensures { OnOk result (copies.new.items ≡ (if has_that_stamp others.now edit.now.stamp
        then copies.old.items ++ edit.now ∷ [] else copies.old.items)) }
{
    if !has_stamp(others, edit.stamp) {
        return Ok(());
    }
    let Ok(copy) = edit.copy() else {
        return Err(AllocError);
    };
    copies.push(copy)?;
    Ok(())
}

// Copies of the edits that are among others too.
fn common_edits(alloc: Global, edits: &[Edit], others: &[Edit]) -> Result<Vec<Edit>, AllocError>
    requires { IsRising others.now }
    ensures { IfOk result (λ copies. copies.items ≡ common_of edits.now others.now) }
{
    let mut copies = Vec::new(alloc);
    for edit in edits {
        push_common(&mut copies, edit, others)?;
    }
    Ok(copies)
}

// A document of these edits alone, which fit and agree.
fn document_of(alloc: Global, world: u64, edits: Vec<Edit>) -> Result<Document, AllocError>
    requires { AllFit edits.items }
    ensures edits { IfOk result (λ d. d.edits ≡ set_of edits.items) }
    ensures sound { IfOk result (λ d. d.is_stale ≡ false) }
{
    deliveries_come_to_sets();
    let mut document = Document::new(alloc, world);
    match document.deliver_all(edits) {
        Ok(()) => Ok(document),
        // edits of one document agree
        Err(_) => Err(AllocError),
    }
}

// A document of the edits that two documents have.
fn common(alloc: Global, mine: &Document, theirs: &Document) -> Result<Document, AllocError>
    ensures edits { IfOk result (λ d. d.edits ≡ common_of mine.now.edits theirs.now.edits) }
    ensures sound { IfOk result (λ d. d.is_stale ≡ false) }
{
    let mine_edits = mine.edits();
    let their_edits = theirs.edits();
    let edits = common_edits(alloc, mine_edits, their_edits)?;
    document_of(alloc, mine.world(), edits)
}

// A document of the edits of another one.
fn copy_of(alloc: Global, document: &Document) -> Result<Document, AllocError>
    ensures edits { IfOk result (λ d. d.edits ≡ document.now.edits) }
    ensures world { IfOk result (λ d. d.world ≡ document.now.world) }
    ensures sound { IfOk result (λ d. d.is_stale ≡ false) }
{
    document.edits();
    rising_lists_are_sets();
    let mut copy = Document::new(alloc, document.world());
    match copy.merge(document) {
        Ok(()) => Ok(copy),
        // no edit agrees with all
        Err(_) => Err(AllocError),
    }
}

// Merges a document of the same world into another one.
#[tactic(auto, using(crate::proofs::Joins::merge_agrees, crate::proofs::Joins::merge_clashes))]
fn merge_in(union: &mut Document, theirs: &Document) -> Result<(), DocumentError>
    requires sound { union.old.is_stale ≡ false }
    requires world { union.old.world ≡ theirs.now.world }
    ensures edits { OnOk result (union.new.edits ≡ union_of union.old.edits theirs.now.edits) }
    ensures sound { OnOk result (union.new.is_stale ≡ false) }
    ensures agree { OnOk result (Agree union.old.edits theirs.now.edits) }
    ensures err { IfErr result (ClashOrMemory union.old.edits theirs.now.edits) }
{
    match union.merge(theirs) {
        Ok(()) => Ok(()),
        Err(error) => Err(error),
    }
}

// A document of the edits of both.
fn joined(alloc: Global, mine: &Document, theirs: &Document) -> Result<Document, DocumentError>
    requires world { theirs.now.world ≡ mine.now.world }
    ensures union { IfOk result (Has (union_of mine.now.edits theirs.now.edits)) }
    ensures agree { OnOk result (Agree mine.now.edits theirs.now.edits) }
    ensures err { IfErr result (ClashOrMemory mine.now.edits theirs.now.edits) }
{
    let mut union = copy_of(alloc, mine)?;
    merge_in(&mut union, theirs)?;
    Ok(union)
}

// What both have, and their union.
fn base_and_union(
    alloc: Global,
    mine: &Document,
    theirs: &Document,
) -> Result<(Document, Document), DocumentError>
    requires world { theirs.now.world ≡ mine.now.world }
    ensures base { IfOk result (λ both. Has (common_of mine.now.edits theirs.now.edits) both.0) }
    ensures union { IfOk result (λ both. Has (union_of mine.now.edits theirs.now.edits) both.1) }
    ensures agree { OnOk result (Agree mine.now.edits theirs.now.edits) }
    ensures err { IfErr result (ClashOrMemory mine.now.edits theirs.now.edits) }
{
    let union = joined(alloc, mine, theirs)?;
    let base = common(alloc, mine, theirs)?;
    Ok((base, union))
}

impl<'a> Sides<'a> {
    /// Joins two documents of one world. Refusals: Clash with the least stamp for which they have
    /// different edits; Memory.
    pub fn join(
        alloc: Global,
        mine: &'a Document,
        theirs: &'a Document,
    ) -> Result<Sides<'a>, DocumentError>
        requires mine { mine.now.is_stale ≡ false }
        requires theirs { theirs.now.is_stale ≡ false }
        requires world { theirs.now.world ≡ mine.now.world }
        ensures sides { IfOk result (AreSides mine.now.edits theirs.now.edits) }
        ensures agree { OnOk result (Agree mine.now.edits theirs.now.edits) }
        ensures err { IfErr result (ClashOrMemory mine.now.edits theirs.now.edits) }
    {
        match base_and_union(alloc, mine, theirs) {
            Ok((base, union)) => Ok(Sides {
                base,
                mine,
                theirs,
                union,
            }),
            Err(error) => Err(error),
        }
    }

    /// What they show.
    pub fn views(&self) -> Result<Views<'_>, DocumentError>
        ensures { IfOk result (ShowSides self.now) }
    {
        Ok(Views {
            base: self.base.view()?,
            mine: self.mine.view()?,
            theirs: self.theirs.view()?,
            union: self.union.view()?,
        })
    }
}

impl<'a> Views<'a> {
    /// What a side shows.
    pub fn of(&self, side: Side) -> &View<'a> {
        match side {
            Side::Mine => &self.mine,
            Side::Theirs => &self.theirs,
        }
    }
}
