//! Edits that an author makes at a replica, each later than all that the replica has.
ghost use Rattle.std.specs.Prelude.{◌≡◌, ◌≢◌, ◌≤◌, ◌⊎◌, if◌then◌else◌, false, true, insert, is_ok, length, take, None, Err, Ok, OnErr, OnOk, MatchBool, IfSome, IfNone, OnSome};
ghost use Rattle.zed_op.specs.Fit.{Fits, fault};
ghost use Rattle.zed_edit.specs.Replay.{replay, can};
ghost use Rattle.zed_op.specs.Set.{AllFit, IsRising, with_edit};
ghost use Rattle.zed_op.specs.Verdict.{is_genesis as makes_world};
ghost use Rattle.zed_history.specs.Finding.{edit_with};
ghost use Rattle.zed_document.specs.Authoring.{AnswersMade, AnswersToDo, IsLate, MayTakeMemory, AnswersAuthor, authored, is_spent_for};
ghost use Rattle.zed_document.specs.Counts.{NoCountFalls};
ghost use Rattle.zed_document.specs.Held.{held_stamps, is_among as is_one_of};

use crate::document::Document;
use crate::error::DocumentError;
use zed_delivery::bodies_have_what_is_made;
use zed_edit::{Edit, Op, check};
use zed_history::{next_stamp, spot_of};
use zed_laws::replay_goes_edit_by_edit;
use zed_op::{fit_is_of_parts, sets_stay_fit};
use zed_types::Stamp;

/// Whether an edit makes the world.
fn is_genesis(op: &Op) -> bool
    ensures { result ≡ makes_world op.now }
{
    matches!(op, Op::Genesis(_))
}

/// The stamp of an edit that is to be made, unless no time is left for it.
fn stamp_for(edits: &[Edit], replica: u16, op: &Op) -> Option<Stamp>
    requires { IsRising edits.now }
    ensures spent { IfNone result (is_spent_for edits.now op.now ≡ true) }
    ensures left { OnSome result (is_spent_for edits.now op.now ≡ false) }
    ensures next { IfSome result (λ s. s ≡ (authored edits.now replica op.now).stamp) }
{
    if is_genesis(op) {
        Some(Stamp { time: 1, replica })
    } else {
        next_stamp(edits, replica)
    }
}

/// A late edit that can be done is taken.
fn are_late_edits_taken(edits: &[Edit], edit: &Edit)
    requires fit { AllFit edits.now }
    requires fits { Fits edit.now }
    requires late { IsLate edits.now edit.now }
    requires can { can (replay edits.now) edit.now ≡ true }
    ensures { is_one_of (held_stamps (with_edit edit.now edits.now)) edit.now.stamp ≡ false }
{
    fit_is_of_parts();
    replay_goes_edit_by_edit();
    sets_stay_fit();
}

impl Document {
    /// Makes an edit at a replica, later than all that the document has, held ones too, and takes
    /// it. Refusals, in order: Stale; ClockSpent if no later time is left; BadEdit if the edit
    /// doesn't fit; NoSuch if a thing that it names isn't made; Clash if another world was made;
    /// Memory. A refusal leaves the set of edits as it was; after Memory the document may be stale.
    /// Replica 0 makes the world at time 1. If the same world is there already, that edit is
    /// answered again.
    pub fn author(&mut self, replica: u16, op: Op) -> Result<Edit, DocumentError>
        ensures result { (result ≡ Err DocumentError.Memory)
            ⊎ AnswersAuthor self.old replica op result }
        ensures edits { self.new.edits ≡ (if is_ok result
            then with_edit (authored self.old.edits replica op) self.old.edits
            else self.old.edits) }
        ensures taken { OnOk result (is_one_of (held_stamps self.new.edits)
            (authored self.old.edits replica op).stamp ≡ false) }
        ensures world { self.new.world ≡ self.old.world }
        ensures sound { OnOk result (self.new.is_stale ≡ false) }
        ensures stale { (result ≢ Err DocumentError.Memory)
            → self.new.is_stale ≡ self.old.is_stale }
        ensures kept { OnErr result ((result ≢ Err DocumentError.Memory) → self.new ≡ self.old) }
        ensures refused { result ≡ Err DocumentError.Memory
            → self.new.is_stale ≡ false → self.new ≡ self.old }
        ensures visits { OnOk result (NoCountFalls self.old.counts self.new.counts) }
        ensures memory_only_when { result ≡ Err DocumentError.Memory
            → (self.old.is_stale ≡ false) × (is_spent_for self.old.edits op ≡ false)
            × MayTakeMemory self.old.edits (authored self.old.edits replica op) }
    {
        if self.is_stale() {
            return Err(DocumentError::Stale);
        }
        match stamp_for(self.edits(), replica, &op) {
            Some(stamp) => self.make(Edit { stamp, op }),
            None => Err(DocumentError::ClockSpent),
        }
    }

    /// Whether all that an edit names was made.
    fn has_all_of(&self, edit: &Edit) -> bool
        requires { self.now.is_stale ≡ false }
        ensures { result ≡ can (replay self.now.edits) edit.now }
    {
        bodies_have_what_is_made();
        self.body().can(edit)
    }

    /// Makes an edit: the world, or an edit later than all others.
    pub(crate) fn make(&mut self, edit: Edit) -> Result<Edit, DocumentError>
        requires sound { self.old.is_stale ≡ false }
        requires late { IsLate self.old.edits edit }
        ensures result { (result ≡ Err DocumentError.Memory)
            ⊎ AnswersToDo (fault edit) self.old.edits edit result }
        ensures edits { self.new.edits
            ≡ (if is_ok result then with_edit edit self.old.edits else self.old.edits) }
        ensures taken { OnOk result (is_one_of (held_stamps self.new.edits) edit.stamp ≡ false) }
        ensures world { self.new.world ≡ self.old.world }
        ensures sound { OnOk result (self.new.is_stale ≡ false) }
        ensures stale { (result ≢ Err DocumentError.Memory) → self.new.is_stale ≡ false }
        ensures kept { OnErr result ((result ≢ Err DocumentError.Memory) → self.new ≡ self.old) }
        ensures refused { result ≡ Err DocumentError.Memory
            → self.new.is_stale ≡ false → self.new ≡ self.old }
        ensures visits { OnOk result (NoCountFalls self.old.counts self.new.counts) }
        ensures memory_only_when { result ≡ Err DocumentError.Memory
            → MayTakeMemory self.old.edits edit }
    {
        check(self.alloc(), &edit)?;
        self.make_checked(edit)
    }

    /// Makes an edit that fits, where it can be done.
    fn make_checked(&mut self, edit: Edit) -> Result<Edit, DocumentError>
        requires sound { self.old.is_stale ≡ false }
        requires fits { Fits edit }
        requires late { IsLate self.old.edits edit }
        ensures result { (result ≡ Err DocumentError.Memory)
            ⊎ MatchBool (can (replay self.old.edits) edit)
            (AnswersMade (edit_with edit.stamp self.old.edits) edit result)
            (result ≡ Err DocumentError.NoSuch) }
        ensures edits { self.new.edits
            ≡ (if is_ok result then with_edit edit self.old.edits else self.old.edits) }
        ensures taken { OnOk result (is_one_of (held_stamps self.new.edits) edit.stamp ≡ false) }
        ensures world { self.new.world ≡ self.old.world }
        ensures sound { OnOk result (self.new.is_stale ≡ false) }
        ensures stale { (result ≢ Err DocumentError.Memory) → self.new.is_stale ≡ false }
        ensures kept { OnErr result ((result ≢ Err DocumentError.Memory) → self.new ≡ self.old) }
        ensures refused { result ≡ Err DocumentError.Memory
            → self.new.is_stale ≡ false → self.new ≡ self.old }
        ensures visits { OnOk result (NoCountFalls self.old.counts self.new.counts) }
        ensures memory_only_when { result ≡ Err DocumentError.Memory
            → can (replay self.old.edits) edit ≡ true }
        ensures new { result ≡ Err DocumentError.Memory
            → edit_with edit.stamp self.old.edits ≡ None }
    {
        if self.has_all_of(&edit) {
            self.take_made(edit)
        } else {
            Err(DocumentError::NoSuch)
        }
    }

    /// Takes an edit that fits and can be done.
    fn take_made(&mut self, edit: Edit) -> Result<Edit, DocumentError>
        requires sound { self.old.is_stale ≡ false }
        requires fits { Fits edit }
        requires late { IsLate self.old.edits edit }
        requires can { can (replay self.old.edits) edit ≡ true }
        ensures result { (result ≡ Err DocumentError.Memory)
            ⊎ AnswersMade (edit_with edit.stamp self.old.edits) edit result }
        ensures edits { self.new.edits
            ≡ (if is_ok result then with_edit edit self.old.edits else self.old.edits) }
        ensures taken { OnOk result (is_one_of (held_stamps self.new.edits) edit.stamp ≡ false) }
        ensures world { self.new.world ≡ self.old.world }
        ensures sound { OnOk result (self.new.is_stale ≡ false) }
        ensures stale { (result ≢ Err DocumentError.Memory) → self.new.is_stale ≡ false }
        ensures kept { OnErr result ((result ≢ Err DocumentError.Memory) → self.new ≡ self.old) }
        ensures refused { result ≡ Err DocumentError.Memory
            → self.new.is_stale ≡ false → self.new ≡ self.old }
        ensures visits { OnOk result (NoCountFalls self.old.counts self.new.counts) }
        ensures memory_only_when { result ≡ Err DocumentError.Memory
            → edit_with edit.stamp self.old.edits ≡ None }
    {
        are_late_edits_taken(self.edits(), &edit);
        match spot_of(self.edits(), self.edits().len(), edit.stamp) {
            Ok(there) => {
                if there.is_same(&edit) {
                    Ok(edit)
                } else {
                    Err(DocumentError::Clash(edit.stamp))
                }
            }
            Err(place) => self.take_new(place, edit),
        }
    }

    /// Takes an edit that fits and has a stamp of its own, at its place in the log.
    fn take_new(&mut self, place: usize, edit: Edit) -> Result<Edit, DocumentError>
        requires sound { self.old.is_stale ≡ false }
        requires fits { Fits edit }
        requires new { edit_with edit.stamp self.old.edits ≡ None }
        requires within { place ≤ length self.old.edits }
        requires belongs { with_edit edit self.old.edits ≡ insert self.old.edits place edit }
        ensures result { (result ≡ Err DocumentError.Memory) ⊎ (result ≡ Ok edit) }
        ensures edits { self.new.edits
            ≡ (if is_ok result then with_edit edit self.old.edits else self.old.edits) }
        ensures world { self.new.world ≡ self.old.world }
        ensures sound { OnOk result (self.new.is_stale ≡ false) }
        ensures refused { result ≡ Err DocumentError.Memory
            → self.new.is_stale ≡ false → self.new ≡ self.old }
        ensures visits { OnOk result (NoCountFalls self.old.counts self.new.counts) }
    {
        let copy = edit.copy()?;
        let _ = self.accept(place, edit)?;
        Ok(copy)
    }
}
