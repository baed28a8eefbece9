//! Many edits that come to a document at once: each goes through an intake, one after the other.
ghost use Rattle.std.specs.Prelude.{◌≡◌, ◌≢◌, ◌⊎◌, ◌<◌, [], if◌then◌else◌, is_ok, length, true, false, None, Err, OnOk, OnErr, IfOk, IfErr};
ghost use Rattle.zed_types.specs.declared.stamp.Stamp.{Stamp as TheStamp};
ghost use Rattle.zed_op.specs.Fit.{Fits};
ghost use Rattle.zed_op.specs.Set.{AllFit, IsRising, union, with_edit};
ghost use Rattle.zed_history.specs.Clash.{new_to};
ghost use Rattle.zed_history.specs.Finding.{edit_with};
ghost use Rattle.zed_document.specs.Counts.{NoCountFalls};
ghost use Rattle.zed_document.specs.Delivery.{AnswersEach, DeliversEach, DeliversFront, HasNew};
ghost use Rattle.zed_document.specs.Merge.{AnswersMerge, below};

use crate::document::Document;
use crate::error::DocumentError;
use crate::intake::Intake;
use std::alloc::{AllocError, Global};
use std::mem::replace;
use zed_edit::Edit;
use zed_history::least_clash;

/// Equal edits, in the same order.
pub fn copies_of(alloc: Global, edits: &[Edit]) -> Result<Vec<Edit>, AllocError>
    ensures { IfOk result (λ copies. copies.items ≡ edits.now) }
{
    let mut copies = Vec::new(alloc);
    for edit in edits {
        let Ok(copy) = edit.copy() else {
            return Err(AllocError);
        };
        copies.push(copy)?;
    }
    Ok(copies)
}

/// Delivers edits that fit, one after the other, up to the first refusal.
fn deliver_each(intake: &mut Intake, edits: Vec<Edit>) -> Result<(), DocumentError>
    requires sound { intake.old.is_stale ≡ false }
    requires fit { AllFit edits.items }
    ensures result { (result ≡ Err DocumentError.Memory)
        ⊎ DeliversEach intake.old edits.items result intake.new.edits }
    ensures front { result ≡ Err DocumentError.Memory
        → DeliversFront intake.old edits.items intake.new.edits }
    ensures world { intake.new.world ≡ intake.old.world }
    ensures stale { (result ≢ Err DocumentError.Memory) → intake.new.is_stale ≡ false }
    ensures visits { intake.new.is_stale ≡ false
        → NoCountFalls intake.old.counts intake.new.counts }
{
    for edit in edits {
        let _ = intake.deliver(edit)?;
    }
    Ok(())
}

/// Delivers a copy of an edit that fits, unless one with its stamp is there.
fn deliver_copy(intake: &mut Intake, edit: &Edit) -> Result<(), DocumentError>
    requires sound { intake.old.is_stale ≡ false }
    requires fits { Fits edit.now }
    ensures edits { intake.new.edits ≡ (if is_ok result
        then with_edit edit.now intake.old.edits else intake.old.edits) }
    ensures err { IfErr result (λ e. e ≡ DocumentError.Memory) }
    ensures new { OnErr result (edit_with edit.now.stamp intake.old.edits ≡ None) }
    ensures refused { OnErr result (intake.new.is_stale ≡ false → intake.new ≡ intake.old) }
    ensures grows { OnOk result ((intake.new ≡ intake.old)
        ⊎ (length intake.old.edits < length intake.new.edits)) }
    ensures world { intake.new.world ≡ intake.old.world }
    ensures sound { OnOk result (intake.new.is_stale ≡ false) }
    ensures visits { OnOk result (NoCountFalls intake.old.counts intake.new.counts) }
{
    intake.seek(edit.stamp);
    if intake.find(edit.stamp).is_some() {
        return Ok(());
    }
    let copy = edit.copy()?;
    let _ = intake.deliver(copy)?;
    Ok(())
}

/// Delivers copies of edits that fit, from the first on, unless one with its stamp is there. After
/// Memory the document has those below some stamp.
fn deliver_copies(intake: &mut Intake, other: &[Edit]) -> Result<(), DocumentError>
    requires sound { intake.old.is_stale ≡ false }
    requires fit { AllFit other.now }
    requires rising { IsRising other.now }
    ensures edits { OnOk result (intake.new.edits ≡ union intake.old.edits other.now) }
    ensures err { IfErr result (λ e. e ≡ DocumentError.Memory) }
    ensures front { OnErr result ((s : TheStamp)
        × (intake.new.edits ≡ union intake.old.edits (below s other.now))) }
    ensures new { OnErr result (new_to intake.old.edits other.now ≢ []) }
    ensures refused { OnErr result ((intake.new.is_stale ≡ false → intake.new ≡ intake.old)
        ⊎ (length intake.old.edits < length intake.new.edits)) }
    ensures world { intake.new.world ≡ intake.old.world }
    ensures sound { OnOk result (intake.new.is_stale ≡ false) }
    ensures visits { OnOk result (NoCountFalls intake.old.counts intake.new.counts) }
{
    for edit in other {
        deliver_copy(intake, edit)?;
    }
    Ok(())
}

impl Document {
    /// The document, opened to take edits. One without edits stands in its place meanwhile.
    fn open(&mut self) -> Intake
        ensures { result ≡ self.old }
    {
        let empty = Document::new(self.alloc(), self.world());
        Intake::of(replace(self, empty))
    }

    /// Delivers edits that fit, one after the other as they come, up to the first refusal: Stale,
    /// even for no edits, Clash, or Memory. Edits before it stay. After Memory the document may be
    /// stale. Edits in any order take the work of edits in stamp order.
    pub fn deliver_all(&mut self, edits: Vec<Edit>) -> Result<(), DocumentError>
        requires { AllFit edits.items }
        ensures result { (result ≡ Err DocumentError.Memory)
            ⊎ AnswersEach self.old edits.items result self.new.edits }
        ensures front { result ≡ Err DocumentError.Memory
            → DeliversFront self.old edits.items self.new.edits }
        ensures refused { result ≡ Err DocumentError.Memory
            → self.new.is_stale ≡ false → NoCountFalls self.old.counts self.new.counts }
        ensures world { self.new.world ≡ self.old.world }
        ensures stale { (result ≢ Err DocumentError.Memory)
            → self.new.is_stale ≡ self.old.is_stale }
        ensures visits { (result ≢ Err DocumentError.Memory)
            → NoCountFalls self.old.counts self.new.counts }
        ensures memory_only_when { result ≡ Err DocumentError.Memory
            → (self.old.is_stale ≡ false) × HasNew self.old.edits edits.items }
    {
        if self.is_stale() {
            return Err(DocumentError::Stale);
        }
        let mut intake = self.open();
        let delivered = deliver_each(&mut intake, edits);
        *self = intake.close();
        delivered
    }

    /// Takes in copies of those edits of another log that are new. If memory runs out when some
    /// are in, the document is stale.
    fn take_in(&mut self, other: &[Edit]) -> Result<(), DocumentError>
        requires sound { self.old.is_stale ≡ false }
        requires fit { AllFit other.now }
        requires rising { IsRising other.now }
        ensures edits { OnOk result (self.new.edits ≡ union self.old.edits other.now) }
        ensures err { IfErr result (λ e. e ≡ DocumentError.Memory) }
        ensures front { OnErr result ((s : TheStamp)
            × (self.new.edits ≡ union self.old.edits (below s other.now))) }
        ensures new { OnErr result (new_to self.old.edits other.now ≢ []) }
        ensures refused { OnErr result (self.new.is_stale ≡ false → self.new ≡ self.old) }
        ensures world { self.new.world ≡ self.old.world }
        ensures sound { OnOk result (self.new.is_stale ≡ false) }
        ensures visits { OnOk result (NoCountFalls self.old.counts self.new.counts) }
    {
        let had = self.edits().len();
        let mut opened = self.open();
        let copied = deliver_copies(&mut opened, other);
        *self = opened.close();
        let Err(error) = copied else {
            return Ok(());
        };
        if had < self.edits().len() {
            self.give_up();
        }
        Err(error)
    }

    /// Takes in all edits of another document, held ones too. Refusals, in order: Stale if this
    /// document is; OtherWorld if their worlds have different numbers; Clash with the least stamp
    /// for which they have different edits; Memory. Nothing changes on the first three. After
    /// Memory the document has its own edits and those of the other below some stamp, and may be
    /// stale; if it isn't stale, it is as before. It takes no memory if it has all edits of the
    /// other.
    pub fn merge(&mut self, other: &Document) -> Result<(), DocumentError>
        ensures result { AnswersMerge self.old other.now result }
        ensures edits { OnOk result (self.new.edits ≡ union self.old.edits other.now.edits) }
        ensures kept { OnErr result ((result ≢ Err DocumentError.Memory) → self.new ≡ self.old) }
        ensures refused { result ≡ Err DocumentError.Memory
            → self.new.is_stale ≡ false → self.new ≡ self.old }
        ensures err { result ≡ Err DocumentError.Memory
            → (s : TheStamp) × (self.new.edits ≡ union self.old.edits (below s other.now.edits)) }
        ensures world { self.new.world ≡ self.old.world }
        ensures sound { OnOk result (self.new.is_stale ≡ false) }
        ensures visits { OnOk result (NoCountFalls self.old.counts self.new.counts) }
        ensures memory_only_when { result ≡ Err DocumentError.Memory
            → new_to self.old.edits other.now.edits ≢ [] }
    {
        if self.is_stale() {
            return Err(DocumentError::Stale);
        }
        if self.world() != other.world() {
            return Err(DocumentError::OtherWorld);
        }
        match least_clash(self.edits(), other.edits()) {
            Some(stamp) => Err(DocumentError::Clash(stamp)),
            None => self.take_in(other.edits()),
        }
    }
}
