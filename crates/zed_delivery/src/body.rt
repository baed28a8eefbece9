//! The live parts of a document, and the edits that wait.
ghost use Rattle.std.specs.Prelude.{◌≡◌, ◌≤◌, ◌+◌, ◌∷◌, ◌++◌, [], length, true, false, IfOk, OnOk, OnErr};
ghost use Rattle.zed_op.specs.Fit.{Fits};
ghost use Rattle.zed_op.specs.Set.{AllFit};
ghost use Rattle.zed_texts.specs.Texts.{elements_of, IsReady};
ghost use Rattle.zed_live.specs.Document.{empty_live};
ghost use Rattle.zed_delivery.specs.Steps.{IsInHand, IsDone, IsHeldBack, IsTried, IsReleased, AreInHand, AreTried};
ghost use Rattle.zed_delivery.specs.Things.{has_thing as is_made, can_do, IsPutIn};
ghost use Rattle.zed_delivery.specs.Counts.{AreWorkedBy};
ghost use Rattle.zed_delivery.specs.Stirring.{Stirs};

use crate::laws::bodies_begin_and_end;
use crate::things::has_thing;
use std::alloc::{AllocError, Global};
use zed_edit::made_by;
use zed_inbox::Inbox;
use zed_live::{LiveDocument, document_shows_its_edits};
use zed_op::{Edit, Op, Thing, all_named, edit_has_sizes};
use zed_texts::{LiveTexts, texts_show_their_edits};

/// A header, boards and texts, as the edits done make them, and the edits that wait for what isn't
/// made yet.
#[derive(Drop)]
pub struct Body {
    pub live: LiveDocument,
    pub texts: LiveTexts,
    pub inbox: Inbox,
}

fn add(edits: &mut Vec<Edit>, edit: Edit) -> Result<(), AllocError>
    ensures ok { OnOk result (edits.new.items ≡ edits.old.items ++ edit ∷ []) }
{
    edits.push(edit)?;
    Ok(())
}

impl Body {
    /// A body that took no edit. It takes no memory.
    pub fn new(alloc: Global) -> Body
        ensures live { result.live ≡ empty_live }
        ensures texts { result.texts ≡ [] }
        ensures inbox { result.inbox ≡ [] }
    {
        Body {
            live: LiveDocument::new(alloc),
            texts: LiveTexts::new(alloc),
            inbox: Inbox::new(alloc),
        }
    }

    /// Whether a thing was made, removed or not, dead or not.
    pub fn has(&self, thing: Thing) -> bool
        ensures { result ≡ is_made self.now.live.boards self.now.texts thing }
    {
        has_thing(&self.live.boards, &self.texts, thing)
    }

    /// Whether an edit can be done: everything that it names was made.
    pub fn can(&self, edit: &Edit) -> bool
        ensures { result ≡ can_do self.now.live.boards self.now.texts edit.now }
    {
        all_named(&edit.op, |thing| self.has(thing))
    }

    /// Puts an edit in that can be done, whenever it comes. On Memory a part of it may be in.
    pub(crate) fn put_in(&mut self, alloc: Global, edit: &Edit) -> Result<(), AllocError>
        requires fits { Fits edit.now }
        requires ready { IsReady edit.now.stamp edit.now.op (elements_of self.old.texts) }
        ensures ok { OnOk result
            (IsPutIn edit.now self.old.live self.old.texts self.new.live self.new.texts) }
        ensures inbox { self.new.inbox ≡ self.old.inbox }
    {
        match &edit.op {
            Op::Genesis(_) => {
                let world = made_by(alloc, edit)?;
                self.texts.open(alloc, edit, world.texts.as_slice())?;
                self.live.open(alloc, edit, world)
            }
            _ => {
                self.live.take(alloc, edit)?;
                self.texts.take(alloc, edit)
            }
        }
    }

    /// Does an edit in hand that can be done.
    pub(crate) fn do_one(&mut self, alloc: Global, edit: &Edit) -> Result<(), AllocError>
        requires hand { IsInHand edit.now self.old }
        requires can { can_do self.old.live.boards self.old.texts edit.now ≡ true }
        ensures ok { OnOk result (IsDone edit.now self.old self.new) }
        ensures inbox { self.new.inbox ≡ self.old.inbox }
        ensures runs { OnOk result (AreWorkedBy edit.now self.old.texts self.new.texts) }
    {
        bodies_begin_and_end();
        document_shows_its_edits();
        texts_show_their_edits();
        edit_has_sizes(edit);
        self.put_in(alloc, edit)?;
        Ok(())
    }

    /// Holds an edit in hand that can't be done. Memory leaves the body as it was.
    pub(crate) fn hold_one(&mut self, edit: Edit) -> Result<(), AllocError>
        requires { can_do self.old.live.boards self.old.texts edit ≡ false }
        ensures ok { OnOk result (IsHeldBack edit self.old self.new) }
        ensures few { OnOk result (length self.new.inbox ≤ length self.old.inbox + 1) }
        ensures texts { self.new.texts ≡ self.old.texts }
        ensures kept { OnErr result (self.new ≡ self.old) }
    {
        self.inbox.hold(edit)?;
        Ok(())
    }

    /// Does an edit in hand that can be done, and adds it to those done.
    fn do_and_add(
        &mut self,
        alloc: Global,
        done: &mut Vec<Edit>,
        edit: Edit,
    ) -> Result<(), AllocError>
        requires hand { IsInHand edit self.old }
        requires can { can_do self.old.live.boards self.old.texts edit ≡ true }
        ensures ok { OnOk result
            (IsTried edit self.old done.old.items self.new done.new.items) }
        ensures fits { OnOk result (AllFit done.old.items → AllFit done.new.items) }
        ensures one { OnOk result (length done.new.items ≡ length done.old.items + 1) }
        ensures inbox { self.new.inbox ≡ self.old.inbox }
        ensures visits { OnOk result (Stirs 1 self.old self.new) }
    {
        self.do_one(alloc, &edit)?;
        add(done, edit)?;
        Ok(())
    }

    /// Tries an edit in hand: does it where it can be done, and else holds it. Memory may leave a part of it done.
    pub(crate) fn retry(
        &mut self,
        alloc: Global,
        done: &mut Vec<Edit>,
        edit: Edit,
    ) -> Result<(), AllocError>
        requires { IsInHand edit self.old }
        ensures ok { OnOk result
            (IsTried edit self.old done.old.items self.new done.new.items) }
        ensures fits { OnOk result (AllFit done.old.items → AllFit done.new.items) }
        ensures few { OnOk result (length self.new.inbox + length done.new.items
            ≤ length self.old.inbox + (length done.old.items + 1)) }
        ensures visits { OnOk result (Stirs 1 self.old self.new) }
    {
        if self.can(&edit) {
            self.do_and_add(alloc, done, edit)
        } else {
            self.hold_one(edit)?;
            Ok(())
        }
    }

    /// Takes the edits that wait for a thing in hand. Memory leaves the body as it was.
    pub(crate) fn release(&mut self, thing: Thing) -> Result<Vec<Edit>, AllocError>
        ensures ok { IfOk result (λ edits. IsReleased thing edits.items self.old self.new) }
        ensures few { IfOk result (λ edits.
            length edits.items + length self.new.inbox ≡ length self.old.inbox) }
        ensures texts { self.new.texts ≡ self.old.texts }
        ensures kept { OnErr result (self.new ≡ self.old) }
    {
        let edits = self.inbox.release(thing)?;
        Ok(edits)
    }

    /// Tries edits in hand, one after the other. Memory may leave a part of them done.
    pub(crate) fn retry_all(
        &mut self,
        alloc: Global,
        done: &mut Vec<Edit>,
        edits: Vec<Edit>,
    ) -> Result<(), AllocError>
        requires { AreInHand edits.items done.old.items self.old }
        ensures ok { OnOk result
            (AreTried edits.items self.old done.old.items [] self.new done.new.items) }
        ensures fits { OnOk result (AllFit done.old.items → AllFit done.new.items) }
        ensures few { OnOk result (length self.new.inbox + length done.new.items
            ≤ length self.old.inbox + (length done.old.items + length edits.items)) }
        ensures visits { OnOk result (Stirs (length edits.items) self.old self.new) }
    {
        for edit in edits {
            self.retry(alloc, done, edit)?;
        }
        Ok(())
    }
}
