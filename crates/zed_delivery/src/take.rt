//! A body takes edits, in whatever order they come.
ghost use Rattle.std.specs.Prelude.{◌≡◌, ◌≤◌, true, false, length, IfOk, OnOk, OnErr};
ghost use Rattle.zed_op.specs.Fit.{Fits};
ghost use Rattle.zed_delivery.specs.Things.{can_do};
ghost use Rattle.zed_delivery.specs.Counts.{Works};
ghost use Rattle.zed_delivery.specs.Stirring.{IsDoneWithAll};
ghost use Rattle.zed_delivery.specs.Taking.{IsEmpty, IsNewTo, ShowsOneMore, Tells};

use crate::body::Body;
use std::alloc::{AllocError, Global};
use zed_op::Edit;
use zed_types::Stamp;

/// What became of an edit that a body took.
#[derive(Clone, Copy, PartialEq, Eq)]
pub struct Taken {
    /// Whether it waits for a thing that it names.
    pub held: bool,
    /// How many edits that waited are done by now.
    pub woken: usize,
}

impl Body {
    /// Does a new edit that can be done, and what waits for it.
    fn do_with_all(
        &mut self,
        alloc: Global,
        edit: &Edit,
        woken: &mut Vec<Stamp>,
    ) -> Result<(), AllocError>
        requires fits { Fits edit.now }
        requires new { IsNewTo edit.now self.old }
        requires can { can_do self.old.live.boards self.old.texts edit.now ≡ true }
        ensures ok { OnOk result (ShowsOneMore edit.now self.old self.new) }
        ensures few { OnOk result (length self.new.inbox ≤ length self.old.inbox) }
        ensures visits { OnOk result (IsDoneWithAll edit.now self.old self.new) }
    {
        let mut done = Vec::new(alloc);
        self.do_one(alloc, edit)?;
        self.wake(alloc, &mut done, edit)?;
        self.settle(alloc, done, woken)?;
        Ok(())
    }

    /// Holds a copy of a new edit that can't be done.
    fn hold_copy(&mut self, edit: &Edit) -> Result<(), AllocError>
        requires fits { Fits edit.now }
        requires cant { can_do self.old.live.boards self.old.texts edit.now ≡ false }
        ensures ok { OnOk result (ShowsOneMore edit.now self.old self.new) }
        ensures texts { self.new.texts ≡ self.old.texts }
    {
        let Ok(copy) = edit.copy() else {
            return Err(AllocError);
        };
        self.hold_one(copy)?;
        Ok(())
    }

    /// Seeks what an edit names, so that it is found at once from here on. Nothing changes.
    fn hint(&mut self, edit: &Edit)
        ensures { self.new ≡ self.old }
    {
        self.live.boards.hint(edit);
        self.texts.hint(edit);
    }

    /// Takes a new edit. Memory may leave a part of it done.
    fn bring(
        &mut self,
        alloc: Global,
        edit: &Edit,
        woken: &mut Vec<Stamp>,
    ) -> Result<Taken, AllocError>
        requires fits { Fits edit.now }
        requires new { IsNewTo edit.now self.old }
        ensures ok { OnOk result (ShowsOneMore edit.now self.old self.new) }
        ensures tells { IfOk result (λ t. Tells edit.now self.old t) }
        ensures visits { IfOk result (λ t. Works edit.now t self.old.texts self.new.texts) }
    {
        if !self.can(edit) {
            self.hold_copy(edit)?;
            return Ok(Taken {
                held: true,
                woken: 0,
            });
        }
        let before = self.inbox.held();
        self.do_with_all(alloc, edit, woken)?;
        Ok(Taken {
            held: false,
            woken: before - self.inbox.held(),
        })
    }

    /// Takes an edit with a new stamp, whenever it comes: does it, and all that waits for it, or
    /// holds it if a thing that it names isn't made. The stamps of edits that waited and are now
    /// done are appended to `woken`. Memory leaves the body empty.
    pub fn take(
        &mut self,
        alloc: Global,
        edit: &Edit,
        woken: &mut Vec<Stamp>,
    ) -> Result<Taken, AllocError>
        requires fits { Fits edit.now }
        requires new { IsNewTo edit.now self.old }
        ensures ok { OnOk result (ShowsOneMore edit.now self.old self.new) }
        ensures tells { IfOk result (λ t. Tells edit.now self.old t) }
        ensures emptied { OnErr result (IsEmpty self.new) }
        ensures visits { IfOk result (λ t. Works edit.now t self.old.texts self.new.texts) }
    {
        self.hint(edit);
        match self.bring(alloc, edit, woken) {
            Ok(taken) => Ok(taken),
            Err(error) => {
                *self = Body::new(alloc);
                Err(error)
            }
        }
    }
}
