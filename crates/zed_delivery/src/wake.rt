//! An edit that is done wakes what waits for the things that it makes.
ghost use Rattle.std.specs.Prelude.{◌≡◌, ◌≤◌, ◌+◌, ◌∷◌, ◌++◌, [], length, OnOk};
ghost use Rattle.zed_op.specs.Fit.{Fits};
ghost use Rattle.zed_op.specs.Set.{AllFit};
ghost use Rattle.zed_delivery.specs.Steps.{AreInHand};
ghost use Rattle.zed_delivery.specs.Stirring.{Stirs};
ghost use Rattle.zed_delivery.specs.Waking.{AreToWake, IsWoken, AreWoken, IsFollowed};

use crate::body::Body;
use crate::made::things_of;
use std::alloc::{AllocError, Global};
use zed_op::{Edit, Thing};

impl Body {
    /// Tries what waits for a thing. Memory may leave a part of it done.
    fn wake_one(
        &mut self,
        alloc: Global,
        done: &mut Vec<Edit>,
        thing: Thing,
    ) -> Result<(), AllocError>
        requires { AreInHand [] done.old.items self.old }
        ensures ok { OnOk result (IsWoken thing self.old done.old.items self.new done.new.items) }
        ensures fits { OnOk result (AllFit done.old.items → AllFit done.new.items) }
        ensures few { OnOk result (length self.new.inbox + length done.new.items
            ≤ length self.old.inbox + (length done.old.items)) }
        ensures visits { OnOk result (Stirs 0 self.old self.new) }
    {
        let edits = self.release(thing)?;
        self.retry_all(alloc, done, edits)?;
        Ok(())
    }

    /// Tries what waits for things, one after the other. Memory may leave a part of it done.
    fn wake_all(
        &mut self,
        alloc: Global,
        done: &mut Vec<Edit>,
        things: Vec<Thing>,
    ) -> Result<(), AllocError>
        requires { AreToWake things.items done.old.items self.old }
        ensures ok { OnOk result
            (AreWoken things.items self.old done.old.items [] self.new done.new.items) }
        ensures fits { OnOk result (AllFit done.old.items → AllFit done.new.items) }
        ensures few { OnOk result (length self.new.inbox + length done.new.items
            ≤ length self.old.inbox + (length done.old.items)) }
        ensures visits { OnOk result (Stirs 0 self.old self.new) }
    {
        for thing in things {
            self.wake_one(alloc, done, thing)?;
        }
        Ok(())
    }

    /// Tries what waits for the things that an edit makes. Memory may leave a part of it done.
    fn follow(&mut self, alloc: Global, done: &mut Vec<Edit>, edit: &Edit) -> Result<(), AllocError>
        requires fits { Fits edit.now }
        requires last { AreInHand [] (done.old.items ++ edit.now ∷ []) self.old }
        ensures ok { OnOk result
            (IsFollowed edit.now self.old done.old.items self.new done.new.items) }
        ensures fits { OnOk result (AllFit done.old.items → AllFit done.new.items) }
        ensures few { OnOk result (length self.new.inbox + length done.new.items
            ≤ length self.old.inbox + (length done.old.items)) }
        ensures visits { OnOk result (Stirs 0 self.old self.new) }
    {
        let things = things_of(alloc, edit)?;
        self.wake_all(alloc, done, things)?;
        Ok(())
    }

    /// Tries what waits for the things that an edit makes, where any edit waits. Memory may leave a part of it done.
    pub(crate) fn wake(
        &mut self,
        alloc: Global,
        done: &mut Vec<Edit>,
        edit: &Edit,
    ) -> Result<(), AllocError>
        requires fits { Fits edit.now }
        requires last { AreInHand [] (done.old.items ++ edit.now ∷ []) self.old }
        ensures ok { OnOk result
            (IsFollowed edit.now self.old done.old.items self.new done.new.items) }
        ensures fits { OnOk result (AllFit done.old.items → AllFit done.new.items) }
        ensures few { OnOk result (length self.new.inbox + length done.new.items
            ≤ length self.old.inbox + (length done.old.items)) }
        ensures visits { OnOk result (Stirs 0 self.old self.new) }
    {
        if self.inbox.held() == 0 {
            return Ok(());
        }
        self.follow(alloc, done, edit)
    }
}
