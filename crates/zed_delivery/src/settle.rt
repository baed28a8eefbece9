//! A cascade: what an edit that is done wakes, what that wakes, and so on, until nothing is left to wake.
ghost use Rattle.std.specs.Prelude.{◌≡◌, ◌≤◌, ◌+◌, ◌∷◌, ◌++◌, [], length, OnOk};
ghost use Rattle.zed_op.specs.Fit.{Fits};
ghost use Rattle.zed_op.specs.Set.{AllFit};
ghost use Rattle.zed_delivery.specs.Steps.{AreInHand};
ghost use Rattle.zed_delivery.specs.Waking.{IsFollowed};
ghost use Rattle.zed_delivery.specs.Settling.{AreSettled};
ghost use Rattle.zed_delivery.specs.Stirring.{Stirs};

use crate::body::Body;
use std::alloc::{AllocError, Global};
use zed_op::Edit;
use zed_types::Stamp;

fn tell(woken: &mut Vec<Stamp>, stamp: Stamp) -> Result<(), AllocError> {
    woken.push(stamp)?;
    Ok(())
}

impl Body {
    /// Tries what waits for the things of an edit that nobody needs any longer.
    fn wake_last(
        &mut self,
        alloc: Global,
        rest: &mut Vec<Edit>,
        edit: Edit,
    ) -> Result<(), AllocError>
        requires fits { Fits edit }
        requires last { AreInHand [] (rest.old.items ++ edit ∷ []) self.old }
        ensures ok { OnOk result (IsFollowed edit self.old rest.old.items self.new rest.new.items) }
        ensures fits { OnOk result (AllFit rest.old.items → AllFit rest.new.items) }
        ensures few { OnOk result (length self.new.inbox + length rest.new.items
            ≤ length self.old.inbox + (length rest.old.items)) }
        ensures visits { OnOk result (Stirs 0 self.old self.new) }
    {
        self.wake(alloc, rest, &edit)
    }

    /// Tries what waits for the things of edits done, and what waits for the things of those, until
    /// nothing is left to wake. Answers the stamps of the edits woken. Memory may leave a part of
    /// it done.
    pub(crate) fn settle(
        &mut self,
        alloc: Global,
        done: Vec<Edit>,
        woken: &mut Vec<Stamp>,
    ) -> Result<(), AllocError>
        requires fit { AllFit done.items }
        requires hand { AreInHand [] done.items self.old }
        ensures ok { OnOk result (AreSettled done.items self.old [] self.new) }
        ensures few { OnOk result (length self.new.inbox ≤ length self.old.inbox + length done.items) }
        ensures visits { OnOk result (Stirs 0 self.old self.new) }
    {
        let mut rest = done;
        while let Some(edit) = rest.pop() {
            tell(woken, edit.stamp)?;
            self.wake_last(alloc, &mut rest, edit)?;
        }
        Ok(())
    }
}
