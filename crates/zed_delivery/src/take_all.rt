//! A body takes many edits.
ghost use Rattle.std.specs.Prelude.{◌≡◌, ◌<◌, length, IfOk, OnOk, OnErr};
ghost use Rattle.zed_op.specs.Set.{AllFit, set_of};
ghost use Rattle.zed_delivery.specs.Counts.{NoneFalls};
ghost use Rattle.zed_delivery.specs.Shows.{BodyShows};
ghost use Rattle.zed_delivery.specs.Taking.{IsEmpty};
ghost use Rattle.zed_delivery.specs.TakingAll.{AreApart, AreNewTo, ShowsAll};

use crate::body::Body;
use crate::laws::empty_bodies_show_none;
use std::alloc::{AllocError, Global};
use zed_op::Edit;

impl Body {
    /// Takes edits whose stamps are new, one after the other. Memory leaves the body empty.
    pub fn take_all(&mut self, alloc: Global, edits: &[Edit]) -> Result<(), AllocError>
        requires fit { AllFit edits.now }
        requires new { AreNewTo edits.now self.old }
        ensures ok { OnOk result (ShowsAll edits.now self.old self.new) }
        ensures emptied { OnErr result (IsEmpty self.new) }
        ensures visits { OnOk result (NoneFalls self.old.texts self.new.texts) }
        ensures memory_only_when { OnErr result (0 < length edits.now) }
    {
        let mut woken = Vec::new(alloc);
        for edit in edits {
            self.take(alloc, edit, &mut woken)?;
            woken.clear();
        }
        Ok(())
    }

    /// A body of edits with different stamps, in any order.
    pub fn of(alloc: Global, edits: &[Edit]) -> Result<Body, AllocError>
        requires fit { AllFit edits.now }
        requires apart { AreApart edits.now }
        ensures ok { IfOk result (λ b. BodyShows (set_of edits.now) b) }
        ensures memory_only_when { OnErr result (0 < length edits.now) }
    {
        empty_bodies_show_none();
        let mut body = Body::new(alloc);
        body.take_all(alloc, edits)?;
        Ok(body)
    }
}
