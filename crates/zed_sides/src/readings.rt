//! What becomes of what two sides made of a register.
ghost use Rattle.std.specs.Prelude.{◌≡◌};
ghost use Rattle.std.specs.Str.{bytes_eq};
ghost use Rattle.zed_sides.specs.Overridden.{overridden as overridden_by};
ghost use Rattle.zed_sides.specs.Readings.{is_overridden as is_changed_and_lost};

use crate::side::{Overridden, loss_of, shown_of};

/// A register as both sides began with it, as each side shows it, and as their union does.
#[derive(Clone, Copy)]
pub struct Readings<V> {
    pub base: V,
    pub mine: V,
    pub theirs: V,
    pub union: V,
}

// Whether a side changed a register, and the union shows something else.
fn is_overridden<V: PartialEq>(base: &V, own: &V, union: &V) -> bool
    ensures { result ≡ is_changed_and_lost V.eq base.now own.now union.now }
{
    *own != *base && *union != *own
}

impl<V: PartialEq> Readings<V> {
    /// Whose value of the register is overridden: it changed the register, and the union shows
    /// something else. None if neither is.
    pub fn overridden(&self) -> Option<Overridden>
        ensures { result ≡ overridden_by V.eq self.now.base self.now.mine self.now.theirs self.now.union }
    {
        let mine = is_overridden(&self.base, &self.mine, &self.union);
        let theirs = is_overridden(&self.base, &self.theirs, &self.union);
        match loss_of(mine, theirs) {
            Some(lost) => Some(Overridden {
                lost,
                shown: shown_of(self.union == self.mine, self.union == self.theirs),
            }),
            None => None,
        }
    }
}
