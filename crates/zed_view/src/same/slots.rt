//! Whether registers show the same values, whenever these were written.

ghost use Rattle.std.specs.Prelude.{◌≡◌, ◌↔◌, IsTrue, [], pos, false, None as Nothing, map};
ghost use Rattle.zed_types.specs.Register.{value_or};

use zed_types::{BoardId, Bytes, Written, string_or_empty, value_or};

/// A register as it is kept, with its latest write if it was ever written. What it shows is compared.
pub(crate) trait Slot {
    /// What it shows.
    type Value;

    /// The value that it shows.
    ghost shown: { Self → Self.Value };

    /// Whether two registers show the same.
    fn shows_same(&self, other: &Self) -> bool
        ensures { IsTrue result ↔ shown self.now ≡ shown other.now };
}

/// Whether two tables of registers show the same.
pub(crate) fn tables_same<R: Slot>(a: &[R], b: &[R]) -> bool
    ensures { IsTrue result ↔ map R.shown a.now ≡ map R.shown b.now }
{
    if a.len() != b.len() {
        return false;
    }
    for i in 0..a.len() {
        if !a[i].shows_same(&b[i]) {
            return false;
        }
    }
    true
}

impl Slot for Option<Written<i16>> {
    type Value = i16;

    ghost shown = { λ slot. value_or (pos 0) slot };

    fn shows_same(&self, other: &Option<Written<i16>>) -> bool {
        value_or(self, 0) == value_or(other, 0)
    }
}

impl Slot for Option<Written<u16>> {
    type Value = u16;

    ghost shown = { λ slot. value_or 0 slot };

    fn shows_same(&self, other: &Option<Written<u16>>) -> bool {
        value_or(self, 0) == value_or(other, 0)
    }
}

impl Slot for Option<Written<u8>> {
    type Value = u8;

    ghost shown = { λ slot. value_or 0 slot };

    fn shows_same(&self, other: &Option<Written<u8>>) -> bool {
        value_or(self, 0) == value_or(other, 0)
    }
}

impl Slot for Option<Written<bool>> {
    type Value = bool;

    ghost shown = { λ slot. value_or false slot };

    fn shows_same(&self, other: &Option<Written<bool>>) -> bool {
        value_or(self, false) == value_or(other, false)
    }
}

impl Slot for Option<Written<Option<BoardId>>> {
    type Value = Option<BoardId>;

    ghost shown = { λ slot. value_or Nothing slot };

    fn shows_same(&self, other: &Option<Written<Option<BoardId>>>) -> bool {
        value_or(self, None) == value_or(other, None)
    }
}

impl Slot for Option<Written<Bytes>> {
    type Value = Bytes;

    ghost shown = { λ slot. value_or [] slot };

    fn shows_same(&self, other: &Option<Written<Bytes>>) -> bool {
        string_or_empty(self) == string_or_empty(other)
    }
}
