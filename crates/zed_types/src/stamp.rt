//! Stamps and their order.
ghost use Rattle.std.specs.Prelude.{◌≡◌, ◌↔◌, true};
ghost use Rattle.std.specs.Cmp.{IsTotalOrder};
ghost use Rattle.std.specs.declared.cmp.Ordering.TheVariants.{Less, Equal};
ghost use Rattle.zed_types.specs.Stamp.{before, same_stamp, stamp_cmp};

/// When an edit was made, and by which replica. Stamps are ordered by time, and then by replica.
#[derive(Clone, Copy, Debug, PartialEq, Eq, PartialOrd, Ord, Hash)]
pub struct Stamp {
    /// 1 to 2^48 - 1.
    pub time: u64,
    pub replica: u16,
}

impl Stamp {
    /// The stamp of the edit that makes the world.
    pub const GENESIS: Stamp = Stamp {
        time: 1,
        replica: 0,
    };

    /// The greatest time: a time takes six bytes in an edit file.
    pub const LAST_TIME: u64 = 281_474_976_710_655;

    /// Whether this stamp comes before another.
    pub fn is_before(self, other: Stamp) -> bool
        ensures { result ≡ before self other }
    {
        self < other
    }
}

/// The order of stamps is total, and stamps that compare alike are equal. `is_before` decides this
/// order.
pub fn one_order()
    ensures total { IsTotalOrder stamp_cmp }
    ensures result { (a b : Stamp) → stamp_cmp a b ≡ Equal → a ≡ b }
    ensures same { (a b : Stamp) → (same_stamp a b ≡ true) ↔ (a ≡ b) }
    ensures rule { (a b : Stamp) → (stamp_cmp a b ≡ Less) ↔ (before a b ≡ true) }
{}
