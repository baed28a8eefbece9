//! Whether headers and the properties of boards show the same, whenever they were written.
ghost use Rattle.std.specs.Prelude.{◌≡◌, ◌↔◌, IsTrue};
ghost use Rattle.zed_live.specs.Shown.{shown, shown_properties};

use crate::same::slots::{Slot, tables_same};
use zed_live::{LiveHeader, LiveProperties};

/// Whether two headers show the same.
pub(crate) fn headers_same(a: &LiveHeader, b: &LiveHeader) -> bool
    ensures { IsTrue result ↔ shown a.now ≡ shown b.now }
{
    tables_same(&a.numbers, &b.numbers)
        && tables_same(&a.keys, &b.keys)
        && a.saved.shows_same(&b.saved)
        && a.current_board() == b.current_board()
        && a.world_name.shows_same(&b.world_name)
        && tables_same(&a.flags, &b.flags)
}

/// Whether two boards show the same properties.
pub(crate) fn properties_same(a: &LiveProperties, b: &LiveProperties) -> bool
    ensures { IsTrue result ↔ shown_properties a.now ≡ shown_properties b.now }
{
    tables_same(&a.bytes, &b.bytes)
        && tables_same(&a.flags, &b.flags)
        && a.time_limit.shows_same(&b.time_limit)
        && a.rank.shows_same(&b.rank)
        && tables_same(&a.exits, &b.exits)
        && tables_same(&a.texts, &b.texts)
}
