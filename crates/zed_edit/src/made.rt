//! Whether an edit can be done.

ghost use Rattle.std.specs.Prelude.{◌≡◌};
ghost use Rattle.zed_edit.specs.Replay.{can as can_do};

use crate::has::has_thing;
use crate::plain::Plain;
use std::alloc::Global;
use zed_op::{Edit, names};

/// Whether everything that an edit names was made.
pub fn can(alloc: Global, plain: &Plain, edit: &Edit) -> bool
    ensures { result ≡ can_do plain.now edit.now }
{
    let things = names(alloc, edit);
    things
        .as_slice()
        .iter()
        .all(|thing| has_thing(plain, *thing))
}
