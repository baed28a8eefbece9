//! What every replay keeps to.
ghost use Rattle.zed_laws.specs.Integers.{ReplayKeepsIntegers};
ghost use Rattle.zed_laws.specs.Regular.{ReplayIsRegular};

use zed_world::read_is_normal;

/// A document made by edits that fit has whole tables, a player on each board that is never
/// removed, strings that a world file has room for, and a title that stays once it is made. Its
/// signed numbers have sixteen bits, if those of the edits do.
pub fn replay_is_regular()
    ensures regular { ReplayIsRegular }
    ensures integers { ReplayKeepsIntegers }
{
    read_is_normal();
}
