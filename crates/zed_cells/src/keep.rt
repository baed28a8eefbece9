//! The rule of every register: it keeps the later write.

ghost use Rattle.std.specs.Prelude.{◌≡◌};
ghost use Rattle.zed_types.specs.Register.{keep_later as kept_of};
ghost use Rattle.zed_cells.specs.Writes.{later};

use zed_types::Written;

/// Keeps the later of a register's write and a new one. Of two with the same stamp it keeps the
/// first.
pub fn keep_later<V: Drop>(kept: &mut Written<V>, write: Written<V>)
    ensures { kept.new ≡ later kept.old write }
{
    if kept.stamp < write.stamp {
        *kept = write;
    }
}

/// The same for a register that may never have been written: it takes its first write.
pub fn keep_in<V: Drop>(slot: &mut Option<Written<V>>, write: Written<V>)
    ensures { slot.new ≡ kept_of slot.old write }
{
    match slot {
        Some(kept) => keep_later(kept, write),
        None => *slot = Some(write),
    }
}
