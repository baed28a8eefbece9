//! The times left for new edits.
ghost use Rattle.std.specs.Prelude.{◌≡◌, ◌<◌, ◌+◌, max, nat_lt, false, true, IfSome, IfNone, OnSome};
ghost use Rattle.zed_types.specs.declared.stamp.TheConstants.Stamp.{LAST_TIME};
ghost use Rattle.zed_op.specs.Set.{IsRising};
ghost use Rattle.zed_history.specs.Clock.{greatest_time, is_spent as are_spent, next_time as time_after};

use zed_op::Edit;
use zed_types::Stamp;

/// The greatest time of a log, that of its last edit; 0 where it has none.
fn last_time(edits: &[Edit]) -> u64
    requires { IsRising edits.now }
    ensures { result ≡ greatest_time edits.now }
{
    let count = edits.len();
    if count == 0 {
        0
    } else {
        edits[count - 1].stamp.time
    }
}

/// The time after another, and at least 2.
fn time_behind(last: u64) -> u64
    requires { last < LAST_TIME }
    ensures { result ≡ max 2 (last + 1) }
{
    if last == 0 { 2 } else { last + 1 }
}

/// Whether fewer times are left behind a time than so many edits need.
fn is_spent_behind(last: u64, count: u64) -> bool
    requires { 0 < count }
    ensures { result ≡ nat_lt (LAST_TIME + 1) (max 2 (last + 1) + count) }
{
    last >= Stamp::LAST_TIME || Stamp::LAST_TIME + 1 - time_behind(last) < count
}

/// Whether fewer times are left than so many edits need.
pub fn is_spent(edits: &[Edit], count: usize) -> bool
    requires rising { IsRising edits.now }
    requires some { 0 < count }
    ensures { result ≡ are_spent edits.now count }
{
    is_spent_behind(last_time(edits), count as u64)
}

/// The time of the next edit.
pub fn next_time(edits: &[Edit]) -> u64
    requires rising { IsRising edits.now }
    requires left { are_spent edits.now 1 ≡ false }
    ensures { result ≡ time_after edits.now }
{
    time_behind(last_time(edits))
}

/// The stamp of the next edit, unless no time is left.
pub fn next_stamp(edits: &[Edit], replica: u16) -> Option<Stamp>
    requires { IsRising edits.now }
    ensures spent { IfNone result (are_spent edits.now 1 ≡ true) }
    ensures left { OnSome result (are_spent edits.now 1 ≡ false) }
    ensures next { IfSome result (λ s.
        s ≡ record { time = time_after edits.now; replica = replica }) }
{
    if is_spent(edits, 1) {
        None
    } else {
        Some(Stamp {
            time: next_time(edits),
            replica,
        })
    }
}
