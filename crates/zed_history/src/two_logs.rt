//! Two logs, each walked once: whether they clash.

ghost use Rattle.std.specs.Prelude.{◌≡◌, ◌≢◌, ◌≤◌, false, length, take, drop, IfSome, IfNone, IsSomeAnd};
ghost use Rattle.std.specs.Bool.{OnTrue, OnFalse};
ghost use Rattle.zed_types.specs.declared.stamp.Stamp.{Stamp as TheStamp};
ghost use Rattle.zed_types.specs.Stamp.{before};
ghost use Rattle.zed_op.specs.Set.{IsRising};
ghost use Rattle.zed_history.specs.Finding.{AllBelow, AllFrom, edit_with};
ghost use Rattle.zed_history.specs.Clash.{Agree, IsLeastClash};

use zed_op::Edit;
use zed_types::Stamp;

/// How many edits at the front of a log come before a stamp.
fn count_before(edits: &[Edit], stamp: Stamp) -> usize
    requires { IsRising edits.now }
    ensures within { result ≤ length edits.now }
    ensures below { AllBelow stamp (take result edits.now) }
    ensures above { AllFrom stamp (drop result edits.now) }
{
    let mut count = 0;
    while count < edits.len() && edits[count].stamp.is_before(stamp) {
        count += 1;
    }
    count
}

/// The edits of a log from a stamp on.
fn from_stamp(log: &[Edit], stamp: Stamp) -> &[Edit]
    requires { IsRising log.now }
    ensures rising { IsRising result.now }
    ensures above { AllFrom stamp result.now }
    ensures there { (s : TheStamp) → before s stamp ≡ false
        → edit_with s result.now ≡ edit_with s log.now }
{
    log.split_at(count_before(log, stamp)).1
}

/// Whether a log from the stamp of an edit on has another edit of this stamp.
fn has_other(log: &[Edit], edit: &Edit) -> bool
    requires rising { IsRising log.now }
    requires above { AllFrom edit.now.stamp log.now }
    ensures yes { OnTrue result (IsSomeAnd (edit_with edit.now.stamp log.now) (λ e. e ≢ edit.now)) }
    ensures no { OnFalse result (IfSome (edit_with edit.now.stamp log.now) (λ e. e ≡ edit.now)) }
{
    match log.first() {
        Some(first) => first.stamp == edit.stamp && !first.is_same(edit),
        None => false,
    }
}

/// The least stamp with which two logs have different edits.
pub fn least_clash(own: &[Edit], other: &[Edit]) -> Option<Stamp>
    requires own { IsRising own.now }
    requires other { IsRising other.now }
    ensures clash { IfSome result (λ s. IsLeastClash own.now other.now s) }
    ensures agree { IfNone result (Agree own.now other.now) }
{
    let mut rest = own;
    for edit in other {
        rest = from_stamp(rest, edit.stamp);
        if has_other(rest, edit) {
            return Some(edit.stamp);
        }
    }
    None
}
