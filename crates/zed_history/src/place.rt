//! The place of an edit in a log, or the place where it belongs.
ghost use Rattle.std.specs.Prelude.{◌≡◌, ◌≤◌, ◌<◌, ◌+◌, ◌-◌, true, false, not, None, Some, length, take, drop, insert, slice_get, IfSome, IfOk, IfErr, OnOk, OnErr};
ghost use Rattle.std.specs.Bool.{OnTrue, OnFalse};
ghost use Rattle.std.specs.List.{AllByRecursion};
ghost use Rattle.zed_types.specs.Stamp.{before, same_stamp};
ghost use Rattle.zed_op.specs.declared.op.Edit.{Edit as TheEdit};
ghost use Rattle.zed_op.specs.Set.{IsRising, with_edit};
ghost use Rattle.zed_history.specs.Finding.{AllBelow, edit_with};

use zed_op::Edit;
use zed_types::Stamp;

/// Whether an edit doesn't come after a stamp.
fn is_up_to(edit: &Edit, stamp: Stamp) -> bool
    ensures { result ≡ not (before stamp edit.now.stamp) }
{
    !stamp.is_before(edit.stamp)
}

/// Whether a stamp comes after all edits of a log.
pub(crate) fn is_latest(log: &[Edit], stamp: Stamp) -> bool
    requires { IsRising log.now }
    ensures { OnTrue result (AllBelow stamp log.now) }
{
    match log.last() {
        Some(last) => last.stamp.is_before(stamp),
        None => true,
    }
}

/// So many steps are made from a place, at the most. What is not found by them is sought in the whole
/// log: the edits that such a search looks at first are the same each time, and so at hand.
const STEPS: usize = 4;

/// From a place on, on by steps of 1, 2, 4 and so on while no edit after a stamp is met, and then by
/// halves within the last step. Where none is met so soon, it answers the end.
fn place_on(edits: &[Edit], from: usize, stamp: Stamp) -> usize {
    let (_, mut rest) = edits.split_at(from.min(edits.len()));
    let mut step = 1usize;
    for _ in 0..STEPS {
        match rest.get(step.saturating_sub(1)) {
            Some(edit) if is_up_to(edit, stamp) => {
                (_, rest) = rest.split_at(step.min(rest.len()));
                step = step.saturating_mul(2);
            }
            _ => {
                let (part, _) = rest.split_at(step.min(rest.len()));
                let passed = edits.len().saturating_sub(rest.len());
                return passed.saturating_add(part.partition_point(|edit| is_up_to(edit, stamp)));
            }
        }
    }
    edits.len()
}

/// Whether the edit at a place of a log comes after a stamp.
fn is_above(edits: &[Edit], place: usize, stamp: Stamp) -> bool
    requires { IsRising edits.now }
    ensures { OnTrue result
        ((place ≤ length edits.now)
        × AllByRecursion (λ e. before stamp e.stamp ≡ true) (drop place edits.now)) }
{
    place < edits.len() && stamp.is_before(edits[place].stamp)
}

/// Whether the edit before a place of a log, if there is one, doesn't come after a stamp.
pub(crate) fn is_below(edits: &[Edit], place: usize, stamp: Stamp) -> bool
    requires { place ≤ length edits.now }
    ensures below { OnTrue result (0 < place
        → IfSome (slice_get edits.now (place - 1)) (λ e. before stamp e.stamp ≡ false)) }
    ensures later { OnFalse result ((0 < place)
        × IfSome (slice_get edits.now (place - 1)) (λ e. before stamp e.stamp ≡ true)) }
{
    place == 0 || is_up_to(&edits[place - 1], stamp)
}

/// Whether the edit at a place of a log has a stamp.
fn stands_at(edits: &[Edit], place: usize, stamp: Stamp) -> bool
    ensures { OnTrue result ((place < length edits.now)
        × IfSome (slice_get edits.now place) (λ e. e.stamp ≡ stamp)) }
{
    place < edits.len() && edits[place].stamp == stamp
}

/// How many edits of a log do not come after a stamp. The stamps of a log rise, so this is a binary
/// search, unless all come before it, or it is near the place that is tried first.
pub(crate) fn place_of(edits: &[Edit], hint: usize, stamp: Stamp) -> usize
    requires { IsRising edits.now }
    ensures within { result ≤ length edits.now }
    ensures above { AllByRecursion (λ e. before stamp e.stamp ≡ true) (drop result edits.now) }
    ensures below { 0 < result
        → IfSome (slice_get edits.now (result - 1)) (λ e. before stamp e.stamp ≡ false) }
{
    if is_above(edits, hint, stamp) && is_below(edits, hint, stamp) {
        return hint;
    }
    if stands_at(edits, hint, stamp) {
        return hint + 1;
    }
    if is_below(edits, edits.len(), stamp) {
        return edits.len();
    }
    let near = place_on(edits, hint, stamp);
    if is_above(edits, near, stamp) && is_below(edits, near, stamp) {
        return near;
    }
    edits.partition_point(|edit| is_up_to(edit, stamp))
}

/// Whether the edit before a place of a log has a stamp.
pub(crate) fn ends_with(edits: &[Edit], place: usize, stamp: Stamp) -> bool
    requires { place ≤ length edits.now }
    ensures yes { OnTrue result
        ((0 < place) × IfSome (slice_get edits.now (place - 1)) (λ e. e.stamp ≡ stamp)) }
    ensures no { OnFalse result (0 < place
        → IfSome (slice_get edits.now (place - 1)) (λ e. same_stamp stamp e.stamp ≡ false)) }
{
    place > 0 && edits[place - 1].stamp == stamp
}

/// The edit with a stamp in a log, or else the place where it belongs. The search begins where the
/// last one ended, and this place is kept for the next.
pub(crate) fn spot_from<'a>(
    edits: &'a [Edit],
    at: &mut usize,
    stamp: Stamp,
) -> Result<&'a Edit, usize>
    requires { IsRising edits.now }
    ensures there { IfOk result (λ f. edit_with stamp edits.now ≡ Some f.now) }
    ensures known { OnOk result ((e : TheEdit) → e.stamp ≡ stamp
        → with_edit e edits.now ≡ edits.now) }
    ensures free { OnErr result (edit_with stamp edits.now ≡ None) }
    ensures within { IfErr result (λ i. i ≤ length edits.now) }
    ensures below { IfErr result (λ i. AllBelow stamp (take i edits.now)) }
    ensures belongs { IfErr result (λ i. (e : TheEdit) → e.stamp ≡ stamp
        → with_edit e edits.now ≡ insert edits.now i e) }
{
    let place = place_of(edits, *at, stamp);
    *at = place;
    if ends_with(edits, place, stamp) {
        Ok(&edits[place - 1])
    } else {
        Err(place)
    }
}

/// Whether a log has an edit with a stamp. The search begins where the last one ended, and this place
/// is kept for the next.
pub(crate) fn seek_from(edits: &[Edit], at: &mut usize, stamp: Stamp) -> bool
    requires { IsRising edits.now }
    ensures { OnFalse result (edit_with stamp edits.now ≡ None) }
{
    spot_from(edits, at, stamp).is_ok()
}

/// The edit with a stamp in a log, or else the place where it belongs. The search begins at `hint`.
pub fn spot_of(edits: &[Edit], hint: usize, stamp: Stamp) -> Result<&Edit, usize>
    requires { IsRising edits.now }
    ensures there { IfOk result (λ f. edit_with stamp edits.now ≡ Some f.now) }
    ensures known { OnOk result ((e : TheEdit) → e.stamp ≡ stamp
        → with_edit e edits.now ≡ edits.now) }
    ensures free { OnErr result (edit_with stamp edits.now ≡ None) }
    ensures within { IfErr result (λ i. i ≤ length edits.now) }
    ensures below { IfErr result (λ i. AllBelow stamp (take i edits.now)) }
    ensures belongs { IfErr result (λ i. (e : TheEdit) → e.stamp ≡ stamp
        → with_edit e edits.now ≡ insert edits.now i e) }
{
    let mut at = hint;
    spot_from(edits, &mut at, stamp)
}
