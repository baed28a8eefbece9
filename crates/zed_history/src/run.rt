//! Late edits that came in stamp order.
ghost use Rattle.std.specs.Prelude.{◌≡◌, ◌≤◌, ◌<◌, ◌+◌, ◌++◌, ◌∷◌, [], None, Some, length, vec_capacity, IfSome, IfNone};
ghost use Rattle.std.specs.Bool.{OnFalse};
ghost use Rattle.zed_op.specs.Set.{IsRising};
ghost use Rattle.zed_history.specs.Finding.{edit_with};
ghost use Rattle.zed_history.specs.Runs.{AreRuns, SettleTo, count_in, found_in};

use crate::moving::move_in;
use crate::place::{seek_from, spot_of};
use std::marker::Model;
use zed_op::{Edit, rising_lists_are_sets, sets_rise};
use zed_types::Stamp;

/// Edits in stamp order, and where one was last sought among them. Contracts see the edits.
#[derive(Drop)]
pub(crate) struct Run {
    edits: Vec<Edit>,
    at: usize,
}

impl Model for Run {
    ghost use Rattle.std.specs.Prelude.{List};
    ghost use Rattle.zed_op.specs.declared.op.Edit.{Edit as TheEdit};
    ghost use Rattle.zed_op.specs.Set.{IsRising};

    ghost Value = { List TheEdit };

    ghost view = { λ r. r.edits.items };

    ghost invariant = { λ r. IsRising r.edits.items };
}

impl Run {
    pub(crate) fn of(edits: Vec<Edit>) -> Run
        requires { IsRising edits.items }
        ensures { result ≡ edits.items }
    {
        Run { edits, at: 0 }
    }

    pub(crate) fn into_edits(self) -> Vec<Edit>
        ensures result { result.items ≡ self }
        ensures rising { IsRising result.items }
    {
        let Run { edits, at: _ } = self;
        edits
    }

    /// Whether there is an edit with a stamp. The next search begins at its place.
    fn seek(&mut self, stamp: Stamp) -> bool
        ensures none { OnFalse result (edit_with stamp self.old ≡ None) }
        ensures kept { self.new ≡ self.old }
    {
        seek_from(&self.edits, &mut self.at, stamp)
    }

    /// The edit with a stamp, if there is one.
    fn find(&self, stamp: Stamp) -> Option<&Edit>
        ensures some { IfSome result (λ f. edit_with stamp self.now ≡ Some f.now) }
        ensures none { IfNone result (edit_with stamp self.now ≡ None) }
    {
        match spot_of(&self.edits, self.at, stamp) {
            Ok(there) => Some(there),
            Err(_) => None,
        }
    }
}

/// Whether there is an edit with a stamp in some runs, up to the first that has it.
pub(crate) fn seek_in(runs: &mut [Run], stamp: Stamp) -> bool
    ensures none { OnFalse result (found_in stamp runs.old ≡ None) }
    ensures kept { runs.new ≡ runs.old }
{
    for run in runs.iter_mut() {
        if run.seek(stamp) {
            return true;
        }
    }
    false
}

/// The edit with a stamp in some runs, if there is one.
pub(crate) fn find_in(runs: &[Run], stamp: Stamp) -> Option<&Edit>
    ensures some { IfSome result (λ f. found_in stamp runs.now ≡ Some f.now) }
    ensures none { IfNone result (found_in stamp runs.now ≡ None) }
{
    for run in runs {
        if let Some(there) = run.find(stamp) {
            return Some(there);
        }
    }
    None
}

/// A run that is so many times as long as the one behind it is left as it is.
const LONGER: usize = 4;

/// Takes the last of some runs, with room for so many edits more, unless it is far longer.
fn take_short(settled: &mut Vec<Run>, more: usize) -> Option<Vec<Edit>>
    ensures some { IfSome result (λ below. (settled.old.items ≡ settled.new.items ++ below.items ∷ [])
        × (length below.items + more ≤ vec_capacity below)) }
    ensures none { IfNone result (settled.new.items ≡ settled.old.items) }
    ensures capacity { vec_capacity settled.new ≡ vec_capacity settled.old }
{
    let last = settled.pop()?;
    let mut edits = last.into_edits();
    if edits.len() / LONGER >= more || edits.reserve(more).is_err() {
        settled.push_reserved(Run::of(edits));
        return None;
    }
    Some(edits)
}

/// Puts a run that ended behind others, joined with those that are not far longer.
pub(crate) fn settle(settled: &mut Vec<Run>, ended: Vec<Edit>)
    requires runs { AreRuns (settled.old.items ++ ended.items ∷ []) }
    requires free { length settled.old.items < vec_capacity settled.old }
    ensures settles { SettleTo (settled.old.items ++ ended.items ∷ []) settled.new.items }
{
    sets_rise();
    rising_lists_are_sets();
    let mut edits = ended;
    while let Some(mut below) = take_short(settled, edits.len()) {
        move_in(&mut below, edits);
        edits = below;
    }
    settled.push_reserved(Run::of(edits));
}
