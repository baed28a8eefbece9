//! The edits of a replica, to which others come in any order.
ghost use Rattle.std.specs.Prelude.{◌≡◌, ◌≢◌, ◌≤◌, ◌<◌, ◌+◌, ◌++◌, ◌∷◌, [], true, false, None, Some, List, length, vec_len, vec_capacity, IfSome, IfNone, OnOk, OnErr, insert};
ghost use Rattle.std.specs.Bool.{OnTrue, OnFalse};
ghost use Rattle.zed_types.specs.declared.stamp.Stamp.{Stamp as TheStamp};
ghost use Rattle.zed_op.specs.declared.op.Edit.{Edit as TheEdit};
ghost use Rattle.zed_op.specs.Set.{IsRising, with_edit};
ghost use Rattle.zed_history.specs.Finding.{AllBelow, edit_with, first_of};
ghost use Rattle.zed_history.specs.Runs.{AreRuns, SettleTo, count_in, found_in, joined};

use crate::moving::move_in;
use crate::place::{is_latest, seek_from, spot_of};
use crate::run::{Run, find_in, seek_in, settle};
use std::alloc::{AllocError, Global};
use std::marker::Model;
use std::mem::replace;
use zed_op::{Edit, rising_lists_are_sets, sets_rise};
use zed_types::Stamp;

/// A run of at most so many edits is short: a late edit is put into the last run while it is short,
/// and begins no run of its own.
const SHORT: usize = 32;

/// The edits of a replica in stamp order, to which others come in any order. Until the history is
/// closed, a late edit moves few of the others. Contracts see the edits.
#[derive(Drop)]
pub struct History {
    /// Those that the log began with, and those that came as the latest.
    log: Vec<Edit>,
    /// Where one was last sought in the log: the next one is sought there first.
    at: usize,
    /// Runs of late edits that ended.
    settled: Vec<Run>,
    /// The late edits that came last, in stamp order.
    run: Vec<Edit>,
    /// So many are late, or fewer. The log has room for them, so that closing takes no memory.
    late: usize,
    /// A stamp that was sought in vain since an edit came last.
    missing: Option<Stamp>,
}

impl Model for History {
    ghost use Rattle.std.specs.Prelude.{◌≡◌, ◌≤◌, ◌+◌, ◌++◌, ◌∷◌, [], List, None, IfSome, length, vec_capacity};
    ghost use Rattle.zed_op.specs.declared.op.Edit.{Edit as TheEdit};
    ghost use Rattle.zed_history.specs.Finding.{edit_with};
    ghost use Rattle.zed_history.specs.Runs.{AreRuns, count_in, joined};

    ghost Value = { List TheEdit };

    ghost view = { λ l. joined (l.log.items ∷ (l.settled.items ++ l.run.items ∷ [])) };

    ghost invariant = { λ l. AreRuns (l.log.items ∷ (l.settled.items ++ l.run.items ∷ []))
        × (length l.log.items + l.late ≤ vec_capacity l.log)
        × (count_in (l.settled.items ++ l.run.items ∷ []) ≤ l.late)
        × IfSome l.missing (λ s. edit_with s
        (joined (l.log.items ∷ (l.settled.items ++ l.run.items ∷ []))) ≡ None) };
}

/// Makes room at the end of a log for so many late edits and one more.
fn make_room(log: &mut Vec<Edit>, late: usize) -> Result<(), AllocError>
    requires { length log.old.items + late ≤ vec_capacity log.old }
    ensures room { OnOk result (length log.new.items + (late + 1) ≤ vec_capacity log.new) }
    ensures kept { log.new.items ≡ log.old.items }
    ensures capacity { vec_capacity log.old ≤ vec_capacity log.new }
    ensures free { OnOk result (vec_len log.new < vec_capacity log.new) }
{
    log.reserve(late + 1)?;
    Ok(())
}

/// Ends a run, and begins one that has room for an edit. Memory leaves all as it was.
fn start_run(alloc: Global, settled: &mut Vec<Run>, run: &mut Vec<Edit>) -> Result<(), AllocError>
    requires runs { AreRuns (settled.old.items ++ run.old.items ∷ []) }
    ensures empty { OnOk result (run.new.items ≡ []) }
    ensures free { OnOk result (vec_len run.new < vec_capacity run.new) }
    ensures settles { OnOk result
        (SettleTo (settled.old.items ++ run.old.items ∷ []) settled.new.items) }
    ensures kept { OnErr result ((settled.new.items ≡ settled.old.items)
        × (run.new.items ≡ run.old.items)) }
{
    let mut next = Vec::new(alloc);
    next.reserve(1)?;
    settled.reserve(1)?;
    settle(settled, replace(run, next));
    Ok(())
}

/// Where an edit belongs in a run that doesn't have its stamp, if that is short.
fn place_in(run: &[Edit], edit: &Edit) -> Option<usize>
    requires { IsRising run.now }
    ensures within { IfSome result (λ i. i ≤ length run.now) }
    ensures belongs { IfSome result (λ i. with_edit edit.now run.now ≡ insert run.now i edit.now) }
{
    if run.len() >= SHORT {
        return None;
    }
    match spot_of(run, run.len(), edit.stamp) {
        Ok(_) => None,
        Err(place) => Some(place),
    }
}

/// Puts an edit at its place in a run. Memory leaves the run as it was.
fn put_at(run: &mut Vec<Edit>, place: usize, edit: Edit) -> Result<(), AllocError>
    requires { place ≤ length run.old.items }
    ensures ok { OnOk result (run.new.items ≡ insert run.old.items place edit) }
    ensures kept { OnErr result (run.new.items ≡ run.old.items) }
{
    run.reserve(1)?;
    run.insert(place, edit).unwrap();
    Ok(())
}

/// Puts a new edit behind the last run, into it where it is short, or begins one. Memory leaves all as it was.
fn put_late(
    alloc: Global,
    settled: &mut Vec<Run>,
    run: &mut Vec<Edit>,
    edit: Edit,
) -> Result<(), AllocError>
    requires runs { AreRuns (settled.old.items ++ run.old.items ∷ []) }
    requires new { found_in edit.stamp (settled.old.items ++ run.old.items ∷ []) ≡ None }
    ensures runs { OnOk result ((log : List TheEdit)
        → AreRuns (log ∷ (settled.old.items ++ run.old.items ∷ []))
        → edit_with edit.stamp log ≡ None
        → AreRuns (log ∷ (settled.new.items ++ run.new.items ∷ []))) }
    ensures found { OnOk result ((s : TheStamp)
        → found_in s (settled.new.items ++ run.new.items ∷ [])
        ≡ first_of (found_in s (settled.old.items ++ run.old.items ∷ []))
        (edit_with s (edit ∷ []))) }
    ensures count { OnOk result (count_in (settled.new.items ++ run.new.items ∷ [])
        ≤ count_in (settled.old.items ++ run.old.items ∷ []) + 1) }
    ensures kept { OnErr result ((settled.new.items ≡ settled.old.items)
        × (run.new.items ≡ run.old.items)) }
{
    sets_rise();
    rising_lists_are_sets();
    if is_latest(run, edit.stamp) {
        run.reserve(1)?;
        run.push_reserved(edit);
        return Ok(());
    }
    if let Some(place) = place_in(run, &edit) {
        put_at(run, place, edit)?;
        return Ok(());
    }
    start_run(alloc, settled, run)?;
    run.push_reserved(edit);
    Ok(())
}

/// The edit with a stamp in a run, if there is one.
fn find_last(run: &[Edit], stamp: Stamp) -> Option<&Edit>
    requires { IsRising run.now }
    ensures some { IfSome result (λ f. edit_with stamp run.now ≡ Some f.now) }
    ensures none { IfNone result (edit_with stamp run.now ≡ None) }
{
    match spot_of(run, run.len(), stamp) {
        Ok(there) => Some(there),
        Err(_) => None,
    }
}

impl History {
    /// A log in stamp order, to which edits may come. It takes no memory.
    pub fn of(log: Vec<Edit>) -> History
        requires { IsRising log.items }
        ensures { result ≡ log.items }
    {
        let alloc = *log.allocator();
        History {
            log,
            at: 0,
            settled: Vec::new(alloc),
            run: Vec::new(alloc),
            late: 0,
            missing: None,
        }
    }

    /// The allocator that keeps the edits.
    pub fn alloc(&self) -> Global {
        *self.log.allocator()
    }

    /// Looks for a stamp. The next search begins at its place, or ends at once if it isn't there.
    pub fn seek(&mut self, stamp: Stamp)
        ensures { self.new ≡ self.old }
    {
        if !self.is_missing(stamp) && !self.look(stamp) {
            self.missing = Some(stamp);
        }
    }

    /// Whether there is an edit with a stamp. The next search begins at its place.
    fn look(&mut self, stamp: Stamp) -> bool
        ensures none { OnFalse result (edit_with stamp self.old ≡ None) }
        ensures kept { self.new ≡ self.old }
    {
        sets_rise();
        rising_lists_are_sets();
        if self.is_after_all(stamp) {
            return false;
        }
        if seek_from(&self.log, &mut self.at, stamp) {
            return true;
        }
        if seek_in(&mut self.settled, stamp) {
            return true;
        }
        find_last(&self.run, stamp).is_some()
    }

    /// Whether a stamp comes after all edits, none of which is late.
    fn is_after_all(&self, stamp: Stamp) -> bool
        ensures { OnTrue result (edit_with stamp self.now ≡ None) }
    {
        self.late == 0 && is_latest(&self.log, stamp)
    }

    /// Whether a stamp was sought in vain since an edit came last.
    fn is_missing(&self, stamp: Stamp) -> bool
        ensures { OnTrue result (edit_with stamp self.now ≡ None) }
    {
        match self.missing {
            Some(missing) => missing == stamp,
            None => false,
        }
    }

    /// The edit with a stamp, if there is one.
    pub fn find(&self, stamp: Stamp) -> Option<&Edit>
        ensures some { IfSome result (λ f. edit_with stamp self.now ≡ Some f.now) }
        ensures none { IfNone result (edit_with stamp self.now ≡ None) }
    {
        if self.is_missing(stamp) {
            return None;
        }
        sets_rise();
        rising_lists_are_sets();
        if let Ok(there) = spot_of(&self.log, self.at, stamp) {
            return Some(there);
        }
        if let Some(there) = find_in(&self.settled, stamp) {
            return Some(there);
        }
        find_last(&self.run, stamp)
    }

    /// Adds an edit with a new stamp. Memory leaves the edits as they were.
    pub fn add(&mut self, edit: Edit) -> Result<(), AllocError>
        requires new { edit_with edit.stamp self.old ≡ None }
        ensures ok { OnOk result (self.new ≡ with_edit edit self.old) }
        ensures kept { OnErr result (self.new ≡ self.old) }
    {
        sets_rise();
        rising_lists_are_sets();
        let alloc = *self.log.allocator();
        self.missing = None;
        let is_latest = is_latest(&self.log, edit.stamp);
        make_room(&mut self.log, self.late)?;
        if is_latest {
            self.log.push_reserved(edit);
            return Ok(());
        }
        put_late(alloc, &mut self.settled, &mut self.run, edit)?;
        self.late += 1;
        Ok(())
    }

    /// The edits, all of them in one log. It takes no memory.
    pub fn close(self) -> Vec<Edit>
        ensures { result.items ≡ self }
    {
        sets_rise();
        rising_lists_are_sets();
        let History {
            mut log,
            at: _,
            mut settled,
            run,
            late,
            missing: _,
        } = self;
        if late == 0 {
            return log;
        }
        move_in(&mut log, run);
        while let Some(ended) = settled.pop() {
            move_in(&mut log, ended.into_edits());
        }
        log
    }
}
