//! What is read of runs.

ghost use Rattle.std.specs.Prelude.{◌≡◌, ◌∷◌, [], ◌<◌, ◌≤◌, ◌+◌, ◌-◌, ◌^◌, ◌++◌, min, vec_len, vec_capacity};
ghost use Rattle.std.specs.List.{AllByRecursion};
ghost use Rattle.zed_types.specs.Text.{alive_bytes};
ghost use Rattle.zed_code.specs.Blocks.{runs_of};
ghost use Rattle.zed_code.specs.Cutting.{spelled};
ghost use Rattle.zed_code.specs.Kept.{total, IsRun, IsSound};
ghost use Rattle.zed_code.specs.Reading.{live, live_at as place_of, live_names, names_from, positions_behind, between};

use crate::block::Block;
use crate::run::Run;
use zed_types::ElemId;

/// Positions of live bytes: from one to another, without that.
#[derive(Clone, Copy)]
pub struct Positions {
    pub from: usize,
    pub to: usize,
}

/// How many bytes of runs are alive.
fn count_in(runs: &[Run]) -> usize
    requires { total runs.now < 2 ^ 64 }
    ensures { result ≡ live runs.now }
{
    let mut count = 0;
    for run in runs {
        if run.alive {
            count += run.len as usize;
        }
    }
    count
}

/// The run of the k-th live byte, and which of its bytes that is.
fn live_in(runs: &[Run], k: usize) -> Option<(Run, u32)>
    ensures { result ≡ place_of runs.now k }
{
    let mut left = k;
    for run in runs {
        if run.alive {
            if left < run.len as usize {
                return Some((*run, left as u32));
            }
            left -= run.len as usize;
        }
    }
    None
}

/// How many bytes of blocks are alive.
pub(crate) fn count_live(blocks: &[Block]) -> usize
    requires { total (runs_of blocks.now) < 2 ^ 64 }
    ensures { result ≡ live (runs_of blocks.now) }
{
    let mut sum = 0;
    for block in blocks {
        sum += count_in(&block.runs);
    }
    sum
}

/// The run of the k-th live byte of blocks, and which of its bytes that is.
pub(crate) fn live_at(blocks: &[Block], k: usize) -> Option<(Run, u32)>
    requires { total (runs_of blocks.now) < 2 ^ 64 }
    ensures { result ≡ place_of (runs_of blocks.now) k }
{
    let mut rest = k;
    for block in blocks {
        let count = count_in(&block.runs);
        if rest < count {
            return live_in(&block.runs, rest);
        }
        rest -= count;
    }
    None
}

/// Appends the live bytes of runs, for which there is room.
pub(crate) fn push_live(out: &mut Vec<u8>, store: &[u8], runs: &[Run])
    requires each { AllByRecursion (IsRun store.now) runs.now }
    requires room { vec_len out.old + live runs.now ≤ vec_capacity out.old }
    ensures items { out.new.items ≡ out.old.items ++ alive_bytes (spelled store.now runs.now) }
    ensures len { vec_len out.new ≡ vec_len out.old + live runs.now }
    ensures capacity { vec_capacity out.old ≤ vec_capacity out.new }
{
    for run in runs {
        if run.alive {
            out.extend_from_slice(run.bytes_of(store)).unwrap();
        }
    }
}

/// The same positions, counted from behind so many bytes. Those of these bytes are left out.
fn behind(at: Positions, count: usize) -> Positions
    ensures { result ≡ positions_behind count at }
{
    Positions {
        from: at.from.saturating_sub(count),
        to: at.to.saturating_sub(count),
    }
}

/// Appends the names of bytes of a run, from one to another, without that. There is room for them.
fn push_run(out: &mut Vec<ElemId>, run: Run, from: u32, to: u32)
    requires sound { IsSound run }
    requires within { to ≤ run.len }
    requires room { vec_len out.old + (to - from) ≤ vec_capacity out.old }
    ensures items { out.new.items
        ≡ out.old.items ++ names_from run.stamp (run.first + from) (to - from) }
    ensures len { vec_len out.new ≡ vec_len out.old + (to - from) }
    ensures capacity { vec_capacity out.old ≤ vec_capacity out.new }
{
    for i in from..to {
        out.push(run.name(i)).unwrap();
    }
}

/// The first of so many bytes, or their end.
fn within(at: usize, len: u32) -> u32
    ensures { result ≡ min at len }
{
    if at < len as usize { at as u32 } else { len }
}

/// Appends the names of live bytes of a run at some positions, for which there is room. Answers what is left of the positions behind
/// the run.
fn push_names_of(out: &mut Vec<ElemId>, run: Run, at: Positions) -> Positions
    requires sound { IsSound run }
    requires room { vec_len out.old + (at.to - at.from) ≤ vec_capacity out.old }
    ensures items { out.new.items ≡ out.old.items ++ between at (live_names (run ∷ [])) }
    ensures left { result ≡ positions_behind (live (run ∷ [])) at }
    ensures room { vec_len out.new + (result.to - result.from) ≤ vec_capacity out.new }
{
    if run.alive {
        let from = within(at.from, run.len);
        let to = within(at.to, run.len);
        push_run(out, run, from, to);
        return behind(at, run.len as usize);
    }
    at
}

/// Appends the names of live bytes of runs at some positions, for which there is room. Answers what is left of the positions behind
/// the runs.
fn push_names_in(out: &mut Vec<ElemId>, runs: &[Run], at: Positions) -> Positions
    requires each { AllByRecursion IsSound runs.now }
    requires room { vec_len out.old + (at.to - at.from) ≤ vec_capacity out.old }
    ensures items { out.new.items ≡ out.old.items ++ between at (live_names runs.now) }
    ensures left { result ≡ positions_behind (live runs.now) at }
    ensures room { vec_len out.new + (result.to - result.from) ≤ vec_capacity out.new }
{
    let mut left = at;
    for run in runs {
        left = push_names_of(out, *run, left);
    }
    left
}

/// Appends the names of live bytes of blocks at some positions, for which there is room.
pub(crate) fn push_names(out: &mut Vec<ElemId>, blocks: &[Block], at: Positions)
    requires each { AllByRecursion IsSound (runs_of blocks.now) }
    requires room { vec_len out.old + (at.to - at.from) ≤ vec_capacity out.old }
    ensures { out.new.items ≡ out.old.items ++ between at (live_names (runs_of blocks.now)) }
{
    let mut left = at;
    for block in blocks {
        if left.to == 0 {
            return;
        }
        left = push_names_in(out, &block.runs, left);
    }
}
