//! What is told of two documents.
ghost use Rattle.std.specs.Prelude.{◌≡◌, ◌≤◌, IfOk, List, length};
ghost use Rattle.zed_op.specs.declared.op.Edit.{Edit as TheEdit};
ghost use Rattle.zed_compare.specs.Findings.{of_registers, register_findings};
ghost use Rattle.zed_join.specs.Sides.{AreSides};
ghost use Rattle.zed_compare.specs.Silence.{worlds};

use crate::counts::put_counts;
use crate::known::Known;
use crate::lines::{tell_all, tell_new};
use crate::lints::find_troubles;
use crate::report::Report;
use std::alloc::{AllocError, Global};
use zed_compare::{Finding, find_all};
use zed_join::{Sides, Views, Work};

/// What is told: a text, and how much was found. It has a line that counts edits, and lines behind it
/// if anything was found.
#[derive(Drop)]
pub struct Comparison {
    pub text: Vec<u8>,
    pub found: usize,
}

// All that is found.
#[derive(Drop)]
struct Found {
    findings: Vec<Finding>,
    /// Lines of `lint` that only the union has.
    new: Vec<Vec<u8>>,
}

fn found_in(
    alloc: Global,
    sides: &Sides<'_>,
    views: &Views<'_>,
    work: &Work,
) -> Result<Found, AllocError>
    ensures { IfOk result (λ f. of_registers f.findings.items ≡ register_findings views.now) }
{
    let mut findings = Vec::new(alloc);
    find_all(&mut findings, views, work)?;
    let new = find_troubles(alloc, &mut findings, sides)?;
    Ok(Found { findings, new })
}

// The lines of all that is found.
fn lines_of(
    alloc: Global,
    sides: &Sides<'_>,
    views: &Views<'_>,
    found: &Found,
) -> Result<Report, AllocError> {
    let known = Known::of(alloc, sides, views)?;
    let mut report = Report::new(alloc);
    tell_all(alloc, &mut report, &known, found.findings.as_slice())?;
    tell_new(&mut report, found.new.as_slice())?;
    Ok(report)
}

// How much was found.
#[tactic(auto, using(crate::proofs::Counted::some_of))]
fn count_of(found: &Found) -> usize
    ensures { length (of_registers found.now.findings.items) ≤ result }
{
    found.findings.len().saturating_add(found.new.len())
}

// All lines.
fn told(alloc: Global, sides: &Sides<'_>, views: &Views<'_>) -> Result<Comparison, AllocError>
    ensures { IfOk result (λ c. length (register_findings views.now) ≤ c.found) }
{
    let work = Work::all(alloc, sides, views)?;
    let found = found_in(alloc, sides, views, &work)?;
    let lines = lines_of(alloc, sides, views, &found)?;
    let mut text = Vec::new(alloc);
    put_counts(&mut text, &work.mine, &work.theirs, lines.lines)?;
    text.extend_from_slice(lines.text.as_slice())?;
    Ok(Comparison {
        text,
        found: count_of(&found),
    })
}

/// What two documents made of each other, a line for each thing that the union of both doesn't show
/// as its author made it. The first line counts the edits that only one of them has. Each register
/// that is overridden is found.
pub fn compare(alloc: Global, sides: &Sides<'_>) -> Result<Comparison, AllocError>
    ensures { (es : List TheEdit) (fs : List TheEdit) → AreSides es fs sides.now
        → IfOk result (λ c. length (register_findings (worlds es fs)) ≤ c.found) }
{
    match sides.views() {
        Ok(views) => told(alloc, sides, &views),
        // no side is stale
        Err(_) => Err(AllocError),
    }
}
