//! The first line: how many edits only one side has, and of whom.
ghost use Rattle.std.specs.Prelude.{◌≡◌, ◌++◌, OnOk};
ghost use Rattle.std.specs.List.{flat_map};
ghost use Rattle.zed_report.specs.Counts.{authors, edits_words, first_line, held_words, lines_words, next_author};

use crate::report::put_counted;
use std::alloc::AllocError;
use zed_join::Tally;
use zed_log::{put_number, put_text};

#[tactic(auto, unfolding(crate::specs::Counts::next_author))]
fn put_next(out: &mut Vec<u8>, replica: u16) -> Result<(), AllocError>
    ensures { OnOk result (out.new.items ≡ out.old.items ++ next_author replica) }
{
    put_text(out, ", ")?;
    put_number(out, u64::from(replica))
}

fn put_others(out: &mut Vec<u8>, replicas: &[u16]) -> Result<(), AllocError>
    ensures { OnOk result (out.new.items ≡ out.old.items ++ flat_map next_author replicas.now) }
{
    for replica in replicas {
        put_next(out, *replica)?;
    }
    Ok(())
}

// Appends the authors of some edits.
#[tactic(auto, unfolding(crate::specs::Counts::authors))]
fn put_authors(out: &mut Vec<u8>, replicas: &[u16]) -> Result<(), AllocError>
    ensures { OnOk result (out.new.items ≡ out.old.items ++ authors replicas.now) }
{
    let Some((first, others)) = replicas.split_first() else {
        return Ok(());
    };
    put_text(out, " of ")?;
    put_number(out, u64::from(*first))?;
    put_others(out, others)
}

// Appends how many edits are held, if any are.
fn put_held(out: &mut Vec<u8>, held: usize) -> Result<(), AllocError>
    ensures { OnOk result (out.new.items ≡ out.old.items ++ held_words held) }
{
    if held == 0 {
        return Ok(());
    }
    put_text(out, " (")?;
    put_number(out, held as u64)?;
    put_text(out, " held)")
}

// Appends the edits of a side: how many, of whom, and how many of them are held.
#[tactic(auto, unfolding(crate::specs::Counts::edits_words))]
fn put_edits(out: &mut Vec<u8>, tally: &Tally) -> Result<(), AllocError>
    ensures { OnOk result (out.new.items ≡ out.old.items
        ++ edits_words tally.now.edits tally.now.replicas.items tally.now.held) }
{
    put_text(out, ": ")?;
    put_counted(out, tally.edits, "edit")?;
    put_authors(out, tally.replicas.as_slice())?;
    put_held(out, tally.held)
}

// Appends how many lines follow.
fn put_lines(out: &mut Vec<u8>, lines: usize) -> Result<(), AllocError>
    ensures { OnOk result (out.new.items ≡ out.old.items ++ lines_words lines) }
{
    if lines == 0 {
        return put_text(out, "; nothing is overridden");
    }
    put_text(out, "; ")?;
    put_number(out, lines as u64)?;
    put_text(out, " to look at")
}

/// Appends the line of the counts of both sides, and of how many lines follow.
#[tactic(auto, unfolding(crate::specs::Counts::first_line))]
pub(crate) fn put_counts(
    out: &mut Vec<u8>,
    mine: &Tally,
    theirs: &Tally,
    lines: usize,
) -> Result<(), AllocError>
    ensures { OnOk result (out.new.items ≡ out.old.items ++ first_line
        (edits_words mine.now.edits mine.now.replicas.items mine.now.held)
        (edits_words theirs.now.edits theirs.now.replicas.items theirs.now.held) lines) }
{
    put_text(out, "mine")?;
    put_edits(out, mine)?;
    put_text(out, "; theirs")?;
    put_edits(out, theirs)?;
    put_lines(out, lines)?;
    put_text(out, "\n")
}
