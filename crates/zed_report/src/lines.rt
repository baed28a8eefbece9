//! The lines of findings.
ghost use Rattle.std.specs.Prelude.{◌≡◌, ◌++◌, OnOk, codes};
ghost use Rattle.zed_log.specs.Fields.{number};
ghost use Rattle.zed_report.specs.Lines.{both_words, gone_words, other_words, removed_words, unsaved_line};
ghost use Rattle.zed_report.specs.Words.{refusal_words, whose_word};

use crate::drawn::{count_cells, tell_cells};
use crate::known::{Known, Shower};
use crate::overrides::{Register, tell_override};
use crate::report::Report;
use crate::writers::writer_of_text;
use std::alloc::{AllocError, Global};
use zed_compare::{Finding, Whose};
use zed_export::ExportError;
use zed_sides::Side;
use zed_types::{BoardId, Stamp, StatId};

// Behind the name of a stat: both changed its program.
#[tactic(auto, unfolding(crate::specs::Lines::both_words))]
fn put_both(report: &mut Report, mine: usize, theirs: usize) -> Result<(), AllocError>
    ensures { OnOk result
        (report.new.text.items ≡ report.old.text.items ++ both_words mine theirs) }
{
    report.put("  program: both changed it, mine by ")?;
    report.counted(mine, "edit")?;
    report.put(", theirs by ")?;
    report.number(theirs)?;
    report.put("; both are kept\n")
}

// The line of a program that both changed.
fn tell_both(
    report: &mut Report,
    known: &Known<'_, '_>,
    stat: StatId,
    mine: usize,
    theirs: usize,
) -> Result<(), AllocError> {
    report.begin();
    known.put_stat(&mut report.text, Shower::Union, stat)?;
    put_both(report, mine, theirs)
}

// The edit that gave a stat the program that the union shows.
fn text_writer(known: &Known<'_, '_>, stat: StatId) -> Option<Stamp> {
    match known.stat(Shower::Union, stat) {
        Some(stat) => writer_of_text(stat),
        None => None,
    }
}

// Behind the name of a stat: a side changed its program, and the other one gave it another.
#[tactic(auto, unfolding(crate::specs::Lines::other_words))]
fn put_other(
    report: &mut Report,
    side: Side,
    by: Option<Stamp>,
    edits: usize,
) -> Result<(), AllocError>
    ensures { OnOk result
        (report.new.text.items ≡ report.old.text.items ++ other_words side by edits) }
{
    report.put("  program: ")?;
    report.other_side(side)?;
    report.put(" gave it another")?;
    report.by(by)?;
    report.edits_lost(side, edits, " in the old one")
}

// The line of a program that a side changed, and in whose place the other one put another.
fn tell_other(
    report: &mut Report,
    known: &Known<'_, '_>,
    stat: StatId,
    side: Side,
    edits: usize,
) -> Result<(), AllocError> {
    report.begin();
    known.put_stat(&mut report.text, Shower::Union, stat)?;
    put_other(report, side, text_writer(known, stat), edits)
}

// Who removed what a side has, and how many edits that side made on it.
#[tactic(auto, unfolding(crate::specs::Lines::removed_words))]
fn put_removed(
    report: &mut Report,
    side: Side,
    by: Option<Stamp>,
    edits: usize,
) -> Result<(), AllocError>
    ensures { OnOk result
        (report.new.text.items ≡ report.old.text.items ++ removed_words side by edits) }
{
    report.other_side(side)?;
    report.put(" removed it")?;
    report.by(by)?;
    report.edits_lost(side, edits, " on it")
}

// Behind the name of what is gone: whose it is, who removed it, and how many edits the side made there.
#[tactic(auto, unfolding(crate::specs::Lines::gone_words))]
fn put_gone(
    report: &mut Report,
    side: Side,
    by: Option<Stamp>,
    edits: usize,
) -> Result<(), AllocError>
    ensures { OnOk result
        (report.new.text.items ≡ report.old.text.items ++ gone_words side by edits) }
{
    report.put(" of ")?;
    report.side(side)?;
    report.put("  ")?;
    put_removed(report, side, by, edits)
}

fn tell_gone_board(
    report: &mut Report,
    known: &Known<'_, '_>,
    board: BoardId,
    side: Side,
    edits: usize,
) -> Result<(), AllocError> {
    report.begin();
    known.put_board(&mut report.text, Shower::Of(side), board)?;
    put_gone(report, side, known.removers.of_board(board), edits)
}

fn tell_gone_stat(
    report: &mut Report,
    known: &Known<'_, '_>,
    stat: StatId,
    side: Side,
    edits: usize,
) -> Result<(), AllocError> {
    report.begin();
    known.put_stat(&mut report.text, Shower::Of(side), stat)?;
    put_gone(report, side, known.removers.of_stat(stat), edits)
}

fn whose_word(whose: Whose) -> &'static str
    ensures { result.now ≡ whose_word whose }
{
    match whose {
        Whose::Mine => "mine",
        Whose::Theirs => "theirs",
        Whose::Merged => "world",
    }
}

// Appends a word and a number.
fn put_one(report: &mut Report, word: &str, n: usize) -> Result<(), AllocError>
    ensures { OnOk result
        (report.new.text.items ≡ report.old.text.items ++ (word.now ++ number n)) }
{
    report.put(word)?;
    report.number(n)
}

// Appends a word and two numbers.
fn put_two(report: &mut Report, word: &str, m: usize, n: usize) -> Result<(), AllocError>
    ensures { OnOk result (report.new.text.items
        ≡ report.old.text.items ++ (word.now ++ number m ++ codes " " ++ number n)) }
{
    report.put(word)?;
    report.number(m)?;
    report.put(" ")?;
    report.number(n)
}

// Appends a refusal of an export, as a command tells it.
fn put_refusal(report: &mut Report, error: ExportError) -> Result<(), AllocError>
    ensures { OnOk result
        (report.new.text.items ≡ report.old.text.items ++ refusal_words error) }
{
    match error {
        ExportError::Memory => report.put("Memory"),
        ExportError::Stale => report.put("Stale"),
        ExportError::NoWorld => report.put("NoWorld"),
        ExportError::BoardsOver(boards) => put_one(report, "BoardsOver ", boards),
        ExportError::StatsOver { board, stats } => put_two(report, "StatsOver ", board, stats),
        ExportError::BoardOver { board, bytes } => put_two(report, "BoardOver ", board, bytes),
    }
}

// Appends the line of a world that can't be saved.
#[tactic(auto, unfolding(crate::specs::Lines::unsaved_line))]
fn tell_unsaved(report: &mut Report, whose: Whose, error: ExportError) -> Result<(), AllocError>
    ensures { OnOk result
        (report.new.text.items ≡ report.old.text.items ++ unsaved_line whose error) }
{
    report.begin();
    report.put(whose_word(whose))?;
    report.put("  can't be saved: ")?;
    put_refusal(report, error)?;
    report.end()
}

// Appends the line of a finding that is no cell.
fn tell(report: &mut Report, known: &Known<'_, '_>, finding: &Finding) -> Result<(), AllocError> {
    match finding {
        Finding::World(register, overridden) => {
            tell_override(report, known, Register::World(*register), *overridden)
        }
        Finding::Board(board, register, overridden) => {
            tell_override(
                report,
                known,
                Register::Board(*board, *register),
                *overridden,
            )
        }
        Finding::Stat(stat, register, overridden) => {
            tell_override(report, known, Register::Stat(*stat, *register), *overridden)
        }
        Finding::Cell(_, _, _) => Ok(()),
        Finding::BothWrote { stat, mine, theirs } => tell_both(
            report, known, *stat, *mine, *theirs,
        ),
        Finding::OtherProgram { stat, side, edits } => {
            tell_other(report, known, *stat, *side, *edits)
        }
        Finding::BoardGone { board, side, edits } => {
            tell_gone_board(report, known, *board, *side, *edits)
        }
        Finding::StatGone { stat, side, edits } => {
            tell_gone_stat(report, known, *stat, *side, *edits)
        }
        Finding::Unsaved(whose, error) => tell_unsaved(report, *whose, *error),
    }
}

// Appends the lines of the first findings, and tells of how many: all cells of one board are told
// together.
fn tell_first(
    alloc: Global,
    report: &mut Report,
    known: &Known<'_, '_>,
    findings: &[Finding],
) -> Result<usize, AllocError> {
    let Some(first) = findings.first() else {
        return Ok(1);
    };
    if let Finding::Cell(board, _, _) = first {
        let count = count_cells(findings, *board);
        let (cells, _) = findings.split_at(count.min(findings.len()));
        tell_cells(alloc, report, known, *board, cells)?;
        return Ok(count.max(1));
    }
    tell(report, known, first)?;
    Ok(1)
}

/// Appends the lines of findings.
pub(crate) fn tell_all(
    alloc: Global,
    report: &mut Report,
    known: &Known<'_, '_>,
    findings: &[Finding],
) -> Result<(), AllocError> {
    let mut told = 0;
    for i in 0..findings.len() {
        if i == told {
            let (_, rest) = findings.split_at(i);
            let count = tell_first(alloc, report, known, rest)?;
            told = i.saturating_add(count);
        }
    }
    Ok(())
}

/// Appends lines of `lint` that only the union has.
pub(crate) fn tell_new(report: &mut Report, lines: &[Vec<u8>]) -> Result<(), AllocError> {
    for line in lines {
        report.begin();
        report.text.extend_from_slice(line.as_slice())?;
        report.put("  (new)")?;
        report.end()?;
    }
    Ok(())
}
