//! The programs of a board.
ghost use Rattle.std.specs.Prelude.{◌≡◌, ◌++◌, OnOk};
ghost use Rattle.cmd_page.specs.Programs.{fold, program_of, programs, sharing};

use crate::cells::put_stat_words;
use crate::escaping::put_program;
use std::alloc::AllocError;
use zed_log::{put_number, put_text};
use zed_world::{BoardData, Code, StatData};

// Appends a program that folds.
#[tactic(auto, unfolding(crate::specs::Programs::fold))]
fn put_fold(
    out: &mut Vec<u8>,
    board: &BoardData,
    number: usize,
    stat: &StatData,
    bytes: &[u8],
) -> Result<(), AllocError>
    ensures { OnOk result
        (out.new.items ≡ out.old.items ++ fold board.now number stat.now bytes.now) }
{
    put_text(out, "<details>")?;
    put_text(out, "<summary>")?;
    put_stat_words(out, board, number, stat)?;
    put_text(out, "</summary>")?;
    put_text(out, "<pre>\n")?;
    put_program(out, bytes)?;
    put_text(out, "</pre></details>\n")
}

// Appends whose program a stat has.
#[tactic(auto, unfolding(crate::specs::Programs::sharing))]
fn put_sharing(
    out: &mut Vec<u8>,
    board: &BoardData,
    number: usize,
    stat: &StatData,
    owner: u8,
) -> Result<(), AllocError>
    ensures { OnOk result
        (out.new.items ≡ out.old.items ++ sharing board.now number stat.now owner) }
{
    put_text(out, "<p>")?;
    put_stat_words(out, board, number, stat)?;
    put_text(out, " as ")?;
    put_number(out, u64::from(owner))?;
    put_text(out, "</p>\n")
}

fn put_program_of(
    out: &mut Vec<u8>,
    board: &BoardData,
    number: usize,
    stat: &StatData,
) -> Result<(), AllocError>
    ensures { OnOk result (out.new.items
        ≡ out.old.items ++ program_of board.now number stat.now stat.now.code) }
{
    match &stat.code {
        Code::None => Ok(()),
        Code::Own(bytes) => put_fold(out, board, number, stat, bytes.as_slice()),
        Code::Same(owner) => put_sharing(out, board, number, stat, *owner),
    }
}

// Appends the program of each of these stats of a board that has one.
fn put_each(out: &mut Vec<u8>, board: &BoardData, stats: &[StatData]) -> Result<(), AllocError>
    ensures { OnOk result (out.new.items ≡ out.old.items ++ programs board.now 0 stats.now) }
{
    for (number, stat) in stats.iter().enumerate() {
        put_program_of(out, board, number, stat)?;
    }
    Ok(())
}

/// Appends the program of each stat of a board that has one.
pub(crate) fn put_programs(out: &mut Vec<u8>, board: &BoardData) -> Result<(), AllocError>
    ensures { OnOk result
        (out.new.items ≡ out.old.items ++ programs board.now 0 board.now.stats) }
{
    put_each(out, board, board.stats.as_slice())
}
