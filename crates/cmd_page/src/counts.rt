//! How much is in a world.
ghost use Rattle.std.specs.Prelude.{◌≡◌, ◌<◌, ◌++◌, ◌^◌, OnOk, length};
ghost use Rattle.cmd_page.specs.Page.{counted, counts, is_own, owners_in, programs_in, stats_in};

use std::alloc::AllocError;
use zed_log::{put_number, put_text};
use zed_world::{BoardData, Code, StatData};

fn stats_in(boards: &[BoardData]) -> u64
    requires few { stats_in boards.now < 2 ^ 32 }
    ensures { result ≡ stats_in boards.now }
{
    let mut count = 0;
    for board in boards {
        count += board.stats.as_slice().len() as u64;
    }
    count
}

fn is_own(code: &Code) -> bool
    ensures { result ≡ is_own code.now }
{
    match code {
        Code::Own(_) => true,
        Code::None | Code::Same(_) => false,
    }
}

// How many of these stats have a program of their own.
fn owners_in(stats: &[StatData]) -> u64
    ensures { result ≡ owners_in stats.now }
{
    stats.iter().filter(|stat| is_own(&stat.code)).count() as u64
}

fn programs_in(boards: &[BoardData]) -> u64
    requires few { programs_in boards.now < 2 ^ 32 }
    ensures { result ≡ programs_in boards.now }
{
    let mut count = 0;
    for board in boards {
        count += owners_in(board.stats.as_slice());
    }
    count
}

// Appends a count with its name.
#[tactic(auto, unfolding(crate::specs::Page::counted))]
fn put_counted(out: &mut Vec<u8>, name: &str, n: u64) -> Result<(), AllocError>
    ensures { OnOk result (out.new.items ≡ out.old.items ++ counted name.now n) }
{
    put_text(out, name)?;
    put_text(out, ": ")?;
    put_number(out, n)
}

/// Appends how many boards there are, and how many stats and programs on them.
#[tactic(auto, using(crate::proofs::Few::no_more_programs), unfolding(crate::specs::Page::counts))]
pub(crate) fn put_counts(out: &mut Vec<u8>, boards: &[BoardData]) -> Result<(), AllocError>
    requires few { stats_in boards.now < 2 ^ 32 }
    ensures { OnOk result (out.new.items ≡ out.old.items ++ counts boards.now) }
{
    put_text(out, "<p>")?;
    put_counted(out, "boards", boards.len() as u64)?;
    put_text(out, ", ")?;
    put_counted(out, "stats", stats_in(boards))?;
    put_text(out, ", ")?;
    put_counted(out, "programs", programs_in(boards))?;
    put_text(out, "</p>\n")
}
