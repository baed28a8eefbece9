//! Findings about stats and their programs.
ghost use Rattle.std.specs.Prelude.{◌≡◌, ◌<◌, ◌++◌, OnErr, OnOk, length, position};
ghost use Rattle.zed_lint.specs.Commands.{board_bytes, stat_bytes};
ghost use Rattle.zed_lint.specs.Found.{Wants};
ghost use Rattle.zed_lint.specs.Stats.{is_line_feed, line_feed, may_have_stat, misplaced, program_findings, self_passage, stat_findings, stat_spot, stats_findings, unended};
ghost use Rattle.zed_log.specs.Program.{own_bytes as bytes_had};
ghost use Rattle.zed_world.specs.Offsets.{is_passage as is_passage_tile};

use crate::finding::{Finding, Spot, What};
use crate::labels::note_labels;
use crate::noting::note;
use crate::program::note_lines;
use crate::tiles::wants_stat;
use crate::utf8::utf8_program;
use std::alloc::AllocError;
use zed_types::{Bytes, PASSAGE, Place, Tile, tile_at};
use zed_world::{BoardData, Code, StatData};

/// The monitor, which ZZT has in place of the player while no game is played.
const MONITOR: u8 = 3;

/// The byte that ends a line of a program.
const END: u8 = 13;

// Whether an element may have a stat.
fn may_have_stat(element: u8) -> bool
    ensures { result ≡ may_have_stat element }
{
    element == MONITOR || wants_stat(element)
}

// A stat outside the table, or on a tile that has no use for it.
fn misplaced(tile: Option<Tile>) -> Option<What>
    ensures { result ≡ misplaced tile }
{
    match tile {
        None => Some(What::OutsideTable),
        Some(tile) => {
            if may_have_stat(tile.element) {
                None
            } else {
                Some(What::NeedlessStat)
            }
        }
    }
}

fn is_passage(tile: Option<Tile>) -> bool
    ensures { result ≡ is_passage_tile tile }
{
    match tile {
        Some(tile) => tile.element == PASSAGE,
        None => false,
    }
}

// A passage of a board that leads to this board.
fn self_passage(number: usize, tile: Option<Tile>, board: u8) -> Option<What>
    ensures { result ≡ self_passage number tile board }
{
    if is_passage(tile) && usize::from(board) == number {
        Some(What::PassageToItself)
    } else {
        None
    }
}

// A program with this last byte, if that ends no line.
fn unended(last: Option<u8>) -> Option<What>
    ensures { result ≡ unended last }
{
    match last {
        None | Some(END) => None,
        Some(_) => Some(What::NoEndOfLine),
    }
}

fn first_line_feed(program: &[u8]) -> Option<usize>
    ensures { result ≡ position is_line_feed program.now }
{
    program.iter().position(|byte| *byte == b'\n')
}

// The first line feed of a program.
#[tactic(auto, unfolding(crate::specs::Stats::line_feed))]
fn line_feed(program: &[u8]) -> Option<What>
    ensures { result ≡ line_feed program.now }
{
    match first_line_feed(program) {
        Some(at) => Some(What::LineFeed(at)),
        None => None,
    }
}

/// The program that a stat has of its own.
pub(crate) fn own_bytes(code: &Code) -> &[u8]
    ensures { result.now ≡ bytes_had code.now }
{
    match code {
        Code::Own(bytes) => bytes.as_slice(),
        Code::None | Code::Same(_) => &[],
    }
}

#[tactic(auto, using(crate::proofs::Some::found, crate::proofs::Some::read, crate::proofs::Some::front, crate::proofs::Some::back), unfolding(crate::specs::Stats::program_findings))]
fn note_program(
    found: &mut Vec<Finding>,
    spot: Spot,
    stats: &[StatData],
    held: &[Bytes],
    set: &[Bytes],
    program: &[u8],
) -> Result<(), AllocError>
    ensures ok { OnOk result (found.new.items ≡ found.old.items
        ++ program_findings spot stats.now held.now set.now program.now) }
    ensures memory_only_when { OnErr result (Wants
        (program_findings spot stats.now held.now set.now program.now)
        program.now) }
{
    note(found, spot, unended(program.last().copied()))?;
    note(found, spot, line_feed(program))?;
    note(found, spot, utf8_program(program))?;
    note_labels(found, spot, stats, program)?;
    note_lines(found, spot, stats, held, set, program)
}

// Where a stat is.
fn spot_of(number: usize, board: &BoardData, i: usize, stat: &StatData) -> Spot
    ensures { result ≡ stat_spot number board.now i stat.now }
{
    let place = Place {
        x: stat.x,
        y: stat.y,
    };
    Spot::Stat(number, i, place, tile_at(&board.tiles, stat.x, stat.y))
}

#[tactic(auto, using(crate::proofs::Some::found, crate::proofs::Some::front, crate::proofs::Some::back, crate::proofs::Some::wants_back), unfolding(crate::specs::Stats::stat_findings))]
fn note_stat(
    found: &mut Vec<Finding>,
    held: &[Bytes],
    set: &[Bytes],
    number: usize,
    board: &BoardData,
    i: usize,
    stat: &StatData,
) -> Result<(), AllocError>
    ensures ok { OnOk result (found.new.items
        ≡ found.old.items ++ stat_findings held.now set.now number board.now i stat.now) }
    ensures memory_only_when { OnErr result (Wants
        (stat_findings held.now set.now number board.now i stat.now) (stat_bytes stat.now)) }
{
    let spot = spot_of(number, board, i, stat);
    let tile = tile_at(&board.tiles, stat.x, stat.y);
    let stats = board.stats.as_slice();
    note(found, spot, misplaced(tile))?;
    note(found, spot, self_passage(number, tile, stat.p3))?;
    note_program(found, spot, stats, held, set, own_bytes(&stat.code))
}

/// Notes the findings about the stats of a board.
#[tactic(auto, using(crate::proofs::Some::wants_member))]
pub(crate) fn note_stats(
    found: &mut Vec<Finding>,
    held: &[Bytes],
    set: &[Bytes],
    number: usize,
    board: &BoardData,
) -> Result<(), AllocError>
    ensures ok { OnOk result
        (found.new.items ≡ found.old.items ++ stats_findings held.now set.now number board.now) }
    ensures memory_only_when { OnErr result
        (Wants (stats_findings held.now set.now number board.now) (board_bytes board.now)) }
{
    for (i, stat) in board.stats.as_slice().iter().enumerate() {
        note_stat(found, held, set, number, board, i, stat)?;
    }
    Ok(())
}
