//! The lines of stats.
ghost use Rattle.std.specs.Prelude.{◌≡◌, ◌++◌, IfOk, OnErr, OnOk, option_copied};
ghost use Rattle.zed_log.specs.Stats.{element_of, fields, program_words, stat_line, stat_lines, stats_text};

use crate::program_lines::{first_line, program_bytes};
use crate::{put_element, put_integer, put_number, put_place, put_quoted, put_text};
use std::alloc::{AllocError, Global};
use zed_types::{Tile, tile_at};
use zed_world::{BoardData, Code, StatData};

/// Appends the element of a tile by its word and number, or `-` if there is no tile.
pub fn put_element_of(out: &mut Vec<u8>, tile: Option<Tile>) -> Result<(), AllocError>
    ensures { OnOk result (out.new.items ≡ out.old.items ++ element_of tile) }
{
    match tile {
        Some(tile) => put_element(out, tile.element),
        None => put_text(out, "-"),
    }
}

fn put_program(out: &mut Vec<u8>, stats: &[StatData], code: &Code) -> Result<(), AllocError>
    ensures { OnOk result (out.new.items ≡ out.old.items ++ program_words stats.now code.now) }
{
    match code {
        Code::None => put_text(out, "-"),
        Code::Own(bytes) => {
            put_number(out, bytes.as_slice().len() as u64)?;
            put_text(out, " bytes  ")?;
            put_quoted(out, first_line(bytes.as_slice()))
        }
        Code::Same(n) => {
            put_text(out, "as ")?;
            put_number(out, u64::from(*n))?;
            put_text(out, "  ")?;
            put_quoted(out, first_line(program_bytes(stats, code)))
        }
    }
}

#[tactic(auto, unfolding(crate::specs::Stats::fields))]
fn put_fields(out: &mut Vec<u8>, stat: &StatData) -> Result<(), AllocError>
    ensures { OnOk result (out.new.items ≡ out.old.items ++ fields stat.now) }
{
    put_text(out, "cycle ")?;
    put_integer(out, stat.cycle)?;
    put_text(out, "  p1 ")?;
    put_number(out, u64::from(stat.p1))?;
    put_text(out, " p2 ")?;
    put_number(out, u64::from(stat.p2))?;
    put_text(out, " p3 ")?;
    put_number(out, u64::from(stat.p3))
}

#[tactic(auto, unfolding(crate::specs::Stats::stat_words))]
fn put_stat(
    out: &mut Vec<u8>,
    board: &BoardData,
    number: usize,
    stat: &StatData,
) -> Result<(), AllocError>
    ensures { OnOk result (out.new.items ≡ out.old.items ++ stat_line board.now number stat.now) }
{
    put_number(out, number as u64)?;
    put_text(out, "  ")?;
    put_place(out, stat.x, stat.y)?;
    put_text(out, "  ")?;
    put_element_of(out, tile_at(&board.tiles, stat.x, stat.y))?;
    put_text(out, "  ")?;
    put_fields(out, stat)?;
    put_text(out, "  ")?;
    put_program(out, board.stats.as_slice(), &stat.code)?;
    put_text(out, "\n")
}

fn lines_of(alloc: Global, board: &BoardData, stats: &[StatData]) -> Result<Vec<u8>, AllocError>
    ensures { IfOk result (λ text. text.items ≡ stat_lines board.now 0 stats.now) }
{
    let mut text = Vec::new(alloc);
    for (number, stat) in stats.iter().enumerate() {
        put_stat(&mut text, board, number, stat)?;
    }
    Ok(text)
}

/// Appends a line for each stat of a board: its number, its place, the element there, its cycle,
/// its three parameters, and its program: the length, or the stat that it shares with, and the
/// first line. The only refusal is want of memory; then nothing is appended.
pub fn stats(board: &BoardData, out: &mut Vec<u8>) -> Result<(), AllocError>
    ensures ok { OnOk result (out.new.items ≡ out.old.items ++ stats_text board.now) }
    ensures kept { OnErr result (out.new.items ≡ out.old.items) }
{
    let text = lines_of(*out.allocator(), board, board.stats.as_slice())?;
    out.extend_from_slice(&text)
}
