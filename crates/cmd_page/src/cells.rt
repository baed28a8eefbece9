//! The cells of the stats over the picture of a board.
ghost use Rattle.std.specs.Prelude.{◌≡◌, ◌++◌, OnOk};
ghost use Rattle.cmd_page.specs.Programs.{anchor, anchor_start, attribute, cell, cell_start, linked_cell, mark, marks, position, stat_words, tip};

use crate::escaping::put_escaped;
use crate::first_lines::first_line;
use std::alloc::AllocError;
use zed_log::{put_element_of, put_number, put_place, put_text};
use zed_types::tile_at;
use zed_world::{BoardData, StatData, is_passage};

fn put_anchor_start(out: &mut Vec<u8>) -> Result<(), AllocError>
    ensures { OnOk result (out.new.items ≡ out.old.items ++ anchor_start) }
{
    put_text(out, "<a href='#board-")
}

/// Appends where a link to the board of a number begins.
#[tactic(auto, unfolding(crate::specs::Programs::anchor))]
pub(crate) fn put_anchor(out: &mut Vec<u8>, board: u64) -> Result<(), AllocError>
    ensures { OnOk result (out.new.items ≡ out.old.items ++ anchor board) }
{
    put_anchor_start(out)?;
    put_number(out, board)?;
    put_text(out, "'>")
}

/// Appends a stat by its number, the element at its place, and its place.
#[tactic(auto, unfolding(crate::specs::Programs::stat_words))]
pub(crate) fn put_stat_words(
    out: &mut Vec<u8>,
    board: &BoardData,
    number: usize,
    stat: &StatData,
) -> Result<(), AllocError>
    ensures { OnOk result
        (out.new.items ≡ out.old.items ++ stat_words board.now number stat.now) }
{
    put_number(out, number as u64)?;
    put_text(out, " ")?;
    put_element_of(out, tile_at(&board.tiles, stat.x, stat.y))?;
    put_text(out, " ")?;
    put_place(out, stat.x, stat.y)
}

// Appends what is told of a stat where the mouse is over it.
#[tactic(auto, unfolding(crate::specs::Programs::tip))]
fn put_tip(
    out: &mut Vec<u8>,
    board: &BoardData,
    number: usize,
    stat: &StatData,
) -> Result<(), AllocError>
    ensures { OnOk result (out.new.items ≡ out.old.items ++ tip board.now number stat.now) }
{
    put_text(out, "<title>")?;
    put_stat_words(out, board, number, stat)?;
    put_text(out, " ")?;
    put_escaped(out, first_line(board.stats.as_slice(), &stat.code))?;
    put_text(out, "</title>")
}

fn put_cell_start(out: &mut Vec<u8>) -> Result<(), AllocError>
    ensures { OnOk result (out.new.items ≡ out.old.items ++ cell_start) }
{
    put_text(out, "<rect width='8' height='14'")
}

#[tactic(auto, unfolding(crate::specs::Programs::attribute))]
fn put_attribute(out: &mut Vec<u8>, name: &str, n: u64) -> Result<(), AllocError>
    ensures { OnOk result (out.new.items ≡ out.old.items ++ attribute name.now n) }
{
    put_text(out, " ")?;
    put_text(out, name)?;
    put_text(out, "='")?;
    put_number(out, n)?;
    put_text(out, "'")
}

// Appends where the cell of a column and a row lies.
#[tactic(auto, unfolding(crate::specs::Programs::position))]
fn put_position(out: &mut Vec<u8>, x: u8, y: u8) -> Result<(), AllocError>
    ensures { OnOk result (out.new.items ≡ out.old.items ++ position x y) }
{
    put_attribute(out, "x", 8 * u64::from(x))?;
    put_attribute(out, "y", 14 * u64::from(y))
}

#[tactic(auto, unfolding(crate::specs::Programs::cell))]
fn put_cell(
    out: &mut Vec<u8>,
    board: &BoardData,
    number: usize,
    stat: &StatData,
) -> Result<(), AllocError>
    ensures { OnOk result (out.new.items ≡ out.old.items ++ cell board.now number stat.now) }
{
    put_cell_start(out)?;
    put_position(out, stat.x, stat.y)?;
    put_text(out, ">")?;
    put_tip(out, board, number, stat)?;
    put_text(out, "</rect>")
}

// Appends the cell of a stat on a passage, as a link to the board of the passage.
#[tactic(auto, unfolding(crate::specs::Programs::linked_cell))]
fn put_linked_cell(
    out: &mut Vec<u8>,
    board: &BoardData,
    number: usize,
    stat: &StatData,
) -> Result<(), AllocError>
    ensures { OnOk result
        (out.new.items ≡ out.old.items ++ linked_cell board.now number stat.now) }
{
    put_anchor(out, u64::from(stat.p3))?;
    put_cell(out, board, number, stat)?;
    put_text(out, "</a>")
}

fn put_mark(
    out: &mut Vec<u8>,
    board: &BoardData,
    number: usize,
    stat: &StatData,
) -> Result<(), AllocError>
    ensures { OnOk result (out.new.items ≡ out.old.items ++ mark board.now number stat.now) }
{
    if is_passage(&board.tiles, stat.x, stat.y) {
        put_linked_cell(out, board, number, stat)
    } else {
        put_cell(out, board, number, stat)
    }
}

/// Appends the cell of each stat of a board. That of a passage is a link.
pub(crate) fn put_marks(
    out: &mut Vec<u8>,
    board: &BoardData,
    stats: &[StatData],
) -> Result<(), AllocError>
    ensures { OnOk result (out.new.items ≡ out.old.items ++ marks board.now 0 stats.now) }
{
    for (number, stat) in stats.iter().enumerate() {
        put_mark(out, board, number, stat)?;
    }
    Ok(())
}
