//! The boards of a page.
ghost use Rattle.std.specs.Prelude.{◌≡◌, ◌++◌, OnOk};
ghost use Rattle.cmd_page.specs.Boards.{board_title, drawn, exit, exits, heading, item, items, link, picture, section, section_start, section_tag, sections};

use crate::cells::{put_anchor, put_marks};
use crate::escaping::put_escaped;
use crate::programs::put_programs;
use std::alloc::AllocError;
use zed_log::{put_number, put_text};
use zed_look::{draw, put_svg};
use zed_world::{BoardData, Properties};

// Appends a link by the number of a board.
#[tactic(auto, unfolding(crate::specs::Boards::link))]
fn put_link(out: &mut Vec<u8>, board: u64) -> Result<(), AllocError>
    ensures { OnOk result (out.new.items ≡ out.old.items ++ link board) }
{
    put_anchor(out, board)?;
    put_number(out, board)?;
    put_text(out, "</a>")
}

fn put_exit(out: &mut Vec<u8>, board: u8) -> Result<(), AllocError>
    ensures { OnOk result (out.new.items ≡ out.old.items ++ exit board) }
{
    if board == 0 {
        put_text(out, "-")
    } else {
        put_link(out, u64::from(board))
    }
}

#[tactic(auto, unfolding(crate::specs::Boards::exits))]
fn put_exits(out: &mut Vec<u8>, properties: &Properties) -> Result<(), AllocError>
    ensures { OnOk result (out.new.items ≡ out.old.items ++ exits properties.now) }
{
    put_text(out, "<p>north ")?;
    put_exit(out, properties.north)?;
    put_text(out, ", south ")?;
    put_exit(out, properties.south)?;
    put_text(out, ", west ")?;
    put_exit(out, properties.west)?;
    put_text(out, ", east ")?;
    put_exit(out, properties.east)?;
    put_text(out, "</p>\n")
}

#[tactic(auto, unfolding(crate::specs::Boards::board_title))]
fn put_board_title(out: &mut Vec<u8>, number: usize, board: &BoardData) -> Result<(), AllocError>
    ensures { OnOk result (out.new.items ≡ out.old.items ++ board_title number board.now) }
{
    put_number(out, number as u64)?;
    put_text(out, " ")?;
    put_escaped(out, board.name.as_slice())
}

#[tactic(auto, unfolding(crate::specs::Boards::item))]
fn put_item(out: &mut Vec<u8>, number: usize, board: &BoardData) -> Result<(), AllocError>
    ensures { OnOk result (out.new.items ≡ out.old.items ++ item number board.now) }
{
    put_text(out, "<li>")?;
    put_anchor(out, number as u64)?;
    put_board_title(out, number, board)?;
    put_text(out, "</a></li>\n")
}

/// Appends a line for each board, in the order of their numbers.
pub(crate) fn put_items(out: &mut Vec<u8>, boards: &[BoardData]) -> Result<(), AllocError>
    ensures { OnOk result (out.new.items ≡ out.old.items ++ items 0 boards.now) }
{
    for (number, board) in boards.iter().enumerate() {
        put_item(out, number, board)?;
    }
    Ok(())
}

// Appends the picture of a board, as `show --svg` prints it.
fn put_picture(out: &mut Vec<u8>, board: &BoardData) -> Result<(), AllocError>
    ensures { OnOk result (out.new.items ≡ out.old.items ++ picture board.now) }
{
    let picture = draw(board, 0);
    put_svg(&picture, out)
}

// Appends the picture of a board, with the cells of its stats over it.
#[tactic(auto, unfolding(crate::specs::Boards::drawn))]
fn put_drawn(out: &mut Vec<u8>, board: &BoardData) -> Result<(), AllocError>
    ensures { OnOk result (out.new.items ≡ out.old.items ++ drawn board.now) }
{
    put_text(out, "<div>\n")?;
    put_picture(out, board)?;
    put_text(out, "<svg ")?;
    put_text(out, "viewBox='8 14 ")?;
    put_text(out, "480 350'>\n")?;
    put_marks(out, board, board.stats.as_slice())?;
    put_text(out, "</svg></div>\n")
}

fn put_section_tag(out: &mut Vec<u8>) -> Result<(), AllocError>
    ensures { OnOk result (out.new.items ≡ out.old.items ++ section_tag) }
{
    put_text(out, "<section id='board-")
}

// Appends where the part of the board of a number begins.
#[tactic(auto, unfolding(crate::specs::Boards::section_start))]
fn put_section_start(out: &mut Vec<u8>, number: usize) -> Result<(), AllocError>
    ensures { OnOk result (out.new.items ≡ out.old.items ++ section_start number) }
{
    put_section_tag(out)?;
    put_number(out, number as u64)?;
    put_text(out, "'>\n<h2>")
}

#[tactic(auto, unfolding(crate::specs::Boards::heading))]
fn put_heading(out: &mut Vec<u8>, number: usize, board: &BoardData) -> Result<(), AllocError>
    ensures { OnOk result (out.new.items ≡ out.old.items ++ heading number board.now) }
{
    put_section_start(out, number)?;
    put_board_title(out, number, board)?;
    put_text(out, "</h2>\n")?;
    put_exits(out, &board.properties)
}

#[tactic(auto, unfolding(crate::specs::Boards::section))]
fn put_section(out: &mut Vec<u8>, number: usize, board: &BoardData) -> Result<(), AllocError>
    ensures { OnOk result (out.new.items ≡ out.old.items ++ section number board.now) }
{
    put_heading(out, number, board)?;
    put_drawn(out, board)?;
    put_programs(out, board)?;
    put_text(out, "</section>\n")
}

/// Appends the part of each board, in the order of their numbers.
pub(crate) fn put_sections(out: &mut Vec<u8>, boards: &[BoardData]) -> Result<(), AllocError>
    ensures { OnOk result (out.new.items ≡ out.old.items ++ sections 0 boards.now) }
{
    for (number, board) in boards.iter().enumerate() {
        put_section(out, number, board)?;
    }
    Ok(())
}
