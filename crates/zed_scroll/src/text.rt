//! What a terminal is told of a scroll.
ghost use Rattle.std.specs.Prelude.{◌≡◌, ◌<◌, ◌≤◌, ◌++◌, None, OnOk, length};
ghost use Rattle.std.specs.List.{flat_map};
ghost use Rattle.zed_look.specs.Coloured.{coloured_row};
ghost use Rattle.zed_scroll.specs.Text.{place, placed_row, scroll_text, window_row, window_text};

use crate::frame::{Window, at_most, window_on};
use crate::window::window_spot;
use std::alloc::AllocError;
use zed_look::{Spot, put_coloured_row};
use zed_scene::Scroll;

/// Goes to a row and a column.
#[tactic(auto, unfolding(crate::specs::Text::place))]
fn put_place(out: &mut Vec<u8>, row: usize, column: usize) -> Result<(), AllocError>
    ensures { OnOk result (out.new.items ≡ out.old.items ++ place row column) }
{
    let text = format!(in *out.allocator(); "\x1B[{row};{column}H")?;
    out.extend_from_slice(text.as_bytes())
}

/// Appends what is shown of a row of the window.
#[tactic(auto, unfolding(crate::specs::Text::window_row))]
fn put_spots(
    spots: &mut Vec<Spot>,
    scroll: &Scroll,
    line: usize,
    window: Window,
    row: usize,
) -> Result<(), AllocError>
    requires line { line ≤ length scroll.now.lines }
    requires lines { window.lines ≤ 15 }
    requires row { row < 19 }
    ensures { OnOk result (spots.new.items ≡ spots.old.items ++ window_row scroll.now line window row) }
{
    for column in 0..window.columns {
        spots.push(window_spot(scroll, line, window.lines, row, column))?;
    }
    Ok(())
}

/// Appends a row of the window at its place.
fn put_row(
    out: &mut Vec<u8>,
    scroll: &Scroll,
    line: usize,
    window: Window,
    row: usize,
) -> Result<(), AllocError>
    requires line { line ≤ length scroll.now.lines }
    requires top { window.top ≤ 3 }
    requires left { window.left ≤ 5 }
    requires lines { window.lines ≤ 15 }
    requires row { row < 19 }
    ensures { OnOk result (out.new.items ≡ out.old.items ++ placed_row scroll.now line window row) }
{
    put_place(out, window.top + row + 1, window.left + 1)?;
    let mut spots = Vec::new(*out.allocator());
    put_spots(&mut spots, scroll, line, window, row)?;
    put_coloured_row(spots.as_slice(), out)
}

/// Appends the rows of the window.
#[tactic(auto, unfolding(crate::specs::Text::window_text))]
fn put_window(
    out: &mut Vec<u8>,
    scroll: &Scroll,
    line: usize,
    window: Window,
) -> Result<(), AllocError>
    requires line { line ≤ length scroll.now.lines }
    requires top { window.top ≤ 3 }
    requires left { window.left ≤ 5 }
    requires lines { window.lines ≤ 15 }
    requires rows { window.rows ≤ 19 }
    ensures { OnOk result (out.new.items ≡ out.old.items ++ window_text scroll.now line window) }
{
    for row in 0..window.rows {
        put_row(out, scroll, line, window, row)?;
    }
    Ok(())
}

/// Appends what shows a scroll over the picture of a terminal of so many rows and columns: as ZZT 3.2
/// does, with this of its lines in the middle, or the last one. A small terminal shows as much of the window as it has
/// room for. Only want of memory refuses it; then a part of it may be appended.
pub fn put_scroll(
    out: &mut Vec<u8>,
    scroll: &Scroll,
    line: usize,
    rows: usize,
    columns: usize,
) -> Result<(), AllocError>
    ensures { OnOk result (out.new.items ≡ out.old.items ++ scroll_text rows columns scroll.now line) }
{
    let last = scroll.lines.as_slice().len().saturating_sub(1);
    put_window(out, scroll, at_most(last, line), window_on(rows, columns))
}
