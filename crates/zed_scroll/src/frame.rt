//! Where the window of a scroll stands, and its frame.
ghost use Rattle.std.specs.Prelude.{◌≡◌, ◌≤◌};
ghost use Rattle.zed_scroll.specs.Window.{at_most, edged, is_inside, left_on, lines_on, lower_edge, middle_edge, side_edge, top_on, upper_edge, window_on};

use crate::line::spot;
use zed_look::Spot;

/// Where the window of a scroll stands on a terminal, and how large it is.
#[derive(Clone, Copy)]
pub struct Window {
    /// How many rows are above it.
    pub top: usize,
    /// How many columns are to the left of it.
    pub left: usize,
    /// How many rows of it are shown, those of its frame too.
    pub rows: usize,
    /// How many columns of it are shown.
    pub columns: usize,
    /// How many lines it has room for.
    pub lines: usize,
}

fn lines_on(rows: usize) -> usize
    ensures result { result ≡ lines_on rows }
    ensures within { result ≤ 15 }
{
    if 20 <= rows {
        15
    } else if 6 <= rows {
        rows - 5
    } else {
        1
    }
}

fn top_on(rows: usize) -> usize
    ensures result { result ≡ top_on rows }
    ensures within { result ≤ 3 }
{
    if 23 <= rows {
        3
    } else {
        rows.saturating_sub(20)
    }
}

fn left_on(columns: usize) -> usize
    ensures result { result ≡ left_on columns }
    ensures within { result ≤ 5 }
{
    if 54 <= columns {
        5
    } else {
        columns.saturating_sub(49)
    }
}

pub(crate) fn at_most(most: usize, n: usize) -> usize
    ensures { result ≡ at_most most n }
{
    if n <= most { n } else { most }
}

/// The window on a terminal of so many rows and columns.
pub(crate) fn window_on(rows: usize, columns: usize) -> Window
    ensures result { result ≡ window_on rows columns }
    ensures top { result.top ≤ 3 }
    ensures left { result.left ≤ 5 }
    ensures lines { result.lines ≤ 15 }
    ensures rows { result.rows ≤ 19 }
    ensures columns { result.columns ≤ 49 }
{
    let lines = lines_on(rows);
    Window {
        top: top_on(rows),
        left: left_on(columns),
        rows: at_most(rows.saturating_sub(1), lines + 4),
        columns: at_most(columns, 49),
        lines,
    }
}

/// A place of the frame: two characters to the left, one in the middle, and two to the right.
#[tactic(auto, unfolding(crate::specs::Window::edged))]
fn edged(a: u8, b: u8, middle: u8, c: u8, d: u8, column: usize) -> Spot
    ensures { result ≡ edged a b middle c d column }
{
    let character = match column {
        0 => a,
        1 => b,
        47 => c,
        48 => d,
        _ => middle,
    };
    spot(15, character)
}

pub(crate) fn upper_edge(column: usize) -> Spot
    ensures { result ≡ upper_edge column }
{
    edged(198, 209, 205, 209, 181, column)
}

pub(crate) fn lower_edge(column: usize) -> Spot
    ensures { result ≡ lower_edge column }
{
    edged(198, 207, 205, 207, 181, column)
}

pub(crate) fn middle_edge(column: usize) -> Spot
    ensures { result ≡ middle_edge column }
{
    edged(32, 198, 205, 181, 32, column)
}

pub(crate) fn side_edge(column: usize) -> Spot
    ensures { result ≡ side_edge column }
{
    edged(32, 179, 32, 179, 32, column)
}

/// Whether a column is inside the frame.
pub(crate) fn is_inside(column: usize) -> bool
    ensures { result ≡ is_inside column }
{
    2 <= column && column <= 46
}
