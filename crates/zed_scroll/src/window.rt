//! The window of a scroll, place by place.
ghost use Rattle.std.specs.Prelude.{◌≡◌, ◌≤◌, ◌<◌, ◌==◌, length, slice_get};
ghost use Rattle.zed_oop_syntax.specs.Scroll.{is_choice};
ghost use Rattle.zed_scroll.specs.Window.{above, below, dots, framed, heading, heading_spot, inner_spot, is_choice_at, line_or_dots, prompt, window_spot};

use crate::frame::{is_inside, lower_edge, middle_edge, side_edge, upper_edge};
use crate::line::{centred_from, ground, line_spot, over, spot};
use zed_look::Spot;
use zed_oop_syntax::{ScrollLine, scroll_line};
use zed_scene::Scroll;

/// What is told where the line in the middle is a choice.
const PROMPT: &[u8] = b"\xAEPress ENTER to select this\xAF";

#[tactic(auto, unfolding(crate::specs::Window::dots))]
fn dots(column: usize) -> Spot
    ensures { result ≡ dots column }
{
    if column % 5 == 1 {
        spot(30, 7)
    } else {
        spot(30, b' ')
    }
}

/// Whether a line is a choice.
fn is_choice(line: &[u8]) -> bool
    ensures { result ≡ is_choice line.now }
{
    match scroll_line(line) {
        ScrollLine::Choice(_, _) | ScrollLine::File(_, _) => true,
        ScrollLine::Plain(_) | ScrollLine::Centred(_) => false,
    }
}

/// What stands above the lines.
#[tactic(auto, unfolding(crate::specs::Window::prompt))]
fn heading(scroll: &Scroll, line: usize) -> &[u8]
    ensures { result.now ≡ heading scroll.now line }
{
    match scroll.lines.as_slice().get(line) {
        Some(chosen) if is_choice(chosen.as_slice()) => PROMPT,
        _ => scroll.title.as_slice(),
    }
}

#[tactic(auto, unfolding(crate::specs::Window::heading_spot))]
fn heading_spot(scroll: &Scroll, line: usize, column: usize) -> Spot
    ensures { result ≡ heading_spot scroll.now line column }
{
    let text = heading(scroll, line);
    over(
        centred_from(text.len()),
        30,
        text,
        column,
        ground(false, column),
    )
}

/// A line of a scroll from its first one on, and what is behind the last one.
fn line_or_dots(scroll: &Scroll, index: usize, column: usize, ground: Spot) -> Spot
    ensures { result ≡ line_or_dots (slice_get scroll.now.lines index)
        (index == length scroll.now.lines) column ground }
{
    let lines = scroll.lines.as_slice();
    match lines.get(index) {
        Some(line) => line_spot(line.as_slice(), column, ground),
        None => {
            if index == lines.len() {
                dots(column)
            } else {
                ground
            }
        }
    }
}

/// What stands so many lines above one.
#[tactic(auto, unfolding(crate::specs::Window::above))]
fn above(scroll: &Scroll, line: usize, distance: usize, column: usize, ground: Spot) -> Spot
    ensures { result ≡ above scroll.now line distance column ground }
{
    if distance <= line {
        line_or_dots(scroll, line - distance, column, ground)
    } else if distance - line == 1 {
        dots(column)
    } else {
        ground
    }
}

/// What stands so many lines below one.
#[tactic(auto, using(crate::proofs::Lines::far_below), unfolding(crate::specs::Window::below))]
fn below(scroll: &Scroll, line: usize, distance: usize, column: usize, ground: Spot) -> Spot
    requires { line ≤ length scroll.now.lines }
    ensures { result ≡ below scroll.now line distance column ground }
{
    if distance <= scroll.lines.as_slice().len().saturating_sub(line) {
        line_or_dots(scroll, line + distance, column, ground)
    } else {
        ground
    }
}

/// The lines that are shown.
#[tactic(auto, unfolding(crate::specs::Window::inner_spot))]
fn inner_spot(scroll: &Scroll, line: usize, lines: usize, n: usize, column: usize) -> Spot
    requires { line ≤ length scroll.now.lines }
    ensures { result ≡ inner_spot scroll.now line lines n column }
{
    let middle = lines / 2;
    if n < middle {
        above(scroll, line, middle - n, column, ground(false, column))
    } else {
        below(
            scroll,
            line,
            n - middle,
            column,
            ground(n == middle, column),
        )
    }
}

fn framed(column: usize, inner: Spot) -> Spot
    ensures { result ≡ framed column inner }
{
    if is_inside(column) {
        inner
    } else {
        side_edge(column)
    }
}

/// The window in a row and a column.
#[tactic(auto, unfolding(crate::specs::Window::window_spot))]
pub(crate) fn window_spot(
    scroll: &Scroll,
    line: usize,
    lines: usize,
    row: usize,
    column: usize,
) -> Spot
    requires line { line ≤ length scroll.now.lines }
    requires lines { lines ≤ 15 }
    requires row { row < 19 }
    ensures { result ≡ window_spot scroll.now line lines row column }
{
    match row {
        0 => upper_edge(column),
        1 => framed(column, heading_spot(scroll, line, column)),
        2 => middle_edge(column),
        _ if row == lines + 3 => lower_edge(column),
        _ => framed(column, inner_spot(scroll, line, lines, row - 3, column)),
    }
}
