//! What a terminal is told of a playtest.
ghost use Rattle.std.specs.Prelude.{◌≡◌, ◌+◌, ◌*◌, ◌++◌, ◌<◌, ◌≤◌, IfOk, None, OnOk, Some, length, option_map, slice_get, take, drop};
ghost use Rattle.std.specs.List.{flat_map};
ghost use Rattle.zed_look.specs.Coloured.{coloured_row};
ghost use Rattle.zed_terminal.specs.Course.{picture, point};
ghost use Rattle.zed_terminal.specs.Staged.{answer_to, beside, columns_of, columns_shown, first_shown, help, keys_told, last_of, line_end, message_line, open_text, player_column, player_row, rows_shown, spot_beside, stage_row, stage_rows, stage_text, told, told_lines};

use crate::input::Size;
use crate::overlay::Shown;
use crate::tape::Tape;
use std::alloc::{AllocError, Global};
use zed_look::{Spot, draw_play_row, put_coloured_row, put_glyphs};
use zed_play::{Chosen, Messages, Play};
use zed_screen::play_cell;
use zed_scroll::put_scroll;

/// Which part of the picture is shown: from a row and a column on, so many columns.
#[derive(Clone, Copy)]
struct Part {
    first: usize,
    left: usize,
    columns: usize,
}

/// What is told beside the board in a row and a column.
fn spot_at(play: &Play, row: usize, column: usize) -> Spot
    requires row { row < 25 }
    requires column { column < 80 }
    ensures { result ≡ spot_beside play.now row column }
{
    let cell = play_cell(play, (80 * row + column) as u16);
    Spot {
        character: cell.character,
        attribute: cell.attribute,
    }
}

/// Appends what stands beside a row of the board.
#[tactic(auto, unfolding(crate::specs::Staged::beside))]
fn put_beside(out: &mut Vec<Spot>, play: &Play, row: usize) -> Result<(), AllocError>
    requires { row < 25 }
    ensures { OnOk result (out.new.items ≡ out.old.items ++ beside play.now row) }
{
    for column in 60..80_usize {
        out.push(spot_at(play, row, column))?;
    }
    Ok(())
}

/// What is behind so many things, if there are as many.
fn behind<T>(things: &[T], count: usize) -> &[T]
    ensures { result.now ≡ drop count things.now }
{
    things.split_at(things.len().min(count)).1
}

/// As many of some things as there are, up to so many.
fn front_of<T>(things: &[T], most: usize) -> &[T]
    ensures { result.now ≡ take most things.now }
{
    things.split_at(things.len().min(most)).0
}

/// Appends what is shown of a row of the board, and of what stands beside it if this row is the first
/// that is shown.
#[tactic(auto, unfolding(crate::specs::Staged::stage_row))]
fn put_row(
    out: &mut Vec<u8>,
    alloc: Global,
    play: &Play,
    part: Part,
    row: usize,
) -> Result<(), AllocError>
    requires row { row < 25 }
    ensures { OnOk result (out.new.items ≡ out.old.items
        ++ coloured_row None (stage_row part.columns part.left part.first play.now row)) }
{
    let mut spots = Vec::from_slice(alloc, &draw_play_row(play, row))?;
    put_beside(&mut spots, play, row.saturating_sub(part.first))?;
    put_coloured_row(
        front_of(behind(spots.as_slice(), part.left), part.columns),
        out,
    )
}

/// Appends so many rows.
#[tactic(auto, unfolding(crate::specs::Staged::stage_rows))]
fn put_rows(
    out: &mut Vec<u8>,
    alloc: Global,
    play: &Play,
    part: Part,
    count: usize,
) -> Result<(), AllocError>
    requires rows { part.first + count ≤ 25 }
    ensures { OnOk result (out.new.items ≡ out.old.items
        ++ stage_rows part.columns part.left part.first count play.now) }
{
    for row in part.first..part.first + count {
        put_row(out, alloc, play, part, row)?;
    }
    Ok(())
}

/// How many rows of the board a terminal of so many rows shows.
fn rows_shown(rows: usize) -> usize
    ensures result { result ≡ rows_shown rows }
    ensures within { result ≤ 25 }
{
    if 27 <= rows {
        25
    } else if 3 <= rows {
        rows - 2
    } else {
        1
    }
}

/// How many columns a terminal has that tells so many.
fn columns_of(columns: usize) -> usize
    ensures { result ≡ columns_of columns }
{
    if columns == 0 { 80 } else { columns }
}

/// How many columns of a terminal show the board.
fn columns_shown(columns: usize) -> usize
    ensures result { result ≡ columns_shown columns }
    ensures within { result ≤ 60 }
{
    if 60 <= columns { 60 } else { columns }
}

/// The row of the player, counted from 0.
fn player_row(play: &Play) -> usize
    ensures { result ≡ player_row play.now }
{
    match play.board().stat(0) {
        Some(stat) => usize::from(stat.place.y).saturating_sub(1),
        None => 0,
    }
}

/// The column of the player, counted from 0.
fn player_column(play: &Play) -> usize
    ensures { result ≡ player_column play.now }
{
    match play.board().stat(0) {
        Some(stat) => usize::from(stat.place.x).saturating_sub(1),
        None => 0,
    }
}

/// The first of so many rows or columns that are shown of a whole, around one.
fn first_shown(whole: usize, count: usize, at: usize) -> usize
    requires { count ≤ whole }
    ensures result { result ≡ first_shown whole count at }
    ensures within { result + count ≤ whole }
{
    let before = count / 2;
    if at <= before {
        0
    } else if at - before <= whole - count {
        at - before
    } else {
        whole - count
    }
}

fn put_text(out: &mut Vec<u8>, text: &str) -> Result<(), AllocError>
    ensures { OnOk result (out.new.items ≡ out.old.items ++ text.now) }
{
    out.extend_from_slice(text.as_bytes())
}

#[tactic(auto, unfolding(crate::specs::Staged::line_end))]
fn put_line_end(out: &mut Vec<u8>) -> Result<(), AllocError>
    ensures { OnOk result (out.new.items ≡ out.old.items ++ line_end) }
{
    put_text(out, "\x1B[K\n")
}

fn put_message(out: &mut Vec<u8>, message: &[u8], columns: usize) -> Result<(), AllocError>
    ensures { OnOk result (out.new.items ≡ out.old.items ++ message_line columns message.now) }
{
    put_glyphs(front_of(message, columns), out)?;
    put_line_end(out)
}

/// The message of this number, counted from the oldest.
fn message_at(messages: &Messages, index: usize) -> &[u8]
    requires { index < length messages.now }
    ensures { slice_get messages.now index ≡ Some result.now }
{
    match messages.get(index) {
        Some(message) => message.as_slice(),
        None => &[],
    }
}

/// Appends the last message lines.
fn put_messages(
    out: &mut Vec<u8>,
    messages: &Messages,
    columns: usize,
    most: usize,
) -> Result<(), AllocError>
    ensures { OnOk result (out.new.items ≡ out.old.items
        ++ flat_map (message_line columns) (last_of most messages.now)) }
{
    let count = messages.len();
    for index in count.saturating_sub(most)..count {
        put_message(out, message_at(messages, index), columns)?;
    }
    Ok(())
}

/// What is told of a choice, if anything is.
fn answer_to(chosen: Chosen) -> Option<&'static [u8]>
    ensures { option_map (λ text. text.now) result ≡ answer_to chosen }
{
    match chosen {
        Chosen::Sent => None,
        Chosen::NoLabel => Some(b"no program that this reaches has its label"),
        Chosen::Gone => Some(b"the one who said this is gone"),
        Chosen::NoFile => Some(b"this leads to a file, and there is none"),
        Chosen::NoChoice => Some(b"there is no such choice"),
    }
}

/// What is told below the messages, if anything is.
fn told(said: Option<Chosen>) -> Option<&'static [u8]>
    ensures { option_map (λ text. text.now) result ≡ told said }
{
    match said {
        Some(chosen) => answer_to(chosen),
        None => None,
    }
}

/// Appends the last of the message lines, and behind them what is told of a choice.
fn put_told(
    out: &mut Vec<u8>,
    messages: &Messages,
    said: Option<Chosen>,
    columns: usize,
    most: usize,
) -> Result<(), AllocError>
    ensures { OnOk result (out.new.items ≡ out.old.items
        ++ told_lines columns most messages.now said) }
{
    match told(said) {
        Some(text) if 0 < most => {
            put_messages(out, messages, columns, most - 1)?;
            put_message(out, text, columns)
        }
        _ => put_messages(out, messages, columns, most),
    }
}

/// How keys are typed where a scroll is open, or none is.
fn keys_told(shown: Option<Shown>) -> &'static [u8]
    ensures { result.now ≡ keys_told shown }
{
    match shown {
        Some(_) => b"arrows move, Enter chooses, Escape closes, q ends",
        None => b"arrows move, shift or w a s d shoot, space waits, q ends",
    }
}

#[tactic(auto, unfolding(crate::specs::Staged::help))]
fn put_help(out: &mut Vec<u8>, shown: Option<Shown>, columns: usize) -> Result<(), AllocError>
    ensures { OnOk result (out.new.items ≡ out.old.items ++ help shown columns) }
{
    out.extend_from_slice(front_of(keys_told(shown), columns))?;
    put_text(out, "\x1B[J")
}

/// Appends the rows of a board and what stands below them.
#[tactic(auto, unfolding(crate::specs::Staged::stage_text))]
fn put_stage(
    text: &mut Vec<u8>,
    alloc: Global,
    play: &Play,
    shown: Option<Shown>,
    said: Option<Chosen>,
    size: Size,
) -> Result<(), AllocError>
    ensures { OnOk result (text.new.items ≡ text.old.items ++ stage_text size shown said play.now) }
{
    let rows = usize::from(size.rows);
    let columns = columns_of(usize::from(size.columns));
    let count = rows_shown(rows);
    let part = Part {
        first: first_shown(25, count, player_row(play)),
        left: first_shown(60, columns_shown(columns), player_column(play)),
        columns,
    };
    put_text(text, "\x1B[H")?;
    put_rows(text, alloc, play, part, count)?;
    put_told(
        text,
        play.messages(),
        said,
        columns,
        rows.saturating_sub(1).saturating_sub(count),
    )?;
    put_help(text, shown, columns)
}

/// Appends the scroll that is open, if one is.
fn put_open(
    text: &mut Vec<u8>,
    play: &Play,
    shown: Option<Shown>,
    size: Size,
) -> Result<(), AllocError>
    ensures { OnOk result (text.new.items ≡ text.old.items ++ open_text size shown play.now) }
{
    let Some(shown) = shown else {
        return Ok(());
    };
    match play.scrolls().get(shown.scroll) {
        Some(scroll) => put_scroll(
            text,
            scroll,
            shown.line,
            usize::from(size.rows),
            columns_of(usize::from(size.columns)),
        ),
        None => Ok(()),
    }
}

/// The picture of a playtest in place, for a terminal of its size: from the upper left place the rows
/// and columns around the player, all if there is room, then the last messages, how keys are typed,
/// and nothing behind that; and over it the scroll that is open. Only want of memory refuses it.
pub fn staged(alloc: Global, tape: &Tape) -> Result<Vec<u8>, AllocError>
    ensures { IfOk result (λ text. text.items ≡ picture (point tape.now)) }
{
    let play = tape.seen();
    let shown = tape.overlay.shown;
    let mut text = Vec::new(alloc);
    put_stage(&mut text, alloc, play, shown, tape.overlay.said, tape.size)?;
    put_open(&mut text, play, shown, tape.size)?;
    Ok(text)
}
