//! Pictures as SVG.
ghost use Rattle.std.specs.Prelude.{◌≡◌, ◌+◌, ◌++◌, ◌<◌, ◌≤◌, OnErr, OnOk, length};
ghost use Rattle.zed_look.specs.Parts.{ended};
ghost use Rattle.zed_look.specs.Svg.{attribute, back, content, copies, escaped, fill, is_blank, is_same, rectangle, span, spans_from, start, svg_row, svg_rows, svg_text, words};

use crate::colours::{ink, paper, rgb};
use crate::glyphs::put_glyph;
use crate::look::{Picture, Spot};
use crate::parts::{put_ended, put_number, put_text};
use std::alloc::AllocError;
use zed_types::{COLUMNS, ROWS};

/// The colour behind a place: a solid wall fills it with its own.
fn back(spot: Spot) -> u8
    ensures { result ≡ back spot }
{
    if spot.character == 219 {
        ink(spot.attribute)
    } else {
        paper(spot.attribute)
    }
}

/// Whether a character shows only what is behind it.
fn is_blank(character: u8) -> bool
    ensures { result ≡ is_blank character }
{
    character == 0 || character == 32 || character == 219 || character == 255
}

fn is_same(spot: Spot, other: Spot) -> bool
    ensures { result ≡ is_same spot other }
{
    spot.character == other.character && spot.attribute == other.attribute
}

/// Appends a character of a text, of which three are spelled out.
fn put_escaped(out: &mut Vec<u8>, character: u8) -> Result<(), AllocError>
    ensures { OnOk result (out.new.items ≡ out.old.items ++ escaped character) }
{
    match character {
        b'&' => put_text(out, "&amp;"),
        b'<' => put_text(out, "&lt;"),
        b'>' => put_text(out, "&gt;"),
        _ => put_glyph(out, character),
    }
}

fn put_copies(out: &mut Vec<u8>, count: u32, character: u8) -> Result<(), AllocError>
    ensures { OnOk result (out.new.items ≡ out.old.items ++ copies count (escaped character)) }
{
    for done in 0..count {
        put_escaped(out, character)?;
    }
    Ok(())
}

#[tactic(auto, unfolding(crate::specs::Svg::attribute))]
fn put_attribute(out: &mut Vec<u8>, name: &str, n: u32) -> Result<(), AllocError>
    ensures { OnOk result (out.new.items ≡ out.old.items ++ attribute name.now n) }
{
    put_text(out, " ")?;
    put_text(out, name)?;
    put_text(out, "='")?;
    put_number(out, n)?;
    put_text(out, "'")
}

#[tactic(auto, unfolding(crate::specs::Svg::fill))]
fn put_fill(out: &mut Vec<u8>, colour: u8) -> Result<(), AllocError>
    ensures { OnOk result (out.new.items ≡ out.old.items ++ fill colour) }
{
    put_text(out, " fill='")?;
    put_text(out, rgb(colour))?;
    put_text(out, "'")
}

#[tactic(auto, unfolding(crate::specs::Svg::start))]
fn put_start(out: &mut Vec<u8>, name: &str, x: u32, y: u32) -> Result<(), AllocError>
    ensures { OnOk result (out.new.items ≡ out.old.items ++ start name.now x y) }
{
    put_text(out, "<")?;
    put_text(out, name)?;
    put_attribute(out, "x", x)?;
    put_attribute(out, "y", y)
}

#[tactic(auto, unfolding(crate::specs::Svg::rectangle))]
fn put_rectangle(
    out: &mut Vec<u8>,
    row: u32,
    column: u32,
    count: u32,
    colour: u8,
) -> Result<(), AllocError>
    requires places { (row < 25) × (column + count ≤ 60) }
    ensures { OnOk result (out.new.items ≡ out.old.items ++ rectangle row column count colour) }
{
    put_start(out, "rect height='14'", 8 * column, 14 * row)?;
    put_attribute(out, "width", 8 * count)?;
    put_fill(out, colour)?;
    put_ended(out, "/>")
}

#[tactic(auto, unfolding(crate::specs::Svg::content))]
fn put_content(out: &mut Vec<u8>, count: u32, character: u8) -> Result<(), AllocError>
    ensures { OnOk result (out.new.items ≡ out.old.items ++ content (copies count (escaped character))) }
{
    put_text(out, ">")?;
    put_copies(out, count, character)?;
    put_ended(out, "</text>")
}

#[tactic(auto, unfolding(crate::specs::Svg::words))]
fn put_words(
    out: &mut Vec<u8>,
    row: u32,
    column: u32,
    count: u32,
    spot: Spot,
) -> Result<(), AllocError>
    requires places { (row < 25) × (column + count ≤ 60) }
    ensures { OnOk result (out.new.items ≡ out.old.items ++ words row column count spot) }
{
    put_start(
        out,
        "text lengthAdjust='spacingAndGlyphs'",
        8 * column,
        14 * row + 11,
    )?;
    put_attribute(out, "textLength", 8 * count)?;
    put_fill(out, ink(spot.attribute))?;
    put_content(out, count, spot.character)
}

/// Appends as many places of a row from a column on, which look alike.
fn put_span(
    out: &mut Vec<u8>,
    row: u32,
    column: u32,
    count: u32,
    spot: Spot,
) -> Result<(), AllocError>
    requires places { (row < 25) × (column + count ≤ 60) }
    ensures { OnOk result (out.new.items ≡ out.old.items ++ span row column count spot) }
{
    if back(spot) != 0 {
        put_rectangle(out, row, column, count, back(spot))?;
    }
    if !is_blank(spot.character) {
        put_words(out, row, column, count, spot)?;
    }
    Ok(())
}

/// Appends the places of a row behind its first.
fn put_rest(out: &mut Vec<u8>, row: u32, first: Spot, rest: &[Spot]) -> Result<(), AllocError>
    requires row { row < 25 }
    requires rest { length rest.now ≤ 59 }
    ensures { OnOk result (out.new.items ≡ out.old.items ++ spans_from row 0 1 first rest.now) }
{
    let mut column = 0;
    let mut count = 1;
    let mut current = first;
    for spot in rest {
        if is_same(current, *spot) {
            count += 1;
        } else {
            put_span(out, row, column, count, current)?;
            column += count;
            count = 1;
            current = *spot;
        }
    }
    put_span(out, row, column, count, current)
}

fn put_row(out: &mut Vec<u8>, row: u32, spots: &[Spot]) -> Result<(), AllocError>
    requires row { row < 25 }
    requires spots { length spots.now ≤ 60 }
    ensures { OnOk result (out.new.items ≡ out.old.items ++ svg_row row spots.now) }
{
    match spots.split_first() {
        None => Ok(()),
        Some((first, rest)) => put_rest(out, row, *first, rest),
    }
}

fn put_rows(out: &mut Vec<u8>, rows: &[[Spot; COLUMNS]; ROWS]) -> Result<(), AllocError>
    ensures { OnOk result (out.new.items ≡ out.old.items ++ svg_rows 0 rows.now) }
{
    let mut row = 0;
    for spots in rows {
        put_row(out, row, spots)?;
        row += 1;
    }
    Ok(())
}

#[tactic(auto, unfolding(crate::specs::Svg::svg_text))]
fn put_all(out: &mut Vec<u8>, rows: &[[Spot; COLUMNS]; ROWS]) -> Result<(), AllocError>
    ensures { OnOk result (out.new.items ≡ out.old.items ++ svg_text rows.now) }
{
    put_ended(
        out,
        "<svg xmlns='http://www.w3.org/2000/svg' viewBox='0 0 480 350' font-family='monospace' font-size='12' shape-rendering='crispEdges'>",
    )?;
    put_ended(out, "<rect width='480' height='350'/>")?;
    put_rows(out, rows)?;
    put_ended(out, "</svg>")
}

/// Appends a picture as an SVG file of 480 by 350 units, 8 by 14 for each place. The only refusal
/// is want of memory; then nothing is appended.
pub fn put_svg(picture: &Picture, out: &mut Vec<u8>) -> Result<(), AllocError>
    ensures ok { OnOk result (out.new.items ≡ out.old.items ++ svg_text picture.now.rows) }
    ensures kept { OnErr result (out.new.items ≡ out.old.items) }
{
    let mut text = Vec::new(*out.allocator());
    put_all(&mut text, &picture.rows)?;
    out.extend_from_slice(&text)
}
