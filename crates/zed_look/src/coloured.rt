//! Pictures as text with colours, for a terminal.
ghost use Rattle.std.specs.Prelude.{◌≡◌, ◌++◌, None, OnErr, OnOk};
ghost use Rattle.std.specs.List.{flat_map};
ghost use Rattle.zed_look.specs.Coloured.{change, coloured_row, coloured_text, ink_code, sgr};

use crate::colours::{blinks, hue, ink, paper};
use crate::glyphs::put_glyph;
use crate::look::{Picture, Spot};
use crate::parts::{put_number, put_text};
use std::alloc::AllocError;
use zed_types::COLUMNS;

/// What a terminal calls the colour of a character.
fn ink_code(colour: u8) -> u8
    ensures { result ≡ ink_code colour }
{
    if colour < 8 {
        30 + hue(colour)
    } else {
        90 + hue(colour - 8)
    }
}

#[tactic(auto, unfolding(crate::specs::Coloured::sgr))]
fn put_sgr(out: &mut Vec<u8>, attribute: u8) -> Result<(), AllocError>
    ensures { OnOk result (out.new.items ≡ out.old.items ++ sgr attribute) }
{
    put_text(out, "\x1B[0;")?;
    if blinks(attribute) {
        put_text(out, "5;")?;
    }
    put_number(out, u32::from(ink_code(ink(attribute))))?;
    put_text(out, ";")?;
    put_number(out, u32::from(40 + hue(paper(attribute))))?;
    put_text(out, "m")
}

/// Appends what changes the colours, if they change.
fn put_change(out: &mut Vec<u8>, before: Option<u8>, attribute: u8) -> Result<(), AllocError>
    ensures { OnOk result (out.new.items ≡ out.old.items ++ change before attribute) }
{
    match before {
        Some(before) if before == attribute => Ok(()),
        _ => put_sgr(out, attribute),
    }
}

fn put_row(out: &mut Vec<u8>, row: &[Spot]) -> Result<(), AllocError>
    ensures { OnOk result (out.new.items ≡ out.old.items ++ coloured_row None row.now) }
{
    let mut before = None;
    for spot in row {
        put_change(out, before, spot.attribute)?;
        put_glyph(out, spot.character)?;
        before = Some(spot.attribute);
    }
    put_text(out, "\x1B[0m\n")
}

fn put_rows(out: &mut Vec<u8>, rows: &[[Spot; COLUMNS]]) -> Result<(), AllocError>
    ensures { OnOk result (out.new.items ≡ out.old.items ++ flat_map (coloured_row None) rows.now) }
{
    for row in rows {
        put_row(out, row)?;
    }
    Ok(())
}

/// Appends a row of any number of places as a line. If memory runs out, a part of it may be
/// appended.
pub fn put_coloured_row(row: &[Spot], out: &mut Vec<u8>) -> Result<(), AllocError>
    ensures { OnOk result (out.new.items ≡ out.old.items ++ coloured_row None row.now) }
{
    put_row(out, row)
}

/// Appends a picture as 25 lines of 60 characters in UTF-8, with the codes by which a terminal
/// shows the colours. The only refusal is want of memory; then nothing is appended.
pub fn put_coloured(picture: &Picture, out: &mut Vec<u8>) -> Result<(), AllocError>
    ensures ok { OnOk result (out.new.items ≡ out.old.items ++ coloured_text picture.now) }
    ensures kept { OnErr result (out.new.items ≡ out.old.items) }
{
    let mut text = Vec::new(*out.allocator());
    put_rows(&mut text, &picture.rows)?;
    out.extend_from_slice(&text)
}
