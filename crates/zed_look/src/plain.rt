//! Pictures as text without colour.
ghost use Rattle.std.specs.Prelude.{◌≡◌, ◌++◌, OnErr, OnOk};
ghost use Rattle.zed_look.specs.Plain.{characters_of, plain_row, plain_text};
ghost use Rattle.std.specs.List.{flat_map};

use crate::glyphs::put_glyph;
use crate::look::{Picture, Spot};
use crate::parts::put_text;
use std::alloc::AllocError;
use zed_types::COLUMNS;

fn put_characters(out: &mut Vec<u8>, row: &[Spot]) -> Result<(), AllocError>
    ensures { OnOk result (out.new.items ≡ out.old.items ++ characters_of row.now) }
{
    for spot in row {
        put_glyph(out, spot.character)?;
    }
    Ok(())
}

pub(crate) fn put_row(out: &mut Vec<u8>, row: &[Spot]) -> Result<(), AllocError>
    ensures { OnOk result (out.new.items ≡ out.old.items ++ plain_row row.now) }
{
    put_characters(out, row)?;
    put_text(out, "\n")
}

fn put_rows(out: &mut Vec<u8>, rows: &[[Spot; COLUMNS]]) -> Result<(), AllocError>
    ensures { OnOk result (out.new.items ≡ out.old.items ++ flat_map plain_row rows.now) }
{
    for row in rows {
        put_row(out, row)?;
    }
    Ok(())
}

/// Appends a picture as 25 lines of 60 characters in UTF-8. The only refusal is want of memory;
/// then nothing is appended.
pub fn put_plain(picture: &Picture, out: &mut Vec<u8>) -> Result<(), AllocError>
    ensures ok { OnOk result (out.new.items ≡ out.old.items ++ plain_text picture.now) }
    ensures kept { OnErr result (out.new.items ≡ out.old.items) }
{
    let mut text = Vec::new(*out.allocator());
    put_rows(&mut text, &picture.rows)?;
    out.extend_from_slice(&text)
}
