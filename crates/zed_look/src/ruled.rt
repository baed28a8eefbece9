//! Pictures as text without colour, with the numbers of columns and rows at the edges.
ghost use Rattle.std.specs.Prelude.{◌≡◌, ◌++◌, OnErr, OnOk};
ghost use Rattle.zed_look.specs.Plain.{plain_row};
ghost use Rattle.zed_look.specs.Ruled.{last_digits, row_number, ruled_rows, ruled_text, tens};

use crate::look::{Picture, Spot};
use crate::parts::{put_ended, put_number, put_text};
use crate::plain::put_row;
use std::alloc::AllocError;
use zed_types::{COLUMNS, ROWS};

#[tactic(auto, unfolding(crate::specs::Ruled::tens))]
fn put_tens(out: &mut Vec<u8>) -> Result<(), AllocError>
    ensures { OnOk result (out.new.items ≡ out.old.items ++ tens) }
{
    put_ended(
        out,
        "            1         2         3         4         5         6",
    )
}

#[tactic(auto, unfolding(crate::specs::Ruled::last_digits))]
fn put_last_digits(out: &mut Vec<u8>) -> Result<(), AllocError>
    ensures { OnOk result (out.new.items ≡ out.old.items ++ last_digits) }
{
    put_ended(
        out,
        "   123456789012345678901234567890123456789012345678901234567890",
    )
}

/// Appends the number of a row in two places, and a blank.
#[tactic(auto, unfolding(crate::specs::Ruled::row_number))]
fn put_row_number(out: &mut Vec<u8>, row: u32) -> Result<(), AllocError>
    ensures { OnOk result (out.new.items ≡ out.old.items ++ row_number row) }
{
    if row < 10 {
        put_text(out, " ")?;
    }
    put_number(out, row)?;
    put_text(out, " ")
}

fn put_ruled_row(out: &mut Vec<u8>, row: u32, spots: &[Spot]) -> Result<(), AllocError>
    ensures { OnOk result (out.new.items ≡ out.old.items ++ (row_number row ++ plain_row spots.now)) }
{
    put_row_number(out, row)?;
    put_row(out, spots)
}

fn put_rows(out: &mut Vec<u8>, rows: &[[Spot; COLUMNS]; ROWS]) -> Result<(), AllocError>
    ensures { OnOk result (out.new.items ≡ out.old.items ++ ruled_rows 1 rows.now) }
{
    let mut row = 1;
    for spots in rows {
        put_ruled_row(out, row, spots)?;
        row += 1;
    }
    Ok(())
}

#[tactic(auto, unfolding(crate::specs::Ruled::ruled_text))]
fn put_all(out: &mut Vec<u8>, picture: &Picture) -> Result<(), AllocError>
    ensures { OnOk result (out.new.items ≡ out.old.items ++ ruled_text picture.now) }
{
    put_tens(out)?;
    put_last_digits(out)?;
    put_rows(out, &picture.rows)
}

/// Appends a picture as 27 lines in UTF-8: the tens and the last digits of the columns, and 25 rows
/// of 60 characters, each behind its number. The only refusal is want of memory; then nothing is
/// appended.
pub fn put_ruled(picture: &Picture, out: &mut Vec<u8>) -> Result<(), AllocError>
    ensures ok { OnOk result (out.new.items ≡ out.old.items ++ ruled_text picture.now) }
    ensures kept { OnErr result (out.new.items ≡ out.old.items) }
{
    let mut text = Vec::new(*out.allocator());
    put_all(&mut text, picture)?;
    out.extend_from_slice(&text)
}
