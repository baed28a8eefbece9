//! Writing names and places.
ghost use Rattle.std.specs.Prelude.{◌≡◌, ◌++◌, OnOk};
ghost use Rattle.zed_log.specs.Fields.{name, optional, place, range, rectangle, stamp, third_parameter, tile};

use crate::put::{put_colour, put_element, put_number, put_text};
use std::alloc::AllocError;
use zed_types::{ByteRange, Name, Rectangle, Stamp, ThirdParameter, Tile};

#[tactic(auto, unfolding(crate::specs::Fields::stamp))]
fn put_stamp(out: &mut Vec<u8>, made: Stamp) -> Result<(), AllocError>
    ensures { OnOk result (out.new.items ≡ out.old.items ++ stamp made) }
{
    put_number(out, made.time)?;
    put_text(out, ".")?;
    put_number(out, u64::from(made.replica))
}

#[tactic(auto, unfolding(crate::specs::Fields::name))]
pub(crate) fn put_name(out: &mut Vec<u8>, made: Name) -> Result<(), AllocError>
    ensures { OnOk result (out.new.items ≡ out.old.items ++ name made) }
{
    put_stamp(out, made.stamp)?;
    put_text(out, ":")?;
    put_number(out, u64::from(made.index))
}

/// Appends a name, or `none`.
pub(crate) fn put_optional(out: &mut Vec<u8>, made: Option<Name>) -> Result<(), AllocError>
    ensures { OnOk result (out.new.items ≡ out.old.items ++ optional name made) }
{
    match made {
        None => put_text(out, "none"),
        Some(made) => put_name(out, made),
    }
}

#[tactic(auto, unfolding(crate::specs::Fields::tile))]
pub(crate) fn put_tile(out: &mut Vec<u8>, t: Tile) -> Result<(), AllocError>
    ensures { OnOk result (out.new.items ≡ out.old.items ++ tile t) }
{
    put_element(out, t.element)?;
    put_text(out, " ")?;
    put_colour(out, t.colour)
}

/// Appends a place: its column and its row.
#[tactic(auto, unfolding(crate::specs::Fields::place))]
pub fn put_place(out: &mut Vec<u8>, x: u8, y: u8) -> Result<(), AllocError>
    ensures { OnOk result (out.new.items ≡ out.old.items ++ place x y) }
{
    put_text(out, "(")?;
    put_number(out, u64::from(x))?;
    put_text(out, ",")?;
    put_number(out, u64::from(y))?;
    put_text(out, ")")
}

#[tactic(auto, unfolding(crate::specs::Fields::rectangle))]
pub(crate) fn put_rectangle(out: &mut Vec<u8>, cells: Rectangle) -> Result<(), AllocError>
    ensures { OnOk result (out.new.items ≡ out.old.items ++ rectangle cells) }
{
    put_place(out, cells.left, cells.top)?;
    put_text(out, "-")?;
    put_place(out, cells.right, cells.bottom)
}

#[tactic(auto, unfolding(crate::specs::Fields::range))]
pub(crate) fn put_range(out: &mut Vec<u8>, bytes: ByteRange) -> Result<(), AllocError>
    ensures { OnOk result (out.new.items ≡ out.old.items ++ range bytes) }
{
    put_stamp(out, bytes.stamp)?;
    put_text(out, ":")?;
    put_number(out, u64::from(bytes.first))?;
    put_text(out, "-")?;
    put_number(out, u64::from(bytes.last))
}

#[tactic(auto, unfolding(crate::specs::Fields::third_parameter))]
pub(crate) fn put_third_parameter(
    out: &mut Vec<u8>,
    parameter: ThirdParameter,
) -> Result<(), AllocError>
    ensures { OnOk result (out.new.items ≡ out.old.items ++ third_parameter parameter) }
{
    match parameter {
        ThirdParameter::Byte(byte) => put_number(out, u64::from(byte)),
        ThirdParameter::Board(board) => {
            put_text(out, "board ")?;
            put_name(out, board.name)
        }
    }
}
