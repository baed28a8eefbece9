//! Writing the kinds of fields into a vector that has room for them.
ghost use Rattle.std.specs.Prelude.{◌<◌, [], ◌∷◌, length};
ghost use Rattle.zed_editfile.specs.Room.{HasRoom, Appends};
ghost use Rattle.zed_editfile.specs.Spelling.{number, integer, boolean, string, stamp, name, optional, tile, rectangle, third_parameter};

use byteorder::{ByteOrder, LittleEndian};
use zed_types::{Bytes, Name, Rectangle, Stamp, ThirdParameter, Tile};

/// Appends bytes.
pub(crate) fn put_bytes(out: &mut Vec<u8>, bytes: &[u8])
    requires { HasRoom bytes.now out.old }
    ensures { Appends bytes.now out.old out.new }
{
    out.extend_from_slice(bytes).unwrap();
}

pub(crate) fn put_u8(out: &mut Vec<u8>, n: u8)
    requires { HasRoom (n ∷ []) out.old }
    ensures { Appends (n ∷ []) out.old out.new }
{
    put_bytes(out, &[n]);
}

#[tactic(auto, unfolding(crate::specs::Spelling::number))]
pub(crate) fn put_u16(out: &mut Vec<u8>, n: u16)
    requires { HasRoom (number 2 n) out.old }
    ensures { Appends (number 2 n) out.old out.new }
{
    let mut bytes = [0; 2];
    LittleEndian::write_u16(&mut bytes, n);
    put_bytes(out, &bytes);
}

#[tactic(auto, unfolding(crate::specs::Spelling::number))]
pub(crate) fn put_u32(out: &mut Vec<u8>, n: u32)
    requires { HasRoom (number 4 n) out.old }
    ensures { Appends (number 4 n) out.old out.new }
{
    let mut bytes = [0; 4];
    LittleEndian::write_u32(&mut bytes, n);
    put_bytes(out, &bytes);
}

/// Appends the lowest six bytes of a time: a time that fits has no others.
#[tactic(auto, unfolding(crate::specs::Spelling::number))]
fn put_time(out: &mut Vec<u8>, time: u64)
    requires { HasRoom (number 6 time) out.old }
    ensures { Appends (number 6 time) out.old out.new }
{
    let mut bytes = [0; 8];
    LittleEndian::write_u64(&mut bytes, time);
    put_bytes(out, &bytes[..6]);
}

#[tactic(auto, unfolding(crate::specs::Spelling::number))]
pub(crate) fn put_integer(out: &mut Vec<u8>, n: i16)
    requires { HasRoom (integer n) out.old }
    ensures { Appends (integer n) out.old out.new }
{
    let mut bytes = [0; 2];
    LittleEndian::write_i16(&mut bytes, n);
    put_bytes(out, &bytes);
}

pub(crate) fn put_boolean(out: &mut Vec<u8>, set: bool)
    requires { HasRoom (boolean set) out.old }
    ensures { Appends (boolean set) out.old out.new }
{
    put_u8(out, u8::from(set));
}

/// Appends a length byte and the bytes.
pub(crate) fn put_string(out: &mut Vec<u8>, text: &Bytes)
    requires short { length text.now < 256 }
    requires room { HasRoom (string text.now) out.old }
    ensures { Appends (string text.now) out.old out.new }
{
    let bytes = text.as_slice();
    put_u8(out, bytes.len() as u8);
    put_bytes(out, bytes);
}

pub(crate) fn put_stamp(out: &mut Vec<u8>, made: Stamp)
    requires { HasRoom (stamp made) out.old }
    ensures { Appends (stamp made) out.old out.new }
{
    put_time(out, made.time);
    put_u16(out, made.replica);
}

#[tactic(auto, unfolding(crate::specs::Spelling::name))]
pub(crate) fn put_name(out: &mut Vec<u8>, made: Name)
    requires { HasRoom (name made) out.old }
    ensures { Appends (name made) out.old out.new }
{
    put_stamp(out, made.stamp);
    put_u32(out, made.index);
}

/// Appends a tag, and the name where there is one.
pub(crate) fn put_optional(out: &mut Vec<u8>, made: Option<Name>)
    requires { HasRoom (optional name made) out.old }
    ensures { Appends (optional name made) out.old out.new }
{
    match made {
        None => put_boolean(out, false),
        Some(made) => {
            put_boolean(out, true);
            put_name(out, made);
        }
    }
}

pub(crate) fn put_tile(out: &mut Vec<u8>, t: Tile)
    requires { HasRoom (tile t) out.old }
    ensures { Appends (tile t) out.old out.new }
{
    put_bytes(out, &[t.element, t.colour]);
}

pub(crate) fn put_rectangle(out: &mut Vec<u8>, cells: Rectangle)
    requires { HasRoom (rectangle cells) out.old }
    ensures { Appends (rectangle cells) out.old out.new }
{
    put_bytes(out, &[cells.left, cells.top, cells.right, cells.bottom]);
}

pub(crate) fn put_third_parameter(out: &mut Vec<u8>, parameter: ThirdParameter)
    requires { HasRoom (third_parameter parameter) out.old }
    ensures { Appends (third_parameter parameter) out.old out.new }
{
    match parameter {
        ThirdParameter::Byte(byte) => put_bytes(out, &[0, byte]),
        ThirdParameter::Board(board) => {
            put_boolean(out, true);
            put_name(out, board.name);
        }
    }
}
