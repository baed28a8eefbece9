//! Fields of a world file, read.
ghost use Rattle.std.specs.Prelude.{◌≡◌, ◌+◌, ◌<◌, ◌≤◌, length, IfOk};
ghost use Rattle.zed_world.specs.Fields.{integer_at, flag_at, string_at, board_number, board_integer, stat_integer};

use byteorder::{ByteOrder, LittleEndian};
use std::alloc::{AllocError, Global};
use zed_types::Bytes;

#[tactic(auto, using(std::proofs::lemmas::List::take_rest), unfolding(crate::specs::Fields::integer_at))]
pub(crate) fn integer_of(bytes: &[u8], at: usize) -> i16
    requires { at + 2 ≤ length bytes.now }
    ensures { result ≡ integer_at bytes.now at }
{
    LittleEndian::read_i16(&bytes[at..])
}

pub(crate) fn flag_of(bytes: &[u8], at: usize) -> bool
    requires { at < length bytes.now }
    ensures { result ≡ flag_at bytes.now at }
{
    0 < bytes[at]
}

/// The bytes after a length byte, up to the size of the field.
#[tactic(auto, unfolding(crate::specs::Fields::string_at))]
pub(crate) fn string_of(
    alloc: Global,
    field: usize,
    bytes: &[u8],
    at: usize,
) -> Result<Bytes, AllocError>
    requires { at + field < length bytes.now }
    ensures { IfOk result (λ text. text ≡ string_at field bytes.now at) }
{
    let len = field.min(usize::from(bytes[at]));
    let text = &bytes[at + 1..at + 1 + len];
    Bytes::from_slice(alloc, text)
}

pub(crate) fn board_number(boards: usize, n: u8) -> u8
    ensures { result ≡ board_number boards n }
{
    if usize::from(n) < boards { n } else { 0 }
}

pub(crate) fn board_integer(boards: usize, n: i16) -> u8
    requires { boards ≤ 101 }
    ensures { result ≡ board_integer boards n }
{
    if 0 <= n && (n as usize) < boards {
        n as u8
    } else {
        0
    }
}

pub(crate) fn stat_integer(stats: usize, n: i16) -> Option<u8>
    requires { stats ≤ 151 }
    ensures { result ≡ stat_integer stats n }
{
    if 0 <= n && (n as usize) < stats {
        Some(n as u8)
    } else {
        None
    }
}
