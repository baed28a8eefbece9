//! The blocks of a world file that have a fixed length.
ghost use Rattle.std.specs.Prelude.{◌≡◌, ◌+◌, ◌<◌, ◌≤◌, length, IfOk};
ghost use Rattle.zed_world.specs.Offsets.{keys_at, flags_at, header_at, properties_at};

use crate::board::Properties;
use crate::fields::{board_integer, board_number, flag_of, integer_of, string_of};
use crate::header::Header;
use std::alloc::{AllocError, Global};
use zed_types::{Bytes, Seq};

fn keys_of(bytes: &[u8]) -> [bool; 7]
    requires { 512 ≤ length bytes.now }
    ensures { result ≡ keys_at bytes.now }
{
    [
        flag_of(bytes, 8),
        flag_of(bytes, 9),
        flag_of(bytes, 10),
        flag_of(bytes, 11),
        flag_of(bytes, 12),
        flag_of(bytes, 13),
        flag_of(bytes, 14),
    ]
}

fn flags_of(alloc: Global, bytes: &[u8]) -> Result<Seq<Bytes>, AllocError>
    requires { 512 ≤ length bytes.now }
    ensures { IfOk result (λ flags. flags ≡ flags_at 10 bytes.now) }
{
    let mut flags = Vec::new(alloc);
    for n in 0..10 {
        flags.push(string_of(alloc, 20, bytes, 50 + 21 * n)?)?;
    }
    Ok(Seq::from_vec(flags))
}

#[tactic(auto, unfolding(crate::specs::Offsets::header_at))]
pub(crate) fn header_of(alloc: Global, boards: usize, bytes: &[u8]) -> Result<Header, AllocError>
    requires long { 512 ≤ length bytes.now }
    requires boards { boards ≤ 101 }
    ensures { IfOk result (λ header. header ≡ header_at boards bytes.now) }
{
    Ok(Header {
        ammo: integer_of(bytes, 4),
        gems: integer_of(bytes, 6),
        keys: keys_of(bytes),
        health: integer_of(bytes, 15),
        current_board: board_integer(boards, integer_of(bytes, 17)),
        torches: integer_of(bytes, 19),
        torch_ticks: integer_of(bytes, 21),
        energizer_ticks: integer_of(bytes, 23),
        score: integer_of(bytes, 27),
        name: string_of(alloc, 20, bytes, 29)?,
        flags: flags_of(alloc, bytes)?,
        time_passed: integer_of(bytes, 260),
        hundredths: integer_of(bytes, 262),
        saved: flag_of(bytes, 264),
    })
}

#[tactic(auto, unfolding(crate::specs::Offsets::properties_at))]
pub(crate) fn properties_of(
    alloc: Global,
    boards: usize,
    bytes: &[u8],
) -> Result<Properties, AllocError>
    requires { 86 ≤ length bytes.now }
    ensures { IfOk result (λ properties. properties ≡ properties_at boards bytes.now) }
{
    Ok(Properties {
        max_shots: bytes[0],
        dark: flag_of(bytes, 1),
        north: board_number(boards, bytes[2]),
        south: board_number(boards, bytes[3]),
        west: board_number(boards, bytes[4]),
        east: board_number(boards, bytes[5]),
        re_enter: flag_of(bytes, 6),
        message: string_of(alloc, 58, bytes, 7)?,
        start_x: bytes[66],
        start_y: bytes[67],
        time_limit: integer_of(bytes, 68),
    })
}
