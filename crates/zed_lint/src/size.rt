//! How many bytes a board and a world take in a file, counted without writing them.
ghost use Rattle.std.specs.List.{AllByRecursion, flat_map};
ghost use Rattle.std.specs.Prelude.{◌≡◌, ◌≤◌, ◌*◌, length};
ghost use Rattle.zed_world.specs.Normal.{IsWritable};
ghost use Rattle.zed_world.specs.Writing.{board_text, world_text};

use zed_world::{BoardData, World, body_len};

/// The bytes of a world before its boards.
const HEADER: usize = 512;

/// The bytes of a board before its body, which say how long the body is.
const SIZE: usize = 2;

// How many bytes boards take with their sizes.
fn boards_len(boards: &[BoardData]) -> usize
    requires few { length boards.now ≤ 101 }
    requires writable { AllByRecursion IsWritable boards.now }
    ensures result { result ≡ length (flat_map board_text boards.now) }
    ensures within { result ≤ 4957441 * 101 }
{
    let mut bytes = 0;
    for board in boards {
        bytes += SIZE + body_len(board);
    }
    bytes
}

/// How many bytes the file of a world takes.
#[tactic(auto, using(crate::proofs::Fits::writable, crate::proofs::Fits::file_length))]
pub(crate) fn file_len(world: &World) -> usize
    ensures { result ≡ length (world_text world.now) }
{
    HEADER + boards_len(world.boards())
}
