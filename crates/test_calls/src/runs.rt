//! Runs at their bounds, and each growth refused.
use crate::growths::{refuse_each, turn_of};
use std::alloc::Global;
use test_rows::{Turn, refuse, was_refused};
use zed_runs::{RunsError, read_runs, write_runs};
use zed_types::{TILES, Tile};

/// The tile where nothing stands.
const EMPTY: Tile = Tile {
    element: 0,
    colour: 0,
};

/// The player at (30,12), and water at (5,5).
const PLAYER: (usize, Tile) = (
    11 * 60 + 29,
    Tile {
        element: 4,
        colour: 0x1f,
    },
);

const WATER: (usize, Tile) = (
    4 * 60 + 4,
    Tile {
        element: 19,
        colour: 0x9f,
    },
);

/// What stands on a board that is empty otherwise, and the runs of its tiles.
const BOARDS: [(&[(usize, Tile)], &[u8]); 3] = [
    (&[], b"\xff\0\0\xff\0\0\xff\0\0\xff\0\0\xff\0\0\xe1\0\0"),
    (
        &[PLAYER],
        b"\xff\0\0\xff\0\0\xb3\0\0\x01\x04\x1f\xff\0\0\xff\0\0\xff\0\0\x2d\0\0",
    ),
    (
        &[WATER, PLAYER],
        b"\xf4\0\0\x01\x13\x9f\xff\0\0\xbd\0\0\x01\x04\x1f\xff\0\0\xff\0\0\xff\0\0\x2d\0\0",
    ),
];

fn board_with(things: &[(usize, Tile)]) -> [Tile; TILES] {
    let mut tiles = [EMPTY; TILES];
    for (place, tile) in things {
        if *place < TILES {
            tiles[*place] = *tile;
        }
    }
    tiles
}

/// Whether a board is written behind other bytes by these runs.
fn is_written(alloc: Global, tiles: &[Tile; TILES], runs: &[u8]) -> bool {
    let mut out = Vec::new(alloc);
    let _ = out.push(b'k');
    match write_runs(tiles, &mut out) {
        Ok(()) => out.first() == Some(&b'k') && out.ends_with(runs) && out.len() == 1 + runs.len(),
        Err(_) => false,
    }
}

fn are_written(alloc: Global) -> bool {
    for (things, runs) in BOARDS {
        if !is_written(alloc, &board_with(things), runs) {
            return false;
        }
    }
    true
}

#[test]
fn boards_are_written(rt: HostRuntime) {
    assert!(rt; are_written(rt.alloc()));
}

/// The runs of a board that is empty, and a byte behind them: five of count 0, which is 256, and one that is longer than what is left.
const ZEROS: &[u8] = &[0, 0, 0, 0, 0, 0, 0, 0, 0, 0, 0, 0, 0, 0, 0, 255, 0, 0, 7];

fn is_empty(tiles: &[Tile; TILES]) -> bool {
    for tile in tiles {
        if *tile != EMPTY {
            return false;
        }
    }
    true
}

/// Whether runs are read without memory, up to the byte behind them.
fn are_read(alloc: Global) -> bool {
    refuse(alloc, 1);
    let answer = read_runs(ZEROS);
    let was_refused = was_refused(alloc);
    let Ok(read) = answer else {
        return false;
    };
    let (tiles, used) = read;
    !was_refused && used == 18 && is_empty(&tiles)
}

/// Whether the first so many bytes of the runs are told to be cut.
fn is_cut(length: usize) -> bool {
    matches!(
        read_runs(ZEROS.split_at(length.min(ZEROS.len())).0),
        Err(RunsError::Truncated)
    )
}

#[test]
fn reading_counts_of_zero_takes_no_memory_refused(rt: HostRuntime) {
    assert!(rt; are_read(rt.alloc()) && is_cut(17) && is_cut(15));
}

/// Writes runs behind another byte, which stays where a growth is refused.
fn write_once(alloc: Global, tiles: &[Tile; TILES], nth: usize) -> Turn {
    let mut out = Vec::new(alloc);
    let _ = out.push(b'k');
    refuse(alloc, nth);
    let answer = write_runs(tiles, &mut out);
    let is_whole = answer.is_ok() && out.len() == 4501;
    let is_memory = matches!(answer, Err(RunsError::Memory)) && out.as_slice() == b"k".as_slice();
    turn_of(alloc, is_whole, is_memory)
}

/// Tiles of which each is another than the one before, so that there are 1,500 runs.
fn stripes() -> [Tile; TILES] {
    let mut tiles = [EMPTY; TILES];
    for place in 0..TILES {
        tiles[place].colour = (place % 2) as u8;
    }
    tiles
}

fn writes_each(alloc: Global, tiles: &[Tile; TILES]) -> bool {
    refuse_each!(nth => write_once(alloc, tiles, nth))
}

#[test]
fn writing_refused(rt: HostRuntime) {
    assert!(rt; writes_each(rt.alloc(), &stripes()));
}
