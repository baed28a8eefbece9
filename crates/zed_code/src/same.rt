//! Whether two texts spell the same, however they are cut.

ghost use Rattle.std.specs.Prelude.{◌≡◌, ◌∷◌, ◌<◌, ◌+◌, ◌^◌, ◌↔◌, IsTrue, length};
ghost use Rattle.std.specs.List.{AllByRecursion};
ghost use Rattle.zed_code.specs.Blocks.{lists, runs_of, NoneEmpty};
ghost use Rattle.zed_code.specs.Cutting.{spelled};
ghost use Rattle.zed_code.specs.Kept.{IsRun};
ghost use Rattle.zed_code.specs.Cursors.{rest, stepped, IsPlace};

use crate::block::{Block, runs_at};
use zed_types::TextByte;

/// A place in a text: a block, a run of it, and a byte of that.
#[derive(Clone, Copy)]
pub struct Cursor {
    pub block: usize,
    pub run: usize,
    pub byte: u32,
}

/// The place behind a byte of a run with so many bytes, in a block with so many runs.
fn behind(at: Cursor, len: u32, runs: usize) -> Cursor
    requires byte { at.byte < len }
    requires run { at.run < runs }
    requires block { at.block + 1 < 2 ^ 64 }
    ensures { result ≡ stepped len runs at }
{
    if at.byte + 1 < len {
        Cursor {
            block: at.block,
            run: at.run,
            byte: at.byte + 1,
        }
    } else if at.run + 1 < runs {
        Cursor {
            block: at.block,
            run: at.run + 1,
            byte: 0,
        }
    } else {
        Cursor {
            block: at.block + 1,
            run: 0,
            byte: 0,
        }
    }
}

/// The element at a place, and the place behind it.
fn next(store: &[u8], blocks: &[Block], at: Cursor) -> (TextByte, Cursor)
    requires each { AllByRecursion (IsRun store.now) (runs_of blocks.now) }
    requires full { NoneEmpty (lists blocks.now) }
    requires within { at.block < length blocks.now }
    requires place { IsPlace at (lists blocks.now) }
    ensures rest { rest store.now (lists blocks.now) at
        ≡ result.0 ∷ rest store.now (lists blocks.now) result.1 }
    ensures place { IsPlace result.1 (lists blocks.now) }
{
    let runs = runs_at(blocks, at.block);
    let run = runs[at.run];
    let element = TextByte {
        id: run.name(at.byte),
        byte: store[run.start + at.byte as usize],
        alive: run.alive,
    };
    (element, behind(at, run.len, runs.len()))
}

/// Whether the blocks of two texts spell the same.
pub(crate) fn spell_same(
    store: &[u8],
    blocks: &[Block],
    other_store: &[u8],
    other: &[Block],
) -> bool
    requires each { AllByRecursion (IsRun store.now) (runs_of blocks.now) }
    requires full { NoneEmpty (lists blocks.now) }
    requires others { AllByRecursion (IsRun other_store.now) (runs_of other.now) }
    requires other_full { NoneEmpty (lists other.now) }
    ensures { IsTrue result ↔ spelled store.now (runs_of blocks.now)
        ≡ spelled other_store.now (runs_of other.now) }
{
    let mut at = Cursor {
        block: 0,
        run: 0,
        byte: 0,
    };
    let mut there = Cursor {
        block: 0,
        run: 0,
        byte: 0,
    };
    while at.block < blocks.len() && there.block < other.len() {
        let (element, behind) = next(store, blocks, at);
        let (other_element, behind_other) = next(other_store, other, there);
        if element != other_element {
            return false;
        }
        at = behind;
        there = behind_other;
    }
    at.block == blocks.len() && there.block == other.len()
}
