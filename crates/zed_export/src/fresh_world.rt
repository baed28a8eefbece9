//! The world of a new edit file that isn't made from a world file.
ghost use Rattle.std.specs.Prelude.{◌≡◌, [], IfOk, replicate, take};
ghost use Rattle.zed_edit.specs.Board.{new_table};
ghost use Rattle.zed_export.specs.Fresh.{fresh_header, fresh_world, title_of};

use crate::fresh_board::new_board;
use std::alloc::{AllocError, Global};
use zed_types::{Bytes, Seq, WORD_LIMIT};
use zed_world::{BoardData, Header, World};

/// The health of a new player.
const HEALTH: i16 = 100;

fn empty(alloc: Global) -> Bytes
    ensures { result ≡ [] }
{
    Bytes::new(Vec::new(alloc))
}

/// Ten empty flags.
#[tactic(auto, using(crate::proofs::NewWorlds::replicate_more))]
fn flags(alloc: Global) -> Result<Seq<Bytes>, AllocError>
    ensures { IfOk result (λ flags. flags ≡ replicate 10 []) }
{
    let mut flags = Seq::new(alloc);
    for _ in 0..10u8 {
        flags.push(empty(alloc))?;
    }
    Ok(flags)
}

/// The front of a text, as much of it as a name takes.
fn name_of(alloc: Global, text: &str) -> Result<Bytes, AllocError>
    ensures { IfOk result (λ name. name ≡ take 20 text.now) }
{
    let bytes = text.as_bytes();
    let end = bytes.len().min(WORD_LIMIT);
    Bytes::from_slice(alloc, &bytes[..end])
}

fn header(alloc: Global, name: &str) -> Result<Header, AllocError>
    ensures { IfOk result (λ header. header ≡ fresh_header name.now) }
{
    Ok(Header {
        ammo: 0,
        gems: 0,
        keys: [false; 7],
        health: HEALTH,
        current_board: 0,
        torches: 0,
        torch_ticks: 0,
        energizer_ticks: 0,
        score: 0,
        name: name_of(alloc, name)?,
        flags: flags(alloc)?,
        time_passed: 0,
        hundredths: 0,
        saved: false,
    })
}

fn title(alloc: Global) -> Result<BoardData, AllocError>
    ensures { IfOk result (λ board. board ≡ title_of new_table) }
{
    new_board(alloc, Bytes::from_slice(alloc, b"Title")?)
}

/// A world of one board, `Title`, whose player has 100 health. Its name has the first 20 bytes of
/// `name`.
pub fn new_world(alloc: Global, name: &str) -> Result<World, AllocError>
    ensures ok { IfOk result (λ world. world ≡ fresh_world name.now) }
{
    let header = header(alloc, name)?;
    let title = title(alloc)?;
    let mut boards = Seq::new(alloc);
    boards.push(title)?;
    Ok(World::new(header, boards))
}
