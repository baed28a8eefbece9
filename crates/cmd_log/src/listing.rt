//! The command `list`.
ghost use Rattle.zed_driver.specs.declared.command.Stop.TheVariants.{Memory};
ghost use Rattle.std.specs.Prelude.{[], ◌∷◌, ◌≡◌, ◌⊎◌, false, IfErr, MatchResult, Ok, Err, Some, slice_get};
ghost use Rattle.zed_edit.specs.Replay.{replay};
ghost use Rattle.zed_export.specs.World.{world_of};
ghost use Rattle.zed_log.specs.Boards.{boards_text as boards_text_of};
ghost use Rattle.cmd_log.specs.Listed.{list_of, listed, program_of, program_on as program_of_board, ranks_of, stats_of};

use crate::boards::ranks;
use crate::world::shown_world;
use std::alloc::Global;
use zed_document::Document;
use zed_driver::{Effect, Stop};
use zed_files::Telling;
use zed_laws::replay_is_ordered;
use zed_refusal::{Reason, document_stop};
use zed_world::{BoardData, World};

/// What `list` prints.
#[derive(Clone, Copy, PartialEq, Eq)]
pub enum Listing {
    /// A line for each board.
    Boards,
    /// A line for each stat of the board of this number.
    Stats(u16),
    /// A line for each line of the program of a stat, by the numbers of its board and of itself.
    Program(u16, u16),
}

// The lines of the boards of a document's world.
fn boards_text(alloc: Global, document: &Document, world: &World) -> Result<Vec<u8>, Stop<Reason>>
    requires sound { document.now.is_stale ≡ false }
    requires world { world.now ≡ world_of (replay document.now.edits) }
    ensures { MatchResult result
        (λ text. text.items ≡ boards_text_of (ranks_of (replay document.now.edits)) world.now)
        (λ e. e ≡ Memory) }
{
    // Their contracts say that the edits rise and that the boards are few, as the ranks want it.
    document.edits();
    world.boards();
    replay_is_ordered();
    let view = match document.view() {
        Ok(view) => view,
        Err(error) => return Err(document_stop(error)),
    };
    let ranks = ranks(alloc, &view)?;
    let mut text = Vec::new(alloc);
    zed_log::boards(ranks.as_slice(), world, &mut text)?;
    Ok(text)
}

// The lines of the stats of a board.
fn stats_text(alloc: Global, world: &World, board: u16) -> Result<Vec<u8>, Stop<Reason>>
    ensures { MatchResult result
        (λ text. stats_of (slice_get world.now.boards board) ≡ Ok text.items)
        (λ e. (e ≡ Memory) ⊎ (stats_of (slice_get world.now.boards board) ≡ Err e)) }
{
    let Some(board) = world.boards().get(usize::from(board)) else {
        return Err(Stop::Refused(Reason::NoBoard));
    };
    let mut text = Vec::new(alloc);
    zed_log::stats(board, &mut text)?;
    Ok(text)
}

// The lines of the program of a stat of a board.
fn program_text(alloc: Global, board: &BoardData, stat: u16) -> Result<Vec<u8>, Stop<Reason>>
    ensures { MatchResult result
        (λ text. program_of board.now (slice_get board.now.stats stat) ≡ Ok text.items)
        (λ e. (e ≡ Memory)
        ⊎ (program_of board.now (slice_get board.now.stats stat) ≡ Err e)) }
{
    let Some(stat) = board.stats.as_slice().get(usize::from(stat)) else {
        return Err(Stop::Refused(Reason::NoSuch));
    };
    let mut text = Vec::new(alloc);
    zed_log::program(board, stat, &mut text)?;
    Ok(text)
}

// The same by the number of the board.
fn program_on(alloc: Global, world: &World, board: u16, stat: u16) -> Result<Vec<u8>, Stop<Reason>>
    ensures { MatchResult result
        (λ text. program_of_board (slice_get world.now.boards board) stat ≡ Ok text.items)
        (λ e. (e ≡ Memory)
        ⊎ (program_of_board (slice_get world.now.boards board) stat ≡ Err e)) }
{
    match world.boards().get(usize::from(board)) {
        Some(board) => program_text(alloc, board, stat),
        None => Err(Stop::Refused(Reason::NoBoard)),
    }
}

// What is listed of a document's world.
fn listed_text(
    alloc: Global,
    document: &Document,
    world: &World,
    listing: Listing,
) -> Result<Vec<u8>, Stop<Reason>>
    requires sound { document.now.is_stale ≡ false }
    requires world { world.now ≡ world_of (replay document.now.edits) }
    ensures { MatchResult result
        (λ text. listed (ranks_of (replay document.now.edits)) world.now listing ≡ Ok text.items)
        (λ e. (e ≡ Memory)
        ⊎ (listed (ranks_of (replay document.now.edits)) world.now listing ≡ Err e)) }
{
    match listing {
        Listing::Boards => boards_text(alloc, document, world),
        Listing::Stats(board) => stats_text(alloc, world, board),
        Listing::Program(board, stat) => program_on(alloc, world, board, stat),
    }
}

/// The lines of a document that isn't stale. Refusals, in order: those of an export, at 32,767
/// bytes a body; NoBoard if there is no board of this number; NoSuch if the board has no stat of
/// this number.
pub(crate) fn listing_text(
    alloc: Global,
    document: &Document,
    listing: Listing,
) -> Result<Vec<u8>, Stop<Reason>>
    requires sound { document.now.is_stale ≡ false }
    ensures { MatchResult result
        (λ text. list_of listing document.now.edits ≡ Ok text.items)
        (λ e. (e ≡ Memory) ⊎ (list_of listing document.now.edits ≡ Err e)) }
{
    let world = shown_world(alloc, document)?;
    listed_text(alloc, document, &world, listing)
}

/// `list` prints the boards, the stats of one, or the program of one, as lines in the forms of
/// docs/LIST.md. Refusals, in order: those of reading the files; those of an export, at 32,767 bytes
/// a body; NoBoard if there is no board of this number; NoSuch if the board has no stat of this
/// number.
#[derive(Drop)]
pub struct List {
    pub listing: Listing,
}

impl Telling for List {
    ghost use Rattle.cmd_log.specs.Listed.{lists};

    ghost tells = { λ s. lists s.listing };

    fn tell(&self, alloc: Global, document: &Document) -> Result<Effect, Stop<Reason>> {
        let text = listing_text(alloc, document, self.listing)?;
        Ok(Effect::prints(alloc, text, 0))
    }
}
