//! The playtest that begins on a board of a document, and the boards over which it goes on.
ghost use Rattle.std.specs.Prelude.{◌≡◌, ◌≢◌, ◌⊎◌, Err, IfErr, IfOk, MatchResult, Ok, false, slice_get};
ghost use Rattle.zed_files.specs.Refusals.{IsOffStage};
ghost use Rattle.cmd_play.specs.Opening.{on_board, opened, over_boards, over_edits};

use std::alloc::{AllocError, Global};
use zed_document::Document;
use zed_export::export;
use zed_files::Refusal;
use zed_play::{Play, PlayError, Way};
use zed_terminal::Atlas;
use zed_types::READ_BODY_LIMIT;
use zed_world::World;

/// Whether a playtest goes on over boards.
#[derive(Clone, Copy, PartialEq, Eq)]
pub enum Going {
    /// It is of one board.
    Stays,
    /// It goes on on the board for which the player leaves.
    On,
}

/// The boards over which a playtest goes on, if it does.
#[derive(Drop)]
pub(crate) struct Boards {
    world: Option<World>,
}

/// A playtest, with the boards over which it goes on.
#[derive(Drop)]
pub(crate) struct Begun {
    pub play: Play,
    pub boards: Boards,
}

/// The playtest of a board of a world.
fn on_board(alloc: Global, world: &World, board: usize) -> Result<Play, Refusal>
    ensures opens { MatchResult result
        (λ play. on_board world.now.header (slice_get world.now.boards board) ≡ Ok play)
        (λ e. (e ≡ Refusal.Memory)
        ⊎ (on_board world.now.header (slice_get world.now.boards board) ≡ Err e)) }
    ensures off { IfErr result IsOffStage }
    ensures other { IfErr result (λ e. e ≢ Refusal.File) }
{
    match Play::open(alloc, world, board, 1) {
        Ok(play) => Ok(play),
        Err(PlayError::NoBoard) => Err(Refusal::NoBoard),
        Err(_) => Err(Refusal::Memory),
    }
}

/// The boards of a world, if a playtest goes on over them.
fn boards_of(world: World, going: Going) -> Boards
    ensures { result.world ≡ over_boards going world }
{
    match going {
        Going::Stays => Boards { world: None },
        Going::On => Boards { world: Some(world) },
    }
}

/// The playtest of a board of a document's world, before its first step.
pub(crate) fn opened(
    alloc: Global,
    document: &Document,
    going: Going,
    board: usize,
) -> Result<Begun, Refusal>
    requires sound { document.now.is_stale ≡ false }
    ensures opens { MatchResult result
        (λ begun. opened board document.now.edits ≡ Ok begun.play)
        (λ e. (e ≡ Refusal.Memory) ⊎ (opened board document.now.edits ≡ Err e)) }
    ensures boards { IfOk result (λ begun. begun.boards.world ≡ over_edits going document.now.edits) }
    ensures off { IfErr result IsOffStage }
    ensures other { IfErr result (λ e. e ≢ Refusal.File) }
{
    let world = export(alloc, document, READ_BODY_LIMIT)?;
    let play = on_board(alloc, &world, board)?;
    let boards = boards_of(world, going);
    Ok(Begun { play, boards })
}

impl Atlas for Boards {
    ghost world = { λ b. b.world };

    fn enter(
        &self,
        alloc: Global,
        from: &Play,
        board: u8,
        way: Way,
    ) -> Result<Option<Play>, AllocError> {
        match &self.world {
            Some(world) => from.enter(alloc, world, usize::from(board), way),
            None => Ok(None),
        }
    }
}
