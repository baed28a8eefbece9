//! The board of a document that is shown or played.
ghost use Rattle.std.specs.Prelude.{◌≡◌, ◌≤◌, ◌⊎◌, IfErr, false, slice_get};
ghost use Rattle.zed_host.specs.Counting.{Counts};
ghost use Rattle.zed_types.specs.declared.limits.TheConstants.{READ_BODY_LIMIT};
ghost use Rattle.zed_edit.specs.Replay.{replay};
ghost use Rattle.zed_export.specs.World.{exported_boards};
ghost use Rattle.zed_session.specs.Boards.{Answers, Draws, GivesWorld, Opens, ShowsBoard, lack_of, world_shown};
ghost use Rattle.zed_session.specs.Refusals.{ShownAfter, ShowsOnce, is_screen_fault};

use crate::error::SessionError;
use crate::screen::{Screen, show_on};
use std::alloc::Global;
use zed_document::Document;
use zed_export::{ExportError, export};
use zed_laws::replay_is_ordered;
use zed_play::Play;
use zed_screen::{Frame, draw_board};
use zed_world::World;

/// The refusal if a board of a document can't be exported for want of memory. It takes none.
fn lack(document: &Document, board: usize) -> SessionError
    requires { document.now.is_stale ≡ false }
    ensures { result ≡ lack_of (slice_get (exported_boards (replay document.now.edits)) board) }
{
    // For the proof, which learns here that the edits are a set, and so that each board has a number of its own.
    document.edits();
    replay_is_ordered();
    match document.board(board).unwrap_or(None) {
        Some(_) => SessionError::Memory,
        None => SessionError::NoBoard,
    }
}

/// The world that a document exports at a limit, for the sake of one of its boards.
fn world_for(
    alloc: Global,
    document: &Document,
    board: usize,
    limit: usize,
) -> Result<World, SessionError>
    requires { limit ≤ READ_BODY_LIMIT }
    ensures result { GivesWorld (world_shown limit document.now) board result }
{
    match export(alloc, document, limit) {
        Ok(world) => Ok(world),
        Err(ExportError::Memory) => Err(lack(document, board)),
        Err(error) => Err(SessionError::from(error)),
    }
}

/// The picture of the board of this number.
fn picture_of(
    alloc: Global,
    document: &Document,
    board: usize,
    limit: usize,
) -> Result<Frame, SessionError>
    requires { limit ≤ READ_BODY_LIMIT }
    ensures result { Answers (world_shown limit document.now) board Draws result }
{
    let world = world_for(alloc, document, board, limit)?;
    Ok(draw_board(&world, board)?)
}

/// The playtest of the board of this number, before its first step.
pub(crate) fn playtest_of(
    alloc: Global,
    document: &Document,
    board: usize,
    limit: usize,
) -> Result<Play, SessionError>
    requires { limit ≤ READ_BODY_LIMIT }
    ensures result { Answers (world_shown limit document.now) board Opens result }
{
    let world = world_for(alloc, document, board, limit)?;
    Ok(Play::new(alloc, world, board, 1)?)
}

/// Shows the board of this number on a screen, in the world that a document exports. The limit, at
/// most 32,767, is the most bytes of a board's body. Refusals, in order: those of the export;
/// NoBoard if the world has no such board; ScreenFault if the screen failed. The screen is called
/// once, or not at all after another refusal.
pub fn show_board(
    alloc: Global,
    screen: &mut dyn Screen,
    document: &Document,
    board: usize,
    limit: usize,
) -> Result<(), SessionError>
    requires { limit ≤ READ_BODY_LIMIT }
    ensures result { Answers (world_shown limit document.now) board
        (ShowsBoard (shown screen.old) (shown screen.new)) result }
    ensures err { IfErr result (λ e. ShownAfter e (shown screen.old) (shown screen.new)) }
    ensures screen_faults { Counts (is_screen_fault result)
        (screen_failures screen.old) (screen_failures screen.new) }
    ensures foretold { ShowsOnce result
        (screen_foretells screen.old) (screen_foretells screen.new) }
    ensures kept { IfErr result (λ e. (e ≡ SessionError.ScreenFault) ⊎ (screen.new ≡ screen.old)) }
{
    let frame = picture_of(alloc, document, board, limit)?;
    show_on(screen, &frame)
}
