//! The world that a document shows, and its file, which reads back as that world.
ghost use Rattle.std.specs.Prelude.{◌≡◌, ◌<◌, ◌≤◌, None, Ok, IfErr, IfOk, MatchResult, length, map};
ghost use Rattle.std.specs.List.{All, AllByRecursion};
ghost use Rattle.zed_types.specs.declared.limits.TheConstants.{READ_BODY_LIMIT};
ghost use Rattle.zed_world.specs.Reading.{world_at};
ghost use Rattle.zed_world.specs.Writing.{world_text};
ghost use Rattle.zed_world.specs.Normal.{IsNormal};
ghost use Rattle.zed_edit.specs.Numbers.{alive_stats as stats_there};
ghost use Rattle.zed_laws.specs.Regular.{IsRegular};
ghost use Rattle.zed_laws.specs.NameOrder.{IsOrdered};
ghost use Rattle.zed_edit.specs.Replay.{replay};
ghost use Rattle.zed_view.specs.View.{board_at};
ghost use Rattle.zed_export.specs.World.{exported_board, world_of};
ghost use Rattle.zed_export.specs.Fields.{board_names as names_of_boards, FitsBoard};
ghost use Rattle.zed_export.specs.Headline.{AuthoredIsRead};
ghost use Rattle.zed_export.specs.Limits.{Answers, IsRefusal, IsShown, SavedIsRead, exported, refusal_of, saved, unless_stale};

use crate::board::board_of;
use crate::error::ExportError;
use crate::header::header_of;
use crate::limits::first_limit;
use crate::numbers::{BoardNames, board_names, boards_by_number};
use std::alloc::{AllocError, Global};
use zed_document::{Document, View};
use zed_laws::{replay_is_ordered, replay_is_regular};
use zed_op::{sets_rise, sets_stay_fit};
use zed_types::Seq;
use zed_world::{BoardData, World, write_world, written_is_read};

/// The boards of the world at these places, by number; these are the names of all.
fn boards_of(
    alloc: Global,
    view: &View,
    names: &BoardNames,
    places: &[usize],
) -> Result<Seq<BoardData>, AllocError>
    requires ordered { IsOrdered view.now }
    requires named { names.now ≡ names_of_boards view.now }
    requires few { length names.now ≤ 101 }
    requires places { All (λ i. i < length view.now.boards) places.now }
    requires few_stats { All (λ i. length (stats_there (board_at view.now i)) ≤ 151) places.now }
    ensures result { IfOk result (λ boards. boards
        ≡ map (λ i. exported_board view.now (board_at view.now i)) places.now) }
    ensures fits { IfOk result (λ boards. AllByRecursion FitsBoard boards) }
{
    let mut boards = Vec::new(alloc);
    for i in places {
        boards.push(board_of(alloc, view, names, *i)?)?;
    }
    Ok(Seq::from_vec(boards))
}

/// The world of a document that goes over no limit.
fn world_within(alloc: Global, view: &View, limit: usize) -> Result<World, AllocError>
    requires regular { IsRegular view.now }
    requires ordered { IsOrdered view.now }
    requires limit { limit ≤ READ_BODY_LIMIT }
    requires within { refusal_of limit view.now ≡ None }
    ensures { IfOk result (λ world. world ≡ world_of view.now) }
{
    let order = boards_by_number(alloc, view);
    let places = order.as_slice();
    let names = board_names(alloc, view, places)?;
    let boards = boards_of(alloc, view, &names, places)?;
    let header = header_of(alloc, view, &names)?;
    Ok(World::new(header, boards))
}

/// The file of a document that goes over no limit.
#[tactic(auto, unfolding(zed_world::specs::Writing::written))]
fn file_within(alloc: Global, view: &View, limit: usize) -> Result<Vec<u8>, ExportError>
    requires regular { IsRegular view.now }
    requires ordered { IsOrdered view.now }
    requires limit { limit ≤ READ_BODY_LIMIT }
    requires within { refusal_of limit view.now ≡ None }
    ensures result { MatchResult result
        (λ file. file.items ≡ world_text (world_of view.now))
        (λ e. e ≡ ExportError.Memory) }
    ensures back { IfOk result (λ file. world_at file.items ≡ Ok (world_of view.now)) }
{
    let world = world_within(alloc, view, limit)?;
    // No body is over the limit, so the writer can lack nothing but memory.
    match write_world(alloc, &world, limit) {
        Ok(file) => Ok(file),
        Err(_) => Err(ExportError::Memory),
    }
}

/// What a document shows, where it goes over no limit.
fn shown_within<'d>(
    alloc: Global,
    document: &'d Document,
    limit: usize,
) -> Result<View<'d>, ExportError>
    requires { limit ≤ READ_BODY_LIMIT }
    ensures ok { IfOk result (λ p. IsShown limit document.entry.now p) }
    ensures err { IfErr result (λ e. IsRefusal limit document.entry.now e) }
{
    let Ok(view) = document.view() else {
        return Err(ExportError::Stale);
    };
    // Its contract says that the edits rise, as the laws want it.
    document.edits();
    replay_is_regular();
    replay_is_ordered();
    match first_limit(alloc, &view, limit) {
        Some(refusal) => Err(refusal),
        None => Ok(view),
    }
}

/// The world that a document shows. Refusals, in order: Stale; NoWorld if no title was made;
/// BoardsOver for more than 100 boards beside the title; then, board by board, StatsOver for more
/// than 150 stats beside the player, and BoardOver for a body of more bytes than the limit; Memory.
/// Finding the others takes no memory. The limit is at most 32,767.
pub fn export(alloc: Global, document: &Document, limit: usize) -> Result<World, ExportError>
    requires { limit ≤ READ_BODY_LIMIT }
    ensures result { Answers (λ world. world) (unless_stale document.now (exported limit)) result }
    ensures normal { IfOk result (λ world. IsNormal world) }
{
    let view = shown_within(alloc, document, limit)?;
    Ok(world_within(alloc, &view, limit)?)
}

/// The file of the world that a document shows. Its refusals are those of `export`, in the same
/// order.
pub fn save(alloc: Global, document: &Document, limit: usize) -> Result<Vec<u8>, ExportError>
    requires { limit ≤ READ_BODY_LIMIT }
    ensures result { Answers (λ file. file.items) (unless_stale document.now (saved limit)) result }

    // What is saved is read as the exported world.
    ensures back { IfOk result (λ file.
        world_at file.items ≡ Ok (world_of (replay document.now.edits))) }
{
    let view = shown_within(alloc, document, limit)?;
    file_within(alloc, &view, limit)
}

/// What is saved reads back as the exported world, if that world fits a file. Worlds of edits that
/// authors made do.
pub fn saved_is_read()
    ensures normal { SavedIsRead }
    ensures authored { AuthoredIsRead }
{
    sets_rise();
    sets_stay_fit();
    replay_is_ordered();
    replay_is_regular();
    written_is_read();
}
