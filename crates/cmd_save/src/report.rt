//! What `check` prints.
ghost use Rattle.std.specs.Prelude.{◌≡◌, ◌≤◌, ◌<◌, ◌⊎◌, length, Err, IfOk, MatchResult, Ok, OnErr, false, string_bytes};
ghost use Rattle.std.specs.List.{flat_map};
ghost use Rattle.zed_types.specs.declared.limits.TheConstants.{READ_BODY_LIMIT};
ghost use Rattle.zed_export.specs.Limits.{Answers};
ghost use Rattle.zed_world.specs.Writing.{HasText, world_text};
ghost use Rattle.cmd_save.specs.Report.{counts_line, warning_line};
ghost use Rattle.zed_driver.specs.declared.command.Stop.TheVariants.{Memory};
ghost use Rattle.cmd_save.specs.Made.{TellsRefusal, file_of, report_on, reported};

use std::alloc::{AllocError, Global};
use zed_document::Document;
use zed_driver::Stop;
use zed_export::{ExportError, Warning, export, warnings};
use zed_refusal::{Reason, export_stop};
use zed_world::{World, write_world};

/// The world file of a document, of at most so many bytes a body. A limit that it exceeds is
/// refused before any want of memory.
pub(crate) fn world_file(
    alloc: Global,
    document: &Document,
    limit: usize,
) -> Result<Vec<u8>, Stop<Reason>>
    requires sound { document.now.is_stale ≡ false }
    requires limit { limit ≤ READ_BODY_LIMIT }
    ensures limits { TellsRefusal (file_of limit document.now.edits) result }
    ensures file { MatchResult result
        (λ bytes. file_of limit document.now.edits ≡ Ok bytes.items)
        (λ e. (e ≡ Memory) ⊎ (file_of limit document.now.edits ≡ Err e)) }
{
    match zed_export::save(alloc, document, limit) {
        Ok(file) => Ok(file),
        Err(error) => Err(export_stop(error)),
    }
}

fn warning_told(alloc: Global, warning: Warning) -> Result<String, AllocError>
    ensures { IfOk result (λ text. string_bytes text ≡ warning_line warning) }
{
    match warning {
        Warning::PlayerTile(board) => format!(in alloc; "PlayerTile {board}\n"),
        Warning::OffBoard(board, stat) => format!(in alloc; "OffBoard {board} {stat}\n"),
        Warning::SamePlace(board, stat) => format!(in alloc; "SamePlace {board} {stat}\n"),
    }
}

fn warnings_told(alloc: Global, warnings: &[Warning]) -> Result<Vec<u8>, AllocError>
    ensures text { IfOk result (λ text. text.items ≡ flat_map warning_line warnings.now) }
    ensures memory_only_when { OnErr result (0 < length warnings.now) }
{
    let mut text = Vec::new(alloc);
    for warning in warnings {
        let line = warning_told(alloc, *warning)?;
        text.extend_from_slice(line.as_bytes())?;
    }
    Ok(text)
}

fn counts_told(
    alloc: Global,
    edits: usize,
    held: usize,
    boards: usize,
    bytes: usize,
) -> Result<String, AllocError>
    ensures { IfOk result (λ text. string_bytes text ≡ counts_line edits held boards bytes) }
{
    format!(in alloc; "{edits} edits, {held} held, {boards} boards, {bytes} bytes\n")
}

// How many bytes the file of a world has of which no body is over a limit.
#[tactic(auto, unfolding(zed_world::specs::Writing::written))]
fn size_of(alloc: Global, world: &World, limit: usize) -> Result<usize, ExportError>
    requires limit { limit ≤ READ_BODY_LIMIT }
    requires within { HasText limit world.now }
    ensures { MatchResult result
        (λ bytes. bytes ≡ length (world_text world.now))
        (λ e. e ≡ ExportError.Memory) }
{
    // The writer can lack nothing but memory.
    match write_world(alloc, world, limit) {
        Ok(file) => Ok(file.len()),
        Err(_) => Err(ExportError::Memory),
    }
}

// The report on a document's world, or what stands against its export.
fn report_of(alloc: Global, document: &Document, limit: usize) -> Result<Vec<u8>, ExportError>
    requires sound { document.now.is_stale ≡ false }
    requires limit { limit ≤ READ_BODY_LIMIT }
    ensures { Answers (λ text. text.items) (reported limit document.now.edits) result }
{
    let world = export(alloc, document, limit)?;
    let bytes = size_of(alloc, &world, limit)?;
    let warnings = warnings(alloc, &world)?;
    let mut text = warnings_told(alloc, warnings.as_slice())?;
    let edits = document.edits().len();
    let boards = world.boards().len();
    let counts = counts_told(alloc, edits, document.held(), boards, bytes)?;
    text.extend_from_slice(counts.as_bytes())?;
    Ok(text)
}

/// The warnings of a document's world, one a line, and then its counts, if no body has more bytes
/// than the limit. A limit that it exceeds is refused before any want of memory.
pub(crate) fn report(
    alloc: Global,
    document: &Document,
    limit: usize,
) -> Result<Vec<u8>, Stop<Reason>>
    requires sound { document.now.is_stale ≡ false }
    requires limit { limit ≤ READ_BODY_LIMIT }
    ensures limits { TellsRefusal (report_on limit document.now.edits) result }
    ensures report { MatchResult result
        (λ text. report_on limit document.now.edits ≡ Ok text.items)
        (λ e. (e ≡ Memory) ⊎ (report_on limit document.now.edits ≡ Err e)) }
{
    match report_of(alloc, document, limit) {
        Ok(text) => Ok(text),
        Err(error) => Err(export_stop(error)),
    }
}
