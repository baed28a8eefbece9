//! The files that a command was given.
ghost use Rattle.std.specs.Prelude.{◌≡◌, ◌∷◌, [], ℕ, IfErr, IfOk, Some, None, false, option_map};
ghost use Rattle.zed_driver.specs.declared.command.Stop.TheVariants.{Memory};
ghost use Rattle.zed_files.specs.Gathers.{BeginsWithBytes};
ghost use Rattle.cmd_take.specs.Files.{IsOpened, IsWorld, OpensAs, ReadsAs};
ghost use Rattle.cmd_take.specs.Steps.{Gives};

use crate::reason::{DrawingReason, drawing_stop};
use std::alloc::Global;
use zed_document::Document;
use zed_driver::{Input, Stop};
use zed_files::opened;
use zed_refusal::world_stop;
use zed_world::{World, read_world};

// The document of the bytes of an edit file, of the world asked for or of any.
fn opened_bytes(
    alloc: Global,
    asked: Option<u64>,
    bytes: &[u8],
) -> Result<Document, Stop<DrawingReason>>
    ensures opened { Gives (λ d. (d.world, d.edits)) (IsOpened asked bytes.now) result }
    ensures world { IfOk result (λ d. (n : ℕ) → asked ≡ Some n → d.world ≡ n) }
    ensures sound { IfOk result (λ d. d.is_stale ≡ false) }
{
    match opened(alloc, asked, bytes) {
        Ok(document) => Ok(document),
        Err(stop) => Err(drawing_stop(stop)),
    }
}

/// The document of an edit file, of the world asked for or of any. Its bytes are dropped then.
/// Memory, only if the file is there.
pub fn opened_file(
    alloc: Global,
    asked: Option<u64>,
    file: Input,
) -> Result<Document, Stop<DrawingReason>>
    ensures opened { Gives (λ d. (d.world, d.edits)) (OpensAs asked file) result }
    ensures world { IfOk result (λ d. (n : ℕ) → asked ≡ Some n → d.world ≡ n) }
    ensures sound { IfOk result (λ d. d.is_stale ≡ false) }
    ensures there { IfOk result (λ _. BeginsWithBytes (file ∷ [])) }
    ensures memory_only_when { IfErr result (λ e. e ≡ Memory → BeginsWithBytes (file ∷ [])) }
{
    match file {
        Input::Bytes(bytes) => opened_bytes(alloc, asked, bytes.as_slice()),
        Input::Missing => Err(Stop::File),
        Input::Failed => Err(Stop::File),
    }
}

/// The world of the bytes of a world file.
pub(crate) fn world_in(alloc: Global, bytes: &[u8]) -> Result<World, Stop<DrawingReason>>
    ensures { Gives (λ w. w) (IsWorld bytes.now) result }
{
    match read_world(alloc, bytes) {
        Ok(world) => Ok(world),
        Err(error) => Err(drawing_stop(world_stop(error))),
    }
}

/// The world of a world file. Its bytes are dropped then.
pub(crate) fn world_of(alloc: Global, file: Input) -> Result<World, Stop<DrawingReason>>
    ensures { Gives (λ w. w) (ReadsAs file) result }
{
    match file {
        Input::Bytes(bytes) => world_in(alloc, bytes.as_slice()),
        Input::Missing => Err(Stop::File),
        Input::Failed => Err(Stop::File),
    }
}
