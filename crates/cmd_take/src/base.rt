//! The base of a world file: the edits that it was exported from.
ghost use Rattle.std.specs.Prelude.{◌≡◌, IfOk, IfSome, Some, false, option_map};
ghost use Rattle.cmd_take.specs.Base.{BaseOf, HeldBase, TriedBase};
ghost use Rattle.cmd_take.specs.Steps.{Gives};

use crate::reading::opened_file;
use crate::reason::DrawingReason;
use std::alloc::Global;
use zed_document::Document;
use zed_driver::{Input, Stop};

/// Whether the base that a word names has to be there.
#[derive(Clone, Copy)]
pub(crate) enum Presence {
    Needed,
    /// If it is missing, FILE is its own base.
    Optional,
}

// The document of a base of this world, which has to be there.
fn held_base(
    alloc: Global,
    file: Input,
    number: u64,
) -> Result<Option<Document>, Stop<DrawingReason>>
    ensures read { Gives (option_map (λ d. d.edits)) (HeldBase number file) result }
    ensures world { IfOk result (λ b. IfSome b (λ d. d.world ≡ number)) }
    ensures sound { IfOk result (λ b. IfSome b (λ d. d.is_stale ≡ false)) }
{
    let document = opened_file(alloc, Some(number), file)?;
    Ok(Some(document))
}

// The same of one that may be missing.
fn tried_base(
    alloc: Global,
    file: Input,
    number: u64,
) -> Result<Option<Document>, Stop<DrawingReason>>
    ensures read { Gives (option_map (λ d. d.edits)) (TriedBase number file) result }
    ensures world { IfOk result (λ b. IfSome b (λ d. d.world ≡ number)) }
    ensures sound { IfOk result (λ b. IfSome b (λ d. d.is_stale ≡ false)) }
{
    match file {
        Input::Missing => Ok(None),
        Input::Bytes(bytes) => held_base(alloc, Input::Bytes(bytes), number),
        Input::Failed => held_base(alloc, Input::Failed, number),
    }
}

/// The document of the base of a file of this world. None if the base may be missing and is.
///
/// # Errors
/// File if it can't be read; those of reading it, including OtherWorld; Memory.
pub(crate) fn base_of(
    alloc: Global,
    presence: Presence,
    file: Input,
    number: u64,
) -> Result<Option<Document>, Stop<DrawingReason>>
    ensures read { Gives (option_map (λ d. d.edits)) (BaseOf presence number file) result }
    ensures world { IfOk result (λ b. IfSome b (λ d. d.world ≡ number)) }
    ensures sound { IfOk result (λ b. IfSome b (λ d. d.is_stale ≡ false)) }
{
    match presence {
        Presence::Needed => held_base(alloc, file, number),
        Presence::Optional => tried_base(alloc, file, number),
    }
}
