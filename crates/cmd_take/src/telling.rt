//! Names and lines that the commands make.
ghost use Rattle.std.specs.Prelude.{◌≡◌, IfOk, Some, string_bytes};
ghost use Rattle.zed_driver.specs.Effects.{effect};
ghost use Rattle.zed_files.specs.Texts.{text_in};
ghost use Rattle.cmd_take.specs.Base.{base_word, beside};
ghost use Rattle.cmd_take.specs.Taking.{both_told, made_line, one_told, span_told, stamp_told, stamps_told};

use std::alloc::{AllocError, Global};
use zed_driver::{Effect, Output};
use zed_edit::Edit;
use zed_types::{Bytes, Stamp};

/// The name of the base that lies beside a world file.
pub(crate) fn beside_of(alloc: Global, world: &str) -> Result<String, AllocError>
    ensures { IfOk result (λ name. string_bytes name ≡ beside world.now) }
{
    format!(in alloc; "{world}.base")
}

/// The name of the base: the one that is given, or else that of the one beside the world file.
pub(crate) fn base_name(
    alloc: Global,
    base: Option<&str>,
    world: &str,
) -> Result<String, AllocError>
    ensures { IfOk result (λ name. string_bytes name ≡ base_word (text_in base.entry) world.now) }
{
    match base {
        Some(name) => String::from_str(alloc, name),
        None => beside_of(alloc, world),
    }
}

// A stamp: its time and its replica.
#[tactic(auto, unfolding(crate::specs::Taking::stamp_told))]
fn stamp_told(alloc: Global, stamp: Stamp) -> Result<String, AllocError>
    ensures { IfOk result (λ text. string_bytes text ≡ stamp_told stamp) }
{
    let Stamp { time, replica } = stamp;
    format!(in alloc; "{time}.{replica}")
}

// Two stamps, from one to the other.
fn both_told(alloc: Global, first: Stamp, last: Stamp) -> Result<String, AllocError>
    ensures { IfOk result (λ text. string_bytes text ≡ both_told first last) }
{
    let begun = stamp_told(alloc, first)?;
    let ended = stamp_told(alloc, last)?;
    format!(in alloc; ": {begun} to {ended}")
}

// One stamp.
fn one_told(alloc: Global, stamp: Stamp) -> Result<String, AllocError>
    ensures { IfOk result (λ text. string_bytes text ≡ one_told stamp) }
{
    let text = stamp_told(alloc, stamp)?;
    format!(in alloc; ": {text}")
}

// The stamps of edits that were made one after the other: one, or the first and the last.
fn span_told(alloc: Global, first: Stamp, last: Stamp) -> Result<String, AllocError>
    ensures { IfOk result (λ text. string_bytes text ≡ span_told first last) }
{
    if first == last {
        one_told(alloc, first)
    } else {
        both_told(alloc, first, last)
    }
}

/// The stamps of edits that were made one after the other; nothing where they are none.
pub(crate) fn stamps_told(alloc: Global, edits: &Vec<Edit>) -> Result<String, AllocError>
    ensures { IfOk result (λ text. string_bytes text ≡ stamps_told edits.now.items) }
{
    match (edits.first(), edits.last()) {
        (Some(first), Some(last)) => span_told(alloc, first.stamp, last.stamp),
        _ => Ok(String::new(alloc)),
    }
}

/// The line that counts the edits that were taken, and those that a file has now, with the stamps of
/// those that were taken.
pub(crate) fn taken_told(
    alloc: Global,
    taken: usize,
    edits: usize,
    stamps: &str,
) -> Result<String, AllocError>
    ensures { IfOk result (λ text. string_bytes text ≡ made_line taken edits stamps.now) }
{
    format!(in alloc; "{taken} taken, {edits} edits{stamps}\n")
}

/// Files are written, and behind them a line is printed.
pub(crate) fn writes_and_tells(files: Vec<Output>, line: String) -> Effect
    ensures { result ≡ effect files.items (Some (string_bytes line)) 0 }
{
    Effect::new(files, Some(Bytes::new(line.into_bytes())), 0)
}
