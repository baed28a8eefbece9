//! The command `lint`.
ghost use Rattle.zed_driver.specs.declared.command.Stop.TheVariants.{Memory};
ghost use Rattle.std.specs.Prelude.{[], ◌∷◌, ◌≡◌, ◌⊎◌, false, IfErr, MatchResult, Ok, Err, Some};
ghost use Rattle.zed_log.specs.ListLaws.{lines_in};
ghost use Rattle.cmd_log.specs.Linted.{lint_of, status_of};

use crate::world::shown_world;
use std::alloc::Global;
use zed_document::Document;
use zed_driver::{Effect, Stop};
use zed_files::Telling;
use zed_refusal::Reason;

/// The lines of the findings in the world of a document that isn't stale, or the refusal of its
/// export, at 32,767 bytes a body.
pub(crate) fn findings_text(alloc: Global, document: &Document) -> Result<Vec<u8>, Stop<Reason>>
    requires sound { document.now.is_stale ≡ false }
    ensures { MatchResult result
        (λ text. lint_of document.now.edits ≡ Ok text.items)
        (λ e. (e ≡ Memory) ⊎ (lint_of document.now.edits ≡ Err e)) }
{
    let world = shown_world(alloc, document)?;
    let mut text = Vec::new(alloc);
    zed_lint::lint(&world, &mut text)?;
    Ok(text)
}

// How many lines a text has, by their line feeds.
#[tactic(auto, using(crate::proofs::Counted::lines_counted))]
fn count_lines(text: &[u8]) -> usize
    ensures { result ≡ lines_in text.now }
{
    text.iter().filter(|byte| **byte == b'\n').count()
}

/// Whether findings are told by the status too.
#[derive(Clone, Copy, PartialEq, Eq)]
pub enum Strictness {
    /// It is 0.
    Lenient,
    /// It is 1 where a line is printed.
    Strict,
}

// The status where so many lines were found.
fn status_of(strictness: Strictness, lines: usize) -> u8
    ensures { result ≡ status_of strictness lines }
{
    match strictness {
        Strictness::Lenient => 0,
        Strictness::Strict => { if 0 < lines { 1 } else { 0 } }
    }
}

/// `lint` prints a line for each thing that ZZT or a player would stumble over, in the forms of
/// docs/LINT.md. Refusals, in order: those of reading the files; those of an export, at 32,767 bytes
/// a body.
#[derive(Drop)]
pub struct Lint {
    pub strictness: Strictness,
}

impl Telling for Lint {
    ghost use Rattle.cmd_log.specs.Linted.{lints};

    ghost tells = { λ s. lints s.strictness };

    fn tell(&self, alloc: Global, document: &Document) -> Result<Effect, Stop<Reason>> {
        let text = findings_text(alloc, document)?;
        let status = status_of(self.strictness, count_lines(text.as_slice()));
        Ok(Effect::prints(alloc, text, status))
    }
}
