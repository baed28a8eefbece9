//! The command `compare`.
ghost use Rattle.std.specs.Prelude.{◌≡◌, [], ℕ, Err, IfOk, List, MatchResult, Ok, OnOk, Some, false};
ghost use Rattle.zed_op.specs.declared.op.Edit.{Edit as TheEdit};
ghost use Rattle.zed_history.specs.Clash.{Agree};
ghost use Rattle.zed_join.specs.Sides.{AreSides};
ghost use Rattle.zed_driver.specs.Effects.{prints};
ghost use Rattle.cmd_compare.specs.Compares.{CompareStands, IsCompared, IsDocument, IsRefused, goes_on as goes_on_so, status_of as status_for};

use std::alloc::{AllocError, Global};
use zed_document::Document;
use zed_driver::{Command, Effect, Input, Stop};
use zed_files::opened;
use zed_join::Sides;
use zed_refusal::{Reason, document_stop};
use zed_report::{Comparison, compare};

/// Whether findings are told by the status too.
#[derive(Clone, Copy)]
pub enum Strictness {
    /// It is 0.
    Lenient,
    /// It is 1 where a line follows the first one.
    Strict,
}

// The document of a file, as it was read. The bytes are dropped then.
fn opened_file(alloc: Global, asked: Option<u64>, file: Input) -> Result<Document, Stop<Reason>>
    ensures opened { MatchResult result
        (λ d. IsDocument asked file d)
        (λ e. IsRefused asked file e) }
    ensures world { IfOk result (λ d. (n : ℕ) → asked ≡ Some n → d.world ≡ n) }
{
    match file {
        Input::Bytes(bytes) => opened(alloc, asked, bytes.as_slice()),
        Input::Missing => Err(Stop::File),
        Input::Failed => Err(Stop::File),
    }
}

// Whether a line follows the first one of a text.
#[tactic(auto, using(crate::proofs::Told::lines_counted))]
fn goes_on(text: &[u8]) -> bool
    ensures { result ≡ goes_on_so text.now }
{
    1 < text.iter().filter(|byte| **byte == b'\n').count()
}

// The status, where a line follows the first one or none does.
fn status_of(strictness: Strictness, goes_on: bool) -> u8
    ensures { result ≡ status_for strictness goes_on }
{
    match strictness {
        Strictness::Lenient => 0,
        Strictness::Strict => { if goes_on { 1 } else { 0 } }
    }
}

// What is told, printed.
fn printed(
    alloc: Global,
    strictness: Strictness,
    comparison: Comparison,
) -> Result<Effect, AllocError>
    ensures text { IfOk result (λ x. x ≡ prints comparison.text.items
        (status_for strictness (goes_on_so comparison.text.items))) }
    ensures silence { OnOk result (goes_on_so comparison.text.items ≡ false
        → comparison.found ≡ 0) }
{
    let more = goes_on(comparison.text.as_slice());
    if !more && 0 < comparison.found {
        // each finding is in a line behind the first one
        return Err(AllocError);
    }
    let status = status_of(strictness, more);
    Ok(Effect::prints(alloc, comparison.text, status))
}

// What the sides of two sets that agree made of each other, printed.
fn told(alloc: Global, strictness: Strictness, sides: &Sides<'_>) -> Result<Effect, Stop<Reason>>
    ensures { (es fs : List TheEdit) → AreSides es fs sides.now → Agree es fs
        → MatchResult result
        (λ x. IsCompared strictness es fs (Ok x))
        (λ e. IsCompared strictness es fs (Err e)) }
{
    let comparison = compare(alloc, sides)?;
    Ok(printed(alloc, strictness, comparison)?)
}

// What two documents made of each other, printed.
fn compared(
    alloc: Global,
    strictness: Strictness,
    mine: &Document,
    theirs: &Document,
) -> Result<Effect, Stop<Reason>>
    requires mine { mine.now.is_stale ≡ false }
    requires theirs { theirs.now.is_stale ≡ false }
    requires world { theirs.now.world ≡ mine.now.world }
    ensures { MatchResult result
        (λ x. IsCompared strictness mine.now.edits theirs.now.edits (Ok x))
        (λ e. IsCompared strictness mine.now.edits theirs.now.edits (Err e)) }
{
    match Sides::join(alloc, mine, theirs) {
        Ok(sides) => told(alloc, strictness, &sides),
        Err(error) => Err(document_stop(error)),
    }
}

/// `compare` prints what two edit files of one world made of each other, in the forms of
/// docs/COMPARE.md: a line that counts the edits that only one of them has, and one for each thing
/// that the merge of both doesn't show as its author left it. Strict, the status is 1 where a line
/// follows the first one. Refusals, in order: those of reading MINE, and then THEIRS, which has to be
/// of the same world; `Clash` of the two, with the least stamp for which they have different edits.
#[derive(Drop)]
pub struct Compare<'a> {
    strictness: Strictness,
    mine: &'a str,
    theirs: &'a str,
    /// The documents that were read.
    first: Option<Document>,
    second: Option<Document>,
}

impl<'a> Compare<'a> {
    /// Before a file was read.
    pub fn new(strictness: Strictness, mine: &'a str, theirs: &'a str) -> Compare<'a>
        ensures strictness { result.strictness ≡ strictness }
        ensures mine { result.mine ≡ mine.entry }
        ensures theirs { result.theirs ≡ theirs.entry }
        ensures stands { CompareStands [] result.first result.second }
    {
        Compare {
            strictness,
            mine,
            theirs,
            first: None,
            second: None,
        }
    }
}

impl<'a> Command for Compare<'a> {
    ghost use Rattle.cmd_compare.specs.Compares.{CompareComes, CompareStands, CompareWants, next_side, sides_left};

    type Refusal = Reason;

    ghost Wants = { λ c. CompareWants c.mine.now c.theirs.now };

    ghost Comes = { λ c. CompareComes c.strictness };

    ghost Stands = { λ c files s. (s.strictness ≡ c.strictness) × (s.mine ≡ c.mine) × (s.theirs ≡ c.theirs)
        × CompareStands files s.first s.second };

    ghost next = { λ c. next_side c.mine.now c.theirs.now c.first c.second };

    ghost most = { λ c. sides_left c.first c.second };

    fn at_most(&self) -> usize {
        match &self.first {
            None => 2,
            Some(_) => match &self.second {
                None => 1,
                Some(_) => 0,
            },
        }
    }

    fn next_file(&self) -> Option<&str> {
        match &self.first {
            None => Some(self.mine),
            Some(_) => match &self.second {
                None => Some(self.theirs),
                Some(_) => None,
            },
        }
    }

    fn give(&mut self, alloc: Global, file: Input) -> Result<(), Stop<Reason>> {
        match &self.first {
            None => match opened_file(alloc, None, file) {
                Ok(document) => {
                    self.first = Some(document);
                    Ok(())
                }
                Err(stop) => Err(stop),
            },
            Some(mine) => {
                let world = mine.world();
                match opened_file(alloc, Some(world), file) {
                    Ok(document) => {
                        self.second = Some(document);
                        Ok(())
                    }
                    Err(stop) => Err(stop),
                }
            }
        }
    }

    fn finish(&mut self, alloc: Global) -> Result<Effect, Stop<Reason>> {
        match &self.first {
            Some(mine) => match &self.second {
                Some(theirs) => compared(alloc, self.strictness, mine, theirs),
                // it is finished once both files were read
                None => Err(Stop::Memory),
            },
            None => Err(Stop::Memory),
        }
    }
}
