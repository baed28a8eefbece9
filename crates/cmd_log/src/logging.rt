//! The command `log`.
ghost use Rattle.zed_driver.specs.declared.command.Stop.TheVariants.{Memory};
ghost use Rattle.std.specs.Prelude.{[], ◌∷◌, ◌≡◌, ◌⊎◌, false, filter, IfErr, IfOk, List, MatchResult, Ok, Err, Some};
ghost use Rattle.zed_edit.specs.Replay.{replay};
ghost use Rattle.zed_log.specs.Laws.{log_at};
ghost use Rattle.zed_filter.specs.Passing.{passes as passes_all};
ghost use Rattle.cmd_log.specs.Laws.{TellsAllUnfiltered};
ghost use Rattle.cmd_log.specs.Logged.{filter_stop as filtering_stop, is_held, log_of};

use std::alloc::{AllocError, Global};
use zed_document::{Document, View};
use zed_driver::{Effect, Stop};
use zed_files::Telling;
use zed_filter::{Filter, FilterError, Sought, passes, sought_of};
use zed_log::{Length, marked_line_at};
use zed_refusal::{Reason, document_stop};

// The lines of the edits of a document that are all that is asked for; this is what it shows.
fn lines_of(
    alloc: Global,
    document: &Document,
    view: &View,
    length: Length,
    sought: &Sought,
) -> Result<Vec<u8>, AllocError>
    ensures { IfOk result (λ text. text.items ≡ log_at length (is_held document.now.edits)
        (filter (passes_all view.now sought.now) document.now.edits)) }
{
    let mut text = Vec::new(alloc);
    for edit in document.edits() {
        if passes(view, sought, edit) {
            marked_line_at(edit, document.is_held(edit.stamp), length, &mut text)?;
        }
    }
    Ok(text)
}

// The same of a document that isn't stale.
fn lines_sought(
    alloc: Global,
    document: &Document,
    length: Length,
    sought: &Sought,
) -> Result<Vec<u8>, Stop<Reason>>
    requires sound { document.now.is_stale ≡ false }
    ensures { MatchResult result
        (λ text. text.items ≡ log_at length (is_held document.now.edits)
        (filter (passes_all (replay document.now.edits) sought.now) document.now.edits))
        (λ e. e ≡ Memory) }
{
    let view = match document.view() {
        Ok(view) => view,
        Err(error) => return Err(document_stop(error)),
    };
    Ok(lines_of(alloc, document, &view, length, sought)?)
}

// Why it stops at a filter.
fn filter_stop(error: FilterError) -> Stop<Reason>
    ensures { result ≡ filtering_stop error }
{
    match error {
        FilterError::NoBoard => Stop::Refused(Reason::NoBoard),
        FilterError::OutOfRange => Stop::Refused(Reason::OutOfRange),
    }
}

/// The lines of the edits that pass a filter, of a document that isn't stale. Refusals, in order:
/// NoBoard if there is no board of the filter's number, or none of its name was made; OutOfRange if
/// its cell is outside the table; NoBoard if the cell's board isn't there.
pub(crate) fn log_text(
    alloc: Global,
    document: &Document,
    length: Length,
    filter: &Filter,
) -> Result<Vec<u8>, Stop<Reason>>
    requires sound { document.now.is_stale ≡ false }
    ensures { MatchResult result
        (λ text. log_of length filter.now document.now.edits ≡ Ok text.items)
        (λ e. (e ≡ Memory) ⊎ (log_of length filter.now document.now.edits ≡ Err e)) }
{
    match sought_of(document, filter) {
        Ok(sought) => lines_sought(alloc, document, length, &sought),
        Err(error) => Err(filter_stop(error)),
    }
}

/// `log` prints a line for each edit that passes a filter, short or in full, in stamp order, in the
/// forms of docs/LOG.md. Held edits have a mark in front. Refusals, in order: those of reading the
/// files; NoBoard if there is no board of the filter's number, or none of its name was made;
/// OutOfRange if its cell is outside the table; NoBoard if the cell's board isn't there.
#[derive(Drop)]
pub struct Log {
    pub length: Length,
    pub filter: Filter,
}

impl Telling for Log {
    ghost use Rattle.cmd_log.specs.Logged.{logs};

    ghost tells = { λ s. logs s.length s.filter };

    fn tell(&self, alloc: Global, document: &Document) -> Result<Effect, Stop<Reason>> {
        let text = log_text(alloc, document, self.length, &self.filter)?;
        Ok(Effect::prints(alloc, text, 0))
    }
}

/// Without a filter, each edit has its line, and no filter is refused.
#[tactic(auto, using(crate::proofs::Unfiltered::tells_all))]
pub fn no_filter_leaves_an_edit_out()
    ensures { TellsAllUnfiltered }
{}
