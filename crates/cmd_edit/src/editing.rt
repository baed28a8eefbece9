//! The command `edit`: an action of an author on an edit file.
ghost use Rattle.std.specs.Prelude.{◌≡◌, ◌≤◌, ◌⊎◌, Err, MatchResult, Ok, false};
ghost use Rattle.zed_driver.specs.declared.command.Stop.TheVariants.{Memory};
ghost use Rattle.zed_files.specs.Texts.{texts_of};
ghost use Rattle.cmd_edit.specs.Edited.{ActMayTake, IsActed};

use std::alloc::Global;
use zed_action::act;
use zed_document::Document;
use zed_driver::Stop;
use zed_edit::Cause;
use zed_files::Action;
use zed_refusal::{Reason, action_stop};

// Does the action of these words on a document. Memory is lacking only where the words, and what they
// do, may take some.
fn acted(
    alloc: Global,
    document: &mut Document,
    replica: u16,
    words: &[&str],
) -> Result<(), Stop<Reason>>
    requires sound { document.old.is_stale ≡ false }
    requires replica { 1 ≤ replica }
    ensures acted { MatchResult result
        (λ _. IsActed replica (texts_of words.now)
        (document.old.world, document.old.edits) (Ok document.new.edits))
        (λ e. ((e ≡ Memory) × ActMayTake replica (texts_of words.now)
        (document.old.world, document.old.edits))
        ⊎ IsActed replica (texts_of words.now)
        (document.old.world, document.old.edits) (Err e)) }
    ensures world { document.new.world ≡ document.old.world }
{
    match act(alloc, document, replica, words) {
        Ok(()) => Ok(()),
        Err(error) => Err(action_stop(error)),
    }
}

/// `edit` does the action of its words as a replica. Author 0 is refused before the file is read,
/// whatever is lacking.
#[derive(Drop)]
pub struct Edit<'a> {
    replica: u16,
    words: &'a [&'a str],
}

impl<'a> Edit<'a> {
    pub fn new(replica: u16, words: &'a [&'a str]) -> Edit<'a>
        ensures replica { result.replica ≡ replica }
        ensures words { result.words ≡ words.entry }
    {
        Edit { replica, words }
    }
}

impl Action for Edit<'_> {
    ghost use Rattle.cmd_edit.specs.Edited.{ActMayTake, IsActed, no_author};
    ghost use Rattle.zed_files.specs.Texts.{texts_of};

    type Refusal = Reason;

    ghost refusal_for = { λ reason. reason };

    ghost refuses = { λ s. no_author s.replica };

    ghost Does = { λ s. IsActed s.replica (texts_of s.words.now) };

    ghost MayTake = { λ s. ActMayTake s.replica (texts_of s.words.now) };

    fn refused_for(reason: Reason) -> Reason
        ensures { result ≡ reason }
    {
        reason
    }

    fn refused(&self) -> Option<Reason> {
        if self.replica == 0 {
            Some(Reason::BadEdit(Cause::Stamp))
        } else {
            None
        }
    }

    fn act(&self, alloc: Global, document: &mut Document) -> Result<(), Stop<Reason>> {
        acted(alloc, document, self.replica, self.words)
    }
}
