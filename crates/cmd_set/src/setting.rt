//! Setting what an author's words say, in an edit file.
ghost use Rattle.std.specs.Prelude.{◌≡◌, ◌⊎◌, Err, MatchResult, Ok, false};
ghost use Rattle.cmd_set.specs.declared.reason.SetReason.TheVariants.{Common};
ghost use Rattle.cmd_set.specs.Setting.{IsDone, MayTakeOn};
ghost use Rattle.zed_driver.specs.declared.command.Stop.TheVariants.{Memory};

use crate::grant;
use crate::reason::{SetReason, set_stop};
use std::alloc::Global;
use zed_document::Document;
use zed_driver::Stop;
use zed_edit::Cause;
use zed_files::Action;
use zed_refusal::Reason;
use zed_set_words::{Wish, wish};

// A document gets what a wish of a replica comes to. Memory is lacking only where that may take some.
fn granted(
    alloc: Global,
    document: &mut Document,
    replica: u16,
    wish: Wish,
) -> Result<(), Stop<SetReason>>
    requires { document.old.is_stale ≡ false }
    ensures done { MatchResult result
        (λ _. IsDone replica wish.entry (document.old.world, document.old.edits)
        (Ok document.new.edits))
        (λ e. ((e ≡ Memory)
        × MayTakeOn replica wish.entry (document.old.world, document.old.edits))
        ⊎ IsDone replica wish.entry (document.old.world, document.old.edits) (Err e)) }
    ensures world { document.new.world ≡ document.old.world }
{
    match grant(alloc, document, replica, wish) {
        Ok(()) => Ok(()),
        Err(error) => Err(set_stop(error)),
    }
}

/// Sets what the words say, as the author with this number: what `Rewrites` does with an edit file.
/// The words are `world`, `board` or `stat`, what of it, and the value, as in docs/SET.md. This
/// makes one edit, or two for a column and a row, even if nothing changes.
///
/// Refusals, in order: `BadWord` for the first wrong word, and `BadEdit` with `Stamp` for author 0,
/// before any file is read; those of reading an edit file; `NoSuch` for a number without a board or
/// stat, and for a stat without a text that is to be shared; those of making an edit, such as
/// `NoSuch` for a name of nothing.
#[derive(Drop)]
pub struct Set<'a> {
    replica: u16,
    words: &'a [&'a str],
}

impl<'a> Set<'a> {
    /// What these words say, as this author.
    pub fn new(replica: u16, words: &'a [&'a str]) -> Set<'a>
        ensures replica { result.replica ≡ replica }
        ensures words { result.words ≡ words.entry }
    {
        Set { replica, words }
    }
}

impl<'a> Action for Set<'a> {
    ghost use Rattle.cmd_set.specs.declared.reason.SetReason.TheVariants.{Common};
    ghost use Rattle.cmd_set.specs.Setting.{DoesWish, MayTakeFor, first_refusal};
    ghost use Rattle.zed_set_words.specs.Readers.{words_of};
    ghost use Rattle.zed_set_words.specs.Rows.{wish_of};

    type Refusal = SetReason;

    ghost refusal_for = { Common };

    ghost refuses = { λ s. first_refusal s.replica (wish_of (words_of s.words.now)) };

    ghost Does = { λ s. DoesWish s.replica (wish_of (words_of s.words.now)) };

    ghost MayTake = { λ s. MayTakeFor s.replica (wish_of (words_of s.words.now)) };

    fn refused_for(reason: Reason) -> SetReason
        ensures { result ≡ Common reason }
    {
        SetReason::Common(reason)
    }

    fn refused(&self) -> Option<SetReason> {
        match wish(self.words) {
            Err(bad) => Some(SetReason::BadWord(bad)),
            Ok(_) => {
                if self.replica == 0 {
                    Some(SetReason::Common(Reason::BadEdit(Cause::Stamp)))
                } else {
                    None
                }
            }
        }
    }

    fn act(&self, alloc: Global, document: &mut Document) -> Result<(), Stop<SetReason>> {
        match wish(self.words) {
            Ok(wish) => granted(alloc, document, self.replica, wish),
            // it is refused before
            Err(bad) => Err(Stop::Refused(SetReason::BadWord(bad))),
        }
    }
}
