//! Insertions into a text by position.

// Bytes that an author puts into a text.

ghost use Rattle.std.specs.Prelude.{◌≡◌, ◌≢◌, ◌⊎◌, ◌++◌, ◌∷◌, ◌-◌, [], if◌then◌else◌, false, is_ok, length, nat_le, Ok, Err, OnErr, OnOk, MatchBool};
ghost use Rattle.zed_edit.specs.Document.{text as text_shown, elements};
ghost use Rattle.zed_edit.specs.Replay.{replay};
ghost use Rattle.zed_document.specs.Authoring.{AnswersInsertion, MayTakeMemoryAt, authored, insertion_at, with_bytes, byte_before};
ghost use Rattle.zed_document.specs.Counts.{NoCountFalls};
ghost use Rattle.zed_document.specs.Reading.{TellsOfText};

use crate::document::Document;
use crate::error::DocumentError;
use zed_edit::{Edit, Op};
use zed_history::next_stamp;
use zed_laws::{replay_goes_edit_by_edit, texts_keep_names};
use zed_types::{Bytes, ElemId, TextId};
use zed_view::View;

/// The name of the byte before a position, none at the head.
fn name_before(view: &View, text: TextId, position: usize) -> Result<Option<ElemId>, DocumentError>
    ensures { MatchBool (nat_le position (length (text_shown view.now text)))
        (result ≡ Ok (byte_before (elements view.now text) position))
        (result ≡ Err DocumentError.OutOfRange) }
{
    if position == 0 {
        return Ok(None);
    }
    match view.name_at(text, position - 1) {
        Some(name) => Ok(Some(name)),
        None => Err(DocumentError::OutOfRange),
    }
}

impl Document {
    /// The name of the byte before a position of a text.
    fn place_at(&self, text: TextId, position: usize) -> Result<Option<ElemId>, DocumentError>
        ensures { TellsOfText self.now text (λ r. MatchBool
            (nat_le position (length (text_shown (replay self.now.edits) text)))
            (r ≡ Ok (byte_before (elements (replay self.now.edits) text) position))
            (r ≡ Err DocumentError.OutOfRange)) result }
    {
        let view = self.view_with(text)?;
        name_before(&view, text, position)
    }

    /// Puts bytes into a text at a position among its alive bytes: after the one before it, or at
    /// the head. Refusals, in order: Stale; NoSuch if the text wasn't made; OutOfRange if the
    /// position is beyond its length; ClockSpent; BadEdit if the edit doesn't fit; Memory. A
    /// refusal leaves the set of edits as it was; after Memory the document may be stale.
    pub fn insert_text(
        &mut self,
        replica: u16,
        text: TextId,
        position: usize,
        bytes: Bytes,
    ) -> Result<Edit, DocumentError>
        ensures result { (result ≡ Err DocumentError.Memory)
            ⊎ AnswersInsertion self.old replica text position bytes result }
        ensures edits { self.new.edits ≡ (if is_ok result
            then self.old.edits ++ authored self.old.edits replica
            (insertion_at self.old.edits text position bytes) ∷ []
            else self.old.edits) }
        ensures shows { OnOk result (text_shown (replay self.new.edits) text
            ≡ with_bytes position bytes (text_shown (replay self.old.edits) text)) }
        ensures world { self.new.world ≡ self.old.world }
        ensures sound { OnOk result (self.new.is_stale ≡ false) }
        ensures stale { (result ≢ Err DocumentError.Memory)
            → self.new.is_stale ≡ self.old.is_stale }
        ensures kept { OnErr result ((result ≢ Err DocumentError.Memory) → self.new ≡ self.old) }
        ensures refused { result ≡ Err DocumentError.Memory
            → self.new.is_stale ≡ false → self.new ≡ self.old }
        ensures visits { OnOk result (NoCountFalls self.old.counts self.new.counts) }
        ensures memory_only_when { result ≡ Err DocumentError.Memory
            → MayTakeMemoryAt self.old replica text position bytes }
    {
        match self.place_at(text, position) {
            Ok(after) => match next_stamp(self.edits(), replica) {
                Some(stamp) => {
                    texts_keep_names();
                    replay_goes_edit_by_edit();
                    self.make(Edit {
                        stamp,
                        op: Op::TextInsert(text, after, bytes),
                    })
                }
                None => Err(DocumentError::ClockSpent),
            },
            Err(error) => Err(error),
        }
    }
}
