//! What a document has under the numbers of boards and stats.
ghost use Rattle.std.specs.Prelude.{◌≡◌, ◌⊎◌, ◌<◌, length, Err, IsOkAnd};
ghost use Rattle.zed_edit.specs.Numbers.{board_numbered as board_of_number, stat_numbered};
ghost use Rattle.zed_laws.specs.NameOrder.{IsOrdered};
ghost use Rattle.zed_edit.specs.Document.{text as text_shown};
ghost use Rattle.zed_edit.specs.Replay.{replay};
ghost use Rattle.zed_document.specs.Counts.{count_of};
ghost use Rattle.zed_document.specs.Reading.{unless_stale, unless_no_text, TellsOfText, text_of as text_of_stat};

use crate::document::Document;
use crate::error::DocumentError;
use std::alloc::Global;
use zed_laws::replay_is_ordered;
use zed_types::{BoardId, StatId, TextId};
use zed_view::{View, append_text};

/// The name of the board with this number. Each walk through the boards finds 101 more. No walk
/// takes memory.
fn board_numbered(alloc: Global, view: &View, n: usize) -> Option<BoardId>
    requires { IsOrdered view.now }
    ensures { result ≡ board_of_number view.now n }
{
    let mut first = view.first_boards(alloc, None);
    for _walk in 0..n / 101 {
        let Some(last) = first.as_slice().get(100) else {
            return None;
        };
        first = view.first_boards(alloc, Some(view.standing_of(*last)));
    }
    match first.as_slice().get(n % 101) {
        Some(i) => {
            let (id, _) = view.board(*i);
            Some(id)
        }
        None => None,
    }
}

impl Document {
    /// The board with this number, if there is one: boards that aren't removed are numbered from 0,
    /// the title first. Stale if the document is.
    pub fn board(&self, n: usize) -> Result<Option<BoardId>, DocumentError>
        ensures { result ≡ unless_stale self.now (board_of_number (replay self.now.edits) n) }
    {
        // Its contract says that the edits rise, as the law wants it.
        self.edits();
        replay_is_ordered();
        match self.view() {
            Ok(view) => Ok(board_numbered(self.alloc(), &view, n)),
            Err(error) => Err(error),
        }
    }

    /// The stat with this number on a board, if there is one: the stats of a board that aren't
    /// removed are numbered from 0, the player first. Stale if the document is.
    pub fn stat(&self, board: BoardId, n: usize) -> Result<Option<StatId>, DocumentError>
        ensures { result ≡ unless_stale self.now (stat_numbered (replay self.now.edits) board n) }
    {
        match self.view() {
            Ok(view) => Ok(view.stat_numbered(board, n)),
            Err(error) => Err(error),
        }
    }

    /// The text of a stat, removed or not, if it has one. Stale if the document is.
    pub fn text_of(&self, stat: StatId) -> Result<Option<TextId>, DocumentError>
        ensures { result ≡ unless_stale self.now (text_of_stat (replay self.now.edits) stat) }
    {
        match self.view() {
            Ok(view) => match view.text_of_stat(stat) {
                Some(text) => Ok(text),
                None => Ok(None),
            },
            Err(error) => Err(error),
        }
    }

    /// What the document shows, of a text that was made.
    pub(crate) fn view_with(&self, text: TextId) -> Result<View<'_>, DocumentError>
        ensures { TellsOfText self.now text
            (λ r. IsOkAnd r (λ v. v ≡ replay self.now.edits)) result }
    {
        match self.view() {
            Ok(view) => {
                if view.has_text(text) {
                    Ok(view)
                } else {
                    Err(DocumentError::NoSuch)
                }
            }
            Err(error) => Err(error),
        }
    }

    /// How many alive bytes a text has. Refusals, in order: Stale; NoSuch if the text wasn't made.
    pub fn length(&self, text: TextId) -> Result<usize, DocumentError>
        ensures { result
            ≡ unless_no_text self.now text (length (text_shown (replay self.now.edits) text)) }
    {
        match self.view_with(text) {
            Ok(view) => Ok(view.length(text)),
            Err(error) => Err(error),
        }
    }

    /// How many runs of a text were looked at. Refusals, in order: Stale; NoSuch if the text wasn't
    /// made.
    pub fn visits(&self, text: TextId) -> Result<u64, DocumentError>
        ensures { result ≡ unless_no_text self.now text (count_of text self.now.counts) }
    {
        match self.view_with(text) {
            Ok(_) => Ok(self.visits_at(text)),
            Err(error) => Err(error),
        }
    }

    /// The alive bytes of a text. Refusals, in order: Stale; NoSuch if the text wasn't made;
    /// Memory.
    pub fn text(&self, text: TextId) -> Result<Vec<u8>, DocumentError>
        ensures result { TellsOfText self.now text (λ r. (r ≡ Err DocumentError.Memory)
            ⊎ IsOkAnd r (λ bytes. bytes.items ≡ text_shown (replay self.now.edits) text)) result }
        ensures memory_only_when { result ≡ Err DocumentError.Memory
            → 0 < length (text_shown (replay self.now.edits) text) }
    {
        match self.view_with(text) {
            Ok(view) => {
                let mut bytes = Vec::new(self.alloc());
                match append_text(&view, text, &mut bytes) {
                    Ok(()) => Ok(bytes),
                    Err(_) => Err(DocumentError::Memory),
                }
            }
            Err(error) => Err(error),
        }
    }
}
