//! One way of the bytes of edit files into a document.
ghost use Rattle.std.specs.Prelude.{◌≡◌, ◌≢◌, ℕ, List, [], Some, None, Err, true, false, IfSome, OnOk};
ghost use Rattle.zed_document.specs.Counts.{NoCountFalls};
ghost use Rattle.zed_op.specs.declared.op.Edit.{Edit as TheEdit};
ghost use Rattle.zed_editfile.specs.Stream.{AreRecords, Feeds, IsTextOf, Reads, ending, verdict_of};
ghost use Rattle.zed_link.specs.Pieces.{HasRoomFor, StopsInPiece, TakesPiece};

use crate::error::LinkError;
use crate::pulled::Pulled;
use crate::receiving::take_piece;
use std::alloc::Global;
use std::marker::Model;
use zed_document::{Document, Intake};
use zed_editfile::{EditFileError, EditReader};

/// A document into which edit files of its world are read, each in any pieces. Contracts see where the reader of the file is, and the document.
#[derive(Drop)]
pub struct Feed {
    alloc: Global,
    reader: EditReader,
    intake: Intake,
}

impl Model for Feed {
    ghost use Rattle.zed_link.specs.Feed.{FeedState};

    ghost Value = { FeedState };

    ghost view = { λ f. record { progress = f.reader; document = f.intake } };
}

impl Feed {
    /// A feed into a document, before the first file. Takes no memory.
    pub fn of(alloc: Global, document: Document) -> Feed
        ensures document { result.document ≡ document }
        ensures begins { result.progress ≡ record { asked = Some document.world; world = None; version = 0; rest = []; fault = None } }
        ensures reads { Reads [] [] result.progress }
    {
        let intake = Intake::of(document);
        Feed {
            alloc,
            reader: EditReader::new(alloc, Some(intake.world())),
            intake,
        }
    }

    /// The number of the document's world. Takes no memory.
    pub fn world(&self) -> u64
        ensures { result ≡ self.now.document.world }
    {
        self.intake.world()
    }

    /// Takes the next piece of a file, and delivers the edits of the records that it completes, before any fault that it shows.
    pub fn put(&mut self, piece: &[u8]) -> Result<Pulled, LinkError>
        requires sound { self.old.document.is_stale ≡ false }
        requires calm { self.old.progress.fault ≡ None }
        requires small { HasRoomFor piece.now self.old.progress }
        ensures result { (es : List TheEdit) × Feeds piece.now [] es self.old.progress self.new.progress
            × TakesPiece self.old.document es self.new.progress result self.new.document.edits }
        ensures asked { self.new.progress.asked ≡ self.old.progress.asked }
        ensures world { self.new.document.world ≡ self.old.document.world }
        ensures stale { (result ≢ Err LinkError.Memory)
            → self.new.document.is_stale ≡ self.old.document.is_stale }
        ensures stale_only_when { self.new.document.is_stale ≢ self.old.document.is_stale
            → StopsInPiece self.old.document piece.now self.old.progress self.new.progress
            self.new.document.edits }
        ensures visits { (result ≢ Err LinkError.Memory)
            → NoCountFalls self.old.document.counts self.new.document.counts }
    {
        take_piece(self.alloc, &mut self.reader, piece, &mut self.intake)
    }

    /// Whether the file may end here. Takes no memory.
    pub fn finish(&self) -> Result<(), EditFileError>
        ensures result { result ≡ verdict_of (ending self.now.progress) }
        ensures whole { OnOk result ((bytes : List ℕ) (found : List TheEdit)
            → Reads bytes found self.now.progress
            → (world : ℕ) × (self.now.progress.world ≡ Some world) × AreRecords found
            × IsTextOf world found bytes) }
    {
        self.reader.finish()
    }

    /// Begins the next file of the document's world. Takes no memory.
    pub fn begin(&mut self)
        ensures document { self.new.document ≡ self.old.document }
        ensures begins { self.new.progress ≡ record { asked = Some self.old.document.world; world = None; version = 0; rest = []; fault = None } }
        ensures reads { Reads [] [] self.new.progress }
    {
        self.reader = EditReader::new(self.alloc, Some(self.intake.world()));
    }

    /// The document with the edits that it took. Takes no memory.
    pub fn close(self) -> Document
        ensures { result ≡ self.document }
    {
        self.intake.close()
    }
}
