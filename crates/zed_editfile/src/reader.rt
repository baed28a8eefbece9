//! The reader of an edit file.
ghost use Rattle.std.specs.Prelude.{◌≡◌, ◌⊎◌, ◌<◌, ℕ, List, [], Option, Some, None, IfSome, IfNone, IsOk, OnOk, IfErr, Err, ◌++◌, ◌∷◌, length};
ghost use Rattle.zed_op.specs.declared.op.Edit.{Edit};
ghost use Rattle.zed_op.specs.Fit.{Fits};
ghost use Rattle.zed_editfile.specs.Known.{IsBetween, Lacks};
ghost use Rattle.zed_editfile.specs.Spelling.{IsOf, record_text};
ghost use Rattle.zed_editfile.specs.Stream.{Reads, Feeds, Steps, AreRecords, IsTextOf, ending, verdict_of};

use crate::ahead::record_len;
use crate::error::EditFileError;
use crate::known::{is_of, past_record};
use crate::laws::fitting_edits_are_records;
use crate::stream::advance;
use smallvec::SmallVec;
use std::alloc::Global;
use std::marker::Model;
use zed_op::Edit;

/// A reader of an edit file, which takes the file in any pieces. It keeps no more than the bytes of the head or the
/// record that isn't whole yet.
///
/// Contracts see the world asked for, the world and the version once the head is whole, the bytes kept, and the fault that ended it.
#[derive(Drop)]
pub struct EditReader {
    alloc: Global,
    asked: Option<u64>,
    world: Option<u64>,
    version: u8,
    kept: SmallVec<u8, 12>,
    fault: Option<EditFileError>,
}

impl Model for EditReader {
    ghost use Rattle.zed_editfile.specs.Stream.{Progress, KeepsWaiting};

    ghost Value = { Progress };

    ghost view = { λ r. record { asked = r.asked; world = r.world; version = r.version; rest = r.kept.items; fault = r.fault } };

    ghost invariant = { λ r. KeepsWaiting (record { asked = r.asked; world = r.world; version = r.version; rest = r.kept.items; fault = r.fault }) };
}

impl EditReader {
    /// A reader of a file of this world, or of any. Takes no memory.
    pub fn new(alloc: Global, asked: Option<u64>) -> EditReader
        ensures new { result ≡ record { asked = asked; world = None; version = 0; rest = []; fault = None } }
        ensures reads { Reads [] [] result }
    {
        EditReader {
            alloc,
            asked,
            world: None,
            version: 0,
            kept: SmallVec::new(alloc),
            fault: None,
        }
    }

    /// Takes the next piece of the file, and appends the edits of the records that it completes.
    ///
    /// A fault comes with the byte that shows it, after the edits before it: `Magic` at the first
    /// of three letters that differs, `NewVersion` at a version byte other than 1 and 2,
    /// `OtherWorld` at the last byte of a head with another number than the one asked for,
    /// `RecordLength` at the fourth byte of a length below 9 or above 4,194,304, `BadEdit` at the
    /// end of a record that spells no edit that fits. `Memory` comes if a growth was refused, and
    /// only where a record has a good length, no edit was read of it, and more than 12 bytes have
    /// come: so it never comes in the head, nor in place of `RecordLength`. If the record began in
    /// this piece, `Memory` comes in place of `BadEdit` only if a string comes before the fault, so
    /// never in place of `Cause::Short`, `Cause::Op` or `Cause::Tag`. After a fault, also `Memory`,
    /// each later call answers it again, and nothing changes. An empty piece changes nothing, and
    /// takes no memory.
    pub fn feed(&mut self, piece: &[u8], out: &mut Vec<Edit>) -> Result<(), EditFileError>
        // What was read of any bytes before, with the edits appended, is what is read of those bytes and the piece.
        ensures feeds { Feeds piece.now out.old.items out.new.items self.old self.new }
        // By this piece alone, and where memory may run out in it.
        ensures steps { self.old.fault ≡ None
            → Steps piece.now out.old.items out.new.items self.old self.new }
        ensures asked { self.new.asked ≡ self.old.asked }
        ensures ok { OnOk result (self.new.fault ≡ None) }
        ensures err { IfErr result (λ e. self.new.fault ≡ Some e) }
        ensures again { IfSome self.old.fault (λ e. (result ≡ Err e)
            × (self.new ≡ self.old) × (out.new.items ≡ out.old.items)) }
        ensures memory_only_when { result ≡ Err EditFileError.Memory
            → (self.old.fault ≡ Some EditFileError.Memory) ⊎ (0 < length piece.now) }
    {
        if let Some(fault) = self.fault {
            return Err(fault);
        }
        if piece.is_empty() {
            return Ok(());
        }
        match advance(
            self.alloc,
            self.asked,
            &mut self.world,
            &mut self.version,
            &mut self.kept,
            piece,
            out,
        ) {
            Ok(()) => Ok(()),
            Err(fault) => {
                self.kept.clear();
                self.fault = Some(fault);
                Err(fault)
            }
        }
    }

    /// What follows the record of an edit that is at hand, if the reader is between records and the
    /// piece begins with that record. The reader is then where it was, with one more edit. Takes no
    /// memory.
    pub fn pass<'a>(&self, edit: &Edit, piece: &'a [u8]) -> Option<&'a [u8]>
        requires { Fits edit.now }
        ensures some { IfSome result (λ rest. (piece.now ≡ record_text edit.now ++ rest.now)
            × ((before : List Edit)
            → Feeds (record_text edit.now) before (before ++ edit.now ∷ []) self.now self.now)) }
        ensures none { IfNone result (IsBetween self.now → IsOf self.now.version edit.now
            → Lacks (record_text edit.now) piece.now) }
    {
        if self.world.is_none() || self.fault.is_some() || !self.kept.is_empty() {
            return None;
        }
        if !is_of(self.version, edit) {
            return None;
        }
        fitting_edits_are_records(edit);
        past_record(piece, edit)
    }

    /// How many bytes complete the head or the record that isn't whole, or else the record at the front of a piece.
    fn missing(&self, piece: &[u8]) -> usize {
        let kept = self.kept.len();
        if self.world.is_none() {
            return 12usize.saturating_sub(kept);
        }
        if kept == 0 {
            return record_len(piece);
        }
        if kept < 4 {
            return 4usize.saturating_sub(kept);
        }
        record_len(self.kept.as_slice()).saturating_sub(kept)
    }

    /// The front of a piece that is best read at once, and what follows it. The front has so many
    /// records, the first of which may be cut. If it can be, the reader is between records after it.
    /// Only the time that reading takes depends on it. Takes no memory.
    pub fn first<'a>(&self, piece: &'a [u8], records: usize) -> (&'a [u8], &'a [u8])
        ensures whole { piece.now ≡ result.0.now ++ result.1.now }
        ensures some { 0 < length piece.now → 0 < length result.0.now }
    {
        let mut len = self.missing(piece);
        for _ in 1..records {
            let (_, rest) = piece.split_at(len.min(piece.len()));
            len = len.saturating_add(record_len(rest));
        }
        piece.split_at(len.max(1).min(piece.len()))
    }

    /// Whether the file may end here. Takes no memory.
    ///
    /// Answers the fault of an earlier `feed` again. Without one it answers `CutShort` if the head
    /// or a record is cut.
    pub fn finish(&self) -> Result<(), EditFileError>
        ensures result { result ≡ verdict_of (ending self.now) }
        // What ends well is the whole text, in one of the versions, of the edits that were read.
        ensures whole { OnOk result ((bytes : List ℕ) (found : List Edit)
            → Reads bytes found self.now
            → (world : ℕ) × (self.now.world ≡ Some world) × AreRecords found
            × IsTextOf world found bytes) }
    {
        if let Some(earlier) = self.fault {
            return Err(earlier);
        }
        if self.world.is_none() || !self.kept.is_empty() {
            return Err(EditFileError::CutShort);
        }
        Ok(())
    }

    /// The number of the world, once the whole head was read. Takes no memory.
    pub fn world(&self) -> Option<u64>
        ensures { result ≡ self.now.world }
    {
        self.world
    }
}
