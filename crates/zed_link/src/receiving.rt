//! Edit files received over a link.
ghost use Rattle.std.specs.Prelude.{◌≡◌, ◌≢◌, ◌≤◌, ◌+◌, ◌↔◌, List, [], ◌∷◌, length, take, true, false, Some, None, Ok, Err, IfOk, IfErr, IfSome, ℕ, OnOk, OnErr, MatchResult};
ghost use Rattle.zed_types.specs.declared.stamp.Stamp.{Stamp as TheStamp};
ghost use Rattle.zed_document.specs.Counts.{NoCountFalls};
ghost use Rattle.zed_document.specs.Delivery.{MayTakeMemoryFor};
ghost use Rattle.zed_op.specs.declared.op.Edit.{Edit as TheEdit};
ghost use Rattle.zed_op.specs.Fit.{Fits};
ghost use Rattle.zed_op.specs.Set.{AllFit};
ghost use Rattle.zed_editfile.specs.Stream.{Feeds};
ghost use Rattle.zed_host.specs.Counting.{Counts};
ghost use Rattle.zed_link.specs.Counting.{Counted};
ghost use Rattle.zed_link.specs.Ends.{Changed, FailedBehind, HandedAll, HandedOver, KeepsPace};
ghost use Rattle.zed_link.specs.Pieces.{DeliversCounting, DeliversOne, HasRoomFor, IsPassed, StopsInPiece, TakesPiece};
ghost use Rattle.zed_link.specs.Pull.{Pull, StopsAtDelivery, StopsForMemory, most_reads};
ghost use Rattle.zed_link.specs.Refusals.{is_fault};
ghost use Rattle.zed_link.specs.Tally.{state_in};

use crate::error::LinkError;
use crate::link::{Link, LinkFailed};
use crate::pulled::Pulled;
use std::alloc::Global;
use std::mem::replace;
use zed_document::{Document, DocumentError, Intake, State};
use zed_edit::Edit;
use zed_editfile::{EditReader, fronts_are_read, stamp_ahead};

/// The most bytes that one read asks for.
const PIECE: usize = 4096;

/// The most records that are read at once.
const MOST_AT_ONCE: usize = 64;

/// The most reads of one pull.
const MOST_READS: u32 = 1_048_576;

/// Delivers an edit that fits.
fn deliver_one(intake: &mut Intake, edit: Edit) -> Result<State, LinkError>
    requires sound { intake.old.is_stale ≡ false }
    requires fits { Fits edit }
    ensures result { DeliversOne intake.old edit result intake.new.edits }
    ensures world { intake.new.world ≡ intake.old.world }
    ensures stale { (result ≢ Err LinkError.Memory)
        → intake.new.is_stale ≡ intake.old.is_stale }
    ensures stale_only_when { intake.new.is_stale ≢ intake.old.is_stale
        → MayTakeMemoryFor intake.old edit × (intake.new.edits ≡ intake.old.edits) }
    ensures visits { (result ≢ Err LinkError.Memory)
        → NoCountFalls intake.old.counts intake.new.counts }
{
    match intake.deliver(edit) {
        Ok(told) => Ok(told.state),
        Err(DocumentError::Clash(stamp)) => Err(LinkError::Clash(stamp)),
        // it isn't stale, and the edit fits
        Err(
            DocumentError::Memory
            | DocumentError::OtherWorld
            | DocumentError::BadEdit(_)
            | DocumentError::Stale
            | DocumentError::NoSuch
            | DocumentError::OutOfRange
            | DocumentError::ClockSpent,
        ) => Err(LinkError::Memory),
    }
}

/// Delivers edits one after the other, up to the first refusal, and counts them.
fn deliver_each(intake: &mut Intake, edits: Vec<Edit>) -> Result<Pulled, LinkError>
    requires sound { intake.old.is_stale ≡ false }
    requires fit { AllFit edits.items }
    ensures result { DeliversCounting intake.old edits.items result intake.new.edits }
    ensures world { intake.new.world ≡ intake.old.world }
    ensures stale { (result ≢ Err LinkError.Memory)
        → intake.new.is_stale ≡ intake.old.is_stale }
    ensures stale_only_when { intake.new.is_stale ≢ intake.old.is_stale
        → StopsForMemory intake.old edits.items intake.new.edits }
    ensures visits { (result ≢ Err LinkError.Memory)
        → NoCountFalls intake.old.counts intake.new.counts }
{
    let mut pulled = Pulled::NONE;
    for edit in edits {
        let state = deliver_one(intake, edit)?;
        pulled.count(state);
    }
    Ok(pulled)
}

/// Reads records, or what is there of them, and delivers the edits that they complete, before any
/// fault that they show.
#[tactic(auto, using(crate::proofs::Readings::fed_edits_fit))]
fn take_records(
    alloc: Global,
    reader: &mut EditReader,
    piece: &[u8],
    intake: &mut Intake,
) -> Result<Pulled, LinkError>
    requires sound { intake.old.is_stale ≡ false }
    ensures result { (es : List TheEdit) × Feeds piece.now [] es reader.old reader.new
        × TakesPiece intake.old es reader.new result intake.new.edits }
    ensures asked { reader.new.asked ≡ reader.old.asked }
    ensures world { intake.new.world ≡ intake.old.world }
    ensures stale { (result ≢ Err LinkError.Memory)
        → intake.new.is_stale ≡ intake.old.is_stale }
    ensures stale_only_when { intake.new.is_stale ≢ intake.old.is_stale
        → StopsInPiece intake.old piece.now reader.old reader.new intake.new.edits }
    ensures visits { (result ≢ Err LinkError.Memory)
        → NoCountFalls intake.old.counts intake.new.counts }
{
    let mut edits = Vec::new(alloc);
    let fed = reader.feed(piece, &mut edits);
    let pulled = deliver_each(intake, edits)?;
    fed?;
    Ok(pulled)
}

/// Skips the record at the front of a piece, if the document has its edit.
fn pass_known<'a>(reader: &EditReader, piece: &'a [u8], intake: &mut Intake) -> Option<&'a [u8]>
    requires sound { intake.old.is_stale ≡ false }
    ensures some { IfSome result (λ rest. (front : List ℕ) × (e : TheEdit)
        × IsPassed front e piece.now rest.now reader.now intake.old) }
    ensures kept { intake.new ≡ intake.old }
{
    let stamp = stamp_ahead(piece)?;
    intake.seek(stamp);
    reader.pass(intake.find(stamp)?, piece)
}

/// Reads what is left of a piece whose edits are delivered no more.
fn drain(alloc: Global, reader: &mut EditReader, left: &[u8])
    ensures feeds { (es : List TheEdit) × Feeds left.now [] es reader.old reader.new
        × IfSome reader.old.fault (λ f. (es ≡ []) × (reader.new ≡ reader.old)) }
    ensures asked { reader.new.asked ≡ reader.old.asked }
{
    let mut edits = Vec::new(alloc);
    let _ = reader.feed(left, &mut edits);
}

/// Reads a piece of an edit file, and delivers the edits that it completes, before any fault that it shows. A record whose edit is there
/// already is not read into an edit, unless it comes soon behind one that is new: of records that follow on a new one ever more are
/// read at once.
pub(crate) fn take_piece(
    alloc: Global,
    reader: &mut EditReader,
    piece: &[u8],
    intake: &mut Intake,
) -> Result<Pulled, LinkError>
    requires sound { intake.old.is_stale ≡ false }
    requires calm { reader.old.fault ≡ None }
    requires small { HasRoomFor piece.now reader.old }
    ensures result { (es : List TheEdit) × Feeds piece.now [] es reader.old reader.new
        × TakesPiece intake.old es reader.new result intake.new.edits }
    ensures asked { reader.new.asked ≡ reader.old.asked }
    ensures world { intake.new.world ≡ intake.old.world }
    ensures stale { (result ≢ Err LinkError.Memory)
        → intake.new.is_stale ≡ intake.old.is_stale }
    ensures stale_only_when { intake.new.is_stale ≢ intake.old.is_stale
        → StopsInPiece intake.old piece.now reader.old reader.new intake.new.edits }
    ensures visits { (result ≢ Err LinkError.Memory)
        → NoCountFalls intake.old.counts intake.new.counts }
{
    let mut pulled = Pulled::NONE;
    let mut rest = piece;
    let mut at_once = 1usize;
    while !rest.is_empty() {
        if let Some(after) = pass_known(reader, rest, intake) {
            pulled.count(State::Known);
            rest = after;
            at_once = 1;
            continue;
        }
        let (front, after) = reader.first(rest, at_once);
        at_once = at_once.saturating_mul(2).min(MOST_AT_ONCE);
        match take_records(alloc, reader, front, intake) {
            Ok(more) => pulled = pulled.plus(more),
            Err(error) => {
                drain(alloc, reader, after);
                return Err(error);
            }
        }
        rest = after;
    }
    Ok(pulled)
}

/// Reads the next bytes of a link to the front of `into`, and answers how many.
#[tactic(auto, using(crate::proofs::EndsLaws::end_comes))]
fn read_some(link: &mut dyn Link, into: &mut [u8]) -> Result<usize, LinkError>
    requires { into.old ≢ [] }
    ensures within { IfOk result (λ n. n ≤ length into.new) }
    ensures ok { IfOk result (λ n.
        Changed (HandedOver (take n into.new)) (ends link.old) (ends link.new)) }
    ensures end { result ≡ Ok 0 → Changed (HandedAll []) (ends link.old) (ends link.new) }
    ensures pace { IfOk result (λ n. KeepsPace n (length into.old) (ends link.old)) }
    ensures half { OnErr result (Changed (FailedBehind []) (ends link.old) (ends link.new)) }
    ensures err { IfErr result (λ e. e ≡ LinkError.LinkFault) }
    ensures length { length into.new ≡ length into.old }
    ensures reads { Counted 1 (reads link.old) (reads link.new) }
    ensures failures { Counts (is_fault result) (failed link.old) (failed link.new) }
    ensures writes { writes link.new ≡ writes link.old }
    ensures stalls { stalls link.new ≡ stalls link.old }
    ensures accepts { accepts link.new ≡ accepts link.old }
{
    match link.read(into) {
        Ok(count) => Ok(count),
        Err(LinkFailed) => Err(LinkError::LinkFault),
    }
}

/// The same into an intake whose document isn't stale, which takes the edits of many files with the work of one.
pub fn receive_into(
    alloc: Global,
    link: &mut dyn Link,
    intake: &mut Intake,
) -> Result<Pulled, LinkError>
    requires sound { intake.old.is_stale ≡ false }
    ensures pull { Pull intake.old (ends link.old) (ends link.new) (reads link.old)
        (reads link.new) result intake.new.edits }
    ensures world { intake.new.world ≡ intake.old.world }
    ensures stale { (result ≢ Err LinkError.Memory)
        → intake.new.is_stale ≡ intake.old.is_stale }
    ensures stale_only_when { intake.new.is_stale ≢ intake.old.is_stale
        → StopsAtDelivery intake.old (ends link.old) (ends link.new) intake.new.edits }
    ensures visits { (result ≢ Err LinkError.Memory)
        → NoCountFalls intake.old.counts intake.new.counts }
    ensures reads { reads link.new ≤ reads link.old + most_reads }
    ensures failures { Counts (is_fault result) (failed link.old) (failed link.new) }
    ensures writes { writes link.new ≡ writes link.old }
    ensures stalls { stalls link.new ≡ stalls link.old }
    ensures accepts { accepts link.new ≡ accepts link.old }
{
    // no fault in the midst is taken for a cut end
    fronts_are_read();
    let mut reader = EditReader::new(alloc, Some(intake.world()));
    let mut pulled = Pulled::NONE;
    let mut buffer = [0; PIECE];
    for reads in 0..MOST_READS {
        let count = read_some(link, &mut buffer)?;
        if count == 0 {
            reader.finish()?;
            return Ok(pulled);
        }
        let (piece, _) = buffer.split_at(count);
        pulled = pulled.plus(take_piece(alloc, &mut reader, piece, intake)?);
    }
    Err(LinkError::TooManyTurns)
}

/// Reads an edit file of the document's world from a link, to the end of input, and delivers each of its edits as soon as it is whole.
///
/// # Errors
/// Stale comes first, before any read. After that the first refusal ends it, and nothing more is
/// read: LinkFault if a read fails; the refusals of an edit file; Clash; Memory, after which the
/// document may be stale if a delivery wanted it, but not if the reader alone did; TooManyTurns
/// after 1,048,576 reads that weren't the end. What was delivered before stays. Except after
/// Memory, no count of looks is lower than before.
pub fn receive(
    alloc: Global,
    link: &mut dyn Link,
    document: &mut Document,
) -> Result<Pulled, LinkError>
    ensures pull { document.old.is_stale ≡ false
        → Pull document.old (ends link.old) (ends link.new) (reads link.old) (reads link.new)
        result document.new.edits }
    ensures stale_first { (result ≡ Err LinkError.Stale) ↔ (document.old.is_stale ≡ true) }
    ensures kept { document.old.is_stale ≡ true
        → (document.new ≡ document.old) × (link.new ≡ link.old) }
    ensures world { document.new.world ≡ document.old.world }
    ensures stale { (result ≢ Err LinkError.Memory)
        → document.new.is_stale ≡ document.old.is_stale }
    ensures stale_only_when { document.new.is_stale ≢ document.old.is_stale
        → StopsAtDelivery document.old (ends link.old) (ends link.new) document.new.edits }
    ensures visits { (result ≢ Err LinkError.Memory)
        → NoCountFalls document.old.counts document.new.counts }
    ensures reads { reads link.new ≤ reads link.old + most_reads }
    ensures failures { Counts (is_fault result) (failed link.old) (failed link.new) }
    ensures writes { writes link.new ≡ writes link.old }
    ensures stalls { stalls link.new ≡ stalls link.old }
    ensures accepts { accepts link.new ≡ accepts link.old }
{
    if document.view().is_err() {
        return Err(LinkError::Stale);
    }
    let taken = replace(document, Document::new(alloc, document.world()));
    let mut intake = Intake::of(taken);
    let result = receive_into(alloc, link, &mut intake);
    *document = intake.close();
    result
}
