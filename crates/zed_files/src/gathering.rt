//! The document of edits that come file by file.
ghost use Rattle.std.specs.Prelude.{◌≡◌, ◌≢◌, ◌≤◌, ◌<◌, ◌++◌, ◌⊎◌, ℕ, [], List, Option, Some, None, Ok, Err, IfErr, IfNone, IfOk, IfSome, IsSomeAnd, MatchOption, MatchResult, OnErr, OnOk, drop, false, is_some, length, true};
ghost use Rattle.byteorder.specs.Endian.{little_number};
ghost use Rattle.zed_types.specs.declared.stamp.Stamp.{Stamp as TheStamp};
ghost use Rattle.zed_op.specs.declared.op.Edit.{Edit as TheEdit};
ghost use Rattle.zed_op.specs.Set.{Agrees, AllFit, set_of};
ghost use Rattle.zed_document.specs.Delivery.{DeliversEach, IsFirstClash, unless_clash};
ghost use Rattle.zed_editfile.specs.Stream.{Feeds, verdict_of};
ghost use Rattle.zed_link.specs.Pieces.{HasRoomFor, TakesPiece};
ghost use Rattle.zed_files.specs.Asked.{refusal_in};
ghost use Rattle.zed_files.specs.Collected.{CameInto, IsOf, TookInto, first_refusal, world_in};
ghost use Rattle.zed_files.specs.Files.{ReadsFile, WantsMemory};

use crate::refusal::Refusal;
use std::alloc::Global;
use zed_document::{Document, deliveries_come_to_sets};
use zed_edit::Edit;
use zed_editfile::{EditFileError, EditReader, world_ahead};
use zed_link::{Feed, LinkError, deliveries_go_on};
use zed_types::Stamp;

/// The clash that a feed was refused for, if it was one. A fault of the file is told at its end.
fn clash_in(refusal: LinkError) -> Result<Option<Stamp>, Refusal>
    ensures { MatchResult result
        (λ clash. MatchOption clash
        ((refusal ≢ LinkError.Memory) × ((s : TheStamp) → refusal ≢ LinkError.Clash s))
        (λ s. refusal ≡ LinkError.Clash s))
        (λ e. (e ≡ Refusal.Memory) × (refusal ≡ LinkError.Memory)) }
{
    match refusal {
        LinkError::Memory => Err(Refusal::Memory),
        LinkError::Clash(stamp) => Ok(Some(stamp)),
        _ => Ok(None),
    }
}

/// Delivers the edits of a file up to the first that clashes, whose stamp is told, and reads it to its end.
fn deliver(feed: &mut Feed, bytes: &[u8]) -> Result<Option<Stamp>, Refusal>
    requires sound { feed.old.document.is_stale ≡ false }
    requires calm { feed.old.progress.fault ≡ None }
    requires small { HasRoomFor bytes.now feed.old.progress }
    ensures took { IfOk result (λ clash. (es : List TheEdit)
        × Feeds bytes.now [] es feed.old.progress feed.new.progress
        × DeliversEach feed.old.document es (unless_clash clash) feed.new.document.edits) }
    ensures asked { feed.new.progress.asked ≡ feed.old.progress.asked }
    ensures world { feed.new.document.world ≡ feed.old.document.world }
    ensures sound { OnOk result (feed.new.document.is_stale ≡ false) }
    ensures err { IfErr result (λ e. e ≡ Refusal.Memory) }
    ensures memory_only_when { OnErr result ((es : List TheEdit)
        × Feeds bytes.now [] es feed.old.progress feed.new.progress
        × TakesPiece feed.old.document es feed.new.progress (Err LinkError.Memory)
        feed.new.document.edits) }
{
    match feed.put(bytes) {
        Ok(_) => Ok(None),
        Err(refusal) => clash_in(refusal),
    }
}

/// What is wrong with a file, by what its reader answers at the end.
fn fault_at(end: Result<(), EditFileError>) -> Result<Option<EditFileError>, Refusal>
    ensures { MatchResult result
        (λ fault. (end ≡ verdict_of fault) × (fault ≢ Some EditFileError.Memory))
        (λ e. (e ≡ Refusal.Memory) × (end ≡ Err EditFileError.Memory)) }
{
    match end {
        Ok(()) => Ok(None),
        Err(EditFileError::Memory) => Err(Refusal::Memory),
        Err(error) => Ok(Some(error)),
    }
}

/// Reads a file of which nothing is delivered.
fn read_past(
    alloc: Global,
    asked: Option<u64>,
    bytes: &[u8],
) -> Result<Option<EditFileError>, Refusal>
    ensures file { IfOk result (λ fault. (es : List TheEdit) × (world : Option ℕ)
        × ReadsFile asked bytes.now es fault world) }
    ensures err { IfErr result (λ e. e ≡ Refusal.Memory) }
    ensures memory_only_when { OnErr result (WantsMemory asked bytes.now) }
{
    let mut edits = Vec::new(alloc);
    let mut reader = EditReader::new(alloc, asked);
    // it answers a fault at the end again
    let _ = reader.feed(bytes, &mut edits);
    fault_at(reader.finish())
}

/// A document without edits, to be fed.
fn fresh(alloc: Global, world: u64) -> Feed
    ensures world { result.document.world ≡ world }
    ensures empty { result.document.edits ≡ [] }
    ensures sound { result.document.is_stale ≡ false }
{
    Feed::of(alloc, Document::new(alloc, world))
}

/// A document without edits of the world that is asked for, if one is.
fn begun(alloc: Global, asked: Option<u64>) -> Option<Feed>
    ensures world { world_in result ≡ asked }
    ensures nothing { CameInto [] result None }
{
    match asked {
        Some(world) => Some(fresh(alloc, world)),
        None => None,
    }
}

/// Where the next file goes. The head of the first one tells the world of all, if it isn't cut.
fn feed_for(alloc: Global, feed: Option<Feed>, bytes: &[u8]) -> Option<Feed>
    ensures next { IfSome feed (λ f. result ≡ Some f) }
    ensures first { feed ≡ None → IfSome result (λ f. (12 ≤ length bytes.now)
        × (f.document.world ≡ little_number 8 (drop 4 bytes.now))
        × (f.document.edits ≡ []) × (f.document.is_stale ≡ false)) }
    ensures none { IfNone result ((feed ≡ None) × (length bytes.now < 12)) }
{
    match feed {
        Some(feed) => Some(feed),
        None => begun(alloc, world_ahead(bytes)),
    }
}

/// What edit files came to so far. The edits of a file are delivered as they are read.
#[derive(Drop)]
pub(crate) struct Gathered {
    /// The document, once its world is known.
    pub(crate) feed: Option<Feed>,
    /// The first clash of two edits. Behind it none is delivered.
    pub(crate) clash: Option<Stamp>,
    /// Why a file was refused. Behind it none is read.
    pub(crate) refusal: Option<Refusal>,
}

impl Gathered {
    /// Before a file was read, of the world asked for or of any.
    pub(crate) fn new(alloc: Global, asked: Option<u64>) -> Gathered
        ensures world { world_in result.feed ≡ asked }
        ensures nothing { CameInto [] result.feed result.clash }
        ensures refusal { result.refusal ≡ None }
    {
        Gathered {
            feed: begun(alloc, asked),
            clash: None,
            refusal: None,
        }
    }

    /// The world of the files, where it is known.
    pub(crate) fn world(&self) -> Option<u64>
        ensures { result ≡ world_in self.now.feed }
    {
        match &self.feed {
            Some(feed) => Some(feed.world()),
            None => None,
        }
    }

    /// Reads a file of the world of a document into it. That is the document of all files then.
    fn read_into(&mut self, mut feed: Feed, bytes: &[u8]) -> Result<Option<EditFileError>, Refusal>
        requires sound { feed.document.is_stale ≡ false }
        ensures took { IfOk result (λ fault. (es : List TheEdit)
            × ReadsFile (Some feed.document.world) bytes.now es fault (Some feed.document.world)
            × IsSomeAnd self.new.feed (TookInto feed.document es self.new.clash)) }
        ensures err { IfErr result (λ e. e ≡ Refusal.Memory) }
        ensures memory_only_when { OnErr result (WantsMemory (Some feed.document.world) bytes.now) }
        ensures refusal { self.new.refusal ≡ self.old.refusal }
    {
        feed.begin();
        self.clash = deliver(&mut feed, bytes)?;
        let fault = fault_at(feed.finish())?;
        self.feed = Some(feed);
        Ok(fault)
    }

    /// Reads the next file, and delivers its edits, unless two edits clashed before. Tells what is wrong with it.
    pub(crate) fn read(
        &mut self,
        alloc: Global,
        bytes: &[u8],
    ) -> Result<Option<EditFileError>, Refusal>
        requires sound { self.old.clash ≡ None
            → IfSome self.old.feed (λ f. f.document.is_stale ≡ false) }
        ensures took { (es : List TheEdit) → AllFit es → CameInto es self.old.feed self.old.clash
            → IfOk result (λ fault. (more : List TheEdit)
            × ReadsFile (world_in self.old.feed) bytes.now more fault (world_in self.new.feed)
            × CameInto (es ++ more) self.new.feed self.new.clash) }
        ensures err { IfErr result (λ e. e ≡ Refusal.Memory) }
        ensures memory_only_when { OnErr result (WantsMemory (world_in self.old.feed) bytes.now) }
        ensures refusal { self.new.refusal ≡ self.old.refusal }
    {
        deliveries_go_on();
        deliveries_come_to_sets();
        if self.clash.is_some() {
            return read_past(alloc, self.world(), bytes);
        }
        match feed_for(alloc, self.feed.take(), bytes) {
            Some(feed) => self.read_into(feed, bytes),
            None => read_past(alloc, None, bytes),
        }
    }

    /// What came first, or the document. All that takes memory came before, so that a clash and the refusal of a file are told whatever
    /// is lacking.
    pub(crate) fn settle(self) -> Result<Document, Refusal>
        requires whole { self.refusal ≡ None → is_some self.feed ≡ true }
        ensures refusal { refusal_in result ≡ first_refusal self.clash self.refusal }
        ensures document { IfOk result (IsOf self.feed) }
    {
        match (self.clash, self.refusal, self.feed) {
            (Some(stamp), _, _) => Err(Refusal::Clash(stamp)),
            (None, Some(refusal), _) => Err(refusal),
            (None, None, Some(feed)) => Ok(feed.close()),
            (None, None, None) => Err(Refusal::NoWorld),
        }
    }
}

/// Delivers edits, in the order in which they came, to a document that has none: Clash where two have one stamp, the first such; Memory, unless there are none.
pub fn deliver_all(document: &mut Document, edits: Vec<Edit>) -> Result<(), Refusal>
    requires sound { document.old.is_stale ≡ false }
    requires empty { document.old.edits ≡ [] }
    requires fit { AllFit edits.items }
    ensures sound { OnOk result (document.new.is_stale ≡ false) }
    ensures agree { OnOk result (Agrees edits.items) }
    ensures set { OnOk result (document.new.edits ≡ set_of edits.items) }
    ensures world { document.new.world ≡ document.old.world }
    ensures err { IfErr result (λ e. (e ≡ Refusal.Memory)
        ⊎ ((s : TheStamp) × IsFirstClash edits.items s × (e ≡ Refusal.Clash s))) }
    ensures memory_only_when { IfErr result (λ e. e ≡ Refusal.Memory → edits.items ≢ []) }
{
    deliveries_come_to_sets();
    document.deliver_all(edits)?;
    Ok(())
}
