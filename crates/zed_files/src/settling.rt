//! The document that edit files come to, or why there is none.
ghost use Rattle.std.specs.Prelude.{◌≡◌, ◌⊎◌, ◌++◌, ℕ, Err, IfOk, IfSome, List, MatchResult, None, Ok, OnErr, Option, Some, false, option_map};
ghost use Rattle.zed_driver.specs.declared.command.Stop.TheVariants.{Memory};
ghost use Rattle.zed_editfile.specs.declared.error.EditFileError.{EditFileError as TheFault};
ghost use Rattle.zed_op.specs.declared.op.Edit.{Edit as TheEdit};
ghost use Rattle.zed_op.specs.Set.{AllFit};
ghost use Rattle.zed_refusal.specs.Stops.{file_stop};
ghost use Rattle.zed_files.specs.Collected.{CameInto, IsOf, world_in};
ghost use Rattle.zed_files.specs.Files.{ReadsFile, WantsMemory};
ghost use Rattle.zed_files.specs.Gathers.{first_stop, stop_in};
ghost use Rattle.zed_files.specs.Rewrites.{Opens};

use crate::gathering::Gathered;
use std::alloc::{AllocError, Global};
use zed_document::{Document, deliveries_come_to_sets};
use zed_driver::Stop;
use zed_editfile::EditFileError;
use zed_link::Feed;
use zed_refusal::{Reason, file_stop};
use zed_types::Stamp;

/// What came first, or the document. All that takes memory came before, so that a clash and the
/// refusal of a file are told whatever is lacking.
pub(crate) fn settled(
    feed: Option<Feed>,
    clash: Option<Stamp>,
    refusal: Option<Stop<Reason>>,
) -> Result<Document, Stop<Reason>>
    ensures stop { stop_in result ≡ first_stop clash refusal (world_in feed) }
    ensures document { IfOk result (IsOf feed) }
{
    match (clash, refusal, feed) {
        (Some(stamp), _, _) => Err(Stop::Refused(Reason::Clash(stamp))),
        (None, Some(refusal), _) => Err(refusal),
        (None, None, Some(feed)) => Ok(feed.close()),
        (None, None, None) => Err(Stop::Refused(Reason::NoWorld)),
    }
}

// Why a command stops at a file with this fault, if it has one.
fn stop_at(fault: Option<EditFileError>) -> Option<Stop<Reason>>
    ensures { result ≡ option_map file_stop fault }
{
    match fault {
        Some(error) => Some(file_stop(error)),
        None => None,
    }
}

// Reads the next file into what was gathered. Tells why a command stops at it, if it does.
pub(crate) fn read_next(
    alloc: Global,
    gathered: &mut Gathered,
    bytes: &[u8],
) -> Result<Option<Stop<Reason>>, AllocError>
    requires sound { gathered.old.clash ≡ None
        → IfSome gathered.old.feed (λ f. f.document.is_stale ≡ false) }
    ensures took { (es : List TheEdit) → AllFit es
        → CameInto es gathered.old.feed gathered.old.clash
        → IfOk result (λ refusal. (fault : Option TheFault) × (more : List TheEdit)
        × ReadsFile (world_in gathered.old.feed) bytes.now more fault (world_in gathered.new.feed)
        × CameInto (es ++ more) gathered.new.feed gathered.new.clash
        × (refusal ≡ option_map file_stop fault)) }
    ensures memory_only_when { OnErr result
        (WantsMemory (world_in gathered.old.feed) bytes.now) }
{
    match gathered.read(alloc, bytes) {
        Ok(fault) => Ok(stop_at(fault)),
        // the only refusal is Memory
        Err(_) => Err(AllocError),
    }
}

/// The document of the bytes of an edit file, of the world asked for or of any.
///
/// # Errors
/// What comes first: a clash of two edits, or what is wrong with the file. Memory, only behind the
/// good length of a record.
pub fn opened(alloc: Global, asked: Option<u64>, bytes: &[u8]) -> Result<Document, Stop<Reason>>
    ensures opened { MatchResult result
        (λ d. Opens asked bytes.now (Ok (d.world, d.edits)))
        (λ e. ((e ≡ Memory) × WantsMemory asked bytes.now) ⊎ Opens asked bytes.now (Err e)) }
    ensures world { IfOk result (λ d. (n : ℕ) → asked ≡ Some n → d.world ≡ n) }
    ensures sound { IfOk result (λ d. d.is_stale ≡ false) }
{
    deliveries_come_to_sets();
    let mut gathered = Gathered::new(alloc, asked);
    let refusal = read_next(alloc, &mut gathered, bytes)?;
    settled(gathered.feed, gathered.clash, refusal)
}
