//! Actions done on a document, by edits.
ghost use Rattle.std.specs.Prelude.{◌≡◌, ◌≢◌, ◌≤◌, Err, false, IfErr, IfOk, OnErr, OnOk};
ghost use Rattle.zed_document.specs.Authoring.{MayTakeMemoryAt, MayTakeMemoryToDelete, authored, is_spent_for};
ghost use Rattle.zed_action.specs.Deeds.{Acts, Authors, DeedMayTake, Deletes, Ends, Inserts, Leaves, LeavesDeletion, LeavesStart, LeavesWords, MayTakeToAuthor, Performs, Starts, WordsMayTake};
ghost use Rattle.zed_action.specs.Refusals.{memory};
ghost use Rattle.zed_action.specs.Words.{words_of};

use crate::deed::{Deed, deed_of};
use crate::error::ActionError;
use crate::parsing::parse;
use std::alloc::Global;
use zed_document::Document;
use zed_edit::{Edit, Op};
use zed_types::{Bytes, StatId, StatSetting, TextId};

/// Makes an edit.
fn author(document: &mut Document, replica: u16, op: Op) -> Result<Edit, ActionError>
    requires { document.old.is_stale ≡ false }
    ensures ends { Ends (Authors document.old replica op) result document.new.edits }
    ensures made { IfOk result (λ e. e ≡ authored document.old.edits replica op) }
    ensures kept { OnErr result (document.new.edits ≡ document.old.edits) }
    ensures sound { OnOk result (document.new.is_stale ≡ false) }
    ensures stale { (result ≢ Err memory) → document.new.is_stale ≡ false }
    ensures world { document.new.world ≡ document.old.world }
    ensures left { OnOk result (is_spent_for document.old.edits op ≡ false) }
    ensures memory_only_when { result ≡ Err memory
        → MayTakeToAuthor document.old replica op }
{
    let edit = document.author(replica, op)?;
    Ok(edit)
}

/// Puts bytes into a text.
fn insert(
    document: &mut Document,
    replica: u16,
    text: TextId,
    position: u32,
    bytes: Bytes,
) -> Result<(), ActionError>
    requires { document.old.is_stale ≡ false }
    ensures ends { Ends (Inserts document.old replica text position bytes)
        result document.new.edits }
    ensures kept { OnErr result (document.new.edits ≡ document.old.edits) }
    ensures sound { OnOk result (document.new.is_stale ≡ false) }
    ensures stale { (result ≢ Err memory) → document.new.is_stale ≡ false }
    ensures world { document.new.world ≡ document.old.world }
    ensures memory_only_when { result ≡ Err memory
        → MayTakeMemoryAt document.old replica text position bytes }
{
    document.insert_text(replica, text, position as usize, bytes)?;
    Ok(())
}

/// Deletes bytes of a text.
fn delete(
    document: &mut Document,
    replica: u16,
    text: TextId,
    from: u32,
    to: u32,
) -> Result<(), ActionError>
    requires sound { document.old.is_stale ≡ false }
    requires replica { 1 ≤ replica }
    ensures ends { Ends (Deletes document.old replica text from to) result document.new.edits }
    ensures kept { IfErr result (λ e.
        LeavesDeletion document.old replica text from to e document.new.edits) }
    ensures stale { (result ≢ Err memory) → document.new.is_stale ≡ false }
    ensures world { document.new.world ≡ document.old.world }
    ensures memory_only_when { result ≡ Err memory
        → MayTakeMemoryToDelete document.old text from to }
{
    document.delete_text(replica, text, from as usize, to as usize)?;
    Ok(())
}

/// Gives a stat a text of its own, with these bytes.
fn start(
    document: &mut Document,
    replica: u16,
    stat: StatId,
    bytes: Bytes,
) -> Result<(), ActionError>
    requires { document.old.is_stale ≡ false }
    ensures ends { Ends (Starts document.old replica stat bytes) result document.new.edits }
    ensures kept { OnErr result (LeavesStart document.old replica bytes document.new.edits) }
    ensures stale { (result ≢ Err memory) → document.new.is_stale ≡ false }
    ensures world { document.new.world ≡ document.old.world }
    ensures memory_only_when { result ≡ Err memory
        → is_spent_for document.old.edits Op.TextAdd ≡ false }
{
    let edit = author(document, replica, Op::TextAdd)?;
    let text = TextId::new(edit.stamp, 0);
    insert(document, replica, text, 0, bytes)?;
    let setting = StatSetting::Text(Some(text));
    author(document, replica, Op::SetStat(stat, setting))?;
    Ok(())
}

fn perform(document: &mut Document, replica: u16, deed: Deed) -> Result<(), ActionError>
    requires sound { document.old.is_stale ≡ false }
    requires replica { 1 ≤ replica }
    ensures ends { Ends (Performs document.old replica deed) result document.new.edits }
    ensures kept { IfErr result (λ e. Leaves document.old replica deed e document.new.edits) }
    ensures stale { (result ≢ Err memory) → document.new.is_stale ≡ false }
    ensures world { document.new.world ≡ document.old.world }
    ensures memory_only_when { result ≡ Err memory → DeedMayTake document.old replica deed }
{
    match deed {
        Deed::Make(op) => {
            author(document, replica, op)?;
            Ok(())
        }
        Deed::Insert(text, position, bytes) => insert(document, replica, text, position, bytes),
        Deed::Start(stat, bytes) => start(document, replica, stat, bytes),
        Deed::Delete(text, from, to) => delete(document, replica, text, from, to),
    }
}

/// Does the action of these words as a replica of at least 1, on a document that isn't stale.
/// Refusals, in order: BadAction if the words are no action; NoSuch if a number has no board, stat
/// or text, and OutOfRange for a position over 0 in the program of a stat without a text; then
/// those of the document's own calls. A new program takes three edits: a text, its bytes, and the
/// stat's register. A refusal leaves the document as it was, except that the first of these three
/// edits may be made, and the first of several deletions if memory ran out. Words that keep no
/// bytes and make no edit take no memory.
pub fn act(
    alloc: Global,
    document: &mut Document,
    replica: u16,
    words: &[&str],
) -> Result<(), ActionError>
    requires sound { document.old.is_stale ≡ false }
    requires replica { 1 ≤ replica }
    ensures ends { Ends (Acts document.old replica (words_of words.now)) result document.new.edits }
    ensures kept { IfErr result (λ e.
        LeavesWords document.old replica (words_of words.now) e document.new.edits) }
    ensures stale { (result ≢ Err memory) → document.new.is_stale ≡ false }
    ensures world { document.new.world ≡ document.old.world }
    ensures memory_only_when { result ≡ Err memory
        → WordsMayTake document.old replica (words_of words.now) }
{
    let action = parse(alloc, words)?;
    let deed = deed_of(document, action)?;
    perform(document, replica, deed)
}
