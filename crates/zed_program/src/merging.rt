//! Edit files merged into one.
ghost use Rattle.std.specs.Prelude.{[], ◌≡◌, ◌<◌, Err, IfErr, IfOk, List, MatchResult, Ok, OnOk, Result, Some, false, length, map};
ghost use Rattle.zed_op.specs.declared.op.Edit.{Edit as TheEdit};
ghost use Rattle.zed_document.specs.Counts.{NoCountFalls};
ghost use Rattle.zed_session.specs.Links.{PullsOver, seen};
ghost use Rattle.zed_host.specs.Counting.{Rose};
ghost use Rattle.zed_files.specs.Faults.{TellsFailures};
ghost use Rattle.zed_host.specs.HostContents.{HostContents};
ghost use Rattle.zed_program.specs.Merged.{ComesToMerge, IsMerged, LacksForMerge};
ghost use Rattle.zed_files.specs.Asked.{Asks, refusal_in, writing};
ghost use Rattle.zed_files.specs.Effects.{Ends};
ghost use Rattle.zed_files.specs.Refusals.{IsOffStage};

use crate::writing::write_document;
use std::alloc::Global;
use zed_document::{Document, Intake};
use zed_files::{Refusal, joined_told};
use zed_host::Host;
use zed_link::{Link, LinkError, Pulled, receive_into};

// Pulls the edits of a link into a document.
fn pull_over(
    alloc: Global,
    link: &mut Box<dyn Link>,
    intake: &mut Intake,
) -> Result<Pulled, LinkError>
    requires { intake.old.is_stale ≡ false }
    ensures pull { PullsOver intake.old (seen (ends link.old) (reads link.old))
        (seen (ends link.new) (reads link.new)) result intake.new.edits }
    ensures writes { writes link.new ≡ writes link.old }
    ensures world { intake.new.world ≡ intake.old.world }
    ensures sound { OnOk result (intake.new.is_stale ≡ false) }
    ensures visits { OnOk result (NoCountFalls intake.old.counts intake.new.counts) }
{
    receive_into(alloc, link.as_mut(), intake)
}

// The document of a world, with the edits of the first so many links.
fn pulled_from(
    alloc: Global,
    world: u64,
    count: usize,
    links: &mut Vec<Box<dyn Link>>,
) -> Result<Document, Refusal>
    ensures pulled { let before = map (λ link. seen (ends link) (reads link)) links.old.items in
        let after = map (λ link. seen (ends link) (reads link)) links.new.items in
        MatchResult result
        (λ d. IsMerged world count before after (Ok d.edits))
        (λ e. IsMerged world count before after (Err e)) }
    ensures writes { map (λ link. writes link) links.new.items
        ≡ map (λ link. writes link) links.old.items }
    ensures no_link { length links.old.items < count
        → (result ≡ Err Refusal.NoLink) × (links.new ≡ links.old) }
    ensures world { IfOk result (λ d. d.world ≡ world) }
{
    if links.len() < count {
        return Err(Refusal::NoLink);
    }
    let mut intake = Intake::of(Document::new(alloc, world));
    for i in 0..count {
        pull_over(alloc, &mut links[i], &mut intake)?;
    }
    Ok(intake.close())
}

/// Merges the edits of links, one for each name of a file, into one edit file of a world. If there
/// are fewer links than names, this is refused before any want of memory, and no link is called.
/// Nothing is written to a link. Links after the one that is refused, and after the last one
/// needed, are as they were. Memory hides no refusal of a link.
pub(crate) fn merge<H: Host>(
    alloc: Global,
    host: &mut H,
    out: &str,
    world: u64,
    files: &[&str],
    links: &mut Vec<Box<dyn Link>>,
) -> Result<(), Refusal>
    ensures ends { (t : HostContents) → H.contents host.old ≡ Some t
        → let failed = Rose (H.faults host.old) (H.faults host.new) in
        Ends failed (ComesToMerge (map (λ link. seen (ends link) (reads link)) links.old.items)
        (map (λ link. seen (ends link) (reads link)) links.new.items)
        out.now world (length files.now)) t result (H.contents host.new) }
    ensures memory_only_when { result ≡ Err Refusal.Memory → LacksForMerge
        (map (λ link. seen (ends link) (reads link)) links.old.items)
        (map (λ link. seen (ends link) (reads link)) links.new.items) world (length files.now) }
    ensures err { IfErr result IsOffStage }
    ensures links { (r : Result (List TheEdit) Refusal) × IsMerged world (length files.now)
        (map (λ link. seen (ends link) (reads link)) links.old.items)
        (map (λ link. seen (ends link) (reads link)) links.new.items) r }
    ensures writes { map (λ link. writes link) links.new.items
        ≡ map (λ link. writes link) links.old.items }
    ensures no_link { length links.old.items < length files.now
        → (result ≡ Err Refusal.NoLink) × (links.new ≡ links.old) }
    ensures asked { Asks H.called [] (writing out.now) (refusal_in result) host.old host.new }
    ensures failures { TellsFailures H.faults H.failed result host.old host.new }
{
    let document = pulled_from(alloc, world, files.len(), links)?;
    let line = joined_told(alloc, document.edits().len(), document.held())?;
    write_document(alloc, host, out, &document, line.as_str())
}
