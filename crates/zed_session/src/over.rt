//! Sending and receiving over a boxed link.
ghost use Rattle.std.specs.Prelude.{◌≡◌, ◌≢◌, ◌<◌, ◌↔◌, ℕ, true, false, Ok, Err, Some, IfErr, IfOk, OnErr, OnOk, length, map, remove, slice_get};
ghost use Rattle.zed_document.specs.Counts.{NoCountFalls};
ghost use Rattle.zed_host.specs.Counting.{Counts};
ghost use Rattle.zed_link.specs.Counting.{Faulted};
ghost use Rattle.zed_link.specs.Ends.{Changed, Took, TookFront};
ghost use Rattle.zed_link.specs.Pull.{StopsAtDelivery};
ghost use Rattle.zed_link.specs.Refusals.{is_fault};
ghost use Rattle.zed_session.specs.Gone.{FailedToReceive, FailedToSend, told, told_at};
ghost use Rattle.zed_link.specs.Writing.{WritesAtMost};
ghost use Rattle.zed_session.specs.Links.{PullsOver, ends_at, seen, seen_at, writes_at};

use std::alloc::Global;
use zed_document::Document;
use zed_link::{Link, LinkError, Pulled, receive, send};

/// Sends bytes over a boxed link.
pub(crate) fn send_over(link: &mut Box<dyn Link>, bytes: &[u8]) -> Result<(), LinkError>
    ensures ok { OnOk result (Changed (Took bytes.now) (ends link.old) (ends link.new)) }
    ensures half { OnErr result (Changed (TookFront bytes.now) (ends link.old) (ends link.new)) }
    ensures err { IfErr result (λ e. e ≡ LinkError.LinkFault) }
    ensures calm { OnOk result
        ((failed link.new ≡ failed link.old) × (stalls link.new ≡ stalls link.old)) }
    ensures faults { OnErr result
        (Faulted (failed link.old) (failed link.new) (stalls link.old) (stalls link.new)) }
    ensures reads { reads link.new ≡ reads link.old }
    ensures writes { WritesAtMost (length bytes.now) (writes link.old) (writes link.new) }
    ensures accepts { accepts link.new ≡ accepts link.old }
    ensures refused { OnErr result (accepts link.old ≡ false) }
{
    send(link.as_mut(), bytes)
}

/// Receives the edits of a boxed link.
pub(crate) fn receive_over(
    alloc: Global,
    link: &mut Box<dyn Link>,
    document: &mut Document,
) -> Result<Pulled, LinkError>
    ensures pull { document.old.is_stale ≡ false
        → PullsOver document.old (seen (ends link.old) (reads link.old))
        (seen (ends link.new) (reads link.new)) result document.new.edits }
    ensures err { (result ≡ Err LinkError.Stale) ↔ (document.old.is_stale ≡ true) }
    ensures world { document.new.world ≡ document.old.world }
    ensures stale { (result ≢ Err LinkError.Memory)
        → document.new.is_stale ≡ document.old.is_stale }
    ensures stale_only_when { document.new.is_stale ≢ document.old.is_stale
        → StopsAtDelivery document.old (ends link.old) (ends link.new) document.new.edits }
    ensures visits { (result ≢ Err LinkError.Memory)
        → NoCountFalls document.old.counts document.new.counts }
    ensures writes { writes link.new ≡ writes link.old }
    ensures failures { Counts (is_fault result) (failed link.old) (failed link.new) }
    ensures stalls { stalls link.new ≡ stalls link.old }
    ensures accepts { accepts link.new ≡ accepts link.old }
{
    receive(alloc, link.as_mut(), document)
}

/// Sends bytes over the link at this place. A link that failed is taken out, and handed over as the
/// writes left it, with no other call.
#[tactic(auto, using(crate::proofs::Places::others_at, crate::proofs::Places::shown_same))]
pub(crate) fn send_at(
    links: &mut Vec<Box<dyn Link>>,
    i: usize,
    bytes: &[u8],
) -> Result<(), Box<dyn Link>>
    requires { i < length links.old.items }
    ensures ok { OnOk result (Changed (Took bytes.now)
        (ends_at i (map (λ link. ends link) links.old.items))
        (ends_at i (map (λ link. ends link) links.new.items))) }
    ensures wrote { OnOk result (WritesAtMost (length bytes.now)
        (writes_at i (map (λ link. writes link) links.old.items))
        (writes_at i (map (λ link. writes link) links.new.items))) }
    ensures others { OnOk result ((j : ℕ) → j ≢ i
        → slice_get links.new.items j ≡ slice_get links.old.items j) }
    ensures calm { OnOk result (map (λ link. failed link) links.new.items
        ≡ map (λ link. failed link) links.old.items) }
    ensures stalls { OnOk result (map (λ link. stalls link) links.new.items
        ≡ map (λ link. stalls link) links.old.items) }
    ensures reads { OnOk result (map (λ link. reads link) links.new.items
        ≡ map (λ link. reads link) links.old.items) }
    ensures accepts { OnOk result (map (λ link. accepts link) links.new.items
        ≡ map (λ link. accepts link) links.old.items) }
    ensures taken_out { OnErr result (links.new.items ≡ remove links.old.items i) }
    ensures gone { IfErr result (λ gone. FailedToSend bytes.now
        (told_at i (map (λ link. told (ends link) (reads link) (writes link) (failed link) (stalls link))
        links.old.items))
        (told (ends gone) (reads gone) (writes gone) (failed gone) (stalls gone))) }
    ensures refused { OnErr result
        (slice_get (map (λ link. accepts link) links.old.items) i ≡ Some false) }
{
    match send_over(&mut links[i], bytes) {
        Ok(()) => Ok(()),
        Err(_) => Err(links.remove(i)),
    }
}

/// A link over which a pull was refused, and why.
#[derive(Drop)]
pub(crate) struct Failed {
    pub(crate) link: Box<dyn Link>,
    pub(crate) error: LinkError,
}

/// Receives the edits of the link at this place. If that is refused, the link is taken out, and
/// handed over as the reads left it, with no other call.
#[tactic(auto, using(crate::proofs::Places::others_at, crate::proofs::Places::shown_same))]
pub(crate) fn receive_at(
    alloc: Global,
    links: &mut Vec<Box<dyn Link>>,
    i: usize,
    document: &mut Document,
) -> Result<Pulled, Failed>
    requires within { i < length links.old.items }
    requires sound { document.old.is_stale ≡ false }
    ensures ok { IfOk result (λ pulled. PullsOver document.old
        (seen_at i (map (λ link. seen (ends link) (reads link)) links.old.items))
        (seen_at i (map (λ link. seen (ends link) (reads link)) links.new.items))
        (Ok pulled) document.new.edits) }
    ensures others { OnOk result ((j : ℕ) → j ≢ i
        → slice_get links.new.items j ≡ slice_get links.old.items j) }
    ensures calm { OnOk result (map (λ link. failed link) links.new.items
        ≡ map (λ link. failed link) links.old.items) }
    ensures stalls { OnOk result (map (λ link. stalls link) links.new.items
        ≡ map (λ link. stalls link) links.old.items) }
    ensures writes { OnOk result (map (λ link. writes link) links.new.items
        ≡ map (λ link. writes link) links.old.items) }
    ensures accepts { OnOk result (map (λ link. accepts link) links.new.items
        ≡ map (λ link. accepts link) links.old.items) }
    ensures taken_out { OnErr result (links.new.items ≡ remove links.old.items i) }
    ensures gone_pull { IfErr result (λ gone. PullsOver document.old
        (seen_at i (map (λ link. seen (ends link) (reads link)) links.old.items))
        (seen (ends gone.link) (reads gone.link)) (Err gone.error) document.new.edits) }
    ensures gone { IfErr result (λ gone. FailedToReceive gone.error
        (told_at i (map (λ link. told (ends link) (reads link) (writes link) (failed link) (stalls link))
        links.old.items))
        (told (ends gone.link) (reads gone.link) (writes gone.link) (failed gone.link) (stalls gone.link))) }
    ensures never_stale { IfErr result (λ gone. gone.error ≢ LinkError.Stale) }
    ensures world { document.new.world ≡ document.old.world }
    ensures stale { IfErr result (λ gone. gone.error ≢ LinkError.Memory
        → document.new.is_stale ≡ document.old.is_stale) }
    ensures stale_only_when { IfErr result (λ gone. document.new.is_stale ≢ document.old.is_stale
        → StopsAtDelivery document.old
        (ends_at i (map (λ link. ends link) links.old.items)) (ends gone.link)
        document.new.edits) }
    ensures sound { OnOk result (document.new.is_stale ≡ document.old.is_stale) }
    ensures visits { IfErr result (λ gone. gone.error ≢ LinkError.Memory
        → NoCountFalls document.old.counts document.new.counts) }
    ensures looks { OnOk result (NoCountFalls document.old.counts document.new.counts) }
{
    match receive_over(alloc, &mut links[i], document) {
        Ok(pulled) => Ok(pulled),
        Err(error) => {
            let link = links.remove(i);
            Err(Failed { link, error })
        }
    }
}
