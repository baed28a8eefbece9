//! A document that takes many edits as they come.
ghost use Rattle.std.specs.Prelude.{◌≡◌, ◌≢◌, ◌⊎◌, if◌then◌else◌, is_ok, true, false, None, Err, IfOk, IfSome, IfNone, Some, OnErr, OnOk, IsOkAnd};
ghost use Rattle.zed_delivery.specs.Taking.{IsEmpty};
ghost use Rattle.zed_history.specs.Finding.{edit_with};
ghost use Rattle.zed_document.specs.Delivery.{Answers, TellsNew};
ghost use Rattle.zed_document.specs.Visits.{TellsVisits};
ghost use Rattle.zed_op.specs.Fit.{Fits};
ghost use Rattle.zed_op.specs.Set.{with_edit};

use crate::delivered::{Delivered, State};
use crate::document::Document;
use crate::error::DocumentError;
use crate::held::HeldStamps;
use crate::visits::{visits_before, visits_since};
use std::alloc::Global;
use std::marker::Model;
use zed_delivery::{Body, calm_edits_hold_the_same};
use zed_edit::Edit;
use zed_history::History;
use zed_laws::held_edits_are_remembered;
use zed_op::{edit_has_sizes, edit_joins_a_set, sets_rise, sets_stay_fit};
use zed_types::Stamp;

/// A document that takes many edits, one after the other in any order, with the work of edits that
/// come in stamp order. Contracts see the document that `close` answers.
#[derive(Drop)]
pub struct Intake {
    world: u64,
    log: History,
    /// As in a document.
    held: HeldStamps,
    body: Body,
    is_stale: bool,
}

impl Model for Intake {
    ghost use Rattle.zed_document.specs.Counts.{counts_of};
    ghost use Rattle.zed_document.specs.Kept.{IsKept};
    ghost use Rattle.zed_document.specs.Replica.{Replica};

    ghost Value = { Replica };

    ghost view = { λ i. record {
      world = i.world;
      edits = i.log;
      is_stale = i.is_stale;
      counts = counts_of i.body.texts;
    } };

    ghost invariant = { λ i. IsKept i.log i.held i.is_stale i.body };
}

/// Gives up what the edits made. It is a call of its own, since the room of an empty body would else
/// be cleared for each edit that is taken.
#[cold]
#[inline(never)]
fn give_up_body(alloc: Global, body: &mut Body)
    ensures { IsEmpty body.new }
{
    *body = Body::new(alloc);
}

impl Intake {
    /// A document, ready to take edits. It takes no memory.
    pub fn of(document: Document) -> Intake
        ensures { result ≡ document }
    {
        let Document {
            world,
            edits,
            held,
            body,
            is_stale,
        } = document;
        Intake {
            world,
            log: History::of(edits),
            held,
            body,
            is_stale,
        }
    }

    /// The number of the document's world.
    pub fn world(&self) -> u64
        ensures { result ≡ self.now.world }
    {
        self.world
    }

    /// Looks for the place of a stamp. The next search begins there.
    pub fn seek(&mut self, stamp: Stamp)
        ensures { self.new ≡ self.old }
    {
        self.log.seek(stamp);
    }

    /// The edit with a stamp, if it came, taken or held.
    pub fn find(&self, stamp: Stamp) -> Option<&Edit>
        ensures some { IfSome result (λ f. edit_with stamp self.now.edits ≡ Some f.now) }
        ensures none { IfNone result (edit_with stamp self.now.edits ≡ None) }
        ensures fits { IfSome result (λ f. Fits f.now) }
        ensures known { IfSome result (λ f. with_edit f.now self.now.edits ≡ self.now.edits) }
    {
        edit_joins_a_set();
        self.log.find(stamp)
    }

    /// Accepts an edit that fits; edits may come in any order. Refusals, in order: Stale; Clash if
    /// another edit, held or taken, has its stamp; Memory. A refusal leaves the document as it was,
    /// except that after Memory it may be stale. A known edit takes no memory.
    pub fn deliver(&mut self, edit: Edit) -> Result<Delivered, DocumentError>
        requires { Fits edit }
        ensures result { (result ≡ Err DocumentError.Memory) ⊎ Answers self.old edit result }
        ensures edits { self.new.edits
            ≡ (if is_ok result then with_edit edit self.old.edits else self.old.edits) }
        ensures world { self.new.world ≡ self.old.world }
        ensures sound { OnOk result (self.new.is_stale ≡ false) }
        ensures stale { (result ≢ Err DocumentError.Memory)
            → self.new.is_stale ≡ self.old.is_stale }
        ensures kept { OnErr result ((result ≢ Err DocumentError.Memory) → self.new ≡ self.old) }
        ensures refused { result ≡ Err DocumentError.Memory
            → self.new.is_stale ≡ false → self.new ≡ self.old }
        ensures visits { IfOk result (λ d.
            TellsVisits edit self.old.edits self.old.counts self.new.counts d) }
        ensures memory_only_when { result ≡ Err DocumentError.Memory
            → (self.old.is_stale ≡ false) × (edit_with edit.stamp self.old.edits ≡ None) }
    {
        if self.is_stale {
            return Err(DocumentError::Stale);
        }
        edit_joins_a_set();
        self.log.seek(edit.stamp);
        match self.log.find(edit.stamp) {
            Some(there) => {
                if there.is_same(&edit) {
                    Ok(Delivered::KNOWN)
                } else {
                    Err(DocumentError::Clash(edit.stamp))
                }
            }
            None => self.accept(edit),
        }
    }

    /// Takes an edit that is new.
    fn accept(&mut self, edit: Edit) -> Result<Delivered, DocumentError>
        requires sound { self.old.is_stale ≡ false }
        requires fits { Fits edit }
        requires new { edit_with edit.stamp self.old.edits ≡ None }
        ensures tells { (result ≡ Err DocumentError.Memory) ⊎ IsOkAnd result (λ d.
            TellsNew self.old.edits (with_edit edit self.old.edits) edit d) }
        ensures edits { self.new.edits
            ≡ (if is_ok result then with_edit edit self.old.edits else self.old.edits) }
        ensures world { self.new.world ≡ self.old.world }
        ensures sound { OnOk result (self.new.is_stale ≡ false) }
        ensures refused { result ≡ Err DocumentError.Memory
            → self.new.is_stale ≡ false → self.new ≡ self.old }
        ensures visits { IfOk result (λ d.
            TellsVisits edit self.old.edits self.old.counts self.new.counts d) }
    {
        let alloc = self.log.alloc();
        sets_rise();
        sets_stay_fit();
        held_edits_are_remembered();
        calm_edits_hold_the_same();
        edit_has_sizes(&edit);
        let before = visits_before(&self.body, &edit);
        // until all is done; what fails midway leaves it so
        self.is_stale = true;
        let mut woken = Vec::new(alloc);
        let taken = self.body.take(alloc, &edit, &mut woken)?;
        let stamp = edit.stamp;
        let Ok(()) = self.held.follow(stamp, taken.held) else {
            give_up_body(alloc, &mut self.body);
            return Err(DocumentError::Memory);
        };
        let Ok(()) = self.log.add(edit) else {
            self.held.undo(stamp, taken.held);
            give_up_body(alloc, &mut self.body);
            return Err(DocumentError::Memory);
        };
        self.held.wake(taken.woken, &woken, &self.body.inbox);
        self.is_stale = false;
        Ok(Delivered {
            state: State::of_new(taken.held),
            woken: taken.woken,
            visits: visits_since(&self.body, before),
        })
    }

    /// The document with the edits that it took. It takes no memory.
    pub fn close(self) -> Document
        ensures { result ≡ self }
    {
        let Intake {
            world,
            log,
            held,
            body,
            is_stale,
        } = self;
        Document {
            world,
            edits: log.close(),
            held,
            body,
            is_stale,
        }
    }
}
