//! A document: the edits that a replica accepted, and what they make.
ghost use Rattle.std.specs.Prelude.{◌≡◌, ◌≢◌, ◌≤◌, ◌⊎◌, ◌<◌, [], if◌then◌else◌, length, insert, is_ok, true, false, None, Ok, Err, OnOk, OnErr, IfOk, IfErr, IsOkAnd, ◌↔◌};
ghost use Rattle.zed_op.specs.Set.{IsRising};

use crate::delivered::{Delivered, State};
use crate::error::DocumentError;
use crate::held::HeldStamps;
use crate::visits::{visits_at, visits_before, visits_since};
use std::alloc::Global;
use std::marker::Model;
use zed_delivery::{
    Body, calm_edits_hold_the_same, empty_bodies_show_none, rising_edits_are_apart,
};
use zed_edit::{Edit, check};
use zed_history::spot_of;
use zed_laws::held_edits_are_remembered;
use zed_op::{edit_has_sizes, rising_lists_are_sets, sets_rise, sets_stay_fit};
use zed_types::{Stamp, TextId};
use zed_view::{View, parts_show_the_replay};

/// A replica of a world. Contracts see the number of its world, its edits in rising stamp order, whether it is stale, and how often
/// runs of its texts were looked at.
#[derive(Drop)]
pub struct Document {
    pub(crate) world: u64,
    pub(crate) edits: Vec<Edit>,
    /// The stamps of the edits that are held. They change only at the end of a call, so they are
    /// right in a stale document too.
    pub(crate) held: HeldStamps,
    /// What the edits make, and those that wait. If want of memory leaves the document stale, this
    /// is given up, so that a repair has its room.
    pub(crate) body: Body,
    pub(crate) is_stale: bool,
}

impl Model for Document {
    ghost use Rattle.zed_document.specs.Counts.{counts_of};
    ghost use Rattle.zed_document.specs.Kept.{IsKept};
    ghost use Rattle.zed_document.specs.Replica.{Replica};

    ghost Value = { Replica };

    ghost view = { λ d. record {
      world = d.world;
      edits = d.edits.items;
      is_stale = d.is_stale;
      counts = counts_of d.body.texts;
    } };

    ghost invariant = { λ d. IsKept d.edits.items d.held d.is_stale d.body };
}

impl Document {
    ghost use Rattle.zed_history.specs.Finding.{edit_with};
    ghost use Rattle.zed_document.specs.Held.{held_stamps, is_among as is_one_of};
    ghost use Rattle.zed_delivery.specs.Shows.{BodyShows};
    ghost use Rattle.zed_document.specs.Delivery.{Answers, AnswersAt, MayTakeMemoryFor, TellsNew};
    ghost use Rattle.zed_edit.specs.Replay.{replay};
    ghost use Rattle.zed_op.specs.Fit.{Fits};
    ghost use Rattle.zed_op.specs.Set.{AllFit, with_edit};
    ghost use Rattle.zed_op.specs.Sizes.{HaveSizes};
    ghost use Rattle.zed_document.specs.Counts.{NoCountFalls, count_of};
    ghost use Rattle.zed_document.specs.Visits.{TellsVisits};

    /// A document of the world with this number, with no edit. It takes no memory.
    pub fn new(alloc: Global, world: u64) -> Document
        ensures { result ≡ record { world = world; edits = []; is_stale = false; counts = [] } }
    {
        empty_bodies_show_none();
        Document {
            world,
            edits: Vec::new(alloc),
            held: HeldStamps::new(alloc),
            body: Body::new(alloc),
            is_stale: false,
        }
    }

    /// The number of the document's world.
    pub fn world(&self) -> u64
        ensures { result ≡ self.now.world }
    {
        self.world
    }

    /// All edits in stamp order, held ones too.
    pub fn edits(&self) -> &[Edit]
        ensures all { result.now ≡ self.now.edits }
        ensures fit { AllFit self.now.edits }
        ensures sizes { HaveSizes self.now.edits }
        ensures rising { IsRising self.now.edits }
    {
        self.edits.as_slice()
    }

    /// What the document shows. A stale document answers Stale: it keeps its edits, and nothing of
    /// what they make.
    pub fn view(&self) -> Result<View<'_>, DocumentError>
        ensures stale { (result ≡ Err DocumentError.Stale) ↔ (self.now.is_stale ≡ true) }
        ensures err { IfErr result (λ e. e ≡ DocumentError.Stale) }
        ensures shows { IfOk result (λ v. v ≡ replay self.now.edits) }
        ensures emptied { OnErr result (self.now.counts ≡ []) }
    {
        if self.is_stale {
            return Err(DocumentError::Stale);
        }
        parts_show_the_replay();
        Ok(View::of(&self.body.live, &self.body.texts, &self.body.inbox))
    }

    /// Whether want of memory has left the document stale.
    pub(crate) fn is_stale(&self) -> bool
        ensures { result ≡ self.now.is_stale }
    {
        self.is_stale
    }

    /// The allocator that keeps the edits.
    pub(crate) fn alloc(&self) -> Global {
        *self.edits.allocator()
    }

    /// What the edits make.
    pub(crate) fn body(&self) -> &Body
        requires { self.now.is_stale ≡ false }
        ensures shows { BodyShows self.now.edits result.now }
        ensures rising { IsRising self.now.edits }
    {
        &self.body
    }

    /// How many runs of a text were looked at, 0 if it isn't there.
    pub(crate) fn visits_at(&self, text: TextId) -> u64
        ensures { result ≡ count_of text self.now.counts }
    {
        visits_at(&self.body.texts, text)
    }

    /// How many edits are held.
    pub fn held(&self) -> usize
        ensures { result ≡ length (held_stamps self.now.edits) }
    {
        self.held.len()
    }

    /// Whether the edit with this stamp is held.
    pub fn is_held(&self, stamp: Stamp) -> bool
        ensures { result ≡ is_one_of (held_stamps self.now.edits) stamp }
    {
        self.held.has(stamp)
    }

    /// Accepts an edit; edits may come in any order. Refusals, in order: Stale; BadEdit if the edit
    /// doesn't fit; Clash if another edit, held or taken, has its stamp; Memory. A refusal leaves
    /// the set of edits as it was; after Memory the document may be stale. A known edit takes no
    /// memory, except a Genesis, which is checked again.
    pub fn deliver(&mut self, edit: Edit) -> Result<Delivered, DocumentError>
        ensures result { (result ≡ Err DocumentError.Memory) ⊎ Answers self.old edit result }
        ensures edits { self.new.edits
            ≡ (if is_ok result then with_edit edit self.old.edits else self.old.edits) }
        ensures world { self.new.world ≡ self.old.world }
        ensures sound { OnOk result (self.new.is_stale ≡ false) }
        ensures stale { (result ≢ Err DocumentError.Memory)
            → self.new.is_stale ≡ self.old.is_stale }
        ensures kept { OnErr result ((result ≢ Err DocumentError.Memory) → self.new ≡ self.old) }
        ensures refused { result ≡ Err DocumentError.Memory
            → self.new.is_stale ≡ false → self.new ≡ self.old }
        ensures visits { IfOk result (λ d.
            TellsVisits edit self.old.edits self.old.counts self.new.counts d) }
        ensures memory_only_when { result ≡ Err DocumentError.Memory
            → MayTakeMemoryFor self.old edit }
    {
        if self.is_stale {
            return Err(DocumentError::Stale);
        }
        check(*self.edits.allocator(), &edit)?;
        self.receive(edit)
    }

    /// Takes an edit that fits.
    pub(crate) fn receive(&mut self, edit: Edit) -> Result<Delivered, DocumentError>
        requires sound { self.old.is_stale ≡ false }
        requires fits { Fits edit }
        ensures result { (result ≡ Err DocumentError.Memory)
            ⊎ AnswersAt (edit_with edit.stamp self.old.edits) self.old.edits edit result }
        ensures edits { self.new.edits
            ≡ (if is_ok result then with_edit edit self.old.edits else self.old.edits) }
        ensures world { self.new.world ≡ self.old.world }
        ensures sound { OnOk result (self.new.is_stale ≡ false) }
        ensures stale { (result ≢ Err DocumentError.Memory) → self.new.is_stale ≡ false }
        ensures kept { OnErr result ((result ≢ Err DocumentError.Memory) → self.new ≡ self.old) }
        ensures refused { result ≡ Err DocumentError.Memory
            → self.new.is_stale ≡ false → self.new ≡ self.old }
        ensures visits { IfOk result (λ d.
            TellsVisits edit self.old.edits self.old.counts self.new.counts d) }
        ensures memory_only_when { result ≡ Err DocumentError.Memory
            → edit_with edit.stamp self.old.edits ≡ None }
    {
        match spot_of(&self.edits, self.edits.len(), edit.stamp) {
            Ok(there) => {
                if there.is_same(&edit) {
                    Ok(Delivered::KNOWN)
                } else {
                    Err(DocumentError::Clash(edit.stamp))
                }
            }
            Err(place) => self.accept(place, edit),
        }
    }

    /// Puts in an edit that is new, at its place in the log.
    pub(crate) fn accept(&mut self, place: usize, edit: Edit) -> Result<Delivered, DocumentError>
        requires sound { self.old.is_stale ≡ false }
        requires fits { Fits edit }
        requires new { edit_with edit.stamp self.old.edits ≡ None }
        requires within { place ≤ length self.old.edits }
        requires belongs { with_edit edit self.old.edits ≡ insert self.old.edits place edit }
        ensures tells { (result ≡ Err DocumentError.Memory) ⊎ IsOkAnd result (λ d.
            TellsNew self.old.edits (with_edit edit self.old.edits) edit d) }
        ensures edits { self.new.edits
            ≡ (if is_ok result then with_edit edit self.old.edits else self.old.edits) }
        ensures world { self.new.world ≡ self.old.world }
        ensures sound { OnOk result (self.new.is_stale ≡ false) }
        ensures refused { result ≡ Err DocumentError.Memory
            → self.new.is_stale ≡ false → self.new ≡ self.old }
        ensures visits { IfOk result (λ d.
            TellsVisits edit self.old.edits self.old.counts self.new.counts d) }
    {
        let alloc = *self.edits.allocator();
        self.edits.reserve(1)?;
        sets_rise();
        sets_stay_fit();
        held_edits_are_remembered();
        calm_edits_hold_the_same();
        edit_has_sizes(&edit);
        let before = visits_before(&self.body, &edit);
        // until all is done; what fails midway leaves it so
        self.is_stale = true;
        let mut woken = Vec::new(alloc);
        let taken = self.body.take(alloc, &edit, &mut woken)?;
        let Ok(()) = self.held.follow(edit.stamp, taken.held) else {
            self.body = Body::new(alloc);
            return Err(DocumentError::Memory);
        };
        self.held.wake(taken.woken, &woken, &self.body.inbox);
        self.edits.insert(place, edit).unwrap();
        self.is_stale = false;
        Ok(Delivered {
            state: State::of_new(taken.held),
            woken: taken.woken,
            visits: visits_since(&self.body, before),
        })
    }

    /// Makes the body of a stale document anew. If the document isn't stale, nothing changes and no
    /// memory is taken. A document without edits takes no memory either. Memory leaves the document
    /// as it was.
    pub fn repair(&mut self) -> Result<(), DocumentError>
        ensures edits { self.new.edits ≡ self.old.edits }
        ensures world { self.new.world ≡ self.old.world }
        ensures sound { OnOk result (self.new.is_stale ≡ false) }
        ensures err { IfErr result (λ e. e ≡ DocumentError.Memory) }
        ensures kept { OnErr result (self.new ≡ self.old) }
        ensures nothing { self.old.is_stale ≡ false → self.new ≡ self.old }
        ensures calm { self.old.is_stale ≡ false → result ≡ Ok tt }
        ensures memory_only_when { OnErr result (0 < length self.old.edits) }
    {
        if self.is_stale {
            rising_lists_are_sets();
            rising_edits_are_apart();
            self.body = Body::of(*self.edits.allocator(), &self.edits)?;
            self.is_stale = false;
        }
        Ok(())
    }

    /// Gives up what the edits make. A repair makes it anew.
    pub(crate) fn give_up(&mut self)
        ensures edits { self.new.edits ≡ self.old.edits }
        ensures world { self.new.world ≡ self.old.world }
        ensures stale { self.new.is_stale ≡ true }
    {
        self.body = Body::new(self.alloc());
        self.is_stale = true;
    }
}
