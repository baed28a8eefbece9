//! The stamps of the edits that are held.
ghost use Rattle.std.specs.Prelude.{◌≡◌, ◌<◌, [], if◌then◌else◌, length, filter, OnOk, OnErr};
ghost use Rattle.std.specs.BTreeMap.{is_at};
ghost use Rattle.std.specs.BTreeSet.{insert_key};
ghost use Rattle.std.specs.Set.{remove_key};
ghost use Rattle.zed_types.specs.Stamp.{stamp_cmp};
ghost use Rattle.zed_op.specs.Set.{stamps_of};
ghost use Rattle.zed_document.specs.Held.{is_among as is_one_of, waits_in};

use std::alloc::{AllocError, Global};
use std::collections::BTreeSet;
use std::marker::Model;
use zed_inbox::Inbox;
use zed_types::Stamp;

/// The stamps of the edits that are held. Contracts see them in order.
#[derive(Drop)]
pub(crate) struct HeldStamps {
    stamps: BTreeSet<Stamp>,
}

impl Model for HeldStamps {
    ghost use Rattle.std.specs.Prelude.{List};
    ghost use Rattle.zed_types.specs.declared.stamp.Stamp.{Stamp as TheStamp};

    ghost Value = { List TheStamp };

    ghost view = { λ h. h.stamps.keys };
}

/// Removes a stamp, unless the edit with it waits.
fn drop_one(stamps: &mut BTreeSet<Stamp>, stamp: Stamp, inbox: &Inbox)
    ensures { filter (waits_in inbox.now) stamps.new.keys
        ≡ filter (waits_in inbox.now) stamps.old.keys }
{
    if inbox.is_held(stamp) {
        return;
    }
    stamps.remove(&stamp);
}

/// Removes those of some stamps of which no edit waits.
fn drop_found(stamps: &mut BTreeSet<Stamp>, found: &[Stamp], inbox: &Inbox)
    ensures { filter (waits_in inbox.now) stamps.new.keys
        ≡ filter (waits_in inbox.now) stamps.old.keys }
{
    for stamp in found {
        drop_one(stamps, *stamp, inbox);
    }
}

/// Removes all stamps of which no edit waits.
fn drop_all(stamps: &mut BTreeSet<Stamp>, inbox: &Inbox)
    ensures { stamps.new.keys ≡ filter (waits_in inbox.now) stamps.old.keys }
{
    stamps.retain(|stamp| inbox.is_held(*stamp));
}

impl HeldStamps {
    /// Without any stamp. It takes no memory.
    pub(crate) fn new(alloc: Global) -> HeldStamps
        ensures { result ≡ [] }
    {
        HeldStamps {
            stamps: BTreeSet::new(alloc),
        }
    }

    /// How many there are.
    pub(crate) fn len(&self) -> usize
        ensures { result ≡ length self.now }
    {
        self.stamps.len()
    }

    /// Whether a stamp is among them.
    pub(crate) fn has(&self, stamp: Stamp) -> bool
        ensures { result ≡ is_one_of self.now stamp }
    {
        self.stamps.contains(&stamp)
    }

    /// Holds an edit that a body took, if it waits. Memory leaves the stamps as they were.
    pub(crate) fn follow(&mut self, stamp: Stamp, is_held: bool) -> Result<(), AllocError>
        ensures ok { OnOk result (self.new ≡ (if is_held
            then insert_key stamp_cmp self.old stamp else self.old)) }
        ensures kept { OnErr result (self.new ≡ self.old) }
    {
        if is_held {
            self.stamps.insert(stamp)?;
        }
        Ok(())
    }

    /// Holds an edit no longer that came last, unless it didn't wait.
    pub(crate) fn undo(&mut self, stamp: Stamp, is_held: bool)
        ensures { self.new ≡ (if is_held
            then remove_key (is_at (stamp_cmp stamp)) self.old else self.old) }
    {
        if is_held {
            self.stamps.remove(&stamp);
        }
    }

    /// Those that were woken are held no longer. Some of them were found.
    pub(crate) fn wake(&mut self, woken: usize, found: &[Stamp], inbox: &Inbox)
        requires { 0 < woken
            → filter (waits_in inbox.now) self.old ≡ stamps_of inbox.now }
        ensures some { 0 < woken → self.new ≡ stamps_of inbox.now }
        ensures none { woken ≡ 0 → self.new ≡ self.old }
    {
        if woken == 0 {
            return;
        }
        drop_found(&mut self.stamps, found, inbox);
        if self.stamps.len() != inbox.held() {
            drop_all(&mut self.stamps, inbox);
        }
    }
}
