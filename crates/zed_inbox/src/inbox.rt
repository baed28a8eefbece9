//! An inbox: edits that wait.
ghost use Rattle.std.specs.Prelude.{◌≡◌, ◌≢◌, ◌↔◌, length, [], false, IsTrue, IfOk, OnOk, OnErr};
ghost use Rattle.std.specs.List.{find, list_any};
ghost use Rattle.zed_types.specs.Stamp.{same_stamp};
ghost use Rattle.zed_op.specs.Set.{IsRising, with_edit, stamps_of};
ghost use Rattle.zed_inbox.specs.Waiting.{naming, not_naming, without};

use crate::index::{is_one, unlist};
use crate::keeping::{has, keep_the_same, put, repeats};
use std::alloc::{AllocError, Global};
use std::collections::{BTreeMap, BTreeSet};
use std::marker::Model;
use zed_op::{Edit, Thing};
use zed_types::Stamp;

/// Edits that wait for things that they name. Contracts see them as a list in stamp order.
#[derive(Drop)]
pub struct Inbox {
    edits: BTreeMap<Stamp, Edit>,
    // each thing that an edit waits for, and the stamp of the edit
    waits: BTreeSet<(Thing, Stamp)>,
    alloc: Global,
}

impl Model for Inbox {
    ghost use Rattle.std.specs.Prelude.{List};
    ghost use Rattle.std.specs.Map.{values_of};
    ghost use Rattle.zed_op.specs.declared.op.Edit.{Edit as TheEdit};
    ghost use Rattle.zed_inbox.specs.Kept.{AreKept};

    ghost Value = { List TheEdit };

    ghost view = { λ i. values_of i.edits.entries };

    ghost invariant = { λ i. AreKept i.edits.entries i.waits.keys };
}

impl Inbox {
    /// An inbox in which nothing waits. It takes no memory.
    #[tactic(auto, using(crate::proofs::Whole::whole_empty))]
    pub fn new(alloc: Global) -> Inbox
        ensures result { result ≡ [] }
    {
        Inbox {
            edits: BTreeMap::new(alloc),
            waits: BTreeSet::new(alloc),
            alloc,
        }
    }

    /// Holds an edit, unless one with its stamp waits already. Memory leaves the inbox as it was.
    pub fn hold(&mut self, edit: Edit) -> Result<(), AllocError>
        ensures ok { OnOk result (self.new ≡ with_edit edit self.old) }
        ensures kept { OnErr result (self.new ≡ self.old) }
        ensures memory_only_when { OnErr result
            (list_any (λ e. same_stamp e.stamp edit.stamp) self.old ≡ false) }
    {
        if repeats(&self.edits, &edit) {
            return Ok(());
        }
        put(self.alloc, &mut self.edits, &mut self.waits, edit)
    }

    /// Takes out the edits that wait for a thing, in stamp order. The others still wait. If none
    /// waits for it, this takes no memory. Memory leaves the inbox as it was.
    pub fn release(&mut self, thing: Thing) -> Result<Vec<Edit>, AllocError>
        ensures ok { IfOk result (λ edits. edits.items ≡ naming thing self.old) }
        ensures others { OnOk result (self.new ≡ not_naming thing self.old) }
        ensures kept { OnErr result (self.new ≡ self.old) }
        ensures memory_only_when { OnErr result (naming thing self.old ≢ []) }
    {
        let stamps = self.stamps_for(thing)?;
        self.take_all(thing, stamps.as_slice())
    }

    /// How many edits wait. They rise in stamp order.
    pub fn held(&self) -> usize
        ensures result { result ≡ length self.now }
        ensures rising { IsRising self.now }
    {
        self.edits.len()
    }

    /// Whether the edit with a stamp waits.
    pub fn is_held(&self, stamp: Stamp) -> bool
        ensures result { result ≡ list_any (λ e. same_stamp e.stamp stamp) self.now }
    {
        has(&self.edits, stamp)
    }

    /// Whether the same edits wait in another inbox.
    pub fn same(&self, other: &Inbox) -> bool
        ensures { IsTrue result ↔ self.now ≡ other.now }
    {
        keep_the_same(&self.edits, &other.edits)
    }

    /// The stamps of the edits that wait for a thing, in order.
    fn stamps_for(&self, thing: Thing) -> Result<Vec<Stamp>, AllocError>
        ensures ok { IfOk result (λ stamps. stamps.items ≡ stamps_of (naming thing self.now)) }
        ensures memory_only_when { OnErr result (naming thing self.now ≢ []) }
    {
        let mut stamps = Vec::new(self.alloc);
        let first = Stamp {
            time: 0,
            replica: 0,
        };
        for wait in self.waits.range((thing, first)..) {
            if !is_one(wait.0, thing) {
                return Ok(stamps);
            }
            if stamps.push(wait.1).is_err() {
                return Err(AllocError);
            }
        }
        Ok(stamps)
    }

    /// Takes out the edits that wait for a thing, by their stamps. The others still wait. Memory
    /// leaves the inbox as it was.
    fn take_all(&mut self, _thing: Thing, stamps: &[Stamp]) -> Result<Vec<Edit>, AllocError>
        requires { stamps.now ≡ stamps_of (naming _thing self.old) }
        ensures ok { IfOk result (λ edits. edits.items ≡ naming _thing self.old) }
        ensures others { OnOk result (self.new ≡ not_naming _thing self.old) }
        ensures kept { OnErr result (self.new ≡ self.old) }
        ensures memory_only_when { OnErr result (naming _thing self.old ≢ []) }
    {
        let mut taken = Vec::with_capacity(self.alloc, stamps.len())?;
        for stamp in stamps {
            match self.take(*stamp) {
                Some(edit) => taken.push(edit).unwrap(),
                None => {}
            }
        }
        Ok(taken)
    }

    /// The edit with a stamp, which no longer waits.
    #[tactic(auto, using(crate::proofs::Whole::whole_less, crate::proofs::Whole::whole_still))]
    fn take(&mut self, stamp: Stamp) -> Option<Edit>
        ensures result { result ≡ find (λ e. same_stamp e.stamp stamp) self.old }
        ensures others { self.new ≡ without stamp self.old }
    {
        match self.edits.remove(&stamp) {
            Some(edit) => {
                unlist(self.alloc, &mut self.waits, &edit);
                Some(edit)
            }
            None => None,
        }
    }
}
