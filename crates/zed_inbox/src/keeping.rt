//! Waiting edits, each under its stamp and listed under the things that it names.
ghost use Rattle.std.specs.Prelude.{◌≡◌, ◌↔◌, true, false, IsTrue, IfErr, OnOk, OnErr};
ghost use Rattle.std.specs.List.{list_any};
ghost use Rattle.std.specs.Map.{values_of};
ghost use Rattle.zed_types.specs.Stamp.{same_stamp};
ghost use Rattle.zed_op.specs.Set.{IsRising, with_edit};
ghost use Rattle.zed_inbox.specs.Kept.{stamped, AreKept};

use crate::index::{list, unlist};
use std::alloc::{AllocError, Global};
use std::collections::{BTreeMap, BTreeSet};
use zed_op::{Edit, Thing, sets_rise};
use zed_types::Stamp;

/// Whether an edit with this stamp is there.
pub(crate) fn has(edits: &BTreeMap<Stamp, Edit>, stamp: Stamp) -> bool
    requires { edits.now.entries ≡ stamped (values_of edits.now.entries) }
    ensures { result ≡ list_any (λ e. same_stamp e.stamp stamp) (values_of edits.now.entries) }
{
    edits.contains_key(&stamp)
}

/// Whether an edit with the stamp of this one is there, so that it would add nothing.
pub(crate) fn repeats(edits: &BTreeMap<Stamp, Edit>, edit: &Edit) -> bool
    requires under { edits.now.entries ≡ stamped (values_of edits.now.entries) }
    requires rising { IsRising (values_of edits.now.entries) }
    ensures result { result
        ≡ list_any (λ e. same_stamp e.stamp edit.now.stamp) (values_of edits.now.entries) }
    ensures kept { result ≡ true
        → values_of edits.now.entries ≡ with_edit edit.now (values_of edits.now.entries) }
{
    has(edits, edit.stamp)
}

/// Whether the same edits are in two maps.
pub(crate) fn keep_the_same(a: &BTreeMap<Stamp, Edit>, b: &BTreeMap<Stamp, Edit>) -> bool
    ensures { IsTrue result ↔ values_of a.now.entries ≡ values_of b.now.entries }
{
    a.len() == b.len() && a.values().zip(b.values()).all(|(e, f)| e.is_same(f))
}

/// An edit whose stamp isn't there waits from now on. Memory leaves all as it was.
pub(crate) fn put(
    alloc: Global,
    edits: &mut BTreeMap<Stamp, Edit>,
    waits: &mut BTreeSet<(Thing, Stamp)>,
    edit: Edit,
) -> Result<(), AllocError>
    requires whole { AreKept edits.old.entries waits.old.keys }
    requires new { list_any (λ e. same_stamp e.stamp edit.stamp) (values_of edits.old.entries)
        ≡ false }
    ensures ok { OnOk result
        (values_of edits.new.entries ≡ with_edit edit (values_of edits.old.entries)) }
    ensures kept { OnErr result (edits.new.entries ≡ edits.old.entries) }
    ensures whole { AreKept edits.new.entries waits.new.keys }
{
    sets_rise();
    let stamp = edit.stamp;
    list(alloc, waits, &edit)?;
    match edits.insert(stamp, edit) {
        Ok(_) => Ok(()),
        Err(refused) => {
            unlist(alloc, waits, &refused.value.1);
            Err(AllocError)
        }
    }
}
