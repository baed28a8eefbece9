//! Which edits wait for which things: each thing that an edit names, with the stamp of the edit.
ghost use Rattle.std.specs.Prelude.{◌≡◌, IfErr, OnOk, OnErr};
ghost use Rattle.zed_inbox.specs.Waiting.{same_thing};
ghost use Rattle.zed_inbox.specs.Kept.{IsUnlisted, ListsOne, ListsOneLess, ListsAlso, ListsNoMore, ListsTheSame};

use std::alloc::{AllocError, Global};
use std::collections::BTreeSet;
use zed_op::{Edit, Thing, names};
use zed_types::Stamp;

/// Whether two names are of one thing.
pub(crate) fn is_one(a: Thing, b: Thing) -> bool
    ensures { result ≡ same_thing a b }
{
    match (a, b) {
        (Thing::Board(a), Thing::Board(b)) => a == b,
        (Thing::Stat(a), Thing::Stat(b)) => a == b,
        (Thing::Text(a), Thing::Text(b)) => a == b,
        (Thing::Element(t, a), Thing::Element(u, b)) => t == u && a == b,
        _ => false,
    }
}

/// Lists a stamp under a thing.
fn add(waits: &mut BTreeSet<(Thing, Stamp)>, thing: Thing, stamp: Stamp) -> Result<(), AllocError>
    ensures ok { OnOk result (ListsOne thing stamp waits.old.keys waits.new.keys) }
    ensures kept { OnErr result (waits.new.keys ≡ waits.old.keys) }
{
    match waits.insert((thing, stamp)) {
        Ok(_) => Ok(()),
        Err(_) => Err(AllocError),
    }
}

/// Lists a stamp no longer under a thing.
fn remove(waits: &mut BTreeSet<(Thing, Stamp)>, thing: Thing, stamp: Stamp)
    ensures { ListsOneLess thing stamp waits.old.keys waits.new.keys }
{
    waits.remove(&(thing, stamp));
}

/// Lists an edit under each thing that it names. Memory leaves what is listed as it was.
#[tactic(auto, using(crate::proofs::Halfway::begun, crate::proofs::Halfway::one_on, crate::proofs::Halfway::done, crate::proofs::Halfway::undone))]
pub(crate) fn list(
    alloc: Global,
    waits: &mut BTreeSet<(Thing, Stamp)>,
    edit: &Edit,
) -> Result<(), AllocError>
    requires { IsUnlisted edit.now.stamp waits.old.keys }
    ensures ok { OnOk result (ListsAlso edit.now waits.old.keys waits.new.keys) }
    ensures kept { OnErr result (ListsTheSame waits.old.keys waits.new.keys) }
{
    for thing in names(alloc, edit) {
        match add(waits, thing, edit.stamp) {
            Ok(()) => {}
            Err(error) => {
                unlist(alloc, waits, edit);
                return Err(error);
            }
        }
    }
    Ok(())
}

/// Lists an edit under nothing.
#[tactic(auto, using(crate::proofs::Halfway::off_begun, crate::proofs::Halfway::one_off, crate::proofs::Halfway::off_done))]
pub(crate) fn unlist(alloc: Global, waits: &mut BTreeSet<(Thing, Stamp)>, edit: &Edit)
    ensures { ListsNoMore edit.now waits.old.keys waits.new.keys }
{
    for thing in names(alloc, edit) {
        remove(waits, thing, edit.stamp);
    }
}
