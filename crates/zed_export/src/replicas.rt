//! What replicas that accepted the same edits have in common: the answers of their calls.
ghost use Rattle.std.specs.Prelude.{◌≡◌, ◌≤◌, IfOk, IsOkAnd, Ok, true};
ghost use Rattle.zed_types.specs.declared.limits.TheConstants.{READ_BODY_LIMIT};
ghost use Rattle.zed_edit.specs.Replay.{held, replay};
ghost use Rattle.zed_world.specs.Reading.{world_at};
ghost use Rattle.zed_export.specs.Limits.{Answers, exported, saved};
ghost use Rattle.zed_export.specs.Headline.{AreAlike, HaveAcceptedTheSame, HoldsOneAuthors, IsOneAuthors, MergingAssociates, MergingCommutes, MergingItself, MergingRepeats};

use crate::error::ExportError;
use crate::exporting::{export, save};
use std::alloc::Global;
use zed_document::{Document, DocumentError, View, edits_decide};
use zed_op::{rising_lists_are_sets, sets_rise, union_is_of_sets};
use zed_world::World;

/// What two replicas answer.
#[derive(Drop)]
pub struct SideBySide<'a> {
    /// Whether they are the same.
    pub same: Result<bool, DocumentError>,
    pub view: Result<View<'a>, DocumentError>,
    pub other_view: Result<View<'a>, DocumentError>,
    pub world: Result<World, ExportError>,
    pub other_world: Result<World, ExportError>,
    pub file: Result<Vec<u8>, ExportError>,
    pub other_file: Result<Vec<u8>, ExportError>,
}

/// Replicas that accepted the same edits, in any order and with any repeats, hold the document that
/// one author would have who made those edits in stamp order. At the limit asked for, each exports
/// and saves what this document gives: the same world file, byte for byte, or the same named
/// refusal. The saved file reads back as the exported world. This is so unless memory runs out.
pub fn headline<'a>(
    alloc: Global,
    one: &'a Document,
    other: &'a Document,
    limit: usize,
) -> SideBySide<'a>
    requires accepted { HaveAcceptedTheSame one.now other.now }
    requires limit { limit ≤ READ_BODY_LIMIT }
    ensures same { result.same ≡ Ok true }
    ensures document { IsOkAnd result.view (λ v. IsOneAuthors one.now.edits v) }
    ensures other_document { IsOkAnd result.other_view (λ v. IsOneAuthors one.now.edits v) }
    ensures held { HoldsOneAuthors one.now.edits }
    ensures other_held { held other.now.edits ≡ held one.now.edits }
    ensures world { Answers (λ w. w) (exported limit (replay one.now.edits)) result.world }
    ensures other_world { Answers (λ w. w)
        (exported limit (replay one.now.edits)) result.other_world }
    ensures worlds { AreAlike (λ w. w) result.world result.other_world }
    ensures file { Answers (λ f. f.items) (saved limit (replay one.now.edits)) result.file }
    ensures other_file { Answers (λ f. f.items)
        (saved limit (replay one.now.edits)) result.other_file }
    ensures files { AreAlike (λ f. f.items) result.file result.other_file }
    ensures back { IfOk result.file (λ f. IfOk result.world (λ w. world_at f.items ≡ Ok w)) }
{
    one.edits();
    other.edits();
    rising_lists_are_sets();
    edits_decide();
    SideBySide {
        same: one.same(other),
        view: one.view(),
        other_view: other.view(),
        world: export(alloc, one, limit),
        other_world: export(alloc, other, limit),
        file: save(alloc, one, limit),
        other_file: save(alloc, other, limit),
    }
}

/// Merging is commutative, associative and idempotent: in whichever way replicas are merged, they
/// accepted the same edits.
pub fn merging_brings_the_same()
    ensures commutative { MergingCommutes }
    ensures associative { MergingAssociates }
    ensures idempotent { MergingRepeats }
    ensures itself { MergingItself }
{
    sets_rise();
    union_is_of_sets();
}
