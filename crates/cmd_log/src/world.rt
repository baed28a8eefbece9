//! The world of a document.
ghost use Rattle.std.specs.Prelude.{◌≡◌, ◌⊎◌, ℕ, Err, IfErr, IfOk, List, Result, false};
ghost use Rattle.zed_driver.specs.declared.command.Stop.{Stop as Stopped};
ghost use Rattle.zed_driver.specs.declared.command.Stop.TheVariants.{Memory};
ghost use Rattle.zed_edit.specs.Replay.{replay};
ghost use Rattle.zed_export.specs.Limits.{refusal_of};
ghost use Rattle.zed_export.specs.World.{world_of};
ghost use Rattle.zed_refusal.specs.declared.reason.Reason.{Reason as TheReason};
ghost use Rattle.cmd_log.specs.Listed.{unless_over};

use std::alloc::Global;
use zed_document::Document;
use zed_driver::Stop;
use zed_export::export;
use zed_refusal::{Reason, export_stop};
use zed_types::READ_BODY_LIMIT;
use zed_world::World;

/// The world of a document that isn't stale, or the refusal of its export, at 32,767 bytes a body.
pub fn shown_world(alloc: Global, document: &Document) -> Result<World, Stop<Reason>>
    requires sound { document.now.is_stale ≡ false }
    ensures world { IfOk result (λ world. world ≡ world_of (replay document.now.edits)) }
    ensures within { (told : Result (List ℕ) (Stopped TheReason))
        → IfOk result (λ _. unless_over (refusal_of 32767 (replay document.now.edits)) told ≡ told) }
    ensures err { (told : Result (List ℕ) (Stopped TheReason)) → IfErr result (λ e. (e ≡ Memory)
        ⊎ (unless_over (refusal_of 32767 (replay document.now.edits)) told ≡ Err e)) }
{
    match export(alloc, document, READ_BODY_LIMIT) {
        Ok(world) => Ok(world),
        Err(error) => Err(export_stop(error)),
    }
}
