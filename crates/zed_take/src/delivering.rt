//! Edits that were taken, joined to documents.
ghost use Rattle.std.specs.Prelude.{◌≡◌, false, OnErr, OnOk};
ghost use Rattle.zed_op.specs.Set.{AllFit, union};
ghost use Rattle.zed_document.specs.Delivery.{DeliversFront, HasNew};
ghost use Rattle.zed_take.specs.Taken.{Joins};

use std::alloc::AllocError;
use zed_document::Document;
use zed_op::Edit;

/// Joins edits that fit and don't clash to a document that isn't stale. After want of memory those of a front are in, and it may be stale.
pub fn deliver(document: &mut Document, edits: Vec<Edit>) -> Result<(), AllocError>
    requires fit { AllFit edits.items }
    requires joins { Joins document.old.edits edits.items }
    requires sound { document.old.is_stale ≡ false }
    ensures edits { OnOk result (document.new.edits ≡ union document.old.edits edits.items) }
    ensures sound { OnOk result (document.new.is_stale ≡ false) }
    ensures front { OnErr result
        (DeliversFront document.old edits.items document.new.edits) }
    ensures world { document.new.world ≡ document.old.world }
    ensures memory_only_when { OnErr result (HasNew document.old.edits edits.items) }
{
    match document.deliver_all(edits) {
        Ok(()) => Ok(()),
        Err(_) => Err(AllocError),
    }
}
