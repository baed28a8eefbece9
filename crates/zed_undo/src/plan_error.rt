//! Why no edits could be planned.
ghost use Rattle.std.specs.Prelude.{◌≡◌};
ghost use Rattle.zed_undo.specs.declared.plan_error.PlanError.TheVariants.{Memory};

use std::alloc::{AllocError, AllocFailed};

/// Why no edits could be planned.
#[derive(Clone, Copy)]
pub(crate) enum PlanError {
    Memory,
    /// None are needed, no time is left for them, or they don't lead to the world.
    NotPlanned,
}

impl From<AllocError> for PlanError {
    ghost from_gives = { λ _ e. e ≡ Memory };

    fn from(_error: AllocError) -> PlanError {
        PlanError::Memory
    }
}

impl<T: Drop> From<AllocFailed<T>> for PlanError {
    ghost from_gives = { λ _ e. e ≡ Memory };

    fn from(_error: AllocFailed<T>) -> PlanError {
        PlanError::Memory
    }
}
