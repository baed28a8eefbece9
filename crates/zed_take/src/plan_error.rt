//! Why no edits could be planned.
ghost use Rattle.std.specs.Prelude.{◌≡◌};
ghost use Rattle.zed_take.specs.declared.plan_error.PlanError.TheVariants.{Memory};

use std::alloc::{AllocError, AllocFailed};

/// Why no edits could be planned. `TakeError` tells it.
#[derive(Clone, Copy)]
pub enum PlanError {
    Memory,
    /// No time is left for so many edits.
    ClockSpent,
    /// The edits don't lead to the world.
    NotTaken,
}

impl From<AllocError> for PlanError {
    ghost from_gives = { λ _ e. e ≡ Memory };

    fn from(_error: AllocError) -> PlanError {
        PlanError::Memory
    }
}

impl<T: Drop> From<AllocFailed<T>> for PlanError {
    ghost from_gives = { λ _ e. e ≡ Memory };

    fn from(_error: AllocFailed<T>) -> PlanError {
        PlanError::Memory
    }
}
