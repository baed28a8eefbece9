//! Why an edit is refused.
ghost use Rattle.std.specs.Prelude.{◌≡◌};
ghost use Rattle.zed_op.specs.declared.cause.EditError.TheVariants.{Memory};

use std::alloc::{AllocError, AllocFailed};
use thiserror::Error;

/// Why an edit is refused. The first four are found while a record of an edit file is read, the others in the edit itself.
#[derive(Clone, Copy, Debug, PartialEq, Eq)]
pub enum Cause {
    /// The record ends inside a field.
    Short,
    /// No edit has this number.
    Op,
    /// A tag, a boolean or the number of a field has no meaning.
    Tag,
    /// Bytes follow the last field.
    Long,
    /// The edit's own stamp, or one that it names, breaks the rules of stamps.
    Stamp,
    /// A value is outside its range.
    Range,
    /// A thing that the edit names was not made before it.
    Order,
    /// The bytes of a Genesis are not a world file as this editor writes it.
    Genesis,
}

/// Why an edit can't be checked, copied or replayed. Its texts are for whoever debugs; the program prints none of them.
#[derive(Clone, Copy, Debug, PartialEq, Eq, Error)]
pub enum EditError {
    #[error("out of memory")]
    Memory,
    #[error("the edit breaks a rule: {0:?}")]
    BadEdit(Cause),
}

impl From<AllocError> for EditError {
    ghost from_gives = { λ _ e. e ≡ Memory };

    fn from(_error: AllocError) -> EditError {
        EditError::Memory
    }
}

impl<T: Drop> From<AllocFailed<T>> for EditError {
    ghost from_gives = { λ _ e. e ≡ Memory };

    fn from(_error: AllocFailed<T>) -> EditError {
        EditError::Memory
    }
}
