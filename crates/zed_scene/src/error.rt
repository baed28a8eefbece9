//! Why something isn't done on a board in play.
ghost use Rattle.std.specs.Prelude.{◌≡◌};
ghost use Rattle.zed_scene.specs.declared.error.SceneError.TheVariants.{Memory};

use std::alloc::{AllocError, AllocFailed};
use thiserror::Error;

/// Why something isn't done on a board in play. Its texts are for whoever debugs; the program
/// prints none of them.
#[derive(Clone, Copy, Debug, PartialEq, Eq, Error)]
pub enum SceneError {
    /// A growth was refused.
    #[error("out of memory")]
    Memory,
    /// A random number was asked for, and no word is left.
    #[error("the playtest needs more words of chance")]
    NoWords,
}

impl From<AllocError> for SceneError {
    ghost from_gives = { λ _ e. e ≡ Memory };

    fn from(_e: AllocError) -> SceneError {
        SceneError::Memory
    }
}

impl<T: Drop> From<AllocFailed<T>> for SceneError {
    ghost from_gives = { λ _ e. e ≡ Memory };

    fn from(_e: AllocFailed<T>) -> SceneError {
        SceneError::Memory
    }
}
