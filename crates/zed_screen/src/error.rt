//! Why a board is not shown.
use thiserror::Error;

/// Why a board can't be shown. Its texts are for whoever debugs; the program prints none of them.
#[derive(Clone, Copy, Debug, PartialEq, Eq, Error)]
pub enum ScreenError {
    /// The world has no board of this number.
    #[error("no such board")]
    NoBoard,
}
