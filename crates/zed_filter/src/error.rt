//! Why a filter asks for nothing in a document.
use thiserror::Error;

/// Why a filter asks for nothing in a document. Its texts are for whoever debugs; the program prints
/// none of them.
#[derive(Clone, Copy, Debug, PartialEq, Eq, Error)]
pub enum FilterError {
    #[error("there is no such board")]
    NoBoard,
    #[error("the cell is outside the table")]
    OutOfRange,
}
