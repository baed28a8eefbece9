//! Why runs can't be written or read.

use thiserror::Error;

/// Why runs can't be written or read. Its texts are for whoever debugs; the program prints none of them.
#[derive(Clone, Copy, Debug, PartialEq, Eq, Error)]
pub enum RunsError {
    /// A growth was refused.
    #[error("out of memory")]
    Memory,
    /// The bytes end before the runs fill a board.
    #[error("the runs end before the board is full")]
    Truncated,
}
