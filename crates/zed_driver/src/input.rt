//! Files as a command is given them.
use zed_types::Bytes;

/// A file as it was read.
#[derive(Drop)]
pub enum Input {
    Bytes(Bytes),
    /// There is no file of this name.
    Missing,
    /// The host can't read it, or can't tell whether there is one.
    Failed,
}
