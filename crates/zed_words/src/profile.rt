//! The profiles of a save.

/// How large the bodies of boards may be, for a command that saves a world or reads it as if it
/// did.
#[derive(Clone, Copy)]
pub enum Profile {
    /// As ZZT's own tools take them.
    Usual,
    /// As a world file can spell them: `--big`.
    Big,
}
