//! How far the setting of a program has come.
use zed_driver::Effect;

/// How far the setting of a program has come.
#[derive(Drop)]
pub(crate) enum Stage {
    /// No file was read. TEXT is next.
    Begun,
    /// TEXT was read, which spells this program. FILE is next.
    Read { program: Vec<u8> },
    /// Both were read.
    Done { effect: Effect },
}
