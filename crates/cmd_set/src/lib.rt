//! The command `zztool set`: an author sets a register of the world, a property of a board or a
//! field of a stat.
#![tactic(auto)]

mod deed;
mod laws;
mod performing;
mod reason;
mod setting;

pub use laws::{
    other_edits_are_not_read, printed_settings_are_read, printed_settings_set_the_same,
};
pub use performing::grant;
pub use reason::SetReason;
pub use setting::Set;
