//! Why a command that calls no device was refused, and the refusals of the layers below as such.
#![tactic(auto)]

mod reason;
mod stops;

pub use reason::Reason;
pub use stops::{action_stop, document_stop, export_stop, file_stop, world_stop};
