//! The document: a replica of a world. It accepts edits in any order and with any repeats. It shows
//! what one author would have who made them in stamp order.
#![tactic(auto)]

mod author;
mod deletion;
mod delivered;
mod document;
mod error;
mod held;
mod insertion;
mod intake;
mod laws;
mod many;
mod readers;
mod same;
mod visits;

pub use delivered::{Delivered, State};
pub use document::Document;
pub use error::DocumentError;
pub use intake::Intake;
pub use laws::{deliveries_come_to_sets, edits_decide, merging_is_of_sets};
pub use many::copies_of;
pub use zed_view::{View, append_names, append_text};
