//! Links: two-way streams of bytes, handed in, over which replicas exchange edits.
#![tactic(auto)]

mod error;
mod feed;
mod laws;
mod link;
mod memory;
mod pulled;
mod receiving;
mod sending;
mod writes;

pub use error::LinkError;
pub use feed::Feed;
pub use laws::{deliveries_go_on, files_are_pulled};
pub use link::{Link, LinkFailed};
pub use memory::MemoryLink;
pub use pulled::Pulled;
pub use receiving::{receive, receive_into};
pub use sending::send;
pub use writes::Writes;
