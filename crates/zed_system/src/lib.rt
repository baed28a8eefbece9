//! The host over real files and streams: following links, locking, replacing a whole file, and keeping
//! one that would be lost.
#![tactic(auto)]

mod causes;
mod folder;
mod fresh;
mod hold;
mod host;
mod keeping;
mod last;
mod leftover;
mod loss;
mod named;
mod naming;
mod old;
mod place;
mod reading;
mod same;

pub use folder::{Folder, Old, replace};
pub use fresh::{write, write_keeping};
pub use hold::{held, stands};
pub use host::SystemHost;
pub use keeping::KeptName;
pub use last::{Ending, Front, LastCall};
pub use loss::is_lost;
pub use named::{FoundFile, NamedFile, leads_to};
pub use naming::{name_file, refused_at, tell_file};
