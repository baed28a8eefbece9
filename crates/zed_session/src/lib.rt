//! A session: a document with links, and a stage on which a board is shown or played.
#![tactic(auto)]

mod boards;
mod error;
mod file;
mod holding;
mod keys;
mod laws;
mod over;
mod playing;
mod screen;
mod session;
mod stage;

pub use boards::show_board;
pub use error::SessionError;
pub use holding::HoldsDocument;
pub use keys::Keys;
pub use laws::edits_are_handed_over;
pub use playing::Playing;
pub use screen::{DeviceFailed, Screen};
pub use session::Session;
pub use stage::Stage;
pub use zed_link::{Link, LinkError, Pulled, receive, send};
