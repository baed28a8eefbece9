//! How far the undoing has come.
use zed_document::Document;
use zed_driver::Effect;

/// How far the undoing has come.
#[derive(Drop)]
pub(crate) enum Stage {
    /// No file was read. FILE is next.
    Begun,
    /// FILE was read. NEW is next.
    Opened { document: Document },
    /// NEW was read too. OLD is next.
    Newer { document: Document, newer: Document },
    /// All was read.
    Done { effect: Effect },
}
