//! How far the commands have come.
use zed_document::Document;
use zed_driver::Effect;
use zed_world::World;

/// How far `take` has come.
#[derive(Drop)]
pub(crate) enum TakeStage {
    /// No file was read.
    Begun,
    /// FILE was read. Its base, of this name, is next.
    Opened {
        document: Document,
        name: String,
    },
    /// A base of its own was read too, or there is none. WORLD is next.
    Based {
        document: Document,
        base: Option<Document>,
        name: String,
    },
    /// All was read.
    Done {
        effect: Effect,
    },
}

/// How far `open` has come.
#[derive(Drop)]
pub(crate) enum OpenStage {
    /// No file was read.
    Begun,
    /// FILE was read, and exported to this text. WORLD is next.
    Exported {
        document: Document,
        text: Vec<u8>,
    },
    /// WORLD was read, and is another world. The base, of this name, is next.
    Compared {
        document: Document,
        text: Vec<u8>,
        found: World,
        name: String,
    },
    /// All was read that is needed.
    Done {
        effect: Effect,
    },
}
