//! The edits that calls of a session bring into its document.
ghost use Rattle.zed_session.specs.Gains.{EditsAreHandedOver};

/// After any calls of a session, except those that lend its document, the document has its old
/// edits, and only such new ones as the bytes from its links spelled.
pub fn edits_are_handed_over()
    ensures { EditsAreHandedOver }
{}
