//! Things that hold a document.
ghost use Rattle.std.specs.Prelude.{◌≡◌};

use zed_document::Document;

/// A thing that holds a document, and lends it to be changed. The trait names the thing's own type
/// in its clause; a function that lends out of boxed objects can't.
pub trait HoldsDocument {
    ghost use Rattle.std.specs.Borrow.{Lends, sem};
    ghost use Rattle.zed_document.specs.Replica.{Replica};
    ghost use Rattle.zed_document.specs.contracts.document.Document.{the_row as document_type};

    /// The document that it holds.
    ghost held: { Self → Replica };

    /// The same thing with another document.
    ghost holding: { Self → Replica → Self };

    /// The document, to be changed. All else stays as it is, whatever is done to the document.
    fn document_mut(&mut self) -> &mut Document
        ensures* writes_back { sem 𝓛 (Lends Self.row document_type self.entry result
            (holding self.entry.now)) }
        ensures result { result.now ≡ held self.old };
}
