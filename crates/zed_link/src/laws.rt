//! Laws of a link that holds a whole file, and of deliveries after others.
ghost use Rattle.zed_link.specs.Laws.{DeliveriesGoOn, FilesArePulled};

use zed_editfile::{fronts_are_read, one_reading};

/// A link that holds an edit file of the document's world hands over its edits: no pull is refused
/// because of the file. All edits are delivered, unless one clashes, memory runs out, the link
/// fails, or there are too many reads.
pub fn files_are_pulled()
    ensures { FilesArePulled }
{
    one_reading();
    fronts_are_read();
}

/// Deliveries of some edits, and then of others to the document that they leave, are deliveries of
/// all of them.
pub fn deliveries_go_on()
    ensures { DeliveriesGoOn }
{}
