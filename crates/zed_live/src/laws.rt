//! What a live document shows, in whatever order the edits came.
ghost use Rattle.zed_live.specs.Document.{NoneIsEmpty, DocumentTakes, ReplayedDocumentIsShown};

use zed_cells::cells_hold_the_latest;
use zed_stats::fields_hold_the_latest;
use zed_world::read_is_normal;

/// A document has the latest writes of the edits that were put in, in whatever order they came.
pub fn document_shows_its_edits()
    ensures none { NoneIsEmpty }
    ensures takes { DocumentTakes }
{
    read_is_normal();
    cells_hold_the_latest();
    fields_hold_the_latest();
}

/// A document that took the edits that the replay takes, all of which fit, shows what the replay has, texts aside.
pub fn document_shows_the_replay()
    ensures { ReplayedDocumentIsShown }
{
    read_is_normal();
}
