//! What live parts show, in whatever order the edits came.
ghost use Rattle.zed_view.specs.Shown.{ReplayedPartsAreShown};

use zed_laws::held_edits_are_remembered;
use zed_live::document_shows_the_replay;
use zed_texts::texts_show_the_replay;

/// Live parts show the replay, if they show the edits that it takes, and the inbox has those that
/// it holds.
pub fn parts_show_the_replay()
    ensures { ReplayedPartsAreShown }
{
    document_shows_the_replay();
    texts_show_the_replay();
    held_edits_are_remembered();
}
