//! What more edits change of a replay, and what stays.
ghost use Rattle.zed_laws.specs.Laws.{OneMoreIsOneStep, ReplayGoesOn, OneMoreIsTaken, OneMoreIsHeld, HeldAreRemembered, MadeStaysMade, MadeOutlastsEdits};

/// What one more edit at the end makes of a replay, of the edits taken and of those held.
pub fn replay_goes_edit_by_edit()
    ensures step { OneMoreIsOneStep }
    ensures on { ReplayGoesOn }
    ensures taken { OneMoreIsTaken }
    ensures held { OneMoreIsHeld }
{}

/// The stamps that a document keeps are those of the edits that are held.
pub fn held_edits_are_remembered()
    ensures { HeldAreRemembered }
{}

/// What is made stays made, removed or not, whatever edits come.
pub fn made_things_stay()
    ensures step { MadeStaysMade }
    ensures edits { MadeOutlastsEdits }
{}
