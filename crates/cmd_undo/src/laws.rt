//! What undoing leaves.
ghost use Rattle.cmd_undo.specs.Laws.{UndoingTakesBack};

/// Where edits are undone, those of the file with the new ones show the world of all but these. The
/// new ones fit and come after all others, and no edit is lost.
pub fn undoing_takes_back()
    ensures { UndoingTakesBack }
{}
