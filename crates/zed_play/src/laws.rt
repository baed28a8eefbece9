//! Laws of steps, and of what players take along to another board.
ghost use Rattle.zed_play.specs.Laws.{EdgesTakeAll, LaterWordsDoNotMatter, PassagesTakeAll, StepHasAnOutcome, StepHasOneOutcome};

/// A step with these words of chance has one outcome. So NoWords comes exactly if it needs more
/// words.
pub fn step_has_one_outcome()
    ensures stands { StepHasAnOutcome }
    ensures alone { StepHasOneOutcome }
{}

/// The words after those that a step used can be any others.
pub fn later_words_do_not_matter()
    ensures result { LaterWordsDoNotMatter }
{}

/// The player of a playtest that goes on on another board has the counters, flags, keys and message
/// lines that it had: only the time on the board begins anew.
pub fn players_take_along_what_they_have()
    ensures passages { PassagesTakeAll }
    ensures edges { EdgesTakeAll }
{}
