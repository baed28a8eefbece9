//! Laws of turns.
ghost use Rattle.zed_oop.specs.Laws.{EndedTurnsTakeNone, LaterWordsDoNotMatter, TurnHasAnOutcome, TurnHasOneOutcome, TurnsOfNoneTakeNone};

/// A turn of a stat has one outcome: it needs more words of chance, or it leaves one board, one
/// rest of the words and one list of messages.
pub fn one_turn()
    ensures stands { TurnHasAnOutcome }
    ensures alone { TurnHasOneOutcome }
{}

/// A turn uses the first words. Any other words after them give the same turn.
pub fn first_words_are_used()
    ensures result { LaterWordsDoNotMatter }
{}

/// A turn takes no memory if the stat isn't there, has no program, or has a program that ended.
pub fn idle_turns_take_no_memory()
    ensures ended { EndedTurnsTakeNone }
    ensures none { TurnsOfNoneTakeNone }
{}
