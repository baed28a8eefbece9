//! Laws of playtests that are kept.
ghost use Rattle.zed_terminal.specs.Again.{PlaysAgain};
ghost use Rattle.zed_terminal.specs.Performing.{PerformancesComeAgain};
ghost use Rattle.zed_terminal.specs.Record.{MovesAreReadBack, WordsAreReadBack};
ghost use Rattle.zed_terminal.specs.Staying.{SameUntilLeft};

/// What was played comes again of the moves and words that were kept.
pub fn plays_again()
    ensures result { PlaysAgain }
{}

/// Where a playtest was played to its end, what is kept of it comes to the same again, from its
/// beginning.
pub fn performances_come_again()
    ensures result { PerformancesComeAgain }
{}

/// Moves and words are read back from the files that they are kept in.
pub fn record_is_read_back()
    ensures moves { MovesAreReadBack }
    ensures words { WordsAreReadBack }
{}

/// A playtest that goes on over boards is that of one board until the player leaves.
pub fn same_until_left()
    ensures result { SameUntilLeft }
{}
