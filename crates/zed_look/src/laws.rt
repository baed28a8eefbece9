//! Laws of pictures as text.
ghost use Rattle.zed_look.specs.Laws.{CodesOnlyColour, LinesAreRows, PlaytestLooksLikeItsBoard};

/// The text for a terminal is the text without colour, with codes between its characters.
pub fn codes_only_colour()
    ensures result { CodesOnlyColour }
{}

/// The lines of the text without colour are the rows of the picture.
pub fn lines_are_rows()
    ensures result { LinesAreRows }
{}

/// Before its first step, a playtest looks like its board, except for what is blank in play.
pub fn playtest_looks_like_its_board()
    ensures result { PlaytestLooksLikeItsBoard }
{}
