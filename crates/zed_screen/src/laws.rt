//! A law of pictures.
ghost use Rattle.zed_screen.specs.Laws.{PlaytestShowsItsBoard};

/// Before its first step, the picture of a playtest is that of the board, except for what is
/// written beside the board.
pub fn playtest_shows_its_board()
    ensures result { PlaytestShowsItsBoard }
{}
