//! The words of filters: a board, and the first and the last moment.
ghost use Rattle.std.specs.Prelude.{◌≡◌, option_map};
ghost use Rattle.zed_set_words.specs.Values.{board_of, first_of as first_stamp_of, last_of as last_stamp_of};
ghost use Rattle.zed_tool_words.specs.Commands.{asked_by};

use zed_set_words::{BoardPlace, board_place, first_stamp, last_stamp};
use zed_types::Stamp;

/// The board of the word after `--board`, if that is there; `None` if it is neither number nor name.
pub(crate) fn board_asked(word: Option<&str>) -> Option<Option<BoardPlace>>
    ensures { result ≡ asked_by board_of (option_map (λ s. s.now) word.entry) }
{
    match word {
        Some(word) => Some(Some(board_place(word)?)),
        None => Some(None),
    }
}

/// The first stamp of the moment after `--since`, if that is there; `None` if it is no moment.
pub(crate) fn since_asked(word: Option<&str>) -> Option<Option<Stamp>>
    ensures { result ≡ asked_by first_stamp_of (option_map (λ s. s.now) word.entry) }
{
    match word {
        Some(word) => Some(Some(first_stamp(word)?)),
        None => Some(None),
    }
}

/// The last stamp of the moment after `--until`, if that is there; `None` if it is no moment.
pub(crate) fn until_asked(word: Option<&str>) -> Option<Option<Stamp>>
    ensures { result ≡ asked_by last_stamp_of (option_map (λ s. s.now) word.entry) }
{
    match word {
        Some(word) => Some(Some(last_stamp(word)?)),
        None => Some(None),
    }
}
