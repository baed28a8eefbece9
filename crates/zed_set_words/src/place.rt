//! Things in words: by their numbers, or by their names.
ghost use Rattle.std.specs.Prelude.{◌≡◌};
ghost use Rattle.zed_set_words.specs.Values.{board_of, first_of, last_of, name_of, other_of, stamp_of, text_of, unless_none as but_none};

use crate::numerals::{index, number, short};
use crate::thing::cut;
use crate::wishes::{BoardPlace, StatPlace};
use zed_types::{BoardId, Name, Stamp, StatId, TextId};

/// The last time that an edit file can spell.
const MOST_OF_TIME: u64 = 281_474_976_710_655;

/// The name of a thing: time, replica and index.
#[tactic(auto, unfolding(crate::specs::Values::name_of))]
pub(crate) fn name(word: &str) -> Option<Name>
    ensures { result ≡ name_of word.now }
{
    let (time, behind) = cut(word, '.')?;
    let (replica, last) = cut(behind, ':')?;
    let time = number(time, MOST_OF_TIME)?;
    let replica = short(replica)?;
    let index = index(last)?;
    let stamp = Stamp { time, replica };
    Some(Name { stamp, index })
}

/// The stamp that a word writes: a time and a replica, such as `6.1`.
#[tactic(auto, unfolding(crate::specs::Values::stamp_of))]
pub fn stamp(word: &str) -> Option<Stamp>
    ensures { result ≡ stamp_of word.now }
{
    let (time, replica) = cut(word, '.')?;
    let time = number(time, MOST_OF_TIME)?;
    let replica = short(replica)?;
    Some(Stamp { time, replica })
}

/// The first stamp of a moment: a stamp is itself, and a time begins with its replica 0.
pub fn first_stamp(word: &str) -> Option<Stamp>
    ensures { result ≡ first_of word.now }
{
    match stamp(word) {
        Some(stamp) => Some(stamp),
        None => Some(Stamp {
            time: number(word, MOST_OF_TIME)?,
            replica: 0,
        }),
    }
}

/// The last stamp of a moment: a stamp is itself, and a time ends with its replica 65,535.
pub fn last_stamp(word: &str) -> Option<Stamp>
    ensures { result ≡ last_of word.now }
{
    match stamp(word) {
        Some(stamp) => Some(stamp),
        None => Some(Stamp {
            time: number(word, MOST_OF_TIME)?,
            replica: 65535,
        }),
    }
}

/// A board: its number, or its name, such as `2.1:0`.
pub fn board_place(word: &str) -> Option<BoardPlace>
    ensures { result ≡ board_of word.now }
{
    match name(word) {
        Some(name) => Some(BoardPlace::Named(BoardId { name })),
        None => Some(BoardPlace::Numbered(short(word)?)),
    }
}

/// A stat beside another.
pub(crate) fn other(at: StatPlace, word: &str) -> Option<StatPlace>
    ensures { result ≡ other_of at word.now }
{
    if let Some(name) = name(word) {
        return Some(StatPlace::Named(StatId { name }));
    }
    match at {
        StatPlace::Numbered(board, _) => Some(StatPlace::Numbered(board, short(word)?)),
        StatPlace::Named(_) => None,
    }
}

pub(crate) fn text(word: &str) -> Option<TextId>
    ensures { result ≡ text_of word.now }
{
    let name = name(word)?;
    Some(TextId { name })
}

/// A thing that was read from a word, or none.
pub(crate) fn unless_none<T: Copy>(word: &str, thing: Option<T>) -> Option<Option<T>>
    ensures { result ≡ but_none word.now thing }
{
    if word == "none" {
        Some(None)
    } else {
        Some(Some(thing?))
    }
}
