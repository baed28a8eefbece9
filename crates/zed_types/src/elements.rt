//! The table of elements.
ghost use Rattle.std.specs.Prelude.{◌≡◌};
ghost use Rattle.zed_types.specs.Elements.{AreRows, IsRow, row_of, rows};

use crate::kind::{Element, Look, Push};

/// The number of the player's element.
pub const PLAYER: u8 = 4;

/// The number of a passage, which leads to another board.
pub const PASSAGE: u8 = 11;

/// A row of the table: the word, what is shown, whether it is walkable, which way it is pushed, whether it is destructible.
macro_rules! kind {
    ($word:literal, $character:expr, $walkable:literal, $push:ident, $destructible:literal) => {
        Element {
            word: $word,
            character: $character,
            walkable: $walkable,
            push: Push::$push,
            destructible: $destructible,
        }
    };
}

/// A letter of a text, whose colour is its character.
const LETTER: Element = kind!("", Look::Colour, false, Not, false);

/// Every element over 53 counts as this one.
const UNKNOWN: Element = kind!("", Look::Character(b'?'), false, Not, false);

/// The elements by their numbers.
const ELEMENTS: [Element; 54] = [
    kind!("EMPTY", Look::Character(b' '), true, Any, false),
    kind!("", Look::Character(b' '), false, Not, false),
    kind!("", Look::Character(b' '), false, Not, false),
    kind!("MONITOR", Look::Character(b' '), false, Not, false),
    kind!("PLAYER", Look::Character(b'@'), false, Any, true),
    kind!("AMMO", Look::Character(b'a'), false, Any, false),
    kind!("TORCH", Look::Character(b't'), false, Not, false),
    kind!("GEM", Look::Character(b'g'), false, Any, true),
    kind!("KEY", Look::Character(b'k'), false, Any, false),
    kind!("DOOR", Look::Character(b'D'), false, Not, false),
    kind!("SCROLL", Look::Character(b's'), false, Any, false),
    kind!("PASSAGE", Look::Character(b'='), false, Not, false),
    kind!("DUPLICATOR", Look::Character(b'd'), false, Not, false),
    kind!("BOMB", Look::Character(b'b'), false, Any, false),
    kind!("ENERGIZER", Look::Character(b'e'), false, Not, false),
    kind!("STAR", Look::Character(b'*'), false, Not, false),
    kind!("CLOCKWISE", Look::Character(b'/'), false, Not, false),
    kind!("COUNTER", Look::Character(b'\\'), false, Not, false),
    kind!("BULLET", Look::Character(b'.'), false, Not, true),
    kind!("WATER", Look::Character(b'~'), false, Not, false),
    kind!("FOREST", Look::Character(b'%'), false, Not, false),
    kind!("SOLID", Look::Character(b'#'), false, Not, false),
    kind!("NORMAL", Look::Character(b'+'), false, Not, false),
    kind!("BREAKABLE", Look::Character(b':'), false, Not, false),
    kind!("BOULDER", Look::Character(b'O'), false, Any, false),
    kind!("SLIDERNS", Look::Character(b'|'), false, NorthSouth, false),
    kind!("SLIDEREW", Look::Character(b'-'), false, EastWest, false),
    kind!("FAKE", Look::Character(b','), true, Not, false),
    kind!("INVISIBLE", Look::Character(b' '), false, Not, false),
    kind!("BLINKWALL", Look::Character(b'B'), false, Not, false),
    kind!("TRANSPORTER", Look::Character(b'<'), false, Not, false),
    kind!("LINE", Look::Character(b'l'), false, Not, false),
    kind!("RICOCHET", Look::Character(b'r'), false, Not, false),
    kind!("", Look::Character(b'h'), false, Not, false),
    kind!("BEAR", Look::Character(b'U'), false, Any, true),
    kind!("RUFFIAN", Look::Character(b'R'), false, Any, true),
    kind!("OBJECT", Look::FirstParameter, false, Not, false),
    kind!("SLIME", Look::Character(b'm'), false, Not, false),
    kind!("SHARK", Look::Character(b'^'), false, Not, false),
    kind!("SPINNINGGUN", Look::Character(b'G'), false, Not, false),
    kind!("PUSHER", Look::Character(b'P'), false, Not, false),
    kind!("LION", Look::Character(b'L'), false, Any, true),
    kind!("TIGER", Look::Character(b'T'), false, Any, true),
    kind!("", Look::Character(b'v'), false, Not, false),
    kind!("HEAD", Look::Character(b'H'), false, Not, true),
    kind!("SEGMENT", Look::Character(b'o'), false, Not, true),
    UNKNOWN,
    LETTER,
    LETTER,
    LETTER,
    LETTER,
    LETTER,
    LETTER,
    LETTER,
];

/// The element of a number in the table, which has them all.
fn row_at(table: &[Element; 54], n: u8) -> Element
    requires { AreRows table.now rows }
    ensures { IsRow result (row_of n) }
{
    if n < 54 {
        table[usize::from(n)]
    } else {
        UNKNOWN
    }
}

/// The element of a number.
pub fn element(n: u8) -> Element
    ensures { IsRow result (row_of n) }
{
    row_at(&ELEMENTS, n)
}
