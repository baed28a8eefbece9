//! Kinds of tiles as a program writes them.
ghost use Rattle.std.specs.Prelude.{◌≡◌, ◌≤◌, length, max};
ghost use Rattle.zed_oop_syntax.specs.Kind.{allowed, colour_of, element_below, element_of, is_element, kind_at, kind_of, matches, tile_of};
ghost use Rattle.zed_oop_syntax.specs.Text.{upper};

use crate::text::{says, written_at};
use zed_types::{PLAYER, Tile, element};

/// A kind of tiles: an element, of one colour or of any.
#[derive(Clone, Copy, PartialEq, Eq)]
pub struct TileKind {
    pub colour: Option<u8>,
    pub element: u8,
}

impl TileKind {
    /// Whether a tile is of the kind.
    pub fn matches(self, tile: Tile) -> bool
        ensures { result ≡ matches self tile }
    {
        if tile.element != self.element {
            return false;
        }
        match self.colour {
            Some(colour) => tile.colour % 16 == colour,
            None => true,
        }
    }

    /// A tile of the kind. If the kind has no colour, the tile has this one.
    pub fn tile(self, colour: u8) -> Tile
        ensures { result ≡ tile_of self colour }
    {
        Tile {
            element: self.element,
            colour: match self.colour {
                Some(own) => own,
                None => colour,
            },
        }
    }
}

#[tactic(auto, unfolding(crate::specs::Kind::colour_of))]
fn colour_of(word: &[u8]) -> Option<u8>
    ensures { result ≡ colour_of (upper word.now) }
{
    if says(word, "BLUE") {
        Some(9)
    } else if says(word, "GREEN") {
        Some(10)
    } else if says(word, "CYAN") {
        Some(11)
    } else if says(word, "RED") {
        Some(12)
    } else if says(word, "PURPLE") {
        Some(13)
    } else if says(word, "YELLOW") {
        Some(14)
    } else if says(word, "WHITE") {
        Some(15)
    } else {
        None
    }
}

/// Whether an element has this word.
#[tactic(auto, unfolding(crate::specs::Kind::is_element))]
fn is_element(word: &[u8], n: u8) -> bool
    ensures { result ≡ is_element (upper word.now) n }
{
    says(word, element(n).word)
}

/// The element below `n` that has this word.
fn element_below(word: &[u8], n: u8) -> Option<u8>
    ensures { result ≡ element_below n (upper word.now) }
{
    if n == 0 {
        return None;
    }
    if is_element(word, n - 1) {
        return Some(n - 1);
    }
    element_below(word, n - 1)
}

/// The element of this word; an empty word is of none.
#[tactic(auto, unfolding(crate::specs::Kind::element_of))]
fn element_of(word: &[u8]) -> Option<u8>
    ensures { result ≡ element_of (upper word.now) }
{
    if word.is_empty() {
        None
    } else {
        element_below(word, 54)
    }
}

/// The kind, unless it is the player's where that isn't allowed.
fn allowed(kind: TileKind, player: bool) -> Option<TileKind>
    ensures { result ≡ allowed kind player }
{
    if kind.element == PLAYER && !player {
        None
    } else {
        Some(kind)
    }
}

fn kind_of(colour: Option<u8>, word: &[u8], player: bool) -> Option<TileKind>
    ensures { result ≡ kind_of colour (upper word.now) player }
{
    match element_of(word) {
        Some(element) => allowed(TileKind { colour, element }, player),
        None => None,
    }
}

#[tactic(auto, unfolding(crate::specs::Kind::kind_at))]
/// The kind at a place, or None if there is none, and the place after its words. The player is a
/// kind only if that is allowed. It takes no memory.
pub fn kind(program: &[u8], at: usize, player: bool) -> (Option<TileKind>, usize)
    ensures result { result ≡ kind_at program.now at player }
    ensures within { result.1 ≤ max at (length program.now) }
    ensures ends { at ≤ result.1 }
{
    let (first, end) = written_at(program, at);
    match colour_of(first) {
        Some(colour) => {
            let (second, last) = written_at(program, end);
            (kind_of(Some(colour), second, player), last)
        }
        None => (kind_of(None, first, player), end),
    }
}
