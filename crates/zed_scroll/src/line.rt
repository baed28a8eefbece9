//! A line of a scroll, column by column.
ghost use Rattle.std.specs.Prelude.{◌≡◌, length};
ghost use Rattle.zed_scroll.specs.Lines.{centred_from, ground, line_spot, marked, or_behind, over, spot};

use zed_look::Spot;
use zed_oop_syntax::{ScrollLine, scroll_line};

/// White on blue.
const WHITE: u8 = 31;

/// Yellow on blue.
const YELLOW: u8 = 30;

pub(crate) fn spot(attribute: u8, character: u8) -> Spot
    ensures { result ≡ spot attribute character }
{
    Spot {
        character,
        attribute,
    }
}

/// A text from a column on, over what is behind it.
#[tactic(auto, unfolding(crate::specs::Lines::over))]
pub(crate) fn over(first: usize, attribute: u8, text: &[u8], column: usize, behind: Spot) -> Spot
    ensures { result ≡ over first attribute text.now column behind }
{
    if column < first {
        return behind;
    }
    match text.get(column - first) {
        Some(character) => spot(attribute, *character),
        None => behind,
    }
}

/// Where a text of so many characters begins that is centred.
pub(crate) fn centred_from(count: usize) -> usize
    ensures { result ≡ centred_from count }
{
    50_usize.saturating_sub(count) / 2
}

/// What is behind a line.
#[tactic(auto, unfolding(crate::specs::Lines::ground))]
pub(crate) fn ground(is_chosen: bool, column: usize) -> Spot
    ensures { result ≡ ground is_chosen column }
{
    if !is_chosen {
        return spot(YELLOW, b' ');
    }
    match column {
        2 => spot(28, 175),
        46 => spot(28, 174),
        _ => spot(28, b' '),
    }
}

/// What is behind the text of a choice.
#[tactic(auto, unfolding(crate::specs::Lines::marked))]
fn marked(column: usize, behind: Spot) -> Spot
    ensures { result ≡ marked column behind }
{
    if column == 6 { spot(29, 16) } else { behind }
}

/// A line of a scroll in a column.
#[tactic(auto, unfolding(crate::specs::Lines::line_spot))]
pub(crate) fn line_spot(line: &[u8], column: usize, behind: Spot) -> Spot
    ensures { result ≡ line_spot line.now column behind }
{
    match scroll_line(line) {
        ScrollLine::Plain(text) => over(4, YELLOW, text, column, behind),
        ScrollLine::Centred(text) => over(centred_from(line.len()), WHITE, text, column, behind),
        ScrollLine::Choice(_, text) | ScrollLine::File(_, text) => {
            over(9, WHITE, text, column, marked(column, behind))
        }
    }
}
