//! Steps, and the places that they lead to.
ghost use Rattle.std.specs.Prelude.{◌≡◌, ℤ};
ghost use Rattle.zed_scene.specs.Places.{ahead, apart, moved, clockwise, counter_clockwise, negated, opposite, sign_of, is_on_board};

use zed_types::{COLUMNS, Place, ROWS, has_tile};

/// A direction, or the step of a stat: how far it leads along the columns and along the rows.
#[derive(Clone, Copy, PartialEq, Eq)]
pub struct Step {
    pub x: i16,
    pub y: i16,
}

impl Step {
    pub const NONE: Step = Step { x: 0, y: 0 };

    pub const NORTH: Step = Step { x: 0, y: -1 };

    pub const SOUTH: Step = Step { x: 0, y: 1 };

    pub const EAST: Step = Step { x: 1, y: 0 };

    pub const WEST: Step = Step { x: -1, y: 0 };
}

/// Whether a place is in the table.
pub fn is_on_board(place: Place) -> bool
    ensures result { result ≡ is_on_board place }
{
    has_tile(place.x, place.y)
}

/// The column or row that a step leads to, or None if it isn't 1 to `most`.
fn moved(from: u8, by: i16, most: u8) -> Option<u8>
    ensures { result ≡ moved most from by }
{
    let to = i32::from(from) + i32::from(by);
    if 1 <= to && to <= i32::from(most) {
        Some(to as u8)
    } else {
        None
    }
}

/// The place that a step leads to from another, or None if that is outside the table.
pub fn ahead(place: Place, step: Step) -> Option<Place>
    ensures result { result ≡ ahead place step }
{
    let x = moved(place.x, step.x, COLUMNS as u8)?;
    let y = moved(place.y, step.y, ROWS as u8)?;
    Some(Place { x, y })
}

/// A number with the other sign; that of -32,768 is 32,767.
fn negated(n: i16) -> i16
    ensures { result ≡ negated n }
{
    if n == -32768 { 32767 } else { -n }
}

/// A quarter turn to the right.
pub fn clockwise(step: Step) -> Step
    ensures result { result ≡ clockwise step }
{
    Step {
        x: negated(step.y),
        y: step.x,
    }
}

/// A quarter turn to the left.
pub fn counter_clockwise(step: Step) -> Step
    ensures result { result ≡ counter_clockwise step }
{
    Step {
        x: step.y,
        y: negated(step.x),
    }
}

/// Half a turn.
pub fn opposite(step: Step) -> Step
    ensures result { result ≡ opposite step }
{
    Step {
        x: negated(step.x),
        y: negated(step.y),
    }
}

/// Whether one number is over, at or below another: 1, 0, -1.
pub fn sign(to: u8, from: u8) -> i16
    ensures result { result ≡ sign_of to from }
{
    if from < to {
        1
    } else if to < from {
        -1
    } else {
        0
    }
}

/// How far apart two columns are, or two rows.
pub fn apart(a: u8, b: u8) -> u8
    ensures result { result ≡ apart a b }
{
    if a < b { b - a } else { a - b }
}
