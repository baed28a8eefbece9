//! Directions as a program writes them.
ghost use Rattle.std.specs.Prelude.{◌≡◌, ◌≤◌, IfOk, OnErr, Some, length, max};
ghost use Rattle.zed_oop_syntax.specs.Heading.{DirectionAt, DirectionTakes, IsPiece, chosen_of, course_of, turning_of};
ghost use Rattle.zed_oop_syntax.specs.Text.{upper};

use crate::text::{says, written_at};
use std::alloc::{AllocError, Global};
use zed_types::Seq;

/// How a direction is turned.
#[derive(Clone, Copy, PartialEq, Eq)]
pub enum Turning {
    Clockwise,
    CounterClockwise,
    Opposite,
    /// To the one side or the other, by chance.
    Sideways,
}

/// A direction that isn't turned.
#[derive(Clone, Copy, PartialEq, Eq)]
pub enum Course {
    North,
    South,
    East,
    West,
    Idle,
    Seek,
    Flow,
    Random,
    RandomNorthOrSouth,
    RandomNorthOrEast,
}

/// A direction as a program writes it.
#[derive(Drop)]
pub struct Heading {
    /// The first of them turns last.
    pub turns: Seq<Turning>,
    /// None if no word of a direction follows the turns.
    pub course: Option<Course>,
}

#[tactic(auto, unfolding(crate::specs::Heading::turning_of))]
fn turning_of(word: &[u8]) -> Option<Turning>
    ensures { result ≡ turning_of (upper word.now) }
{
    if says(word, "CW") {
        Some(Turning::Clockwise)
    } else if says(word, "CCW") {
        Some(Turning::CounterClockwise)
    } else if says(word, "OPP") {
        Some(Turning::Opposite)
    } else if says(word, "RNDP") {
        Some(Turning::Sideways)
    } else {
        None
    }
}

/// Where a word leads by chance, or by what the object knows.
#[tactic(auto, unfolding(crate::specs::Heading::chosen_of))]
fn chosen_of(word: &[u8]) -> Option<Course>
    ensures { result ≡ chosen_of (upper word.now) }
{
    if says(word, "SEEK") {
        Some(Course::Seek)
    } else if says(word, "FLOW") {
        Some(Course::Flow)
    } else if says(word, "RND") {
        Some(Course::Random)
    } else if says(word, "RNDNS") {
        Some(Course::RandomNorthOrSouth)
    } else if says(word, "RNDNE") {
        Some(Course::RandomNorthOrEast)
    } else {
        None
    }
}

/// Where a word leads.
#[tactic(auto, unfolding(crate::specs::Heading::course_of))]
fn course_of(word: &[u8]) -> Option<Course>
    ensures { result ≡ course_of (upper word.now) }
{
    if says(word, "N") || says(word, "NORTH") {
        Some(Course::North)
    } else if says(word, "S") || says(word, "SOUTH") {
        Some(Course::South)
    } else if says(word, "E") || says(word, "EAST") {
        Some(Course::East)
    } else if says(word, "W") || says(word, "WEST") {
        Some(Course::West)
    } else if says(word, "I") || says(word, "IDLE") {
        Some(Course::Idle)
    } else {
        chosen_of(word)
    }
}

/// A word of a direction: what it says, and the place behind it.
#[derive(Clone, Copy)]
struct Piece {
    turning: Option<Turning>,
    course: Option<Course>,
    end: usize,
}

/// The word of a direction at a place.
fn piece_at(program: &[u8], at: usize) -> Piece
    ensures result { IsPiece program.now at result.turning result.course result.end }
    ensures within { result.end ≤ max at (length program.now) }
    ensures ends { at ≤ result.end }
{
    let (word, end) = written_at(program, at);
    Piece {
        turning: turning_of(word),
        course: course_of(word),
        end,
    }
}

/// The direction at a place, and the place after it. It takes memory only if the direction has
/// turns.
pub fn direction(alloc: Global, program: &[u8], at: usize) -> Result<(Heading, usize), AllocError>
    ensures result { IfOk result (λ r. DirectionAt program.now at r.0 r.1) }
    ensures within { IfOk result (λ r. r.1 ≤ max at (length program.now)) }
    ensures ends { IfOk result (λ r. at ≤ r.1) }
    ensures memory_only_when { OnErr result (DirectionTakes program.now at) }
{
    let mut turns = Seq::new(alloc);
    let mut to = at;
    loop {
        let piece = piece_at(program, to);
        match piece.turning {
            Some(turning) => turns.push(turning)?,
            None => {
                let course = piece.course;
                return Ok((Heading { turns, course }, piece.end));
            }
        }
        to = piece.end;
    }
}
