//! What a stat has in common with the one that it comes from.
use crate::lines::{behind_first_line, first_line};
use crate::programs::program;
use zed_world::BoardData;

/// A stat of one of two worlds: the number of its board, and its own.
#[derive(Clone, Copy, PartialEq, Eq, PartialOrd, Ord)]
pub(crate) struct Place {
    pub board: usize,
    pub number: usize,
}

/// What two stats have in common.
#[derive(Clone, Copy)]
pub(crate) enum Likeness {
    /// Where they stand, and their programs.
    PlaceAndProgram,
    /// Their programs, byte for byte.
    Program,
    /// The `@name` that their programs begin with.
    Name,
    /// Their programs behind the first lines.
    Rest,
}

/// By what a stat is found again, and on which boards.
#[derive(Clone, Copy)]
pub(crate) enum Rule {
    OnItsBoard(Likeness),
    OnAllBoards(Likeness),
}

/// What a rule looks at: stats go together where this is the same.
#[derive(Clone, Copy, PartialEq, Eq, PartialOrd, Ord)]
pub(crate) struct Feature<'w> {
    board: Option<usize>,
    spot: Option<(u8, u8)>,
    part: &'w [u8],
}

/// A feature of a stat, and which stat it is.
#[derive(Clone, Copy, PartialEq, Eq, PartialOrd, Ord)]
pub(crate) struct Entry<'w> {
    pub feature: Feature<'w>,
    pub place: Place,
}

// The name that a program begins with, with its `@`, empty where it has none.
fn name_of(program: &[u8]) -> &[u8] {
    match first_line(program) {
        name @ [b'@', _, ..] => name,
        _ => &[],
    }
}

fn part_of(likeness: Likeness, program: &[u8]) -> &[u8] {
    match likeness {
        Likeness::PlaceAndProgram | Likeness::Program => program,
        Likeness::Name => name_of(program),
        Likeness::Rest => behind_first_line(program),
    }
}

/// What a rule looks at in a stat, if that is anything. A board that isn't new has this number before.
pub(crate) fn feature_of<'w>(
    rule: Rule,
    number_before: Option<usize>,
    board: &'w BoardData,
    number: usize,
) -> Option<Feature<'w>> {
    let (of_board, likeness) = match rule {
        Rule::OnItsBoard(likeness) => (Some(number_before?), likeness),
        Rule::OnAllBoards(likeness) => (None, likeness),
    };
    let stat = board.stats.as_slice().get(number)?;
    let spot = match likeness {
        Likeness::PlaceAndProgram => Some((stat.x, stat.y)),
        _ => None,
    };
    let part = part_of(likeness, program(board, number));
    if part.is_empty() {
        return None;
    }
    Some(Feature {
        board: of_board,
        spot,
        part,
    })
}
