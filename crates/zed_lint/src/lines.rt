//! The lines of what is found.
ghost use Rattle.std.specs.List.{flat_map};
ghost use Rattle.std.specs.Prelude.{◌≡◌, ◌++◌, IfOk, OnOk};
ghost use Rattle.zed_lint.specs.Lines.{finding_line, line_at_words, names_words, spot_words, told, what_words};
ghost use Rattle.zed_log.specs.Fields.{number, quoted};
ghost use Rattle.zed_log.specs.Words.{side_word};

use crate::finding::{Finding, Spot, What};
use std::alloc::{AllocError, Global};
use zed_log::{put_element_of, put_number, put_place, put_quoted, put_text};
use zed_types::{Bytes, Place, Side, Tile};

fn put_board(out: &mut Vec<u8>, number: usize) -> Result<(), AllocError>
    ensures { OnOk result (out.new.items ≡ out.old.items ++ spot_words (Spot.Board number)) }
{
    put_text(out, "board ")?;
    put_number(out, number as u64)
}

fn put_tile(out: &mut Vec<u8>, number: usize, place: Place, tile: Tile) -> Result<(), AllocError>
    ensures { OnOk result
        (out.new.items ≡ out.old.items ++ spot_words (Spot.Tile number place tile)) }
{
    put_text(out, "board ")?;
    put_number(out, number as u64)?;
    put_text(out, " ")?;
    put_place(out, place.x, place.y)?;
    put_text(out, "  ")?;
    put_element_of(out, Some(tile))
}

fn put_stat(
    out: &mut Vec<u8>,
    number: usize,
    i: usize,
    place: Place,
    tile: Option<Tile>,
) -> Result<(), AllocError>
    ensures { OnOk result
        (out.new.items ≡ out.old.items ++ spot_words (Spot.Stat number i place tile)) }
{
    put_text(out, "board ")?;
    put_number(out, number as u64)?;
    put_text(out, " stat ")?;
    put_number(out, i as u64)?;
    put_text(out, " ")?;
    put_place(out, place.x, place.y)?;
    put_text(out, "  ")?;
    put_element_of(out, tile)
}

fn put_spot(out: &mut Vec<u8>, spot: Spot) -> Result<(), AllocError>
    ensures { OnOk result (out.new.items ≡ out.old.items ++ spot_words spot) }
{
    match spot {
        Spot::World => put_text(out, "world"),
        Spot::Board(number) => put_board(out, number),
        Spot::Tile(number, place, tile) => put_tile(out, number, place, tile),
        Spot::Stat(number, i, place, tile) => put_stat(out, number, i, place, tile),
    }
}

// The word of a side, and a space.
fn side_word(side: Side) -> &'static str
    ensures { result.now ≡ side_word side }
{
    match side {
        Side::North => "north ",
        Side::South => "south ",
        Side::West => "west ",
        Side::East => "east ",
    }
}

// A number between two texts.
fn put_counted(out: &mut Vec<u8>, front: &str, n: usize, back: &str) -> Result<(), AllocError>
    ensures { OnOk result (out.new.items ≡ out.old.items ++ (front.now ++ number n ++ back.now)) }
{
    put_text(out, front)?;
    put_number(out, n as u64)?;
    put_text(out, back)
}

// A number behind a text.
fn put_after(out: &mut Vec<u8>, front: &str, n: usize) -> Result<(), AllocError>
    ensures { OnOk result (out.new.items ≡ out.old.items ++ (front.now ++ number n)) }
{
    put_text(out, front)?;
    put_number(out, n as u64)
}

fn put_exit(out: &mut Vec<u8>, side: Side) -> Result<(), AllocError>
    ensures { OnOk result (out.new.items ≡ out.old.items ++ what_words (What.ExitToItself side)) }
{
    put_text(out, "exit ")?;
    put_text(out, side_word(side))?;
    put_text(out, "leads to its own board")
}

// That a label is named at a place of a program.
#[tactic(auto, unfolding(crate::specs::Lines::names_words))]
fn put_names(out: &mut Vec<u8>, at: usize) -> Result<(), AllocError>
    ensures { OnOk result (out.new.items ≡ out.old.items ++ names_words at) }
{
    put_counted(
        out,
        "names at ",
        at,
        " a label that no program of its board has  ",
    )
}

fn put_label(out: &mut Vec<u8>, at: usize, label: &[u8]) -> Result<(), AllocError>
    ensures { OnOk result
        (out.new.items ≡ out.old.items ++ what_words (What.NoLabel at label.now)) }
{
    put_names(out, at)?;
    put_quoted(out, label)
}

// A word that is named at a place of a program.
#[tactic(auto, unfolding(crate::specs::Lines::told))]
fn put_told(
    out: &mut Vec<u8>,
    front: &str,
    at: usize,
    middle: &str,
    word: &Bytes,
) -> Result<(), AllocError>
    ensures { OnOk result (out.new.items ≡ out.old.items ++ told front.now at middle.now word.now) }
{
    put_counted(out, front, at, middle)?;
    put_quoted(out, word.as_slice())
}

// That a line begins at a place of a program.
#[tactic(auto, unfolding(crate::specs::Lines::line_at_words))]
fn put_line_at(out: &mut Vec<u8>, at: usize) -> Result<(), AllocError>
    ensures { OnOk result (out.new.items ≡ out.old.items ++ line_at_words at) }
{
    put_counted(out, "program has at ", at, " a line of ")
}

fn put_columns(out: &mut Vec<u8>, at: usize, columns: usize) -> Result<(), AllocError>
    ensures { OnOk result (out.new.items ≡ out.old.items ++ what_words (What.LongLine at columns)) }
{
    put_line_at(out, at)?;
    put_number(out, columns as u64)?;
    put_text(out, " columns, over 42")
}

fn put_choice(out: &mut Vec<u8>, at: usize, label: &Bytes) -> Result<(), AllocError>
    ensures { OnOk result
        (out.new.items ≡ out.old.items ++ what_words (What.NoChoice at label.now)) }
{
    let middle = " a label that no program of its board has  ";
    put_told(out, "offers at ", at, middle, label)
}

fn put_word(out: &mut Vec<u8>, at: usize, word: &Bytes) -> Result<(), AllocError>
    ensures { OnOk result
        (out.new.items ≡ out.old.items ++ what_words (What.NoCommand at word.now)) }
{
    let middle = " neither a command nor a label of its board  ";
    put_told(out, "names at ", at, middle, word)
}

fn put_flag(out: &mut Vec<u8>, at: usize, word: &Bytes) -> Result<(), AllocError>
    ensures { OnOk result
        (out.new.items ≡ out.old.items ++ what_words (What.UnsetFlag at word.now)) }
{
    put_told(out, "asks at ", at, " for a flag that nothing sets  ", word)
}

fn put_name(out: &mut Vec<u8>, at: usize, name: &Bytes) -> Result<(), AllocError>
    ensures { OnOk result
        (out.new.items ≡ out.old.items ++ what_words (What.NoName at name.now)) }
{
    let middle = " to a name that no program of its board has  ";
    put_told(out, "binds at ", at, middle, name)
}

fn put_what(out: &mut Vec<u8>, what: &What) -> Result<(), AllocError>
    ensures { OnOk result (out.new.items ≡ out.old.items ++ what_words what.now) }
{
    match what {
        What::LongFile(bytes) => put_counted(out, "file of ", *bytes, " bytes, over 350000"),
        What::LongWorldName(bytes) => put_counted(out, "name of ", *bytes, " bytes, over 8"),
        What::LongBody(bytes) => put_counted(out, "body of ", *bytes, " bytes, over 20000"),
        What::LongBoardName(bytes) => put_counted(out, "name of ", *bytes, " bytes, over 34"),
        What::Utf8Name => put_text(out, "name is UTF-8, not code page 437"),
        What::NoPlayer => put_text(out, "no player"),
        What::Players(count) => put_counted(out, "", *count, " players"),
        What::ExitToItself(side) => put_exit(out, *side),
        What::UnknownElement(count) => {
            put_after(out, "element that ZZT doesn't know, tiles ", *count)
        }
        What::NoStat => put_text(out, "has no stat"),
        What::OutsideTable => put_text(out, "is outside the table"),
        What::NeedlessStat => put_text(out, "has no use for a stat"),
        What::PassageToItself => put_text(out, "leads to its own board"),
        What::NoEndOfLine => put_text(out, "program has no end of line"),
        What::LineFeed(at) => put_after(out, "program has a line feed at ", *at),
        What::Utf8Program => put_text(out, "program is UTF-8, not code page 437"),
        What::NoLabel(at, label) => put_label(out, *at, label.as_slice()),
        What::NoChoice(at, label) => put_choice(out, *at, label),
        What::LowName(at) => put_after(out, "program has a name below its first line at ", *at),
        What::LongLine(at, columns) => put_columns(out, *at, *columns),
        What::NoCommand(at, word) => put_word(out, *at, word),
        What::NoDirection(at) => put_after(out, "names no direction at ", *at),
        What::NoKind(at) => put_after(out, "names no kind of tile at ", *at),
        What::NoCounter(at) => put_after(out, "names no counter at ", *at),
        What::UnsetFlag(at, word) => put_flag(out, *at, word),
        What::NoName(at, name) => put_name(out, *at, name),
    }
}

#[tactic(auto, unfolding(crate::specs::Lines::finding_words))]
fn put_line(out: &mut Vec<u8>, finding: &Finding) -> Result<(), AllocError>
    ensures { OnOk result (out.new.items ≡ out.old.items ++ finding_line finding.now) }
{
    put_spot(out, finding.spot)?;
    put_text(out, "  ")?;
    put_what(out, &finding.what)?;
    put_text(out, "\n")
}

/// The lines of what was found.
pub(crate) fn text_of(alloc: Global, found: &[Finding]) -> Result<Vec<u8>, AllocError>
    ensures { IfOk result (λ text. text.items ≡ flat_map finding_line found.now) }
{
    let mut text = Vec::new(alloc);
    for finding in found {
        put_line(&mut text, finding)?;
    }
    Ok(text)
}
