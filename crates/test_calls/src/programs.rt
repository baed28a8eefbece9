//! Programs of objects are read with each growth refused, and kinds of tiles are matched. What is read of other programs is in the rows
//! of readings.
use crate::growths::{refuse_each, turn_of};
use std::alloc::Global;
use test_rows::{Turn, refuse};
use zed_oop_syntax::{Program, TileKind, next_command, standing_at};
use zed_types::Tile;

fn tile(element: u8, colour: u8) -> Tile {
    Tile { element, colour }
}

#[test]
fn a_colour_is_the_lower_half_of_a_tile(rt: HostRuntime) {
    let red_gem = TileKind {
        colour: Some(12),
        element: 7,
    };
    let any_gem = TileKind {
        colour: None,
        element: 7,
    };
    let match_well = red_gem.matches(tile(7, 0x5C))
        && !red_gem.matches(tile(7, 0xC5))
        && any_gem.matches(tile(7, 0x5C))
        && !any_gem.matches(tile(8, 0x5C));
    assert!(rt; match_well);
    assert!(rt; red_gem.tile(0x0F).colour == 12 && any_gem.tile(0x0F).colour == 0x0F);
}

/// A program of one line of each kind.
const PROGRAM: &[u8] = b"@name\r#end\r:touch\rOh!\r\r/n/s\r?w\r\0x\r'";

fn parse_once(alloc: Global, nth: usize) -> Turn {
    refuse(alloc, nth);
    match Program::parse(alloc, PROGRAM) {
        Ok(program) => turn_of(alloc, program.lines.as_slice().len() == 9, false),
        Err(_) => turn_of(alloc, false, true),
    }
}

#[test]
fn parsing_refused(rt: HostRuntime) {
    assert!(rt; refuse_each!(nth => parse_once(rt.alloc(), nth)));
}

/// Where the command at the front of a program ends.
fn end_of_command(alloc: Global, program: &[u8]) -> Option<usize> {
    match next_command(alloc, program, 0) {
        Ok((_, end)) => Some(end),
        Err(_) => None,
    }
}

fn read_command_once(alloc: Global, nth: usize) -> Turn {
    refuse(alloc, nth);
    let end = end_of_command(alloc, b"then if not any red gem");
    turn_of(alloc, end == Some(23), end.is_none())
}

#[test]
fn reading_a_command_refused(rt: HostRuntime) {
    assert!(rt; refuse_each!(nth => read_command_once(rt.alloc(), nth)));
}

/// Where the instruction at the front of a program ends.
fn end_of(alloc: Global, program: &[u8]) -> Option<usize> {
    match standing_at(alloc, program, 0) {
        Ok((_, end)) => Some(end),
        Err(_) => None,
    }
}

fn read_instructions_once(alloc: Global, nth: usize) -> Turn {
    refuse(alloc, nth);
    let step = end_of(alloc, b"/cw rndp opp seek");
    let message = end_of(alloc, b"Hello");
    let is_whole = step == Some(17) && message == Some(5);
    turn_of(alloc, is_whole, step.is_none() || message.is_none())
}

#[test]
fn reading_an_instruction_refused(rt: HostRuntime) {
    assert!(rt; refuse_each!(nth => read_instructions_once(rt.alloc(), nth)));
}
