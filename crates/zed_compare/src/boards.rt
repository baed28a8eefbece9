//! Properties and exits of boards that are overridden.
ghost use Rattle.std.specs.Prelude.{◌≡◌, ◌++◌, OnOk, nat_eq, option_map};
ghost use Rattle.std.specs.Bool.{beq};
ghost use Rattle.std.specs.Cmp.Lexicographic.{pointwise};
ghost use Rattle.std.specs.Option.{option_copied, option_eq};
ghost use Rattle.zed_sides.specs.Overridden.{overridden};
ghost use Rattle.std.specs.Ordering.{int_eq};
ghost use Rattle.zed_types.specs.declared.names.BoardId.{BoardId as TheBoard};
ghost use Rattle.zed_laws.specs.Fields as fields;
ghost use Rattle.zed_join.specs.declared.sides.Views.{Views as TheViews};
ghost use Rattle.zed_laws.specs.Winners.{of_board};
ghost use Rattle.zed_compare.specs.Reading.{in_register};
ghost use Rattle.zed_compare.specs.Findings.{board_findings, exits, of_registers, properties};
ghost use Rattle.zed_compare.specs.Registers.{exit_of, of_that_board, start_of};
ghost use Rattle.zed_join.specs.Things.{IsBoard, shown_as};

use crate::finding::Finding;
use crate::registers::{BoardRegister, EXITS, PROPERTIES};
use std::alloc::AllocError;
use zed_document::View;
use zed_join::{BoardIn, Target, Views};
use zed_live::LiveBoard;
use zed_sides::{Overridden, Readings};
use zed_types::{BoardByte, BoardFlag, BoardId, BoardText, Place, Side as Edge};

fn text_in(board: Option<&LiveBoard>, field: BoardText) -> Option<&[u8]>
    ensures { (b : TheBoard) → option_copied result
        ≡ option_map (fields.board_text field).value (shown_as b (option_copied board.entry)) }
{
    match board {
        Some(board) => Some(board.properties.text(field)),
        None => None,
    }
}

// What is overridden of a text, by what is lent of it.
fn lent(
    base: Option<&[u8]>,
    mine: Option<&[u8]>,
    theirs: Option<&[u8]>,
    union: Option<&[u8]>,
) -> Option<Overridden>
    ensures { result ≡ overridden (option_eq (pointwise nat_eq)) (option_copied base.entry)
        (option_copied mine.entry) (option_copied theirs.entry) (option_copied union.entry) }
{
    Readings {
        base,
        mine,
        theirs,
        union,
    }
    .overridden()
}

fn text(board: &BoardIn<'_>, field: BoardText) -> Option<Overridden>
    ensures { (w : TheViews) (b : TheBoard) → IsBoard w b board.now
        → result ≡ in_register (pointwise nat_eq) (of_board b (fields.board_text field)) w }
{
    lent(
        text_in(board.base, field),
        text_in(board.mine, field),
        text_in(board.theirs, field),
        text_in(board.union, field),
    )
}

fn rank_in(board: Option<&LiveBoard>) -> Option<u16>
    ensures { (b : TheBoard) → result
        ≡ option_map fields.rank.value (shown_as b (option_copied board.entry)) }
{
    match board {
        Some(board) => Some(board.properties.rank()),
        None => None,
    }
}

fn rank(board: &BoardIn<'_>) -> Option<Overridden>
    ensures { (w : TheViews) (b : TheBoard) → IsBoard w b board.now → result ≡ of_that_board w b BoardRegister.Rank }
{
    Readings {
        base: rank_in(board.base),
        mine: rank_in(board.mine),
        theirs: rank_in(board.theirs),
        union: rank_in(board.union),
    }
    .overridden()
}

fn shots_in(board: Option<&LiveBoard>) -> Option<u8>
    ensures { (b : TheBoard) → result
        ≡ option_map (fields.board_byte BoardByte.MaxShots).value (shown_as b (option_copied board.entry)) }
{
    match board {
        Some(board) => Some(board.properties.byte(BoardByte::MaxShots)),
        None => None,
    }
}

fn max_shots(board: &BoardIn<'_>) -> Option<Overridden>
    ensures { (w : TheViews) (b : TheBoard) → IsBoard w b board.now → result ≡ of_that_board w b BoardRegister.MaxShots }
{
    Readings {
        base: shots_in(board.base),
        mine: shots_in(board.mine),
        theirs: shots_in(board.theirs),
        union: shots_in(board.union),
    }
    .overridden()
}

fn flag_in(board: Option<&LiveBoard>, field: BoardFlag) -> Option<bool>
    ensures { (b : TheBoard) → result
        ≡ option_map (fields.board_flag field).value (shown_as b (option_copied board.entry)) }
{
    match board {
        Some(board) => Some(board.properties.flag(field)),
        None => None,
    }
}

fn flag(board: &BoardIn<'_>, field: BoardFlag) -> Option<Overridden>
    ensures { (w : TheViews) (b : TheBoard) → IsBoard w b board.now → result ≡ of_that_board w b (BoardRegister.Flag field) }
{
    Readings {
        base: flag_in(board.base, field),
        mine: flag_in(board.mine, field),
        theirs: flag_in(board.theirs, field),
        union: flag_in(board.union, field),
    }
    .overridden()
}

fn time_in(board: Option<&LiveBoard>) -> Option<i16>
    ensures { (b : TheBoard) → result
        ≡ option_map fields.time_limit.value (shown_as b (option_copied board.entry)) }
{
    match board {
        Some(board) => Some(board.properties.time_limit()),
        None => None,
    }
}

fn time_limit(board: &BoardIn<'_>) -> Option<Overridden>
    ensures { (w : TheViews) (b : TheBoard) → IsBoard w b board.now → result ≡ of_that_board w b BoardRegister.TimeLimit }
{
    Readings {
        base: time_in(board.base),
        mine: time_in(board.mine),
        theirs: time_in(board.theirs),
        union: time_in(board.union),
    }
    .overridden()
}

fn start_in(board: Option<&LiveBoard>) -> Option<Place>
    ensures { (b : TheBoard) → result
        ≡ option_map start_of (shown_as b (option_copied board.entry)) }
{
    match board {
        Some(board) => Some(Place {
            x: board.properties.byte(BoardByte::StartX),
            y: board.properties.byte(BoardByte::StartY),
        }),
        None => None,
    }
}

fn start(board: &BoardIn<'_>) -> Option<Overridden>
    ensures { (w : TheViews) (b : TheBoard) → IsBoard w b board.now → result ≡ of_that_board w b BoardRegister.Start }
{
    Readings {
        base: start_in(board.base),
        mine: start_in(board.mine),
        theirs: start_in(board.theirs),
        union: start_in(board.union),
    }
    .overridden()
}

/// Where a side of a board leads in a view, if the view has the board.
pub fn exit_in(view: &View, board: Option<&LiveBoard>, edge: Edge) -> Option<Target>
    ensures { (b : TheBoard) → result
        ≡ option_map (exit_of edge view.now) (shown_as b (option_copied board.entry)) }
{
    match board {
        Some(board) => Some(Target::of(view, board.properties.exit(edge))),
        None => None,
    }
}

fn exit(views: &Views<'_>, board: &BoardIn<'_>, edge: Edge) -> Option<Overridden>
    ensures { (b : TheBoard) → IsBoard views.now b board.now
        → result ≡ of_that_board views.now b (BoardRegister.Exit edge) }
{
    Readings {
        base: exit_in(&views.base, board.base, edge),
        mine: exit_in(&views.mine, board.mine, edge),
        theirs: exit_in(&views.theirs, board.theirs, edge),
        union: exit_in(&views.union, board.union, edge),
    }
    .overridden()
}

// What is overridden of a register of a board.
fn overridden_of_board(
    views: &Views<'_>,
    board: &BoardIn<'_>,
    register: BoardRegister,
) -> Option<Overridden>
    ensures { (b : TheBoard) → IsBoard views.now b board.now
        → result ≡ of_that_board views.now b register }
{
    match register {
        BoardRegister::Name => text(board, BoardText::Name),
        BoardRegister::Message => text(board, BoardText::Message),
        BoardRegister::Rank => rank(board),
        BoardRegister::MaxShots => max_shots(board),
        BoardRegister::Flag(field) => flag(board, field),
        BoardRegister::TimeLimit => time_limit(board),
        BoardRegister::Start => start(board),
        BoardRegister::Exit(edge) => exit(views, board, edge),
    }
}

// Appends those of some registers of a board that are overridden.
fn find_registers(
    found: &mut Vec<Finding>,
    views: &Views<'_>,
    id: BoardId,
    board: &BoardIn<'_>,
    registers: &[BoardRegister],
) -> Result<(), AllocError>
    requires { IsBoard views.now id board.now }
    ensures { OnOk result
        (found.new.items ≡ found.old.items ++ board_findings views.now id registers.now) }
{
    for register in registers {
        if let Some(overridden) = overridden_of_board(views, board, *register) {
            found.push(Finding::Board(id, *register, overridden))?;
        }
    }
    Ok(())
}

/// Appends the properties of a board that are overridden.
pub(crate) fn find_properties(
    found: &mut Vec<Finding>,
    views: &Views<'_>,
    id: BoardId,
    board: &BoardIn<'_>,
) -> Result<(), AllocError>
    requires { IsBoard views.now id board.now }
    ensures all { OnOk result
        (found.new.items ≡ found.old.items ++ board_findings views.now id properties) }
    ensures registers { OnOk result (of_registers found.new.items
        ≡ of_registers found.old.items ++ board_findings views.now id properties) }
{
    find_registers(found, views, id, board, &PROPERTIES)
}

/// Appends the exits of a board that are overridden.
pub(crate) fn find_exits(
    found: &mut Vec<Finding>,
    views: &Views<'_>,
    id: BoardId,
    board: &BoardIn<'_>,
) -> Result<(), AllocError>
    requires { IsBoard views.now id board.now }
    ensures all { OnOk result
        (found.new.items ≡ found.old.items ++ board_findings views.now id exits) }
    ensures registers { OnOk result (of_registers found.new.items
        ≡ of_registers found.old.items ++ board_findings views.now id exits) }
{
    find_registers(found, views, id, board, &EXITS)
}
