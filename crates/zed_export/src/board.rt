//! Boards as a world file has them.
ghost use Rattle.std.specs.Prelude.{◌≡◌, ◌<◌, ◌≤◌, [], IfOk, length};
ghost use Rattle.std.specs.List.{AllByRecursion};
ghost use Rattle.zed_world.specs.Normal.{IsInteger};
ghost use Rattle.zed_edit.specs.Numbers.{alive_stats as stats_there};
ghost use Rattle.zed_laws.specs.NameOrder.{IsOrdered};
ghost use Rattle.zed_view.specs.View.{board_at, stat_at};
ghost use Rattle.zed_export.specs.World.{stat_with, exported_above, exported_properties, exported_board};
ghost use Rattle.zed_export.specs.Fields.{board_names as names_of_boards, stat_names as names_of_stats, place_parameter, FitsStat, FitsBoard};

use crate::numbers::{BoardNames, Names, board_number, exit_number, stat_names, stat_number};
use crate::program::program_of;
use std::alloc::{AllocError, Global};
use zed_document::View;
use zed_types::{
    BoardByte, BoardFlag, BoardText, Bytes, Seq, Side, StatByte, StatNumber, ThirdParameter, Tile,
};
use zed_world::{BoardData, Code, Properties, StatData, is_passage};

/// The third parameter of a stat, on a passage or not, in a world whose boards have these names.
fn parameter_of(boards: &BoardNames, on_passage: bool, parameter: ThirdParameter) -> u8
    requires { length boards.now ≤ 101 }
    ensures { result ≡ place_parameter boards.now on_passage parameter }
{
    match parameter {
        ThirdParameter::Board(board) => board_number(boards, board),
        ThirdParameter::Byte(byte) => {
            if on_passage && boards.len() <= usize::from(byte) {
                0
            } else {
                byte
            }
        }
    }
}

/// Stat `j` of board `i`, with this program.
fn stat_of(
    view: &View,
    boards: &BoardNames,
    stats: &Names,
    i: usize,
    j: usize,
    code: Code,
) -> StatData
    requires ordered { IsOrdered view.now }
    requires board { i < length view.now.boards }
    requires stat { j < length (board_at view.now i).stats }
    requires boards { boards.now ≡ names_of_boards view.now }
    requires few_boards { length boards.now ≤ 101 }
    requires stats { stats.now ≡ names_of_stats (board_at view.now i) }
    requires few_stats { length stats.now ≤ 151 }
    ensures result { result
        ≡ stat_with view.now (board_at view.now i) (stat_at (board_at view.now i) j) code }
    ensures fits { FitsStat result }
{
    let (_, stat) = view.stat(i, j);
    let values = &stat.values;
    let x = values.byte(StatByte::X);
    let y = values.byte(StatByte::Y);
    let on_passage = is_passage(view.table(i), x, y);
    StatData {
        x,
        y,
        step_x: values.number(StatNumber::StepX),
        step_y: values.number(StatNumber::StepY),
        cycle: values.number(StatNumber::Cycle),
        p1: values.byte(StatByte::P1),
        p2: values.byte(StatByte::P2),
        p3: parameter_of(boards, on_passage, values.fields.p3),
        follower: stat_number(stats, values.follower),
        leader: stat_number(stats, values.leader),
        under: Tile {
            element: values.byte(StatByte::UnderElement),
            colour: values.byte(StatByte::UnderColour),
        },
        position: values.number(StatNumber::Position),
        code,
    }
}

fn properties_of(
    alloc: Global,
    view: &View,
    boards: &BoardNames,
    i: usize,
) -> Result<Properties, AllocError>
    requires ordered { IsOrdered view.now }
    requires board { i < length view.now.boards }
    requires boards { boards.now ≡ names_of_boards view.now }
    requires few_boards { length boards.now ≤ 101 }
    ensures result { IfOk result (λ properties.
        properties ≡ exported_properties view.now (board_at view.now i).properties) }
    ensures fits { IfOk result (λ properties. IsInteger properties.time_limit) }
{
    let properties = view.properties(i);
    Ok(Properties {
        max_shots: properties.byte(BoardByte::MaxShots),
        dark: properties.flag(BoardFlag::Dark),
        north: exit_number(boards, properties.exit(Side::North)),
        south: exit_number(boards, properties.exit(Side::South)),
        west: exit_number(boards, properties.exit(Side::West)),
        east: exit_number(boards, properties.exit(Side::East)),
        re_enter: properties.flag(BoardFlag::ReEnter),
        message: Bytes::from_slice(alloc, properties.text(BoardText::Message))?,
        start_x: properties.byte(BoardByte::StartX),
        start_y: properties.byte(BoardByte::StartY),
        time_limit: properties.time_limit(),
    })
}

/// The stats of a board, of which those that aren't removed have these names.
fn stats_of(
    alloc: Global,
    view: &View,
    boards: &BoardNames,
    stats: &Names,
    i: usize,
) -> Result<Seq<StatData>, AllocError>
    requires board { i < length view.now.boards }
    requires boards { boards.now ≡ names_of_boards view.now }
    requires few_boards { length boards.now ≤ 101 }
    requires stats { stats.now ≡ names_of_stats (board_at view.now i) }
    requires few_stats { length stats.now ≤ 151 }
    requires ordered { IsOrdered view.now }
    ensures result { IfOk result (λ stats. stats
        ≡ exported_above view.now (board_at view.now i) [] (stats_there (board_at view.now i))) }
    ensures fits { IfOk result (λ stats. AllByRecursion FitsStat stats) }
{
    let mut texts = Vec::new(alloc);
    let mut out = Vec::new(alloc);
    for j in 0..view.stats(i) {
        let (_, stat) = view.stat(i, j);
        if !stat.removed {
            let text = stat.values.fields.text;
            let code = program_of(alloc, view, &texts, &out, text)?;
            out.push(stat_of(view, boards, stats, i, j, code))?;
            texts.push(text)?;
        }
    }
    Ok(Seq::from_vec(out))
}

/// A board of a world whose boards have these names.
pub(crate) fn board_of(
    alloc: Global,
    view: &View,
    boards: &BoardNames,
    i: usize,
) -> Result<BoardData, AllocError>
    requires board { i < length view.now.boards }
    requires boards { boards.now ≡ names_of_boards view.now }
    requires few_boards { length boards.now ≤ 101 }
    requires few_stats { length (stats_there (board_at view.now i)) ≤ 151 }
    requires ordered { IsOrdered view.now }
    ensures result { IfOk result (λ board. board ≡ exported_board view.now (board_at view.now i)) }
    ensures fits { IfOk result (λ board. FitsBoard board) }
{
    let names = stat_names(alloc, view, i)?;
    let stats = stats_of(alloc, view, boards, &names, i)?;
    let properties = properties_of(alloc, view, boards, i)?;
    Ok(BoardData {
        name: Bytes::from_slice(alloc, view.properties(i).text(BoardText::Name))?,
        tiles: *view.table(i),
        properties,
        stats,
    })
}
