//! What the edit that makes the world does.

ghost use Rattle.std.specs.Prelude.{◌≡◌, ◌+◌, ◌<◌, ◌≤◌, ◌^◌, ◌++◌, length, option_to_list, Ok, IfOk, IfErr};
ghost use Rattle.std.specs.List.{AllByRecursion, filter_map};
ghost use Rattle.zed_world.specs.Reading.{world_at};
ghost use Rattle.zed_edit.specs.Genesis.{HasShortProgram, HaveShortPrograms, own_program, opened_boards, texts_from, opened_texts};
ghost use Rattle.zed_edit.specs.Replay.{open_world as world_opened};

use crate::opened::{header_of, opened_board, programs_before};
use crate::plain::{Board, Plain, Text};
use crate::text::run_of;
use std::alloc::Global;
use zed_op::EditError;
use zed_types::{Seq, Stamp, TextId};
use zed_world::{BoardData, Code, StatData, World, WorldError, read_world};

/// Adds the boards of a world behind those that are there.
fn open_boards(
    alloc: Global,
    opened: &mut Seq<Board>,
    stamp: Stamp,
    boards: &[BoardData],
) -> Result<(), EditError>
    requires few { length boards.now ≤ 101 }
    requires stats { AllByRecursion (λ b. length b.stats ≤ 151) boards.now }
    ensures added { IfOk result (λ _. opened.new ≡ opened.old ++ opened_boards stamp boards.now) }
    ensures err { IfErr result (λ e. e ≡ EditError.Memory) }
{
    let mut m = 0;
    let mut t = 0;
    for (n, board) in boards.iter().enumerate() {
        let next = opened_board(alloc, stamp, n, m, t, board)?;
        opened.push(next)?;
        m += board.stats.as_slice().len();
        t += programs_before(board.stats.as_slice().len(), board.stats.as_slice());
    }
    Ok(())
}

/// Adds the text of a stat, if it has a program of its own, as text `t`.
fn open_text(
    alloc: Global,
    texts: &mut Seq<Text>,
    stamp: Stamp,
    t: usize,
    stat: &StatData,
) -> Result<usize, EditError>
    requires few { t < 2 ^ 31 }
    requires short { HasShortProgram stat.now }
    ensures added { IfOk result (λ _. texts.new
        ≡ texts.old ++ texts_from stamp t (option_to_list (own_program stat.now))) }
    ensures number { IfOk result (λ u. u ≡ t + length (option_to_list (own_program stat.now))) }
    ensures err { IfErr result (λ e. e ≡ EditError.Memory) }
{
    let Code::Own(program) = &stat.code else {
        return Ok(t);
    };
    let run = run_of(alloc, stamp, program.as_slice())?;
    let text = Text {
        id: TextId::new(stamp, t as u32),
        elements: Seq::from_vec(run),
    };
    texts.push(text)?;
    Ok(t + 1)
}

/// Adds the texts of the stats of a board, from text `t` on.
fn open_texts_of(
    alloc: Global,
    texts: &mut Seq<Text>,
    stamp: Stamp,
    t: usize,
    stats: &[StatData],
) -> Result<usize, EditError>
    requires few { t < 2 ^ 30 }
    requires stats { length stats.now ≤ 151 }
    requires short { HaveShortPrograms stats.now }
    ensures added { IfOk result (λ _. texts.new
        ≡ texts.old ++ texts_from stamp t (filter_map own_program stats.now)) }
    ensures number { IfOk result (λ u. u ≡ t + length (filter_map own_program stats.now)) }
    ensures few { IfOk result (λ u. u ≤ t + 151) }
    ensures err { IfErr result (λ e. e ≡ EditError.Memory) }
{
    let mut next = t;
    for stat in stats {
        next = open_text(alloc, texts, stamp, next, stat)?;
    }
    Ok(next)
}

/// Adds the texts of a world behind those that are there.
fn open_texts(
    alloc: Global,
    texts: &mut Seq<Text>,
    stamp: Stamp,
    boards: &[BoardData],
) -> Result<(), EditError>
    requires few { length boards.now ≤ 101 }
    requires stats { AllByRecursion (λ b. length b.stats ≤ 151) boards.now }
    requires short { AllByRecursion (λ b. HaveShortPrograms b.stats) boards.now }
    ensures added { IfOk result (λ _. texts.new ≡ texts.old ++ opened_texts stamp boards.now) }
    ensures err { IfErr result (λ e. e ≡ EditError.Memory) }
{
    let mut t = 0;
    for board in boards {
        t = open_texts_of(alloc, texts, stamp, t, board.stats.as_slice())?;
    }
    Ok(())
}

fn open_contents(
    alloc: Global,
    plain: &mut Plain,
    stamp: Stamp,
    world: &World,
) -> Result<(), EditError>
    ensures opened { IfOk result (λ _. plain.new ≡ world_opened stamp (Ok world.now) plain.old) }
    ensures err { IfErr result (λ e. e ≡ EditError.Memory) }
    ensures kept { plain.new.held ≡ plain.old.held }
{
    let header = world.header();
    let boards = world.boards();
    plain.header = header_of(stamp, header)?;
    open_boards(alloc, &mut plain.boards, stamp, boards)?;
    open_texts(alloc, &mut plain.texts, stamp, boards)
}

/// Adds the world that a file spells to what is there; its header replaces the one before.
pub(crate) fn open_world(
    alloc: Global,
    plain: &mut Plain,
    stamp: Stamp,
    bytes: &[u8],
) -> Result<(), EditError>
    ensures opened { IfOk result (λ _.
        plain.new ≡ world_opened stamp (world_at bytes.now) plain.old) }
    ensures err { IfErr result (λ e. e ≡ EditError.Memory) }
    ensures kept { plain.new.held ≡ plain.old.held }
{
    match read_world(alloc, bytes) {
        Ok(world) => open_contents(alloc, plain, stamp, &world),
        Err(WorldError::Memory) => Err(EditError::Memory),
        Err(_) => Ok(()),
    }
}
