//! Copies of the parts of a world.
ghost use Rattle.std.specs.Prelude.{◌≡◌, IfOk};
ghost use Rattle.cmd_program.specs.Worlds.{board_with, stat_with, stats_from};

use crate::codes::recoded;
use std::alloc::{AllocError, Global};
use zed_types::{Bytes, Seq};
use zed_world::{BoardData, Code, Header, Properties, StatData};

fn copy_flags(alloc: Global, flags: &[Bytes]) -> Result<Seq<Bytes>, AllocError>
    ensures { IfOk result (λ copies. copies ≡ flags.now) }
{
    let mut copies = Seq::new(alloc);
    for flag in flags {
        copies.push(flag.copy()?)?;
    }
    Ok(copies)
}

/// An equal header.
pub(crate) fn copy_header(alloc: Global, header: &Header) -> Result<Header, AllocError>
    ensures { IfOk result (λ copy. copy ≡ header.now) }
{
    let name = header.name.copy()?;
    let flags = copy_flags(alloc, header.flags.as_slice())?;
    Ok(Header {
        ammo: header.ammo,
        gems: header.gems,
        keys: header.keys,
        health: header.health,
        current_board: header.current_board,
        torches: header.torches,
        torch_ticks: header.torch_ticks,
        energizer_ticks: header.energizer_ticks,
        score: header.score,
        name,
        flags,
        time_passed: header.time_passed,
        hundredths: header.hundredths,
        saved: header.saved,
    })
}

fn copy_properties(properties: &Properties) -> Result<Properties, AllocError>
    ensures { IfOk result (λ copy. copy ≡ properties.now) }
{
    let message = properties.message.copy()?;
    Ok(Properties {
        max_shots: properties.max_shots,
        dark: properties.dark,
        north: properties.north,
        south: properties.south,
        west: properties.west,
        east: properties.east,
        re_enter: properties.re_enter,
        message,
        start_x: properties.start_x,
        start_y: properties.start_y,
        time_limit: properties.time_limit,
    })
}

fn copy_code(code: &Code) -> Result<Code, AllocError>
    ensures { IfOk result (λ copy. copy ≡ code.now) }
{
    match code {
        Code::None => Ok(Code::None),
        Code::Own(bytes) => Ok(Code::Own(bytes.copy()?)),
        Code::Same(n) => Ok(Code::Same(*n)),
    }
}

// A stat with another program.
fn with_code(stat: &StatData, code: Code) -> StatData
    ensures { result ≡ stat_with stat.now code }
{
    StatData {
        x: stat.x,
        y: stat.y,
        step_x: stat.step_x,
        step_y: stat.step_y,
        cycle: stat.cycle,
        p1: stat.p1,
        p2: stat.p2,
        p3: stat.p3,
        follower: stat.follower,
        leader: stat.leader,
        under: stat.under,
        position: stat.position,
        code,
    }
}

fn copy_stats(alloc: Global, stats: &[StatData]) -> Result<Seq<StatData>, AllocError>
    ensures { IfOk result (λ copies. copies ≡ stats.now) }
{
    let mut copies = Seq::new(alloc);
    for stat in stats {
        copies.push(with_code(stat, copy_code(&stat.code)?))?;
    }
    Ok(copies)
}

fn copy_board(alloc: Global, board: &BoardData) -> Result<BoardData, AllocError>
    ensures { IfOk result (λ copy. copy ≡ board.now) }
{
    let name = board.name.copy()?;
    let properties = copy_properties(&board.properties)?;
    let stats = copy_stats(alloc, board.stats.as_slice())?;
    Ok(BoardData {
        name,
        tiles: board.tiles,
        properties,
        stats,
    })
}

/// Equal boards.
pub(crate) fn copy_boards(alloc: Global, boards: &[BoardData]) -> Result<Seq<BoardData>, AllocError>
    ensures { IfOk result (λ copies. copies ≡ boards.now) }
{
    let mut copies = Seq::new(alloc);
    for board in boards {
        copies.push(copy_board(alloc, board)?)?;
    }
    Ok(copies)
}

// The stats of a board of which this one gets these bytes.
fn recoded_stats(
    alloc: Global,
    owner: usize,
    program: &[u8],
    stats: &[StatData],
) -> Result<Seq<StatData>, AllocError>
    ensures { IfOk result (λ copies. copies ≡ stats_from owner program.now 0 stats.now) }
{
    let mut copies = Seq::new(alloc);
    for (number, stat) in stats.iter().enumerate() {
        let code = recoded(alloc, owner, program, number, &stat.code)?;
        copies.push(with_code(stat, code))?;
    }
    Ok(copies)
}

/// A board of which this stat gets these bytes.
pub(crate) fn recoded_board(
    alloc: Global,
    owner: usize,
    program: &[u8],
    board: &BoardData,
) -> Result<BoardData, AllocError>
    ensures { IfOk result (λ copy. copy ≡ board_with owner program.now board.now) }
{
    let name = board.name.copy()?;
    let properties = copy_properties(&board.properties)?;
    let stats = recoded_stats(alloc, owner, program, board.stats.as_slice())?;
    Ok(BoardData {
        name,
        tiles: board.tiles,
        properties,
        stats,
    })
}
