//! The playtest of a board of a world.
ghost use Rattle.std.specs.Prelude.{◌≡◌, IfOk, length, map};
ghost use Rattle.zed_play.specs.Opening.{Opens, stat_from, stats_from, bounds_of, bytes_of, counters_in, cycle_in, own_bytes, play_of, position_in, program_at, scene_of};
ghost use Rattle.zed_play.specs.Playtest.{IsTick};

use crate::error::PlayError;
use crate::game::{Game, copy_lines};
use crate::key::Bounds;
use crate::messages::Messages;
use crate::play::Play;
use std::alloc::{AllocError, Global};
use zed_oop::{Counters, Scene, Stat, Step};
use zed_types::{Bytes, Place, Seq};
use zed_world::{BoardData, Code, Header, Properties, StatData, World};

fn position_in(n: i16) -> Option<usize>
    ensures { result ≡ position_in n }
{
    if n < 0 { None } else { Some(n as usize) }
}

fn cycle_in(n: i16) -> u16
    ensures { result ≡ cycle_in n }
{
    if n < 0 { 0 } else { n as u16 }
}

fn program_at(i: usize, code: &Code) -> Option<usize>
    ensures { result ≡ program_at i code.now }
{
    match code {
        Code::None => None,
        Code::Own(_) => Some(i),
        Code::Same(n) => Some(usize::from(*n)),
    }
}

fn own_bytes(alloc: Global, code: &Code) -> Result<Bytes, AllocError>
    ensures { IfOk result (λ b. b ≡ own_bytes code.now) }
{
    match code {
        Code::None => Ok(Bytes::new(Vec::new(alloc))),
        Code::Own(bytes) => bytes.copy(),
        Code::Same(_) => Ok(Bytes::new(Vec::new(alloc))),
    }
}

fn number_of(n: Option<u8>) -> Option<usize>
    ensures { result ≡ n }
{
    match n {
        Some(n) => Some(usize::from(n)),
        None => None,
    }
}

fn stat_from(i: usize, stat: &StatData) -> Stat
    ensures { result ≡ stat_from i stat.now }
{
    Stat {
        place: Place {
            x: stat.x,
            y: stat.y,
        },
        step: Step {
            x: stat.step_x,
            y: stat.step_y,
        },
        cycle: cycle_in(stat.cycle),
        p1: stat.p1,
        p2: stat.p2,
        p3: stat.p3,
        follower: number_of(stat.follower),
        leader: number_of(stat.leader),
        under: stat.under,
        position: position_in(stat.position),
        program: program_at(i, &stat.code),
    }
}

#[tactic(auto, using(crate::proofs::Numbering::one_more))]
pub(crate) fn stats_of(alloc: Global, stats: &[StatData]) -> Result<Seq<Stat>, AllocError>
    ensures { IfOk result (λ a. a ≡ stats_from 0 stats.now) }
{
    let mut out = Seq::new(alloc);
    for stat in stats {
        let i = out.as_slice().len();
        out.push(stat_from(i, stat))?;
    }
    Ok(out)
}

pub(crate) fn programs_of(alloc: Global, stats: &[StatData]) -> Result<Seq<Bytes>, AllocError>
    ensures { IfOk result (λ p. p ≡ map bytes_of stats.now) }
{
    let mut out = Seq::new(alloc);
    for stat in stats {
        out.push(own_bytes(alloc, &stat.code)?)?;
    }
    Ok(out)
}

fn counters_in(header: &Header) -> Counters
    ensures { result ≡ counters_in header.now }
{
    Counters {
        health: header.health,
        ammo: header.ammo,
        gems: header.gems,
        torches: header.torches,
        score: header.score,
        time: header.time_passed,
    }
}

fn scene_of(alloc: Global, header: &Header, board: &BoardData) -> Result<Scene, AllocError>
    requires { length header.now.flags ≡ 10 }
    ensures { IfOk result (λ s. s ≡ scene_of header.now board.now) }
{
    let stats = stats_of(alloc, board.stats.as_slice())?;
    let programs = programs_of(alloc, board.stats.as_slice())?;
    let flags = copy_lines(alloc, header.flags.as_slice())?;
    Ok(Scene::new(
        alloc,
        board.tiles,
        stats,
        programs,
        counters_in(header),
        flags,
    ))
}

pub(crate) fn bounds_of(properties: &Properties) -> Bounds
    ensures result { result ≡ bounds_of properties.now }
{
    Bounds {
        max_shots: properties.max_shots,
        north: properties.north,
        south: properties.south,
        west: properties.west,
        east: properties.east,
    }
}

fn play_of(alloc: Global, header: &Header, board: &BoardData, tick: u16) -> Result<Play, AllocError>
    requires { length header.now.flags ≡ 10 }
    ensures result { IfOk result (λ p. p ≡ play_of header.now board.now tick) }
{
    let scene = scene_of(alloc, header, board)?;
    let game = Game {
        scene,
        keys: header.keys,
        left: None,
        messages: Messages::new(alloc)?,
    };
    Play::begin(alloc, game, bounds_of(&board.properties), tick, None)
}

impl Play {
    /// The playtest of the board of this number, which begins at a tick of 1 to 420. Refusals, in
    /// order: NoBoard if the world has no such board; Memory.
    pub fn new(alloc: Global, world: World, board: usize, tick: u16) -> Result<Play, PlayError>
        ensures result { Opens result world board tick }
        ensures within { IsTick tick → IfOk result (λ p. IsTick p.tick) }
    {
        Play::open(alloc, &world, board, tick)
    }

    /// The same of a world that is lent, over whose boards it can go on.
    pub fn open(alloc: Global, world: &World, board: usize, tick: u16) -> Result<Play, PlayError>
        ensures result { Opens result world.now board tick }
        ensures within { IsTick tick → IfOk result (λ p. IsTick p.tick) }
    {
        match world.boards().get(board) {
            None => Err(PlayError::NoBoard),
            Some(data) => match play_of(alloc, world.header(), data, tick) {
                Ok(play) => Ok(play),
                Err(_) => Err(PlayError::Memory),
            },
        }
    }
}
