//! What a world file has, as it is in a document.

ghost use Rattle.std.specs.Prelude.{◌≡◌, ◌+◌, ◌<◌, ◌≤◌, ◌^◌, length, is_some, option_map, IfOk, IfErr};
ghost use Rattle.zed_types.specs.Names.{stat_of, text_of as name_of_text};
ghost use Rattle.zed_edit.specs.Genesis.{exit_of as exit_to, header_of as header_in, properties_of as properties_in, own_program, programs_before as programs_below, text_number, parameter_of as parameter_in, opened_stat as stat_opened, opened_stats as stats_opened, opened_board as board_opened};

use crate::plain::{Board, Header, Properties, Stat};
use std::alloc::Global;
use zed_op::EditError;
use zed_types::{
    BoardId, Bytes, Seq, Stamp, StatFields, StatId, TILES, TextId, ThirdParameter, Tile,
};
use zed_world::{BoardData, Code, StatData, is_passage};

fn exit_of(stamp: Stamp, n: u8) -> Option<BoardId>
    ensures { result ≡ exit_to stamp n }
{
    if n == 0 {
        return None;
    }
    Some(BoardId::new(stamp, u32::from(n)))
}

fn flags_of(flags: &[Bytes]) -> Result<[Bytes; 10], EditError>
    requires { length flags.now ≡ 10 }
    ensures result { IfOk result (λ fs. fs ≡ flags.now) }
    ensures err { IfErr result (λ e. e ≡ EditError.Memory) }
{
    let [a, b, c, d, e, f, g, h, i, j] = flags else {
        unreachable!()
    };
    Ok([
        a.copy()?,
        b.copy()?,
        c.copy()?,
        d.copy()?,
        e.copy()?,
        f.copy()?,
        g.copy()?,
        h.copy()?,
        i.copy()?,
        j.copy()?,
    ])
}

pub(crate) fn header_of(stamp: Stamp, header: &zed_world::Header) -> Result<Header, EditError>
    requires { length header.now.flags ≡ 10 }
    ensures result { IfOk result (λ h. h ≡ header_in stamp header.now) }
    ensures err { IfErr result (λ e. e ≡ EditError.Memory) }
{
    let flags = flags_of(header.flags.as_slice())?;
    Ok(Header {
        numbers: [
            header.ammo,
            header.gems,
            header.health,
            header.torches,
            header.torch_ticks,
            header.energizer_ticks,
            header.score,
            header.time_passed,
            header.hundredths,
        ],
        keys: header.keys,
        saved: header.saved,
        current_board: BoardId::new(stamp, u32::from(header.current_board)),
        world_name: header.name.copy()?,
        flags,
    })
}

fn properties_of(
    stamp: Stamp,
    name: &Bytes,
    properties: &zed_world::Properties,
) -> Result<Properties, EditError>
    ensures result { IfOk result (λ p. p ≡ properties_in stamp name.now properties.now) }
    ensures err { IfErr result (λ e. e ≡ EditError.Memory) }
{
    Ok(Properties {
        bytes: [properties.max_shots, properties.start_x, properties.start_y],
        flags: [properties.dark, properties.re_enter],
        time_limit: properties.time_limit,
        rank: 0,
        exits: [
            exit_of(stamp, properties.north),
            exit_of(stamp, properties.south),
            exit_of(stamp, properties.west),
            exit_of(stamp, properties.east),
        ],
        texts: [name.copy()?, properties.message.copy()?],
    })
}

/// Whether a stat has a program of its own.
fn has_program(stat: &StatData) -> bool
    ensures { result ≡ is_some (own_program stat.now) }
{
    matches!(stat.code, Code::Own(_))
}

/// How many of the first `n` stats have a program of their own.
pub(crate) fn programs_before(n: usize, stats: &[StatData]) -> usize
    ensures result { result ≡ programs_below n stats.now }
    ensures few { result ≤ length stats.now }
{
    stats.iter().take(n).filter(|x| has_program(x)).count()
}

/// The text of stat `j` of a board whose first text has number `t`.
fn text_of(stamp: Stamp, t: usize, stats: &[StatData], j: usize, code: &Code) -> Option<TextId>
    requires stats { length stats.now ≤ 151 }
    requires texts { t < 2 ^ 31 }
    ensures { result ≡ option_map (name_of_text stamp) (text_number t stats.now j code.now) }
{
    let below = match code {
        Code::None => return None,
        Code::Own(_) => programs_before(j, stats),
        Code::Same(n) => programs_before(usize::from(*n), stats),
    };
    Some(TextId::new(stamp, (t + below) as u32))
}

fn parameter_of(stamp: Stamp, board: &BoardData, stat: &StatData) -> ThirdParameter
    ensures { result ≡ parameter_in stamp board.now stat.now }
{
    if !is_passage(&board.tiles, stat.x, stat.y) {
        return ThirdParameter::Byte(stat.p3);
    }
    ThirdParameter::Board(BoardId::new(stamp, u32::from(stat.p3)))
}

/// Stat `k` of a board whose stats are numbered from `m`.
fn stat_if(stamp: Stamp, m: usize, k: Option<u8>) -> Option<StatId>
    requires { m < 2 ^ 31 }
    ensures { result ≡ option_map (λ n. stat_of stamp (m + n)) k }
{
    match k {
        None => None,
        Some(k) => Some(StatId::new(stamp, (m + usize::from(k)) as u32)),
    }
}

fn opened_stat(stamp: Stamp, m: usize, t: usize, board: &BoardData, j: usize, x: &StatData) -> Stat
    requires few { length board.now.stats ≤ 151 }
    requires number { j < 151 }
    requires stats { m < 2 ^ 31 }
    requires texts { t < 2 ^ 31 }
    ensures { result ≡ stat_opened stamp m t board.now j x.now }
{
    Stat {
        id: StatId::new(stamp, (m + j) as u32),
        is_player: j == 0,
        fields: StatFields {
            bytes: [x.x, x.y, x.p1, x.p2, x.under.element, x.under.colour],
            numbers: [x.step_x, x.step_y, x.cycle],
            p3: parameter_of(stamp, board, x),
            text: text_of(stamp, t, board.stats.as_slice(), j, &x.code),
        },
        position: x.position,
        follower: stat_if(stamp, m, x.follower),
        leader: stat_if(stamp, m, x.leader),
        removed: false,
    }
}

fn opened_stats(
    alloc: Global,
    stamp: Stamp,
    m: usize,
    t: usize,
    board: &BoardData,
) -> Result<Seq<Stat>, EditError>
    requires few { length board.now.stats ≤ 151 }
    requires stats { m < 2 ^ 31 }
    requires texts { t < 2 ^ 31 }
    ensures result { IfOk result (λ ss. ss ≡ stats_opened stamp m t board.now) }
    ensures err { IfErr result (λ e. e ≡ EditError.Memory) }
{
    let mut opened = Seq::new(alloc);
    for (j, x) in board.stats.as_slice().iter().enumerate() {
        opened.push(opened_stat(stamp, m, t, board, j, x))?;
    }
    Ok(opened)
}

pub(crate) fn opened_board(
    alloc: Global,
    stamp: Stamp,
    n: usize,
    m: usize,
    t: usize,
    board: &BoardData,
) -> Result<Board, EditError>
    requires few { length board.now.stats ≤ 151 }
    requires boards { n < 2 ^ 31 }
    requires stats { m < 2 ^ 31 }
    requires texts { t < 2 ^ 31 }
    ensures result { IfOk result (λ b. b ≡ board_opened stamp n m t board.now) }
    ensures err { IfErr result (λ e. e ≡ EditError.Memory) }
{
    Ok(Board {
        id: BoardId::new(stamp, n as u32),
        tiles: board.tiles,
        properties: properties_of(stamp, &board.name, &board.properties)?,
        stats: opened_stats(alloc, stamp, m, t, board)?,
        removed: false,
    })
}
