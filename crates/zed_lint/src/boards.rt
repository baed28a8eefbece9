//! Findings about a board as a whole.
ghost use Rattle.std.specs.Prelude.{◌≡◌, ◌<◌, ◌++◌, OnErr, OnOk, length};
ghost use Rattle.zed_lint.specs.Boards.{count_of, exit_findings, long_board_name, long_body, long_file, long_world_name, other_players, self_exit, whole_findings};
ghost use Rattle.zed_world.specs.Normal.{IsWritable};

use crate::finding::{Finding, Spot, What};
use crate::noting::note;
use crate::utf8::utf8_name;
use std::alloc::AllocError;
use zed_types::{BODY_LIMIT, PLAYER, Side, Tile};
use zed_world::{BoardData, Properties, body_len};

/// Most bytes of a world file that ZZT loads with room to play.
const FILE_LIMIT: usize = 350_000;

/// Most bytes of a world's name that DOS leaves in the name of a file.
const WORLD_NAME_LIMIT: usize = 8;

/// Most bytes of a board's name that ZZT's editor shows, and takes.
const BOARD_NAME_LIMIT: usize = 34;

/// A file of so many bytes, if these are too many.
pub(crate) fn long_file(bytes: usize) -> Option<What>
    ensures { result ≡ long_file bytes }
{
    if FILE_LIMIT < bytes {
        Some(What::LongFile(bytes))
    } else {
        None
    }
}

/// A world's name of so many bytes, if these are too many.
pub(crate) fn long_world_name(bytes: usize) -> Option<What>
    ensures { result ≡ long_world_name bytes }
{
    if WORLD_NAME_LIMIT < bytes {
        Some(What::LongWorldName(bytes))
    } else {
        None
    }
}

// A body of so many bytes, if that are too many.
fn long_body(bytes: usize) -> Option<What>
    ensures { result ≡ long_body bytes }
{
    if BODY_LIMIT < bytes {
        Some(What::LongBody(bytes))
    } else {
        None
    }
}

// A board's name of so many bytes, if that are too many.
fn long_board_name(bytes: usize) -> Option<What>
    ensures { result ≡ long_board_name bytes }
{
    if BOARD_NAME_LIMIT < bytes {
        Some(What::LongBoardName(bytes))
    } else {
        None
    }
}

/// How many of these tiles have an element.
pub(crate) fn count_of(element: u8, tiles: &[Tile]) -> usize
    ensures { result ≡ count_of element tiles.now }
{
    tiles.iter().filter(|tile| tile.element == element).count()
}

// So many players, if they aren't one.
fn other_players(count: usize) -> Option<What>
    ensures { result ≡ other_players count }
{
    match count {
        0 => Some(What::NoPlayer),
        1 => None,
        _ => Some(What::Players(count)),
    }
}

// An exit that leads to its own board.
fn self_exit(number: usize, side: Side, exit: u8) -> Option<What>
    ensures { result ≡ self_exit number side exit }
{
    if exit != 0 && usize::from(exit) == number {
        Some(What::ExitToItself(side))
    } else {
        None
    }
}

#[tactic(auto, using(crate::proofs::Some::front, crate::proofs::Some::back), unfolding(crate::specs::Boards::exit_findings))]
fn note_exits(
    found: &mut Vec<Finding>,
    number: usize,
    properties: &Properties,
) -> Result<(), AllocError>
    ensures ok { OnOk result
        (found.new.items ≡ found.old.items ++ exit_findings number properties.now) }
    ensures memory_only_when { OnErr result (0 < length (exit_findings number properties.now)) }
{
    let spot = Spot::Board(number);
    note(
        found,
        spot,
        self_exit(number, Side::North, properties.north),
    )?;
    note(
        found,
        spot,
        self_exit(number, Side::South, properties.south),
    )?;
    note(found, spot, self_exit(number, Side::West, properties.west))?;
    note(found, spot, self_exit(number, Side::East, properties.east))
}

/// Notes the findings about a board as a whole.
#[tactic(auto, using(crate::proofs::Some::front, crate::proofs::Some::back), unfolding(crate::specs::Boards::whole_findings))]
pub(crate) fn note_whole(
    found: &mut Vec<Finding>,
    number: usize,
    board: &BoardData,
) -> Result<(), AllocError>
    requires { IsWritable board.now }
    ensures ok { OnOk result
        (found.new.items ≡ found.old.items ++ whole_findings number board.now) }
    ensures memory_only_when { OnErr result (0 < length (whole_findings number board.now)) }
{
    let spot = Spot::Board(number);
    note(found, spot, long_body(body_len(board)))?;
    note(found, spot, long_board_name(board.name.as_slice().len()))?;
    note(found, spot, utf8_name(board.name.as_slice()))?;
    note(found, spot, other_players(count_of(PLAYER, &board.tiles)))?;
    note_exits(found, number, &board.properties)
}
