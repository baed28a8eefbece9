//! Pictures of boards, place by place.
ghost use Rattle.std.specs.Prelude.{◌≡◌, ◌<◌, ◌≤◌, find, option_map, slice_get, slice_set};
ghost use Rattle.zed_scene.specs.Scene.{same_place};
ghost use Rattle.zed_play.specs.Opening.{cycle_in};
ghost use Rattle.zed_look.specs.Drawing.{board_picture, in_play, joined_at, joins, no_pose, picture_of, place_of, played_at, played_pose, pose_in, pose_of, row_of, scene_at, scene_pose, shown_at, shown_of, stands_at, weight};

use crate::look::{Picture, Pose, Spot};
use crate::tiles::spot_of;
use zed_play::Play;
use zed_scene::{Scene, Stat, tile_in};
use zed_types::{COLUMNS, Place, ROWS, TILES, Tile};
use zed_world::{BoardData, StatData, World};

/// What is drawn over.
const BLANK: Spot = Spot {
    character: b' ',
    attribute: 0x0F,
};

fn cycle_in(cycle: i16) -> u16
    ensures { result ≡ cycle_in cycle }
{
    if cycle < 0 { 0 } else { cycle as u16 }
}

/// What is to be seen of a stat.
fn pose_of(stat: &StatData) -> Pose
    ensures { result ≡ pose_of stat.now }
{
    Pose {
        p1: stat.p1,
        step_x: stat.step_x,
        step_y: stat.step_y,
        cycle: cycle_in(stat.cycle),
    }
}

/// What is to be seen of a stat in play.
fn played_pose(stat: &Stat) -> Pose
    ensures { result ≡ played_pose stat.now }
{
    Pose {
        p1: stat.p1,
        step_x: stat.step.x,
        step_y: stat.step.y,
        cycle: stat.cycle,
    }
}

/// What ZZT reads as the stat where there is none.
fn no_pose() -> Pose
    ensures { result ≡ no_pose }
{
    Pose {
        p1: 0,
        step_x: 256,
        step_y: 256,
        cycle: 256,
    }
}

/// The lowest stat at a place.
fn stat_at(stats: &[StatData], place: Place) -> Option<&StatData>
    ensures { option_map (λ s. s.now) result ≡ find (stands_at place) stats.now }
{
    stats.iter().find(|s| s.x == place.x && s.y == place.y)
}

/// What is to be seen of the lowest stat at a place.
fn pose_at(stats: &[StatData], place: Place) -> Pose
    ensures { result ≡ pose_in (find (stands_at place) stats.now) }
{
    match stat_at(stats, place) {
        Some(stat) => pose_of(stat),
        None => no_pose(),
    }
}

/// Whether a line wall joins what is at a place.
fn joins(tiles: &[Tile; TILES], x: u8, y: u8) -> bool
    ensures { result ≡ joins tiles.now x y }
{
    let tile = tile_in(tiles, Place { x, y });
    tile.element == 1 || tile.element == 31
}

fn weight(is_joined: bool, value: u8) -> u8
    ensures result { result ≡ weight is_joined value }
    ensures within { result ≤ value }
{
    if is_joined { value } else { 0 }
}

/// Which neighbours of a place a line wall there joins.
#[tactic(auto, unfolding(crate::specs::Drawing::joined_at))]
fn joined_at(tiles: &[Tile; TILES], place: Place) -> u8
    requires x { (1 ≤ place.x) × (place.x ≤ 60) }
    requires y { (1 ≤ place.y) × (place.y ≤ 25) }
    ensures { result ≡ joined_at tiles.now place }
{
    let north = weight(joins(tiles, place.x, place.y - 1), 1);
    let south = weight(joins(tiles, place.x, place.y + 1), 2);
    let west = weight(joins(tiles, place.x - 1, place.y), 4);
    let east = weight(joins(tiles, place.x + 1, place.y), 8);
    north + south + west + east
}

/// The place that is shown in a column and a row.
fn place_of(column: usize, row: usize) -> Place
    requires column { column < 60 }
    requires row { row < 25 }
    ensures { result ≡ place_of column row }
{
    Place {
        x: (column + 1) as u8,
        y: (row + 1) as u8,
    }
}

/// What is shown of a tile at a place of the table.
fn shown_of(tiles: &[Tile; TILES], pose: Pose, tick: u16, place: Place) -> Spot
    requires x { (1 ≤ place.x) × (place.x ≤ 60) }
    requires y { (1 ≤ place.y) × (place.y ≤ 25) }
    ensures { result ≡ shown_of tiles.now pose tick place }
{
    spot_of(tile_in(tiles, place), pose, joined_at(tiles, place), tick)
}

/// What is shown of a board in a column and a row.
#[tactic(auto, unfolding(crate::specs::Drawing::shown_at))]
fn shown_at(board: &BoardData, tick: u16, row: usize, column: usize) -> Spot
    requires column { column < 60 }
    requires row { row < 25 }
    ensures { result ≡ shown_at board.now tick row column }
{
    let place = place_of(column, row);
    let pose = pose_at(board.stats.as_slice(), place);
    shown_of(&board.tiles, pose, tick, place)
}

/// The lowest stat at a place.
fn actor_at(stats: &[Stat], place: Place) -> Option<&Stat>
    ensures { option_map (λ s. s.now) result ≡ find (λ s. same_place s.place place) stats.now }
{
    stats
        .iter()
        .find(|s| s.place.x == place.x && s.place.y == place.y)
}

/// What is to be seen of the lowest stat at a place in play.
fn scene_pose(scene: &Scene, place: Place) -> Pose
    ensures { result ≡ scene_pose (find (λ s. same_place s.place place) scene.now.stats) }
{
    match actor_at(scene.stats(), place) {
        Some(stat) => played_pose(stat),
        None => no_pose(),
    }
}

/// What is shown of a tile in play, if it isn't blank there.
fn scene_spot(scene: &Scene, pose: Pose, tick: u16, place: Place) -> Spot
    requires x { (1 ≤ place.x) × (place.x ≤ 60) }
    requires y { (1 ≤ place.y) × (place.y ≤ 25) }
    ensures { result ≡ shown_of scene.now.tiles pose tick place }
{
    shown_of(scene.tiles(), pose, tick, place)
}

/// What is shown in play of what is shown in an editor.
fn in_play(tile: Tile, spot: Spot) -> Spot
    ensures { result ≡ in_play tile spot }
{
    if tile.element == 28 {
        Spot {
            character: b' ',
            attribute: spot.attribute,
        }
    } else {
        spot
    }
}

/// What is shown of a board in play in a tick, in a column and a row.
#[tactic(auto, unfolding(crate::specs::Drawing::scene_at))]
fn scene_at(scene: &Scene, tick: u16, row: usize, column: usize) -> Spot
    requires column { column < 60 }
    requires row { row < 25 }
    ensures { result ≡ scene_at scene.now tick row column }
{
    let place = place_of(column, row);
    let pose = scene_pose(scene, place);
    let spot = scene_spot(scene, pose, tick, place);
    in_play(scene.tile(place), spot)
}

/// What is shown of a playtest in a column and a row.
fn played_at(play: &Play, row: usize, column: usize) -> Spot
    requires column { column < 60 }
    requires row { row < 25 }
    ensures { result ≡ played_at play.now row column }
{
    scene_at(play.board(), play.tick(), row, column)
}

fn put_spot(spots: &mut [Spot; COLUMNS], column: usize, spot: Spot)
    requires { column < 60 }
    ensures { spots.new ≡ slice_set spots.old column spot }
{
    spots[column] = spot;
}

fn put_row(rows: &mut [[Spot; COLUMNS]; ROWS], row: usize, spots: [Spot; COLUMNS])
    requires { row < 25 }
    ensures { rows.new ≡ slice_set rows.old row spots }
{
    rows[row] = spots;
}

#[tactic(auto, using(crate::proofs::Filling::one_more))]
fn row_of(board: &BoardData, tick: u16, row: usize) -> [Spot; COLUMNS]
    requires { row < 25 }
    ensures { result ≡ row_of (shown_at board.now tick) row }
{
    let mut spots = [BLANK; COLUMNS];
    for column in 0..60_usize {
        put_spot(&mut spots, column, shown_at(board, tick, row, column));
    }
    spots
}

/// The picture of a board in a tick, by which some elements turn; 0 will do for a board that isn't
/// played. It takes no memory.
pub fn draw(board: &BoardData, tick: u16) -> Picture
    ensures { result ≡ board_picture tick board.now }
{
    let mut rows = [[BLANK; COLUMNS]; ROWS];
    for row in 0..25_usize {
        put_row(&mut rows, row, row_of(board, tick, row));
    }
    Picture { rows }
}

/// A row of the picture of a board in play, counted from 0. It takes no memory.
#[tactic(auto, using(crate::proofs::Filling::one_more))]
pub fn draw_play_row(play: &Play, row: usize) -> [Spot; COLUMNS]
    requires { row < 25 }
    ensures { result ≡ row_of (played_at play.now) row }
{
    let mut spots = [BLANK; COLUMNS];
    for column in 0..60_usize {
        put_spot(&mut spots, column, played_at(play, row, column));
    }
    spots
}

/// The picture of a board in play. It takes no memory.
pub fn draw_play(play: &Play) -> Picture
    ensures { result ≡ picture_of (played_at play.now) }
{
    let mut rows = [[BLANK; COLUMNS]; ROWS];
    for row in 0..25_usize {
        put_row(&mut rows, row, draw_play_row(play, row));
    }
    Picture { rows }
}

/// The picture of the board of this number, 0 for the title, as it is before it is played; or None
/// if the world has no such board. It takes no memory.
pub fn draw_board(world: &World, board: usize) -> Option<Picture>
    ensures { result ≡ option_map (board_picture 0) (slice_get world.now.boards board) }
{
    match world.boards().get(board) {
        None => None,
        Some(data) => Some(draw(data, 0)),
    }
}
