//! Tiles that programs make.
ghost use Rattle.std.specs.Prelude.{◌≡◌, ◌<◌, ◌≤◌, slice_get};
ghost use Rattle.zed_oop.specs.Making.{became, bound, bound_to, converted_to, has_name, named, changed_place, changed_tile, cleared_below, cleared_one, converted, is_there, put_ahead, put_if_walkable, without_own};
ghost use Rattle.zed_types.specs.Table.{place_at};

use crate::acting::set_position;
use crate::sending::is_named;
use zed_oop_syntax::TileKind;
use zed_scene::{Scene, Stat, Step, ahead, is_walkable};
use zed_types::Place;

/// The colour of what programs make without naming one.
const COLOUR: u8 = 0x0F;

/// Place k of the table, row after row.
fn place_at(k: u16) -> Place
    requires { k < 1500 }
    ensures { result ≡ place_at k }
{
    Place {
        x: (k % 60 + 1) as u8,
        y: (k / 60 + 1) as u8,
    }
}

fn is_there(place: Place, stat: Option<Stat>) -> bool
    ensures { result ≡ is_there place stat }
{
    match stat {
        Some(a) => a.place.x == place.x && a.place.y == place.y,
        None => false,
    }
}

fn remove_own(scene: &mut Scene)
    ensures { scene.new ≡ without_own scene.old.running scene.old }
{
    if let Some(i) = scene.running() {
        scene.remove(i);
    }
}

/// The stat whose turn it is goes, and a kind takes its place.
pub(crate) fn become_kind(scene: &mut Scene, kind: TileKind, place: Place)
    ensures { scene.new ≡ became kind place scene.old }
{
    let colour = scene.tile(place).colour;
    remove_own(scene);
    scene.put(place, kind.tile(colour));
}

fn stand(scene: &mut Scene, kind: TileKind, place: Place)
    ensures { scene.new ≡ put_if_walkable kind place scene.old }
{
    if is_walkable(scene.tile(place).element) {
        scene.put(place, kind.tile(COLOUR));
    }
}

/// Puts a kind ahead, if that is on the board.
#[tactic(auto, unfolding(crate::specs::Making::put_ahead))]
pub(crate) fn put_ahead(scene: &mut Scene, from: Place, step: Step, kind: TileKind)
    ensures { scene.new ≡ put_ahead from step kind scene.old }
{
    if step.x == 0 && step.y == 0 {
        return;
    }
    if let Some(to) = ahead(from, step) {
        scene.make_way(to, step);
        stand(scene, kind, to);
    }
}

/// Removes stat i if it is at a place.
fn clear_one(scene: &mut Scene, i: usize, place: Place)
    ensures { scene.new ≡ cleared_one i place scene.old }
{
    if is_there(place, scene.stat(i)) {
        scene.remove(i);
    }
}

fn clear_below(scene: &mut Scene, n: usize, place: Place)
    ensures { scene.new ≡ cleared_below n place scene.old }
{
    let mut i = n;
    while i > 0 {
        i -= 1;
        clear_one(scene, i, place);
    }
}

fn change_place(scene: &mut Scene, first: TileKind, second: TileKind, place: Place)
    ensures { scene.new ≡ changed_place first second place scene.old }
{
    let tile = scene.tile(place);
    if first.matches(tile) {
        let n = scene.stats().len();
        clear_below(scene, n, place);
        scene.put(place, second.tile(tile.colour));
    }
}

#[tactic(auto, unfolding(crate::specs::Making::changed_tile))]
fn change_tile(scene: &mut Scene, first: TileKind, second: TileKind, k: u16)
    requires { k < 1500 }
    ensures { scene.new ≡ changed_tile first second k scene.old }
{
    change_place(scene, first, second, place_at(k));
}

/// Makes each tile of one kind a tile of the other, row by row.
#[tactic(auto, unfolding(crate::specs::Making::converted_to))]
fn convert_to(scene: &mut Scene, n: u16, first: TileKind, second: TileKind)
    requires { n ≤ 1500 }
    ensures { scene.new ≡ converted_to n first second scene.old }
{
    for k in 0..n {
        change_tile(scene, first, second, k);
    }
}

/// Makes each tile of one kind a tile of the other, row by row.
#[tactic(auto, unfolding(crate::specs::Making::converted))]
pub(crate) fn convert(scene: &mut Scene, first: TileKind, second: TileKind)
    ensures { scene.new ≡ converted first second scene.old }
{
    convert_to(scene, 1500, first, second);
}

/// Whether stat i, past the player, has a program of this name.
fn has_name(scene: &Scene, name: &[u8], i: usize) -> bool
    ensures { result ≡ has_name scene.now name.now i (slice_get scene.now.stats i) }
{
    match scene.stat(i) {
        Some(stat) => 1 <= i && is_named(scene.program(stat.program), name),
        None => false,
    }
}

/// The first stat past the player whose program has this name.
#[tactic(auto, unfolding(crate::specs::Making::named))]
fn named(scene: &Scene, name: &[u8]) -> Option<usize>
    ensures { result ≡ named name.now scene.now }
{
    for i in 0..scene.stats().len() {
        if has_name(scene, name, i) {
            return Some(i);
        }
    }
    None
}

fn bind_to(scene: &mut Scene, other: Option<Stat>)
    ensures { scene.new ≡ bound_to other scene.old }
{
    if let Some(other) = other {
        if let Some(stat) = scene.running_stat() {
            let mut changed = stat;
            changed.program = other.program;
            changed.position = Some(0);
            scene.put_running_stat(changed);
        }
    }
}

/// Gives the stat whose turn it is the program of the first stat of this name, and tells whether there is one.
pub(crate) fn bind(scene: &mut Scene, name: &[u8]) -> bool
    ensures { bound name.now scene.old ≡ (result, scene.new) }
{
    match named(scene, name) {
        Some(i) => {
            let other = scene.stat(i);
            bind_to(scene, other);
            true
        }
        None => false,
    }
}
