//! Another board, where the player of a playtest comes to it.
ghost use Rattle.std.specs.Prelude.{◌≡◌, ◌<◌, ◌≤◌, IfOk, OnErr, is_some, slice_get, true};
ghost use Rattle.zed_play.specs.Entering.{arrives, bared, beyond, brought, carried, comes_by, comes_onto, comes_through, entered, game_on, goes_on, is_passage, last_passage, met, passage_among, place_of, scene_on, stays, way_from, way_of, way_to};

use crate::ending::ending_by;
use crate::game::{Game, copy_lines};
use crate::key::{Bounds, Intent, Key, step_to};
use crate::opening::{bounds_of, programs_of, stats_of};
use crate::piece::piece_of;
use crate::play::Play;
use std::alloc::{AllocError, Global};
use zed_oop::{Counters, PLAYER, Scene, Step, ahead, is_walkable, tile_in};
use zed_types::{COLUMNS, PASSAGE, Place, ROWS, Side, TILES, Tile};
use zed_world::{BoardData, World};

/// How a player comes from one board to another.
#[derive(Clone, Copy)]
pub enum Way {
    /// Over the edge to a side, from a place.
    Edge(Side, Place),
    /// Through a passage of this colour.
    Passage(u8),
    /// In none of the ways that the first stat of a board goes.
    Other,
}

/// The way of the first stat from a place to a side, where this place is ahead.
fn way_to(side: Side, from: Place, ahead: Option<Place>, scene: &Scene) -> Way
    ensures { result ≡ way_to side from ahead scene.now }
{
    let Some(place) = ahead else {
        return Way::Edge(side, from);
    };
    let tile = scene.tile(place);
    if tile.element == PASSAGE {
        Way::Passage(tile.colour)
    } else {
        Way::Other
    }
}

/// The way of the first stat to a side.
fn way_from(side: Side, scene: &Scene) -> Way
    ensures { result ≡ way_from side (slice_get scene.now.stats 0) scene.now }
{
    match scene.stat(0) {
        Some(stat) => way_to(side, stat.place, ahead(stat.place, step_to(side)), scene),
        None => Way::Other,
    }
}

/// The place behind the edge to a side, on the next board.
fn beyond(side: Side, from: Place) -> Place
    ensures { result ≡ beyond side from }
{
    match side {
        Side::North => Place {
            x: from.x,
            y: ROWS as u8,
        },
        Side::South => Place { x: from.x, y: 1 },
        Side::West => Place {
            x: COLUMNS as u8,
            y: from.y,
        },
        Side::East => Place { x: 1, y: from.y },
    }
}

/// The place of a number, column after column.
fn place_of(number: u16) -> Place
    requires { number < 1500 }
    ensures { result ≡ place_of number }
{
    Place {
        x: (number / 25 + 1) as u8,
        y: (number % 25 + 1) as u8,
    }
}

fn is_passage(colour: u8, tile: Tile) -> bool
    ensures { result ≡ is_passage colour tile }
{
    tile.element == PASSAGE && tile.colour == colour
}

/// The last passage of a colour among so many places.
fn passage_among(tiles: &[Tile; TILES], colour: u8, count: u16) -> Option<Place>
    requires { count ≤ 1500 }
    ensures { result ≡ passage_among count colour tiles.now }
{
    let mut left = count;
    while left > 0 {
        left -= 1;
        let place = place_of(left);
        if is_passage(colour, tile_in(tiles, place)) {
            return Some(place);
        }
    }
    None
}

/// The last passage of a colour on a board, which is where ZZT puts the player.
#[tactic(auto, unfolding(crate::specs::Entering::last_passage))]
fn last_passage(tiles: &[Tile; TILES], colour: u8) -> Option<Place>
    ensures { result ≡ last_passage colour tiles.now }
{
    passage_among(tiles, colour, TILES as u16)
}

/// Takes away what is under the player.
fn bare(scene: &mut Scene)
    ensures { scene.new ≡ bared (slice_get scene.old.stats 0) scene.old }
{
    if let Some(stat) = scene.stat(0) {
        let mut changed = stat;
        changed.under = Tile::EMPTY;
        scene.put_stat(0, changed);
    }
}

/// Lets the player go to a place, if there is one.
fn bring(place: Option<Place>, scene: &mut Scene)
    ensures { scene.new ≡ brought place scene.old }
{
    if let Some(place) = place {
        scene.shift(0, place);
    }
}

/// The player comes through a passage of a colour.
fn come_through(colour: u8, scene: &mut Scene)
    ensures { scene.new ≡ comes_through colour scene.old }
{
    let place = last_passage(scene.tiles(), colour);
    bare(scene);
    bring(place, scene);
}

/// The counters that a player has on the next board.
fn carried(counters: Counters) -> Counters
    ensures { result ≡ carried counters }
{
    Counters {
        time: 0,
        ..counters
    }
}

/// A board in play with the counters and flags of another one.
fn scene_on(alloc: Global, board: &BoardData, from: &Scene) -> Result<Scene, AllocError>
    ensures { IfOk result (λ s. s ≡ scene_on board.now from.now) }
{
    let stats = stats_of(alloc, board.stats.as_slice())?;
    let programs = programs_of(alloc, board.stats.as_slice())?;
    let flags = copy_lines(alloc, from.flags())?;
    let counters = carried(from.counters());
    Ok(Scene::new(alloc, board.tiles, stats, programs, counters, flags))
}

impl Game {
    /// A board in play with what the player of this one carries.
    fn on_board(&self, alloc: Global, board: &BoardData) -> Result<Game, AllocError>
        ensures { IfOk result (λ g. g ≡ game_on board.now self.now) }
    {
        let scene = scene_on(alloc, board, &self.scene)?;
        let messages = self.messages.copy(alloc)?;
        Ok(Game {
            scene,
            keys: self.keys,
            left: None,
            messages,
        })
    }

    /// The player touches what is at a place, along a step; a scroll isn't read.
    fn meet(&mut self, place: Place, step: Step)
        ensures { self.new ≡ met place step self.old }
    {
        let tile = self.scene.tile(place);
        self.touch_piece(piece_of(tile.element), tile, place, step);
    }

    /// The player comes over an edge onto a place, if it can.
    fn come_onto(mut self, place: Place) -> Option<Game>
        ensures { result ≡ comes_onto place self }
    {
        let element = self.scene.tile(place).element;
        if element == PLAYER {
            Some(self)
        } else if is_walkable(element) {
            self.scene.shift(0, place);
            Some(self)
        } else {
            None
        }
    }

    /// The player comes in by a way, if it can.
    fn come_by(mut self, way: Way) -> Option<Game>
        ensures { result ≡ comes_by way self }
    {
        match way {
            Way::Edge(side, from) => {
                let place = beyond(side, from);
                self.meet(place, step_to(side));
                self.come_onto(place)
            }
            Way::Passage(colour) => {
                come_through(colour, &mut self.scene);
                Some(self)
            }
            Way::Other => Some(self),
        }
    }
}

impl Play {
    /// The way on which a step by this key would lead the player off its board: over an edge, or
    /// through the passage ahead of the first stat.
    pub fn way(&self, key: Key) -> Way
        ensures result { result ≡ way_of key self.now }
    {
        match key.intent() {
            Intent::Goes(side) => way_from(side, &self.game.scene),
            Intent::Nothing | Intent::Shoots(_) => Way::Other,
        }
    }

    /// The playtest that goes on with a game at this one's tick.
    fn go_on(&self, alloc: Global, game: Game, bounds: Bounds) -> Result<Play, AllocError>
        ensures { IfOk result (λ p. p ≡ goes_on bounds game self.now) }
    {
        let ending = ending_by(None, game.scene.counters().health);
        Play::begin(alloc, game, bounds, self.tick, ending)
    }

    /// The playtest that goes on on the board that the player left.
    fn stay(&self, alloc: Global) -> Result<Play, AllocError>
        ensures { IfOk result (λ p. p ≡ stays self.now) }
    {
        let mut game = self.game.copy(alloc)?;
        game.left = None;
        self.go_on(alloc, game, self.bounds)
    }

    /// The playtest that goes on on the board that the player came to, or else on the one that it left.
    fn arrive(&self, alloc: Global, came: Option<Game>, bounds: Bounds) -> Result<Play, AllocError>
        ensures { IfOk result (λ p. p ≡ arrives bounds came self.now) }
    {
        match came {
            Some(game) => self.go_on(alloc, game, bounds),
            None => self.stay(alloc),
        }
    }

    /// The playtest of the board of this number to which the player of this one comes by a way, or
    /// None where the world has no such board. The player keeps its counters but for the time on the
    /// board, its keys, flags and message lines; the tick goes on. Over an edge it touches the place
    /// on the other side and comes onto it if it can be walked on; else it stays on the board that it
    /// left. Through a passage it comes onto the last one of that colour, the furthest to the right
    /// and the lowest there, or else where the board has its player. Only a growth that is refused
    /// makes it an error, and only where there is such a board.
    pub fn enter(
        &self,
        alloc: Global,
        world: &World,
        board: usize,
        way: Way,
    ) -> Result<Option<Play>, AllocError>
        ensures result { IfOk result (λ next. next ≡ entered world.now board way self.now) }
        ensures memory_only_when { OnErr result
            (is_some (entered world.now board way self.now) ≡ true) }
    {
        let Some(data) = world.boards().get(board) else {
            return Ok(None);
        };
        let game = self.game.on_board(alloc, data)?;
        let play = self.arrive(alloc, game.come_by(way), bounds_of(&data.properties))?;
        Ok(Some(play))
    }
}
