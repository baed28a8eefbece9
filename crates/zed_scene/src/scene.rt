//! A board in play.
ghost use Rattle.std.specs.Prelude.{◌≡◌, [], ◌<◌, length, slice_get, option_copied, None, Some};
ghost use Rattle.zed_scene.specs.Scene.{acting_stat, element_ahead, program_of, put, put_acting_stat, put_program, put_running_stat, put_stat, running_stat, stat_at, there, tile_at, with_tile};

use crate::counters::Counters;
use crate::scroll::Scroll;
use crate::stat::Stat;
use crate::step::is_on_board;
use std::alloc::Global;
use std::marker::Model;
use zed_types::{Bytes, COLUMNS, Place, Seq, TILES, Tile};

/// A board in play, with ten flags. Contracts see it as the record of what it holds.
#[derive(Drop)]
pub struct Scene {
    pub(crate) tiles: [Tile; TILES],
    pub(crate) stats: Seq<Stat>,
    pub(crate) programs: Seq<Bytes>,
    pub(crate) counters: Counters,
    pub(crate) flags: Seq<Bytes>,
    pub(crate) ticking: usize,
    pub(crate) acting: Option<usize>,
    pub(crate) running: Option<usize>,
    pub(crate) scrolls: Seq<Scroll>,
}

impl Model for Scene {
    ghost use Rattle.std.specs.Prelude.{◌≡◌, length};
    ghost use Rattle.zed_scene.specs.Scene.{Scene as Plain};

    ghost Value = { Plain };

    ghost view = { λ s. record { tiles = s.tiles; stats = s.stats; programs = s.programs; counters = s.counters; flags = s.flags; ticking = s.ticking; acting = s.acting; running = s.running; scrolls = s.scrolls } };

    ghost invariant = { λ s. length s.flags ≡ 10 };
}

/// What is outside the table.
const EDGE: Tile = Tile {
    element: 1,
    colour: 0,
};

/// The tile at a place of a table; outside the table it is element 1.
pub fn tile_in(tiles: &[Tile; TILES], place: Place) -> Tile
    ensures result { result ≡ tile_at tiles.now place }
{
    if is_on_board(place) {
        let index = (usize::from(place.y) - 1) * COLUMNS + (usize::from(place.x) - 1);
        tiles[index]
    } else {
        EDGE
    }
}

fn put_in(tiles: &mut [Tile; TILES], place: Place, tile: Tile)
    ensures { tiles.new ≡ with_tile tiles.old place tile }
{
    if is_on_board(place) {
        let index = (usize::from(place.y) - 1) * COLUMNS + (usize::from(place.x) - 1);
        tiles[index] = tile;
    }
}

/// The lowest stat with this column and row.
fn lowest_at(stats: &[Stat], place: Place) -> Option<usize>
    ensures { result ≡ stat_at stats.now place }
{
    stats
        .iter()
        .position(|a| a.place.x == place.x && a.place.y == place.y)
}

impl Scene {
    /// A board on which no stat acts yet, and nothing was said. There are ten flags, of at most 20 bytes each; stats name their programs by number.
    pub fn new(
        alloc: Global,
        tiles: [Tile; TILES],
        stats: Seq<Stat>,
        programs: Seq<Bytes>,
        counters: Counters,
        flags: Seq<Bytes>,
    ) -> Scene
        requires { length flags ≡ 10 }
        ensures result { result ≡ record { tiles = tiles; stats = stats; programs = programs; counters = counters; flags = flags; ticking = 0; acting = None; running = None; scrolls = [] } }
    {
        Scene {
            tiles,
            stats,
            programs,
            counters,
            flags,
            ticking: 0,
            acting: None,
            running: None,
            scrolls: Seq::new(alloc),
        }
    }

    /// The tiles, row after row.
    pub fn tiles(&self) -> &[Tile; TILES]
        ensures result { result.now ≡ self.now.tiles }
    {
        &self.tiles
    }

    /// The stats, the player first.
    pub fn stats(&self) -> &[Stat]
        ensures result { result.now ≡ self.now.stats }
    {
        self.stats.as_slice()
    }

    /// The programs, by their numbers.
    pub fn programs(&self) -> &[Bytes]
        ensures result { result.now ≡ self.now.programs }
    {
        self.programs.as_slice()
    }

    pub fn counters(&self) -> Counters
        ensures result { result ≡ self.now.counters }
    {
        self.counters
    }

    /// The ten flags.
    pub fn flags(&self) -> &[Bytes]
        ensures result { result.now ≡ self.now.flags }
        ensures within { length self.now.flags ≡ 10 }
    {
        self.flags.as_slice()
    }

    /// The number of the stat that a step looks at. If a stat at or below it is removed, it gets
    /// one less.
    pub fn ticking(&self) -> usize
        ensures result { result ≡ self.now.ticking }
    {
        self.ticking
    }

    /// The number of the stat that acts, or None once it is gone.
    pub fn acting(&self) -> Option<usize>
        ensures result { result ≡ self.now.acting }
    {
        self.acting
    }

    /// The number of the stat whose program has its turn, or had it last. None if no program had a
    /// turn yet, or if the stat is gone.
    pub fn running(&self) -> Option<usize>
        ensures result { result ≡ self.now.running }
    {
        self.running
    }

    pub fn set_counters(&mut self, counters: Counters)
        ensures result { self.new ≡ record self.old { counters = counters } }
    {
        self.counters = counters;
    }

    pub fn set_ticking(&mut self, i: usize)
        ensures result { self.new ≡ record self.old { ticking = i } }
    {
        self.ticking = i;
    }

    pub fn set_acting(&mut self, i: Option<usize>)
        ensures result { self.new ≡ record self.old { acting = i } }
    {
        self.acting = i;
    }

    /// Lets the program of stat i have its turn; a stat that isn't there has none.
    pub fn set_running(&mut self, i: usize)
        ensures result { self.new ≡ record self.old { running = there self.old i } }
    {
        self.running = if i < self.stats.as_slice().len() {
            Some(i)
        } else {
            None
        };
    }

    /// The tile at a place; outside the table it is element 1.
    pub fn tile(&self, place: Place) -> Tile
        ensures result { result ≡ tile_at self.now.tiles place }
    {
        tile_in(&self.tiles, place)
    }

    /// The element at a place; without a place it is element 1.
    pub fn element(&self, place: Option<Place>) -> u8
        ensures result { result ≡ element_ahead self.now place }
    {
        match place {
            Some(place) => self.tile(place).element,
            None => EDGE.element,
        }
    }

    /// Puts a tile at a place; outside the table nothing is written.
    pub fn put(&mut self, place: Place, tile: Tile)
        ensures result { self.new ≡ put place tile self.old }
    {
        put_in(&mut self.tiles, place, tile);
    }

    /// The lowest stat with this column and row.
    pub fn stat_at(&self, place: Place) -> Option<usize>
        ensures result { result ≡ stat_at self.now.stats place }
    {
        lowest_at(self.stats.as_slice(), place)
    }

    /// A stat.
    pub fn stat(&self, i: usize) -> Option<Stat>
        ensures result { result ≡ slice_get self.now.stats i }
    {
        self.stats.as_slice().get(i).copied()
    }

    /// A stat, lent: nothing is copied.
    pub fn stat_ref(&self, i: usize) -> Option<&Stat>
        ensures result { option_copied result ≡ slice_get self.now.stats i }
    {
        self.stats.as_slice().get(i)
    }

    /// Changes a stat. If there is no stat with this number, nothing changes.
    pub fn put_stat(&mut self, i: usize, stat: Stat)
        ensures result { self.new ≡ put_stat i stat self.old }
    {
        if i < self.stats.as_slice().len() {
            self.stats.set(i, stat);
        }
    }

    /// The stat that acts.
    pub fn acting_stat(&self) -> Option<Stat>
        ensures result { result ≡ acting_stat self.now }
    {
        match self.acting {
            Some(i) => self.stat(i),
            None => None,
        }
    }

    /// Changes the stat that acts.
    pub fn put_acting_stat(&mut self, stat: Stat)
        ensures result { self.new ≡ put_acting_stat stat self.old }
    {
        if let Some(i) = self.acting {
            self.put_stat(i, stat);
        }
    }

    /// The stat whose program has its turn.
    pub fn running_stat(&self) -> Option<Stat>
        ensures result { result ≡ running_stat self.now }
    {
        match self.running {
            Some(i) => self.stat(i),
            None => None,
        }
    }

    /// The stat whose program has its turn, lent: nothing is copied.
    pub fn running_stat_ref(&self) -> Option<&Stat>
        ensures result { option_copied result ≡ running_stat self.now }
    {
        match self.running {
            Some(i) => self.stat_ref(i),
            None => None,
        }
    }

    /// Changes the stat whose program has its turn.
    pub fn put_running_stat(&mut self, stat: Stat)
        ensures result { self.new ≡ put_running_stat stat self.old }
    {
        if let Some(i) = self.running {
            self.put_stat(i, stat);
        }
    }
}
