//! Stats that move, and what they push.
ghost use Rattle.std.specs.Prelude.{◌≡◌};
ghost use Rattle.zed_scene.specs.Moving.{carried, cleared, is_crushable, is_destructible, is_pushable, pushed, pushed_by, pushed_onto, shift, is_walkable};

use crate::elements::PLAYER;
use crate::scene::Scene;
use crate::step::{Step, ahead};
use zed_types::{Place, Push, Tile, element};

/// More steps than lead from any place of the table to its border.
const REACH: u8 = 60;

/// Whether an element may be walked on.
#[tactic(auto, unfolding(crate::specs::Moving::is_walkable))]
pub fn is_walkable(n: u8) -> bool
    ensures result { result ≡ is_walkable n }
{
    element(n).walkable
}

/// Whether an element can be destroyed.
#[tactic(auto, unfolding(crate::specs::Moving::is_destructible))]
pub fn is_destructible(n: u8) -> bool
    ensures result { result ≡ is_destructible n }
{
    element(n).destructible
}

/// Whether an element gives way along a step.
#[tactic(auto, unfolding(crate::specs::Moving::is_pushable))]
fn is_pushable(n: u8, step: Step) -> bool
    ensures { result ≡ is_pushable n step }
{
    match element(n).push {
        Push::Not => false,
        Push::Any => true,
        Push::NorthSouth => step.x == 0,
        Push::EastWest => step.y == 0,
    }
}

/// Whether what is pushed against destroys an element.
fn is_crushable(n: u8) -> bool
    ensures { result ≡ is_crushable n }
{
    !is_walkable(n) && is_destructible(n) && n != PLAYER
}

impl Scene {
    /// Moves a stat to a place, with its tile.
    pub fn shift(&mut self, i: usize, to: Place)
        ensures result { self.new ≡ shift i to self.old }
    {
        if let Some(stat) = self.stat(i) {
            let tile = self.tile(stat.place);
            let mut moved = stat;
            moved.place = to;
            moved.under = self.tile(to);
            self.put(to, tile);
            self.put(stat.place, stat.under);
            self.put_stat(i, moved);
        }
    }

    /// Moves what is at a place to another, with its stat if it has one.
    fn carry(&mut self, from: Place, to: Place)
        ensures { self.new ≡ carried from to self.old }
    {
        match self.stat_at(from) {
            Some(i) => self.shift(i, to),
            None => {
                let tile = self.tile(from);
                self.put(to, tile);
                self.put(from, Tile::EMPTY);
            }
        }
    }

    /// Destroys what is at a place, if a push destroys it.
    fn clear(&mut self, place: Place)
        ensures { self.new ≡ cleared place self.old }
    {
        if is_crushable(self.tile(place).element) {
            self.damage(place);
        }
    }

    #[tactic(auto, unfolding(crate::specs::Moving::pushed_onto))]
    /// What was pushed goes on to the next place if it may.
    fn push_onto(&mut self, from: Place, to: Place)
        ensures { self.new ≡ pushed_onto from to self.old }
    {
        self.clear(to);
        if is_walkable(self.tile(to).element) {
            self.carry(from, to);
        }
    }

    fn push_within(&mut self, reach: u8, place: Place, step: Step)
        ensures { self.new ≡ pushed_by reach place step self.old }
    {
        if reach == 0 || !is_pushable(self.tile(place).element, step) {
            return;
        }
        if let Some(next) = ahead(place, step) {
            if self.tile(next).element == 0 {
                self.push_onto(place, next);
            } else {
                self.push_within(reach - 1, next, step);
                self.push_onto(place, next);
            }
        }
    }

    #[tactic(auto, unfolding(crate::specs::Moving::pushed))]
    /// Pushes what is at a place along a step, and before it what is in the way. The step isn't (0,0).
    pub fn push(&mut self, place: Place, step: Step)
        ensures result { self.new ≡ pushed place step self.old }
    {
        self.push_within(REACH, place, step);
    }
}
