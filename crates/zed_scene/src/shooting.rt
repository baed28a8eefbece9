//! Bullets.
ghost use Rattle.std.specs.Prelude.{◌≡◌, OnErr, IfOk, true};
ghost use Rattle.zed_scene.specs.Places.{ahead};
ghost use Rattle.zed_scene.specs.Shooting.{bullet, is_hit, lets_fly, p1_of, shot};

use crate::elements::{BREAKABLE, BULLET, PLAYER, WATER};
use crate::moving::{is_destructible, is_walkable};
use crate::scene::Scene;
use crate::stat::Stat;
use crate::step::{Step, ahead};
use std::alloc::AllocError;
use zed_types::{Place, Tile};

/// Who shoots.
#[derive(Clone, Copy, PartialEq, Eq)]
pub enum Shooter {
    Player,
    Creature,
}

/// A bullet that flies.
const FLYING: Tile = Tile {
    element: BULLET,
    colour: 0x0F,
};

/// Stats of a board at most, the player among them.
const STATS: usize = 151;

fn p1_of(shooter: Shooter) -> u8
    ensures { result ≡ p1_of shooter }
{
    match shooter {
        Shooter::Player => 0,
        Shooter::Creature => 1,
    }
}

/// Whether a shot hurts an element.
fn is_hit(n: u8, shooter: Shooter) -> bool
    ensures { result ≡ is_hit n shooter }
{
    if n == BREAKABLE {
        return true;
    }
    if !is_destructible(n) {
        return false;
    }
    match shooter {
        Shooter::Player => n != PLAYER,
        Shooter::Creature => n == PLAYER,
    }
}

fn bullet(place: Place, step: Step, shooter: Shooter, under: Tile) -> Stat
    ensures { result ≡ bullet place step shooter under }
{
    Stat {
        place,
        step,
        cycle: 1,
        p1: p1_of(shooter),
        p2: 0,
        p3: 0,
        follower: None,
        leader: None,
        under,
        position: Some(0),
        program: None,
    }
}

impl Scene {
    #[tactic(auto, unfolding(crate::specs::Shooting::shot))]
    /// Shoots from a place along a step, and answers whether that worked: if there is room, a
    /// bullet flies; otherwise what can be hit is damaged.
    pub fn shoot(&mut self, from: Place, step: Step, shooter: Shooter) -> Result<bool, AllocError>
        ensures result { IfOk result (λ done. shot from step shooter self.old ≡ (done, self.new)) }
        ensures kept { OnErr result (self.new ≡ self.old) }
        ensures memory_only_when { OnErr result (lets_fly (ahead from step) self.old ≡ true) }
    {
        let to = match ahead(from, step) {
            Some(to) => to,
            None => return Ok(false),
        };
        let there = self.tile(to);
        if is_walkable(there.element) || there.element == WATER {
            if self.stats.as_slice().len() >= STATS {
                return Ok(false);
            }
            self.stats.push(bullet(to, step, shooter, there))?;
            self.put(to, FLYING);
            return Ok(true);
        }
        if is_hit(there.element, shooter) {
            self.damage(to);
            return Ok(true);
        }
        Ok(false)
    }
}
