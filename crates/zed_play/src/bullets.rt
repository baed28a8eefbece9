//! Bullets.
ghost use Rattle.std.specs.Prelude.{◌≡◌};
ghost use Rattle.zed_play.specs.Bullets.{bullet, flies, is_struck, meets, taken_away, tells, turned_back, vanishes};

use crate::acts::{attacks, moves};
use zed_oop::{
    BREAKABLE, PLAYER, Scene, Stat, WATER, ahead, is_destructible, is_walkable, opposite,
    send_alone,
};
use zed_types::Place;

const RICOCHET: u8 = 32;

pub(crate) const OBJECT: u8 = 36;

/// Sends a label to the lowest stat at a place.
pub(crate) fn tell(scene: &mut Scene, label: &[u8], at: Place)
    ensures { scene.new ≡ tells label.now at scene.old }
{
    if let Some(i) = scene.stat_at(at) {
        send_alone(scene, i, label);
    }
}

/// Takes a stat away, if it is still there.
pub(crate) fn take_away(scene: &mut Scene, stat: Option<usize>)
    ensures { scene.new ≡ taken_away stat scene.old }
{
    if let Some(i) = stat {
        scene.remove(i);
    }
}

/// Takes the stat that acts away.
fn vanish(scene: &mut Scene)
    ensures { scene.new ≡ vanishes scene.old }
{
    take_away(scene, scene.acting());
}

/// Whether a bullet destroys an element.
fn is_struck(p1: u8, n: u8) -> bool
    ensures { result ≡ is_struck p1 n }
{
    n == BREAKABLE || (is_destructible(n) && (n == PLAYER || p1 == 0))
}

fn meet(scene: &mut Scene, p1: u8, at: Place)
    ensures { scene.new ≡ meets p1 at scene.old }
{
    let there = scene.tile(at).element;
    if is_walkable(there) || there == WATER {
        moves(scene, at);
    } else if is_struck(p1, there) {
        attacks(scene, at);
    } else if there == OBJECT {
        vanish(scene);
        tell(scene, b"SHOT", at);
    } else {
        vanish(scene);
    }
}

fn fly_to(scene: &mut Scene, p1: u8, to: Option<Place>)
    ensures { scene.new ≡ flies p1 to scene.old }
{
    match to {
        Some(to) => meet(scene, p1, to),
        None => vanish(scene),
    }
}

fn turned_back(stat: Stat) -> Stat
    ensures { result ≡ turned_back stat }
{
    Stat {
        step: opposite(stat.step),
        ..stat
    }
}

/// A bullet flies on, or hits what is ahead.
#[tactic(auto, unfolding(crate::specs::Bullets::bullet))]
pub(crate) fn fly(scene: &mut Scene, stat: Stat)
    ensures { scene.new ≡ bullet stat scene.old }
{
    let to = ahead(stat.place, stat.step);
    if scene.element(to) == RICOCHET {
        scene.put_acting_stat(turned_back(stat));
        fly_to(scene, stat.p1, ahead(stat.place, opposite(stat.step)));
    } else {
        fly_to(scene, stat.p1, to);
    }
}
