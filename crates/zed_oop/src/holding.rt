//! Counters, and what is given to them and taken from them.
ghost use Rattle.std.specs.Prelude.{◌≡◌};
ghost use Rattle.zed_oop.specs.Holding.{added, given, in_counter, taken, taken_from, with_counter};

use zed_oop_syntax::Counter;
use zed_scene::{Counters, Scene};

fn in_counter(counters: Counters, counter: Counter) -> i16
    ensures { result ≡ in_counter counter counters }
{
    match counter {
        Counter::Health => counters.health,
        Counter::Ammo => counters.ammo,
        Counter::Gems => counters.gems,
        Counter::Torches => counters.torches,
        Counter::Score => counters.score,
        Counter::Time => counters.time,
    }
}

fn with_counter(counters: Counters, counter: Counter, n: i16) -> Counters
    ensures { result ≡ with_counter counter n counters }
{
    let mut changed = counters;
    match counter {
        Counter::Health => changed.health = n,
        Counter::Ammo => changed.ammo = n,
        Counter::Gems => changed.gems = n,
        Counter::Torches => changed.torches = n,
        Counter::Score => changed.score = n,
        Counter::Time => changed.time = n,
    }
    changed
}

/// A counter with a value more, which stops at 32,767.
fn added(n: i16, value: u16) -> i16
    ensures { result ≡ added n value }
{
    let sum = i32::from(n) + i32::from(value);
    if sum > 32767 { 32767 } else { sum as i16 }
}

/// A counter with a value less, or None if there isn't so much.
fn taken(n: i16, value: u16) -> Option<i16>
    ensures { result ≡ taken n value }
{
    let rest = i32::from(n) - i32::from(value);
    if rest < 0 { None } else { Some(rest as i16) }
}

/// Gives a value to a counter, which stops at 32,767.
pub fn give(scene: &mut Scene, counter: Counter, value: u16)
    ensures result { scene.new ≡ given counter value scene.old }
{
    let counters = scene.counters();
    let n = in_counter(counters, counter);
    scene.set_counters(with_counter(counters, counter, added(n, value)));
}

/// Takes a value from a counter, and answers whether there was so much. If not, nothing is taken.
pub fn take(scene: &mut Scene, counter: Counter, value: u16) -> bool
    ensures result { taken_from counter value scene.old ≡ (result, scene.new) }
{
    let counters = scene.counters();
    match taken(in_counter(counters, counter), value) {
        Some(rest) => {
            scene.set_counters(with_counter(counters, counter, rest));
            true
        }
        None => false,
    }
}
