//! Stats that are taken away, and the numbers that others have then.
ghost use Rattle.std.specs.Prelude.{◌≡◌, map};
ghost use Rattle.zed_scene.specs.Removing.{after_removal, attack, damage, damage_stat, followed, hurt, remove_stat, renumbered, one_less};

use crate::scene::Scene;
use crate::scroll::Scroll;
use crate::stat::Stat;
use zed_types::{Place, Tile};

/// The number of a stat after another is removed; None where it is that one.
fn after_removal(i: usize, n: usize) -> Option<usize>
    ensures { result ≡ after_removal i n }
{
    if n == i {
        None
    } else if i < n {
        Some(n - 1)
    } else {
        Some(n)
    }
}

fn named_after_removal(i: usize, n: Option<usize>) -> Option<usize>
    ensures { result ≡ one_less i n }
{
    match n {
        Some(n) => after_removal(i, n),
        None => None,
    }
}

fn renumber_one(a: &mut Stat, i: usize)
    ensures { a.new ≡ renumbered i a.old }
{
    a.follower = named_after_removal(i, a.follower);
    a.leader = named_after_removal(i, a.leader);
}

/// Gives each stat the numbers that its follower and leader have after one is removed.
fn renumber(stats: &mut [Stat], i: usize)
    ensures { stats.new ≡ map (renumbered i) stats.old }
{
    for a in stats.iter_mut() {
        renumber_one(a, i);
    }
}

fn follow_one(scroll: &mut Scroll, i: usize)
    ensures { scroll.new ≡ followed i scroll.old }
{
    scroll.speaker = named_after_removal(i, scroll.speaker);
}

/// Gives each scroll the number that its speaker has after a stat is removed.
fn follow(scrolls: &mut [Scroll], i: usize)
    ensures { scrolls.new ≡ map (followed i) scrolls.old }
{
    for scroll in scrolls.iter_mut() {
        follow_one(scroll, i);
    }
}

impl Scene {
    /// Takes a stat away, unless it is the player. What was underneath comes to its place, and the
    /// later stats move down by one.
    pub fn remove(&mut self, i: usize)
        ensures result { self.new ≡ remove_stat i self.old }
    {
        if i == 0 {
            return;
        }
        if let Some(gone) = self.stat(i) {
            self.stats.remove(i);
            renumber(self.stats.as_mut_slice(), i);
            follow(self.scrolls.as_mut_slice(), i);
            self.put(gone.place, gone.under);
            if i <= self.ticking {
                self.ticking -= 1;
            }
            self.acting = named_after_removal(i, self.acting);
            self.running = named_after_removal(i, self.running);
        }
    }

    /// Health falls by 10, not below 0.
    pub fn hurt(&mut self)
        ensures result { self.new ≡ hurt self.old }
    {
        let health = self.counters.health;
        self.counters.health = if health > 10 { health - 10 } else { 0 };
    }

    /// Hurts the player, or takes another stat away.
    fn damage_stat(&mut self, i: usize)
        ensures { self.new ≡ damage_stat i self.old }
    {
        match i {
            0 => self.hurt(),
            _ => self.remove(i),
        }
    }

    /// Damages the lowest stat at a place, or clears a place without one.
    pub fn damage(&mut self, place: Place)
        ensures result { self.new ≡ damage place self.old }
    {
        match self.stat_at(place) {
            None => self.put(place, Tile::EMPTY),
            Some(i) => self.damage_stat(i),
        }
    }

    /// A stat attacks what is at a place: both are damaged.
    pub fn attack(&mut self, i: usize, place: Place)
        ensures result { self.new ≡ attack i place self.old }
    {
        self.damage_stat(i);
        self.damage(place);
    }
}
