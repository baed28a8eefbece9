//! Where stats are in their programs.
ghost use Rattle.std.specs.Prelude.{◌≡◌, MatchOption, slice_get, slice_set};
ghost use Rattle.zed_scene.specs.Scene.{at_position, running_at, running_stat};

use crate::scene::Scene;
use crate::stat::Stat;

/// Puts a stat at a place of its program, or at none.
fn put_position(stats: &mut [Stat], i: usize, position: Option<usize>)
    ensures { MatchOption (slice_get stats.old i) (stats.new ≡ stats.old)
        (λ a. stats.new ≡ slice_set stats.old i (record a { position = position })) }
{
    if i < stats.len() {
        stats[i].position = position;
    }
}

impl Scene {
    /// Puts a stat at a place of its program, or at none. If there is no stat with this number,
    /// nothing changes.
    pub fn set_position(&mut self, i: usize, position: Option<usize>)
        ensures result { self.new ≡ at_position i position (slice_get self.old.stats i) self.old }
    {
        put_position(self.stats.as_mut_slice(), i, position);
    }

    /// Puts the stat whose program has its turn at a place of the program, or at none.
    pub fn set_running_position(&mut self, position: Option<usize>)
        ensures result { self.new ≡ running_at position (running_stat self.old) self.old }
    {
        match self.running {
            Some(i) => self.set_position(i, position),
            None => {}
        }
    }
}
