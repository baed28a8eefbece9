//! How the stat whose program has its turn moves.
ghost use Rattle.std.specs.Prelude.{◌≡◌};
ghost use Rattle.zed_scene.specs.Trying.{try_move, walk_on, way_made};

use crate::moving::is_walkable;
use crate::scene::Scene;
use crate::step::{Step, ahead};
use zed_types::Place;

impl Scene {
    /// Pushes what can't be walked on.
    pub fn make_way(&mut self, to: Place, step: Step)
        ensures result { self.new ≡ way_made to step self.old }
    {
        if !is_walkable(self.tile(to).element) {
            self.push(to, step);
        }
    }

    /// Moves the stat whose program has its turn on to the next place if it may.
    fn walk_on(&mut self, to: Place) -> bool
        ensures { walk_on to self.old ≡ (result, self.new) }
    {
        if !is_walkable(self.tile(to).element) {
            return false;
        }
        if let Some(i) = self.running {
            self.shift(i, to);
        }
        true
    }

    #[tactic(auto, unfolding(crate::specs::Trying::try_move))]
    /// Moves the stat whose program has its turn along a step, pushing what is ahead, and answers
    /// whether it did. A step of (0,0) always does.
    pub fn try_move(&mut self, from: Place, step: Step) -> bool
        ensures result { try_move from step self.old ≡ (result, self.new) }
    {
        if step.x == 0 && step.y == 0 {
            return true;
        }
        match ahead(from, step) {
            None => false,
            Some(to) => {
                self.make_way(to, step);
                self.walk_on(to)
            }
        }
    }
}
