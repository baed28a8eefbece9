//! The looks at the stats of a board, one after the other.
ghost use Rattle.std.specs.Prelude.{◌≡◌};
ghost use Rattle.zed_play.specs.Game.{Answers};
ghost use Rattle.zed_play.specs.Step.{Looks, LooksOn, looked_at, next};

use crate::game::Game;
use crate::key::Asked;
use std::alloc::Global;
use zed_oop::{SceneError, Stat, Words};

/// Looks at stats in a step at most.
const LOOKS: u16 = 1024;

impl Game {
    /// On to the next stat.
    fn go_next(&mut self)
        ensures { self.new ≡ next self.old }
    {
        let i = self.scene.ticking();
        if i < self.scene.stats().len() {
            self.scene.set_ticking(i + 1);
        }
    }

    /// The stat to be looked at.
    fn looked_at(&self) -> Option<Stat>
        ensures { result ≡ looked_at self.now }
    {
        self.scene.stat(self.scene.ticking())
    }

    /// Looks at one stat, and tells whether there is one.
    fn look(&mut self, alloc: Global, asked: Asked, words: &mut Words) -> Result<bool, SceneError>
        ensures { LooksOn result asked self.old words.old self.new words.new }
    {
        let i = self.scene.ticking();
        match self.looked_at() {
            None => Ok(false),
            Some(stat) => {
                match self.look_at(alloc, asked, i, stat, words) {
                    Ok(()) => {
                        self.go_next();
                        Ok(true)
                    }
                    Err(error) => Err(error),
                }
            }
        }
    }

    /// Looks at all stats.
    pub(crate) fn look_on(
        &mut self,
        alloc: Global,
        asked: Asked,
        words: &mut Words,
    ) -> Result<(), SceneError>
        ensures { Answers result (Looks asked 1024 self.old words.old) self.new words.new }
    {
        let mut looks = LOOKS;
        while looks > 0 {
            looks -= 1;
            match self.look(alloc, asked, words) {
                Ok(true) => {}
                Ok(false) => return Ok(()),
                Err(error) => return Err(error),
            }
        }
        Ok(())
    }
}
