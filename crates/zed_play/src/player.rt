//! The player.
ghost use Rattle.std.specs.Prelude.{◌≡◌, OnOk};
ghost use Rattle.zed_play.specs.Game.{Answers};
ghost use Rattle.zed_play.specs.Player.{GoesTo, PlayerDoes, fires, flying, goes_out, spent, walks};

use crate::acts::moves;
use crate::game::Game;
use crate::key::{Bounds, Intent, step_to};
use std::alloc::{AllocError, Global};
use zed_oop::{BULLET, Counter, Scene, SceneError, Shooter, Step, Words, ahead, is_walkable, take};
use zed_types::{Place, Side};

/// How many bullets of the player fly.
fn flying(scene: &Scene) -> usize
    ensures { result ≡ flying scene.now }
{
    scene
        .stats()
        .iter()
        .filter(|a| a.p1 == 0 && scene.tile(a.place).element == BULLET)
        .count()
}

/// Takes ammo where a shot didn't fail.
fn spend(scene: &mut Scene, shot: bool)
    ensures { scene.new ≡ spent (shot, scene.old) }
{
    if shot {
        take(scene, Counter::Ammo, 1);
    }
}

/// Shoots, which takes ammo where it doesn't fail.
fn fire(scene: &mut Scene, max_shots: u8, from: Place, step: Step) -> Result<(), AllocError>
    ensures { OnOk result (scene.new ≡ fires max_shots from step scene.old) }
{
    if scene.counters().ammo > 0 && flying(scene) < usize::from(max_shots) {
        let shot = scene.shoot(from, step, Shooter::Player)?;
        spend(scene, shot);
    }
    Ok(())
}

impl Game {
    fn go_out(&mut self, exit: u8)
        ensures { self.new ≡ goes_out exit self.old }
    {
        if exit != 0 {
            self.leave(exit);
        }
    }

    /// The player goes on to a place, if it is where it was and may.
    fn walk(&mut self, from: Place, to: Place)
        ensures { self.new ≡ walks from to self.old }
    {
        let scene = &mut self.scene;
        if let Some(stat) = scene.acting_stat() {
            if stat.place.x == from.x
                && stat.place.y == from.y
                && is_walkable(scene.tile(to).element)
            {
                moves(scene, to);
            }
        }
    }

    fn go_to(
        &mut self,
        alloc: Global,
        to: Option<Place>,
        side: Side,
        bounds: Bounds,
        from: Place,
        words: &mut Words,
    ) -> Result<(), SceneError>
        ensures { Answers result
            (GoesTo to side bounds from self.old words.old) self.new words.new }
    {
        match to {
            None => {
                self.go_out(bounds.exit(side));
                Ok(())
            }
            Some(to) => {
                self.touch(alloc, to, step_to(side), words)?;
                self.walk(from, to);
                Ok(())
            }
        }
    }

    /// The player does what the key asks for.
    pub(crate) fn act_as_player(
        &mut self,
        alloc: Global,
        intent: Intent,
        bounds: Bounds,
        from: Place,
        words: &mut Words,
    ) -> Result<(), SceneError>
        ensures { Answers result
            (PlayerDoes intent bounds from self.old words.old) self.new words.new }
    {
        match intent {
            Intent::Nothing => Ok(()),
            Intent::Shoots(side) => {
                fire(&mut self.scene, bounds.max_shots, from, step_to(side))?;
                Ok(())
            }
            Intent::Goes(side) => {
                self.go_to(alloc, ahead(from, step_to(side)), side, bounds, from, words)
            }
        }
    }
}
