//! Objects.
ghost use Rattle.std.specs.Prelude.{◌≡◌};
ghost use Rattle.zed_scene.specs.Trying.{is_nowhere};
ghost use Rattle.zed_play.specs.Game.{Answers};
ghost use Rattle.zed_play.specs.Objects.{ObjectDoes, bumps, drifted, thuds};

use crate::acts::moves;
use crate::bullets::OBJECT;
use crate::game::Game;
use crate::scrolls::Voice;
use std::alloc::Global;
use zed_oop::{Scene, SceneError, Step, Words, ahead, is_walkable, send_alone};
use zed_types::Place;

/// Tells the stat that acts that it bumped into something.
fn thud(scene: &mut Scene)
    ensures { scene.new ≡ thuds scene.old }
{
    if let Some(i) = scene.acting() {
        send_alone(scene, i, b"THUD");
    }
}

fn bump(scene: &mut Scene, to: Option<Place>)
    ensures { scene.new ≡ bumps to scene.old }
{
    match to {
        None => thud(scene),
        Some(to) => {
            if is_walkable(scene.tile(to).element) {
                moves(scene, to);
            } else {
                thud(scene);
            }
        }
    }
}

fn is_nowhere(step: Step) -> bool
    ensures { result ≡ is_nowhere step }
{
    step.x == 0 && step.y == 0
}

impl Game {
    /// The stat that acts goes along its step, if it still is an object.
    fn drift(&mut self)
        ensures { self.new ≡ drifted self.old }
    {
        let scene = &mut self.scene;
        if let Some(stat) = scene.acting_stat() {
            if scene.tile(stat.place).element == OBJECT && !is_nowhere(stat.step) {
                bump(scene, ahead(stat.place, stat.step));
            }
        }
    }

    /// An object has a turn of its program, unless that has ended, and goes along its step.
    pub(crate) fn act_as_object(
        &mut self,
        alloc: Global,
        position: Option<usize>,
        i: usize,
        words: &mut Words,
    ) -> Result<(), SceneError>
        ensures { Answers result (ObjectDoes position i self.old words.old) self.new words.new }
    {
        match position {
            None => {
                self.drift();
                Ok(())
            }
            Some(_) => {
                self.have_turn(alloc, Voice::Object, i, words)?;
                self.drift();
                Ok(())
            }
        }
    }
}
