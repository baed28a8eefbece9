//! Pushers.
ghost use Rattle.std.specs.Prelude.{◌≡◌};
ghost use Rattle.zed_play.specs.Pushers.{goes, is_direction, presses, pusher};

use crate::acts::moves;
use zed_oop::{Scene, Stat, Step, ahead, is_walkable};
use zed_types::Place;

/// Whether a step is north, south, west or east.
fn is_direction(step: Step) -> bool
    ensures { result ≡ is_direction step }
{
    (step.x == 0 && (step.y == 1 || step.y == -1)) || (step.y == 0 && (step.x == 1 || step.x == -1))
}

/// The stat that acts goes where it may.
pub(crate) fn goes(scene: &mut Scene, to: Place)
    ensures { scene.new ≡ goes to scene.old }
{
    if is_walkable(scene.tile(to).element) {
        moves(scene, to);
    }
}

fn press_on(scene: &mut Scene, step: Step, to: Option<Place>)
    ensures { scene.new ≡ presses step to scene.old }
{
    if let Some(to) = to {
        scene.make_way(to, step);
        goes(scene, to);
    }
}

/// A pusher pushes what is ahead and goes on.
#[tactic(auto, unfolding(crate::specs::Pushers::pusher))]
pub(crate) fn press(scene: &mut Scene, stat: Stat)
    ensures { scene.new ≡ pusher stat scene.old }
{
    if is_direction(stat.step) {
        press_on(scene, stat.step, ahead(stat.place, stat.step));
    }
}
