//! What the stat that ticks does.
ghost use Rattle.std.specs.Prelude.{◌≡◌};
ghost use Rattle.zed_play.specs.Acts.{attacks, moves};

use zed_oop::Scene;
use zed_types::Place;

/// Moves the stat that acts, if it is still there.
pub(crate) fn moves(scene: &mut Scene, to: Place)
    ensures { scene.new ≡ moves to scene.old }
{
    if let Some(i) = scene.acting() {
        scene.shift(i, to);
    }
}

/// The stat that acts attacks a place, if it is still there.
pub(crate) fn attacks(scene: &mut Scene, at: Place)
    ensures { scene.new ≡ attacks at scene.old }
{
    if let Some(i) = scene.acting() {
        scene.attack(i, at);
    }
}
