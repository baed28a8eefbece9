//! Lions, tigers and bears.
ghost use Rattle.std.specs.Prelude.{◌≡◌, IfOk, OnOk};
ghost use Rattle.zed_scene.specs.Words.{Draws};
ghost use Rattle.zed_play.specs.Acts.{Acts, Grows};
ghost use Rattle.zed_play.specs.Creatures.{bear, bear_step, is_felt, is_prey, lion, lion_step, prowls, shot_in_column, shot_in_row, tiger, tiger_fires, tiger_shots, up_to_two};

use crate::acts::{attacks, moves};
use std::alloc::AllocError;
use zed_oop::{
    BREAKABLE, PLAYER, Scene, SceneError, Shooter, Stat, Step, Words, ahead, apart, is_walkable,
    random_step, sign,
};
use zed_types::Place;

fn lion_step(scene: &Scene, stat: Stat, words: &mut Words) -> Result<Step, SceneError>
    ensures { Draws result words.new (lion_step stat scene.now words.old) }
{
    let chance = words.random(10)?;
    if u16::from(stat.p1) < chance {
        random_step(words)
    } else {
        scene.seek(stat.place, words)
    }
}

/// Whether a creature attacks an element: the player, and breakable walls if it breaks them.
fn is_prey(breaks: bool, n: u8) -> bool
    ensures { result ≡ is_prey breaks n }
{
    n == PLAYER || (breaks && n == BREAKABLE)
}

/// The stat that acts goes where it may, and attacks its prey.
fn prowl(scene: &mut Scene, breaks: bool, to: Option<Place>)
    ensures { scene.new ≡ prowls breaks to scene.old }
{
    if let Some(to) = to {
        let there = scene.tile(to).element;
        if is_walkable(there) {
            moves(scene, to);
        } else if is_prey(breaks, there) {
            attacks(scene, to);
        }
    }
}

/// A lion goes towards the player or by chance, and attacks the player.
#[tactic(auto, unfolding(crate::specs::Creatures::lion))]
pub(crate) fn act_as_lion(
    scene: &mut Scene,
    stat: Stat,
    words: &mut Words,
) -> Result<(), SceneError>
    ensures { Acts result scene.new words.new (lion stat scene.old words.old) }
{
    let step = lion_step(scene, stat, words)?;
    prowl(scene, false, ahead(stat.place, step));
    Ok(())
}

fn is_near(a: u8, b: u8) -> bool
    ensures { result ≡ up_to_two a b }
{
    apart(a, b) <= 2
}

fn shoot_in_column(scene: &mut Scene, from: Place, to: Place) -> Result<bool, AllocError>
    ensures { IfOk result (λ done. shot_in_column from to scene.old ≡ (done, scene.new)) }
{
    let step = Step {
        x: 0,
        y: sign(to.y, from.y),
    };
    scene.shoot(from, step, Shooter::Creature)
}

fn shoot_in_row(scene: &mut Scene, from: Place, to: Place) -> Result<bool, AllocError>
    ensures { IfOk result (λ done. shot_in_row from to scene.old ≡ (done, scene.new)) }
{
    let step = Step {
        x: sign(to.x, from.x),
        y: 0,
    };
    scene.shoot(from, step, Shooter::Creature)
}

/// Shoots at the player along a column or a row, where the player is near to it.
#[tactic(auto, unfolding(crate::specs::Creatures::tiger_shots))]
fn tiger_shots(scene: &mut Scene, from: Place, to: Place) -> Result<(), AllocError>
    ensures { OnOk result (scene.new ≡ tiger_shots from to scene.old) }
{
    if is_near(to.x, from.x) {
        let shot = shoot_in_column(scene, from, to)?;
        if shot {
            return Ok(());
        }
    }
    if is_near(to.y, from.y) {
        shoot_in_row(scene, from, to)?;
    }
    Ok(())
}

fn tiger_fires(scene: &mut Scene, chance: u16, stat: Stat) -> Result<(), AllocError>
    ensures { OnOk result (scene.new ≡ tiger_fires chance stat scene.old) }
{
    if u32::from(chance) * 3 <= u32::from(stat.p2 % 128) && stat.p2 < 128 {
        let to = scene.player_place(stat.place);
        tiger_shots(scene, stat.place, to)
    } else {
        Ok(())
    }
}

/// A tiger may shoot at the player, and then does as a lion.
#[tactic(auto, unfolding(crate::specs::Creatures::tiger))]
pub(crate) fn act_as_tiger(
    scene: &mut Scene,
    stat: Stat,
    words: &mut Words,
) -> Result<(), SceneError>
    ensures { Grows result scene.new words.new (tiger stat scene.old words.old) }
{
    let chance = words.random(10)?;
    tiger_fires(scene, chance, stat)?;
    act_as_lion(scene, stat, words)
}

/// Whether two columns, or two rows, differ by no more than a bear feels.
fn is_felt(p1: u8, a: u8, b: u8) -> bool
    ensures { result ≡ is_felt p1 a b }
{
    u16::from(apart(a, b)) + u16::from(p1) <= 8
}

fn bear_step(to: Place, stat: Stat) -> Step
    ensures { result ≡ bear_step to stat }
{
    if to.x != stat.place.x && is_felt(stat.p1, to.y, stat.place.y) {
        Step {
            x: sign(to.x, stat.place.x),
            y: 0,
        }
    } else if is_felt(stat.p1, to.x, stat.place.x) {
        Step {
            x: 0,
            y: sign(to.y, stat.place.y),
        }
    } else {
        Step::NONE
    }
}

/// A bear goes towards the player that it feels, and attacks the player and breakable walls.
#[tactic(auto, unfolding(crate::specs::Creatures::bear))]
pub(crate) fn act_as_bear(scene: &mut Scene, stat: Stat)
    ensures { scene.new ≡ bear stat scene.old }
{
    let to = scene.player_place(stat.place);
    prowl(scene, true, ahead(stat.place, bear_step(to, stat)));
}
