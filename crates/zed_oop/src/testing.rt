//! Whether conditions hold.
ghost use Rattle.std.specs.Prelude.{◌≡◌};
ghost use Rattle.zed_oop.specs.Testing.{holds, is_any, is_aligned, is_in_contact, is_way_blocked, tested};
ghost use Rattle.zed_scene.specs.Words.{Draws};

use crate::leading::led;
use zed_oop_syntax::{Query, Test, TileKind};
use zed_scene::{Scene, SceneError, Stat, Step, Words, ahead, apart, has_flag, is_walkable};
use zed_types::{Place, Tile};

fn is_aligned(a: Place, b: Place) -> bool
    ensures { result ≡ is_aligned a b }
{
    a.x == b.x || a.y == b.y
}

fn is_in_contact(a: Place, b: Place) -> bool
    ensures { result ≡ is_in_contact a b }
{
    u16::from(apart(a.x, b.x)) + u16::from(apart(a.y, b.y)) == 1
}

fn is_any(kind: TileKind, tiles: &[Tile]) -> bool
    ensures { result ≡ is_any kind tiles.now }
{
    tiles.iter().any(|t| kind.matches(*t))
}

/// Whether what is ahead can't be walked on; None without a step.
fn is_way_blocked(scene: &Scene, stat: Stat, step: Option<Step>) -> Option<bool>
    ensures { result ≡ is_way_blocked stat scene.now step }
{
    match step {
        Some(step) => Some(!is_walkable(scene.element(ahead(stat.place, step)))),
        None => None,
    }
}

#[tactic(auto, unfolding(crate::specs::Testing::blocked))]
/// Whether a test holds, any NOT aside; None if it has a direction or a kind that doesn't exist.
fn tested(
    scene: &Scene,
    test: &Test,
    stat: Stat,
    words: &mut Words,
) -> Result<Option<bool>, SceneError>
    ensures { Draws result words.new (tested test.now stat scene.now words.old) }
{
    match test {
        Test::Aligned => Ok(Some(is_aligned(stat.place, scene.player_place(stat.place)))),
        Test::Contact => Ok(Some(is_in_contact(stat.place, scene.player_place(stat.place)))),
        Test::Blocked(heading) => {
            let step = led(scene, heading, stat, words)?;
            Ok(is_way_blocked(scene, stat, step))
        }
        Test::Any(kind) => match kind {
            Some(kind) => Ok(Some(is_any(*kind, scene.tiles()))),
            None => Ok(None),
        },
        Test::Energized => Ok(Some(false)),
        Test::Flag(word) => Ok(Some(has_flag(scene.flags(), word.as_slice()))),
    }
}

#[tactic(auto, unfolding(crate::specs::Testing::holds))]
/// Whether a condition holds for a stat; None if it has a direction or a kind that doesn't exist.
pub fn holds(
    scene: &Scene,
    query: &Query,
    stat: Stat,
    words: &mut Words,
) -> Result<Option<bool>, SceneError>
    ensures result { Draws result words.new (holds query.now stat scene.now words.old) }
{
    match tested(scene, &query.test, stat, words)? {
        Some(truth) => Ok(Some(truth != query.negated)),
        None => Ok(None),
    }
}
