//! Steps towards the player, and steps by chance.
ghost use Rattle.zed_scene.specs.Seeking.{player_place, random_step, sought, towards, up_or_down};
ghost use Rattle.std.specs.Prelude.{◌≡◌};
ghost use Rattle.zed_scene.specs.Words.{Draws};

use crate::error::SceneError;
use crate::scene::Scene;
use crate::step::{Step, sign};
use crate::words::Words;
use zed_types::Place;

/// The step from one place towards another: along the columns if `columns` says so or the rows
/// agree, unless the columns agree.
fn towards(from: Place, to: Place, columns: bool) -> Step
    ensures { result ≡ towards from to columns }
{
    let x = if columns || from.y == to.y {
        sign(to.x, from.x)
    } else {
        0
    };
    if x == 0 {
        Step {
            x: 0,
            y: sign(to.y, from.y),
        }
    } else {
        Step { x, y: 0 }
    }
}

impl Scene {
    /// Where the player is, or another place without a player.
    pub fn player_place(&self, other: Place) -> Place
        ensures result { result ≡ player_place self.now other }
    {
        match self.stat(0) {
            Some(player) => player.place,
            None => other,
        }
    }

    /// The step towards the player, which takes a word.
    pub fn seek(&self, from: Place, words: &mut Words) -> Result<Step, SceneError>
        ensures result { Draws result words.new (sought from self.now words.old) }
    {
        let r = words.random(2)?;
        Ok(towards(from, self.player_place(from), r == 0))
    }
}

/// A step in any direction, which takes one word or two.
pub fn random_step(words: &mut Words) -> Result<Step, SceneError>
    ensures result { Draws result words.new (random_step words.old) }
{
    match words.random(3)? {
        0 => Ok(Step::WEST),
        2 => Ok(Step::EAST),
        _ => up_or_down(words),
    }
}

/// A step to the north or the south, which takes a word.
pub fn up_or_down(words: &mut Words) -> Result<Step, SceneError>
    ensures result { Draws result words.new (up_or_down words.old) }
{
    if words.random(2)? == 0 {
        Ok(Step::NORTH)
    } else {
        Ok(Step::SOUTH)
    }
}
