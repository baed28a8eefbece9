//! Where directions lead.
ghost use Rattle.std.specs.Prelude.{◌≡◌};
ghost use Rattle.zed_oop.specs.Leading.{course_led, led, north_or_east, turned, turned_all};
ghost use Rattle.zed_scene.specs.Words.{Draws};

use zed_oop_syntax::{Course, Heading, Turning};
use zed_scene::{
    Scene, SceneError, Stat, Step, Words, clockwise, counter_clockwise, opposite, random_step,
    up_or_down,
};

/// A step, turned.
fn turned(turning: Turning, step: Step, words: &mut Words) -> Result<Step, SceneError>
    ensures { Draws result words.new (turned turning step words.old) }
{
    match turning {
        Turning::Clockwise => Ok(clockwise(step)),
        Turning::CounterClockwise => Ok(counter_clockwise(step)),
        Turning::Opposite => Ok(opposite(step)),
        Turning::Sideways => {
            if words.random(2)? == 0 {
                Ok(clockwise(step))
            } else {
                Ok(counter_clockwise(step))
            }
        }
    }
}

fn north_or_east(words: &mut Words) -> Result<Step, SceneError>
    ensures { Draws result words.new (north_or_east words.old) }
{
    if words.random(2)? == 0 {
        Ok(Step::NORTH)
    } else {
        Ok(Step::EAST)
    }
}

/// Where a direction without turns leads.
fn course_led(
    scene: &Scene,
    course: Course,
    stat: Stat,
    words: &mut Words,
) -> Result<Step, SceneError>
    ensures { Draws result words.new (course_led course stat scene.now words.old) }
{
    match course {
        Course::North => Ok(Step::NORTH),
        Course::South => Ok(Step::SOUTH),
        Course::East => Ok(Step::EAST),
        Course::West => Ok(Step::WEST),
        Course::Idle => Ok(Step::NONE),
        Course::Flow => Ok(stat.step),
        Course::Seek => scene.seek(stat.place, words),
        Course::Random => random_step(words),
        Course::RandomNorthOrSouth => up_or_down(words),
        Course::RandomNorthOrEast => north_or_east(words),
    }
}

#[tactic(auto, unfolding(crate::specs::Leading::led))]
/// Where a direction of the program of a stat leads: the last turn is made first. None, and no word
/// is used, if it is no direction; NoWords if it needs a number and no word is left.
pub fn led(
    scene: &Scene,
    heading: &Heading,
    stat: Stat,
    words: &mut Words,
) -> Result<Option<Step>, SceneError>
    ensures result { Draws result words.new
        (led heading.now.turns heading.now.course stat scene.now words.old) }
{
    match heading.course {
        Some(course) => {
            let first = course_led(scene, course, stat, words)?;
            let step = turned_all(heading.turns.as_slice(), first, words)?;
            Ok(Some(step))
        }
        None => Ok(None),
    }
}

/// A step, turned by all turnings, the last of them first.
fn turned_all(turns: &[Turning], step: Step, words: &mut Words) -> Result<Step, SceneError>
    ensures { Draws result words.new (turned_all turns.now step words.old) }
{
    let mut step = step;
    let mut i = turns.len();
    while i > 0 {
        i -= 1;
        match turned(turns[i], step, words) {
            Ok(next) => step = next,
            Err(error) => return Err(error),
        }
    }
    Ok(step)
}
