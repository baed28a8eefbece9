//! What each command does.
ghost use Rattle.std.specs.Prelude.{◌≡◌, ◌&&◌, Err, Some, nat_le, pos, if◌then◌else◌};
ghost use Rattle.zed_scene.specs.Trying.{try_move};
ghost use Rattle.zed_oop.specs.Acting.{with_cycle, with_p1};
ghost use Rattle.zed_oop.specs.Effect.{EffectTakes, Performs, Plays, ShotTakes, along, bound_or_skip, done_along, change, effect, after_go, known_or_error, messaged, messaged_or_error, or_command, put_kind, shoots, skips, after_try};
ghost use Rattle.zed_oop.specs.Holding.{given, taken_from};
ghost use Rattle.zed_oop.specs.Making.{became, bound};
ghost use Rattle.zed_scene.specs.Removing.{with_health};
ghost use Rattle.zed_oop.specs.Sending.{has_colon, sent};
ghost use Rattle.zed_oop.specs.declared.acting.Next.TheVariants.{SkipAndEnd};
ghost use Rattle.zed_oop_syntax.specs.declared.commands.OopCommand.TheVariants.{If};

use crate::acting::{Next, set_cycle, set_p1, set_p2, set_position, set_step};
use crate::holding::{give, take};
use crate::leading::led;
use crate::making::{become_kind, bind, convert, put_ahead};
use crate::programs::{Relabelling, relabel_all};
use crate::sending::send;
use crate::testing::holds;
use std::alloc::Global;
use zed_oop_syntax::{Counter, Heading, OopCommand, Query, TileKind};
use zed_scene::{Counters, Scene, SceneError, Shooter, Stat, Step, Words};
use zed_types::Place;

/// Nothing at all, of any colour.
const EMPTY: TileKind = TileKind {
    colour: None,
    element: 0,
};

/// A command that has a direction and is no shot.
#[derive(Clone, Copy)]
enum Motion {
    Go,
    Try,
    Walk,
    Put(Option<TileKind>),
}

fn finish_go(scene: &mut Scene, start: usize, from: Place, step: Step) -> Next
    ensures { after_go start (try_move from step scene.old) ≡ (result, scene.new) }
{
    if scene.try_move(from, step) {
        Next::SkipAndEnd
    } else {
        set_position(scene, Some(start));
        Next::End
    }
}

fn finish_try(scene: &mut Scene, from: Place, step: Step) -> Next
    ensures { after_try (try_move from step scene.old) ≡ (result, scene.new) }
{
    if scene.try_move(from, step) {
        Next::SkipAndEnd
    } else {
        Next::Command
    }
}

fn finish_put(scene: &mut Scene, from: Place, kind: Option<TileKind>, step: Step) -> Next
    ensures { put_kind from kind step scene.old ≡ (result, scene.new) }
{
    match kind {
        Some(kind) => {
            put_ahead(scene, from, step, kind);
            Next::Skip
        }
        None => Next::Error,
    }
}

/// What such a command does along a step.
fn go_along(scene: &mut Scene, motion: Motion, start: usize, stat: Stat, step: Step) -> Next
    ensures { done_along motion start stat step scene.old ≡ (result, scene.new) }
{
    match motion {
        Motion::Go => finish_go(scene, start, stat.place, step),
        Motion::Try => finish_try(scene, stat.place, step),
        Motion::Walk => {
            set_step(scene, step);
            Next::Skip
        }
        Motion::Put(kind) => finish_put(scene, stat.place, kind, step),
    }
}

/// Does a command that has a direction and is no shot.
fn do_along(
    scene: &mut Scene,
    heading: &Heading,
    motion: Motion,
    start: usize,
    stat: Stat,
    words: &mut Words,
) -> Result<Next, SceneError>
    ensures { Plays result scene.new words.new
        (along heading.now (λ d t. done_along motion start stat d t) stat scene.old words.old) }
{
    match led(scene, heading, stat, words)? {
        Some(step) => Ok(go_along(scene, motion, start, stat, step)),
        None => Ok(Next::Error),
    }
}

/// Shoots. Memory only for a bullet that is added.
fn do_shoot(
    scene: &mut Scene,
    heading: &Heading,
    stat: Stat,
    words: &mut Words,
) -> Result<Next, SceneError>
    ensures result { Performs result scene.new words.new
        (along heading.now (shoots stat) stat scene.old words.old) }
    ensures memory_only_when { result ≡ Err SceneError.Memory
        → ShotTakes heading.now stat scene.old words.old }
{
    match led(scene, heading, stat, words) {
        Ok(Some(step)) => {
            let _shot = scene.shoot(stat.place, step, Shooter::Creature)?;
            Ok(Next::SkipAndEnd)
        }
        Ok(None) => Ok(Next::Error),
        Err(error) => Err(error),
    }
}

#[tactic(auto, unfolding(crate::specs::Effect::effect))]
fn do_if(
    scene: &mut Scene,
    query: &Query,
    start: usize,
    stat: Stat,
    words: &mut Words,
) -> Result<Next, SceneError>
    ensures { Plays result scene.new words.new
        (effect (If query.now) start stat scene.old words.old) }
{
    match holds(scene, query, stat, words)? {
        Some(truth) => {
            if truth {
                Ok(Next::Command)
            } else {
                Ok(Next::Skip)
            }
        }
        None => Ok(Next::Error),
    }
}

fn do_give(scene: &mut Scene, counter: Option<Counter>, value: u16) -> Next
    ensures { known_or_error (λ c t. skips (given c value t)) counter scene.old
        ≡ (result, scene.new) }
{
    match counter {
        Some(counter) => {
            give(scene, counter, value);
            Next::Skip
        }
        None => Next::Error,
    }
}

fn do_take(scene: &mut Scene, counter: Option<Counter>, value: u16) -> Next
    ensures { known_or_error (λ c t. or_command (taken_from c value t)) counter scene.old
        ≡ (result, scene.new) }
{
    match counter {
        Some(counter) => {
            if take(scene, counter, value) {
                Next::Skip
            } else {
                Next::Command
            }
        }
        None => Next::Error,
    }
}

fn do_become(scene: &mut Scene, kind: Option<TileKind>, place: Place) -> Next
    ensures { known_or_error (λ j t. (SkipAndEnd, became j place t)) kind scene.old
        ≡ (result, scene.new) }
{
    match kind {
        Some(kind) => {
            become_kind(scene, kind, place);
            Next::SkipAndEnd
        }
        None => Next::Error,
    }
}

fn do_change(scene: &mut Scene, first: Option<TileKind>, second: Option<TileKind>) -> Next
    ensures { change first second scene.old ≡ (result, scene.new) }
{
    match first {
        Some(first) => match second {
            Some(second) => {
                convert(scene, first, second);
                Next::Skip
            }
            None => Next::Error,
        },
        None => Next::Error,
    }
}

fn do_cycle(scene: &mut Scene, value: u16)
    ensures { scene.new ≡ (if nat_le 1 value then with_cycle value scene.old else scene.old) }
{
    if 1 <= value {
        set_cycle(scene, value);
    }
}

fn do_char(scene: &mut Scene, value: u16)
    ensures { scene.new
        ≡ (if nat_le 1 value && nat_le value 255 then with_p1 value scene.old else scene.old) }
{
    if 1 <= value && value <= 255 {
        set_p1(scene, value as u8);
    }
}

fn end_game(scene: &mut Scene)
    ensures { scene.new ≡ with_health (pos 0) scene.old }
{
    let counters = scene.counters();
    scene.set_counters(Counters {
        health: 0,
        ..counters
    });
}

fn do_send(scene: &mut Scene, word: &[u8]) -> Next
    ensures { messaged (sent word.now scene.old) ≡ (result, scene.new) }
{
    if send(scene, word) {
        Next::Stay
    } else {
        Next::Skip
    }
}

fn do_other(scene: &mut Scene, word: &[u8]) -> Next
    ensures { messaged_or_error (has_colon word.now) (sent word.now scene.old)
        ≡ (result, scene.new) }
{
    if send(scene, word) {
        Next::Stay
    } else if has_colon(word) {
        Next::Skip
    } else {
        Next::Error
    }
}

fn do_bind(scene: &mut Scene, word: &[u8]) -> Next
    ensures { bound_or_skip (bound word.now scene.old) ≡ (result, scene.new) }
{
    if bind(scene, word) {
        Next::Stay
    } else {
        Next::Skip
    }
}

/// Does the command that began with the `#` at `start`, for the stat whose turn it is. Memory only for a bullet, and for a word
/// that changes a flag.
#[tactic(auto, unfolding(crate::specs::Effect::effect))]
pub(crate) fn perform(
    scene: &mut Scene,
    alloc: Global,
    command: &OopCommand,
    start: usize,
    stat: Stat,
    words: &mut Words,
) -> Result<Next, SceneError>
    ensures result { Performs result scene.new words.new
        (effect command.now start stat scene.old words.old) }
    ensures memory_only_when { result ≡ Err SceneError.Memory
        → EffectTakes command.now stat scene.old words.old }
{
    match command {
        OopCommand::Go(heading) => do_along(scene, heading, Motion::Go, start, stat, words),
        OopCommand::Try(heading) => do_along(scene, heading, Motion::Try, start, stat, words),
        OopCommand::Walk(heading) => do_along(scene, heading, Motion::Walk, start, stat, words),
        OopCommand::Shoot(heading) => do_shoot(scene, heading, stat, words),
        OopCommand::Put(heading, kind) => {
            do_along(scene, heading, Motion::Put(*kind), start, stat, words)
        }
        OopCommand::If(query) => do_if(scene, query, start, stat, words),
        OopCommand::Set(word) => {
            scene.set_flag(alloc, word.as_slice())?;
            Ok(Next::Skip)
        }
        OopCommand::Clear(word) => {
            scene.clear_flag(alloc, word.as_slice());
            Ok(Next::Skip)
        }
        OopCommand::Give(counter, value) => Ok(do_give(scene, *counter, *value)),
        OopCommand::Take(counter, value) => Ok(do_take(scene, *counter, *value)),
        OopCommand::Send(word) => Ok(do_send(scene, word.as_slice())),
        OopCommand::Zap(word) => {
            relabel_all(scene, alloc, Relabelling::Hide, word.as_slice());
            Ok(Next::Skip)
        }
        OopCommand::Restore(word) => {
            relabel_all(scene, alloc, Relabelling::Show, word.as_slice());
            Ok(Next::Skip)
        }
        OopCommand::Bind(word) => Ok(do_bind(scene, word.as_slice())),
        OopCommand::Other(word) => Ok(do_other(scene, word.as_slice())),
        OopCommand::End => {
            set_position(scene, None);
            Ok(Next::End)
        }
        OopCommand::EndGame => {
            end_game(scene);
            Ok(Next::Skip)
        }
        OopCommand::Idle => Ok(Next::SkipAndEnd),
        OopCommand::Restart => {
            set_position(scene, Some(0));
            Ok(Next::Stay)
        }
        OopCommand::Lock => {
            set_p2(scene, 1);
            Ok(Next::Skip)
        }
        OopCommand::Unlock => {
            set_p2(scene, 0);
            Ok(Next::Skip)
        }
        OopCommand::Die => {
            become_kind(scene, EMPTY, stat.place);
            Ok(Next::SkipAndEnd)
        }
        OopCommand::Nothing => Ok(Next::Skip),
        OopCommand::Become(kind) => Ok(do_become(scene, *kind, stat.place)),
        OopCommand::Change(first, second) => Ok(do_change(scene, *first, *second)),
        OopCommand::Cycle(value) => {
            do_cycle(scene, *value);
            Ok(Next::Skip)
        }
        OopCommand::Char(value) => {
            do_char(scene, *value);
            Ok(Next::Skip)
        }
    }
}

/// Whether a word has a target.
fn has_colon(word: &[u8]) -> bool
    ensures { result ≡ has_colon word.now }
{
    word.iter().any(|b| *b == b':')
}
