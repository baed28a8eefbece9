//! A playtest.
ghost use Rattle.std.specs.Prelude.{◌≡◌, Err, None, IfOk};
ghost use Rattle.zed_play.specs.Game.{Answers};
ghost use Rattle.zed_play.specs.Playtest.{IsTick};
ghost use Rattle.zed_play.specs.Step.{Looks, Steps, asked, closed_with, from_first, next_tick, refused};

use crate::ending::{Ending, ending_by};
use crate::error::PlayError;
use crate::game::Game;
use crate::key::{Asked, Bounds, Key};
use std::alloc::{AllocError, Global};
use std::marker::Model;
use zed_oop::{SceneError, Words};

/// A playtest of one board. Contracts see the board in play, what bounds the player there, the tick of the next step, and how the
/// playtest ended, if it did.
#[derive(Drop)]
pub struct Play {
    pub(crate) alloc: Global,
    pub(crate) game: Game,
    /// The board on which the next step is made. First it becomes equal to the one in play; if the
    /// step is done, the two change places. So a step that isn't done leaves the board in play as
    /// it was, and no step copies all of it.
    spare: Game,
    pub(crate) bounds: Bounds,
    pub(crate) tick: u16,
    pub(crate) ending: Option<Ending>,
}

impl Model for Play {
    ghost use Rattle.zed_play.specs.Playtest.{Playtest};

    ghost Value = { Playtest };

    ghost view = { λ p. record { game = p.game; bounds = p.bounds; tick = p.tick; ending = p.ending } };
}

fn next_tick(tick: u16) -> u16
    ensures result { result ≡ next_tick tick }
{
    if 420 <= tick { 1 } else { tick + 1 }
}

/// Lets a board become another one after the looks of a step.
fn step_on(
    alloc: Global,
    game: &mut Game,
    before: &Game,
    asked: Asked,
    words: &mut Words,
) -> Result<(), SceneError>
    ensures result { Answers result
        (Looks asked 1024 (from_first before.now) words.old) game.new words.new }
{
    game.copy_from(alloc, before)?;
    game.scene.set_ticking(0);
    game.scene.close_scrolls(alloc);
    game.look_on(alloc, asked, words)
}

impl Play {
    /// A playtest before its first step on a board, which may have ended already.
    pub(crate) fn begin(
        alloc: Global,
        game: Game,
        bounds: Bounds,
        tick: u16,
        ending: Option<Ending>,
    ) -> Result<Play, AllocError>
        ensures result { IfOk result (λ p. p
            ≡ record { game = game; bounds = bounds; tick = tick; ending = ending }) }
    {
        let spare = game.copy(alloc)?;
        Ok(Play {
            alloc,
            game,
            spare,
            bounds,
            tick,
            ending,
        })
    }

    fn asked(&self, key: Key) -> Asked
        ensures result { result ≡ asked key self.now }
    {
        Asked {
            tick: self.tick,
            intent: key.intent(),
            bounds: self.bounds,
        }
    }

    /// Ends a step that came to the board in play.
    fn close(&mut self)
        ensures { self.new ≡ closed_with self.old.game self.old }
    {
        self.ending = ending_by(self.game.left, self.game.scene.counters().health);
        self.tick = next_tick(self.tick);
    }

    /// The refusal of a step: NoWords, with nothing changed, or Memory, after which the playtest
    /// has failed.
    fn refuse(&mut self, error: SceneError) -> PlayError
        ensures { refused error self.old ≡ (result, self.new) }
    {
        match error {
            SceneError::NoWords => PlayError::NoWords,
            SceneError::Memory => {
                self.ending = Some(Ending::Failed);
                PlayError::Memory
            }
        }
    }

    /// Makes a step by a key, and answers how many words of chance it used. Refusals, in order:
    /// Over if the playtest has ended; NoWords if the step needs more words; Memory. The first two
    /// change nothing. After Memory the playtest has ended as failed.
    pub fn step(&mut self, key: Key, words: &[u16]) -> Result<usize, PlayError>
        ensures result { Steps result key self.old words.now self.new }
        ensures within { IsTick self.old.tick → IsTick self.new.tick }
        ensures memory_only_when { result ≡ Err PlayError.Memory → self.old.ending ≡ None }
    {
        if self.ending.is_some() {
            return Err(PlayError::Over);
        }
        let mut left = Words::new(words);
        let asked = self.asked(key);
        match step_on(self.alloc, &mut self.spare, &self.game, asked, &mut left) {
            Ok(()) => {
                std::mem::swap(&mut self.game, &mut self.spare);
                self.close();
                Ok(words.len().saturating_sub(left.left()))
            }
            Err(error) => Err(self.refuse(error)),
        }
    }
}
