//! A board in play with what a player carries.
ghost use Rattle.std.specs.Prelude.{◌≡◌, IfOk, OnOk};
ghost use Rattle.zed_play.specs.Game.{HasTurn, leaves};

use crate::messages::Messages;
use crate::scrolls::{Voice, program_in, say};
use std::alloc::{AllocError, Global};
use zed_oop::{Scene, SceneError, Words, have_turn};
use zed_types::{Bytes, Seq};

/// A board in play, with what the player carries, and the messages.
#[derive(Drop)]
pub struct Game {
    pub scene: Scene,
    /// Which of the seven keys are held.
    pub keys: [bool; 7],
    /// The board for which the player left.
    pub left: Option<u8>,
    /// The last 64, oldest first.
    pub messages: Messages,
}

pub(crate) fn copy_lines(alloc: Global, lines: &[Bytes]) -> Result<Seq<Bytes>, AllocError>
    ensures { IfOk result (λ c. c ≡ lines.now) }
{
    let mut out = Seq::new(alloc);
    for line in lines {
        out.push(line.copy()?)?;
    }
    Ok(out)
}

impl Game {
    /// An equal one.
    pub(crate) fn copy(&self, alloc: Global) -> Result<Game, AllocError>
        ensures { IfOk result (λ g. g ≡ self.now) }
    {
        let scene = self.scene.copy(alloc)?;
        let messages = self.messages.copy(alloc)?;
        Ok(Game {
            scene,
            keys: self.keys,
            left: self.left,
            messages,
        })
    }

    /// Becomes equal to another.
    pub(crate) fn copy_from(&mut self, alloc: Global, other: &Game) -> Result<(), AllocError>
        ensures { OnOk result (self.new ≡ other.now) }
    {
        self.scene.copy_from(alloc, &other.scene)?;
        self.messages = other.messages.copy(alloc)?;
        self.keys = other.keys;
        self.left = other.left;
        Ok(())
    }

    /// The player leaves for a board, unless that was done before.
    pub(crate) fn leave(&mut self, board: u8)
        ensures { self.new ≡ leaves board self.old }
    {
        if self.left.is_none() {
            self.left = Some(board);
        }
    }

    /// One turn of a stat's program.
    pub(crate) fn have_turn(
        &mut self,
        alloc: Global,
        voice: Voice,
        i: usize,
        words: &mut Words,
    ) -> Result<(), SceneError>
        ensures { HasTurn result voice i self.old words.old self.new words.new }
    {
        let before = program_in(&self.scene, i);
        let lines = have_turn(alloc, &mut self.scene, i, words)?;
        self.messages.push_all(lines.as_slice())?;
        say(alloc, &mut self.scene, voice, before, lines)?;
        Ok(())
    }
}
