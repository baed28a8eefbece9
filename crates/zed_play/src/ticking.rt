//! A tick of one stat.
ghost use Rattle.std.specs.Prelude.{◌≡◌};
ghost use Rattle.zed_play.specs.Game.{Answers};
ghost use Rattle.zed_play.specs.Tick.{LooksAt, TickAs, is_due};

use crate::bullets::fly;
use crate::creatures::{act_as_bear, act_as_lion, act_as_tiger};
use crate::game::Game;
use crate::key::Asked;
use crate::piece::{Piece, piece_of};
use crate::pushers::press;
use std::alloc::Global;
use zed_oop::{SceneError, Stat, Words};

/// Whether a stat of this number and cycle ticks.
fn is_due(tick: u16, i: usize, cycle: u16) -> bool
    ensures { result ≡ is_due tick i cycle }
{
    // One of cycle 1 ticks each time, which takes no division.
    cycle == 1 || (cycle != 0 && usize::from(tick) % usize::from(cycle) == i % usize::from(cycle))
}

impl Game {
    fn tick_as(
        &mut self,
        alloc: Global,
        piece: Piece,
        asked: Asked,
        i: usize,
        stat: Stat,
        words: &mut Words,
    ) -> Result<(), SceneError>
        ensures { Answers result (TickAs piece asked i stat self.old words.old) self.new words.new }
    {
        match piece {
            Piece::Player => self.act_as_player(
                alloc,
                asked.intent,
                asked.bounds,
                stat.place,
                words,
            ),
            Piece::Bullet => {
                fly(&mut self.scene, stat);
                Ok(())
            }
            Piece::Lion => act_as_lion(&mut self.scene, stat, words),
            Piece::Tiger => act_as_tiger(&mut self.scene, stat, words),
            Piece::Bear => {
                act_as_bear(&mut self.scene, stat);
                Ok(())
            }
            Piece::Pusher => {
                press(&mut self.scene, stat);
                Ok(())
            }
            Piece::Object => self.act_as_object(alloc, stat.position, i, words),
            _ => Ok(()),
        }
    }

    /// Looks at a stat, which acts where it ticks.
    pub(crate) fn look_at(
        &mut self,
        alloc: Global,
        asked: Asked,
        i: usize,
        stat: Stat,
        words: &mut Words,
    ) -> Result<(), SceneError>
        ensures { Answers result (LooksAt asked i stat self.old words.old) self.new words.new }
    {
        if !is_due(asked.tick, i, stat.cycle) {
            return Ok(());
        }
        let piece = piece_of(self.scene.tile(stat.place).element);
        self.scene.set_acting(Some(i));
        self.tick_as(alloc, piece, asked, i, stat, words)
    }
}
