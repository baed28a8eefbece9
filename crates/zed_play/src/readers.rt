//! What a playtest shows.
ghost use Rattle.std.specs.Prelude.{◌≡◌};

use crate::ending::Ending;
use crate::messages::Messages;
use crate::play::Play;
use zed_oop::{Counters, Scene};

/// What the player carries.
#[derive(Clone, Copy)]
pub struct Carried {
    /// The six counters that programs give and take.
    pub counters: Counters,
    /// Which of the seven keys are held.
    pub keys: [bool; 7],
}

impl Play {
    /// How the playtest ended, or None if it goes on.
    pub fn ending(&self) -> Option<Ending>
        ensures result { result ≡ self.now.ending }
    {
        self.ending
    }

    /// The last 64 message lines, oldest first.
    pub fn messages(&self) -> &Messages
        ensures result { result.now ≡ self.now.game.messages }
    {
        &self.game.messages
    }

    /// What the player carries.
    pub fn counters(&self) -> Carried
        ensures counters { result.counters ≡ self.now.game.scene.counters }
        ensures keys { result.keys ≡ self.now.game.keys }
    {
        Carried {
            counters: self.game.scene.counters(),
            keys: self.game.keys,
        }
    }

    /// The board in play.
    pub fn board(&self) -> &Scene
        ensures result { result.now ≡ self.now.game.scene }
    {
        &self.game.scene
    }

    /// The tick of the next step: 1 to 420, if the playtest began at such a tick.
    pub fn tick(&self) -> u16
        ensures result { result ≡ self.now.tick }
    {
        self.tick
    }
}
