//! Words of chance.
ghost use Rattle.std.specs.Prelude.{◌≡◌, ◌<◌, length, drop};
ghost use Rattle.zed_scene.specs.declared.error.SceneError.TheVariants.{NoWords};
ghost use Rattle.zed_scene.specs.Words.{Draws, draw};

use crate::error::SceneError;
use std::marker::Model;

/// The words of chance that are left.
#[derive(Drop)]
pub struct Words<'a> {
    left: &'a [u16],
}

impl<'a> Model for Words<'a> {
    ghost use Rattle.std.specs.Prelude.{ℕ, List};

    ghost Value = { List ℕ };

    ghost view = { λ w. w.left.now };
}

impl<'a> Words<'a> {
    pub fn new(words: &'a [u16]) -> Words<'a>
        ensures result { result ≡ words.now }
    {
        Words { left: words }
    }

    /// How many are left.
    pub fn left(&self) -> usize
        ensures result { result ≡ length self.now }
    {
        self.left.len()
    }

    /// A number below n: the next word, mod n.
    pub fn random(&mut self, n: u16) -> Result<u16, SceneError>
        requires { 0 < n }
        ensures result { Draws result self.new (draw n self.old) }
    {
        match self.left.split_first() {
            Some((word, rest)) => {
                let number = *word % n;
                self.left = rest;
                Ok(number)
            }
            None => Err(SceneError::NoWords),
        }
    }
}
