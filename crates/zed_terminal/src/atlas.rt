//! The boards over which a playtest goes on, which are handed in.
ghost use Rattle.std.specs.Prelude.{◌≡◌, Option, IfOk, OnErr, is_some, true};
ghost use Rattle.zed_terminal.specs.Course.{reached};

use std::alloc::{AllocError, Global};
use zed_play::{Play, Way};

/// The boards over which a playtest goes on, or none.
pub trait Atlas {
    ghost use Rattle.zed_world.specs.Contents.{Contents};

    /// The world that they are of; or that playtests don't go on.
    ghost world: { Self → Option Contents };

    /// The playtest that goes on where the player of one left for a board by a way; or None, where
    /// there is no such board, or playtests don't go on. Only a growth that is refused makes it an
    /// error, and only where there is such a board.
    fn enter(
        &self,
        alloc: Global,
        from: &Play,
        board: u8,
        way: Way,
    ) -> Result<Option<Play>, AllocError>
        ensures result { IfOk result (λ next. next ≡ reached (world self.now) board way from.now) }
        ensures memory_only_when { OnErr result
            (is_some (reached (world self.now) board way from.now) ≡ true) };
}
