//! Terminals and sources of chance, which are handed in.
ghost use Rattle.std.specs.Prelude.{◌≡◌, ℕ, Bool, List, Option, IfOk, OnErr, OnOk, false, is_err, is_some};
ghost use Rattle.zed_host.specs.Counting.{Counts};
ghost use Rattle.zed_terminal.specs.Terminals.{Foretold};
ghost use Rattle.zed_terminal.specs.Devices.{Brings, drawing, once_more};

use crate::DeviceFailed;

/// A terminal, on which texts are drawn one after the other. It shows them apart from what stood there
/// before the first one, until it is left.
pub trait Terminal: Drop {
    /// Whether what is drawn is still shown.
    ghost is_entered: { Self → Bool };

    /// How often it was left; or that this isn't told.
    ghost times_left: { Self → Option ℕ };

    /// The texts that were drawn, in their order; or that this isn't told.
    ghost drawn: { Self → Option (List (List ℕ)) };

    /// How many calls of `draw` failed.
    ghost draw_failures: { Self → ℕ };

    /// Which of the calls of `draw` to come fail, one after the other, and none behind these; or
    /// that this isn't told.
    ghost draws_foretell: { Self → Option (List Bool) };

    /// Draws a text, in one piece. Where that fails, part of it may be drawn.
    fn draw(&mut self, text: &[u8]) -> Result<(), DeviceFailed>
        ensures ok { OnOk result (drawn self.new ≡ drawing text.now (drawn self.old)) }
        ensures err { OnErr result (is_some (drawn self.new) ≡ is_some (drawn self.old)) }
        ensures left { times_left self.new ≡ times_left self.old }
        ensures failures { Counts (is_err result) (draw_failures self.old) (draw_failures self.new) }
        ensures foretold { Foretold (is_err result)
            (draws_foretell self.old) (draws_foretell self.new) };

    /// Shows what stood there before the first text again. What can't be told any more isn't.
    fn leave(&mut self)
        ensures left { is_entered self.new ≡ false }
        ensures once { times_left self.new ≡ once_more (times_left self.old) }
        ensures drawn { drawn self.new ≡ drawn self.old }
        ensures failures { draw_failures self.new ≡ draw_failures self.old }
        ensures foretold { draws_foretell self.new ≡ draws_foretell self.old };

    /// How many calls of `draw` failed, up to the greatest `u64`.
    fn failures(&self) -> u64
        ensures { result ≡ draw_failures self.now };
}

/// A source of chance, from which words come.
pub trait Chance: Drop {
    /// The words that are to come; or that these aren't told.
    ghost to_come: { Self → Option (List ℕ) };

    /// How many calls of `more` failed.
    ghost chance_failures: { Self → ℕ };

    /// The next words. Where that fails, none is taken.
    fn more(&mut self) -> Result<[u16; 32], DeviceFailed>
        ensures ok { IfOk result (λ words. Brings words (to_come self.old) (to_come self.new)) }
        ensures err { OnErr result (to_come self.new ≡ to_come self.old) }
        ensures failures { Counts (is_err result)
            (chance_failures self.old) (chance_failures self.new) };

    /// How many calls of `more` failed, up to the greatest `u64`.
    fn failures(&self) -> u64
        ensures { result ≡ chance_failures self.now };
}
