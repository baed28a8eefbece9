//! A playtest that is drawn, and then played to its end.
ghost use Rattle.std.specs.Prelude.{◌≡◌, Err, MatchResult, Ok};
ghost use Rattle.zed_host.specs.Counting.{Counts};
ghost use Rattle.zed_terminal.specs.Course.{point};
ghost use Rattle.zed_terminal.specs.Devices.{chances};
ghost use Rattle.zed_terminal.specs.Errors.{is_key_fault, is_screen_fault};
ghost use Rattle.zed_terminal.specs.Performing.{Performs, at_start};
ghost use Rattle.zed_terminal.specs.Stage.{stage};

use crate::atlas::Atlas;
use crate::devices::{Chance, Terminal};
use crate::error::TurnError;
use crate::tape::Tape;
use crate::turns::{play_on, show};
use crate::{Inputs, Size};
use std::alloc::Global;
use zed_play::Play;

/// Draws a playtest before its first step on a terminal of a size, and plays it on: with words of
/// chance that came already before those of the source.
///
/// # Errors
/// ScreenFault where the terminal fails at once, and those of `play_on`.
pub fn play_from<A: Atlas, T: Terminal, I: Inputs, C: Chance>(
    alloc: Global,
    atlas: &A,
    play: Play,
    words: Vec<u16>,
    size: Size,
    terminal: &mut T,
    inputs: &mut I,
    chance: &mut C,
) -> Result<Tape, TurnError>
    ensures performs { let before = stage (T.drawn terminal.old) (T.draws_foretell terminal.old)
        (I.left inputs.old) (I.inputs_foretell inputs.old)
        (chances (C.to_come chance.old) (C.chance_failures chance.old)) in
        let after = stage (T.drawn terminal.new) (T.draws_foretell terminal.new)
        (I.left inputs.new) (I.inputs_foretell inputs.new)
        (chances (C.to_come chance.new) (C.chance_failures chance.new)) in
        MatchResult result
        (λ tape. Performs (A.world atlas.now) (at_start size play words.items) before after (Ok (point tape)))
        (λ e. Performs (A.world atlas.now) (at_start size play words.items) before after (Err e)) }
    ensures key_faults { Counts (is_key_fault result)
        (I.input_failures inputs.old) (I.input_failures inputs.new) }
    ensures screen_faults { Counts (is_screen_fault result)
        (T.draw_failures terminal.old) (T.draw_failures terminal.new) }
    ensures left { T.times_left terminal.new ≡ T.times_left terminal.old }
{
    let mut tape = Tape::new(play, words, size);
    show(alloc, &tape, terminal)?;
    play_on(alloc, atlas, &mut tape, terminal, inputs, chance)?;
    Ok(tape)
}
