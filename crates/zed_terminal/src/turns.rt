//! A playtest played turn by turn, each drawn.
ghost use Rattle.std.specs.Prelude.{◌≡◌, ◌≢◌, ◌⊎◌, ◌≤◌, Err, IfErr, IfOk, None, OnErr, OnOk, false, length, true};
ghost use Rattle.zed_host.specs.Counting.{Counts};
ghost use Rattle.zed_terminal.specs.Terminals.{Foretold, Takes};
ghost use Rattle.zed_terminal.specs.Course.{PlaysOn, Turns, course, picture, point};
ghost use Rattle.zed_terminal.specs.Devices.{chances};
ghost use Rattle.zed_terminal.specs.Errors.{is_key_fault, is_screen_fault};
ghost use Rattle.zed_terminal.specs.Stage.{Draws, stage};

use crate::atlas::Atlas;
use crate::devices::{Chance, Terminal};
use crate::error::TurnError;
use crate::tape::Tape;
use crate::{DeviceFailed, Input, Inputs, staged};
use std::alloc::Global;

/// The most turns of one playtest.
const MOST_TURNS: u32 = 1_048_576;

/// What is typed next.
fn next_input<I: Inputs>(inputs: &mut I) -> Result<Option<Input>, TurnError>
    ensures ok { IfOk result (λ input. Takes input (I.left inputs.old) (I.left inputs.new)) }
    ensures kept { OnErr result (I.left inputs.new ≡ I.left inputs.old) }
    ensures err { IfErr result (λ e. e ≡ TurnError.KeyFault) }
    ensures failures { Counts (is_key_fault result)
        (I.input_failures inputs.old) (I.input_failures inputs.new) }
    ensures foretold { Foretold (is_key_fault result)
        (I.inputs_foretell inputs.old) (I.inputs_foretell inputs.new) }
{
    match inputs.next() {
        Ok(input) => Ok(input),
        Err(DeviceFailed) => Err(TurnError::KeyFault),
    }
}

/// Draws a text.
fn draw<T: Terminal>(terminal: &mut T, text: &[u8]) -> Result<(), TurnError>
    ensures ok { OnOk result (Draws false text.now
        (T.drawn terminal.old) (T.draws_foretell terminal.old)
        (T.drawn terminal.new) (T.draws_foretell terminal.new)) }
    ensures err { IfErr result (λ e. (e ≡ TurnError.ScreenFault)
        × Foretold true (T.draws_foretell terminal.old) (T.draws_foretell terminal.new)) }
    ensures failures { Counts (is_screen_fault result)
        (T.draw_failures terminal.old) (T.draw_failures terminal.new) }
    ensures left { T.times_left terminal.new ≡ T.times_left terminal.old }
{
    match terminal.draw(text) {
        Ok(()) => Ok(()),
        Err(DeviceFailed) => Err(TurnError::ScreenFault),
    }
}

/// Draws a playtest on its terminal.
pub(crate) fn show<T: Terminal>(
    alloc: Global,
    tape: &Tape,
    terminal: &mut T,
) -> Result<(), TurnError>
    ensures ok { OnOk result (Draws false (picture (point tape.now))
        (T.drawn terminal.old) (T.draws_foretell terminal.old)
        (T.drawn terminal.new) (T.draws_foretell terminal.new)) }
    ensures err { IfErr result (λ e. ((e ≡ TurnError.Memory) × (terminal.new ≡ terminal.old))
        ⊎ ((e ≡ TurnError.ScreenFault)
        × Foretold true (T.draws_foretell terminal.old) (T.draws_foretell terminal.new))) }
    ensures failures { Counts (is_screen_fault result)
        (T.draw_failures terminal.old) (T.draw_failures terminal.new) }
    ensures left { T.times_left terminal.new ≡ T.times_left terminal.old }
{
    let text = staged(alloc, tape)?;
    draw(terminal, text.as_slice())
}

/// Answers what is typed next, and draws what comes of it; whether there was anything.
fn turn<A: Atlas, T: Terminal, I: Inputs, C: Chance>(
    alloc: Global,
    atlas: &A,
    tape: &mut Tape,
    terminal: &mut T,
    inputs: &mut I,
    chance: &mut C,
) -> Result<bool, TurnError>
    requires within { tape.old.used ≤ length tape.old.words.items }
    ensures turns { Turns (A.world atlas.now) result
        (course (point tape.old) (stage (T.drawn terminal.old) (T.draws_foretell terminal.old)
        (I.left inputs.old) (I.inputs_foretell inputs.old)
        (chances (C.to_come chance.old) (C.chance_failures chance.old))))
        (course (point tape.new) (stage (T.drawn terminal.new) (T.draws_foretell terminal.new)
        (I.left inputs.new) (I.inputs_foretell inputs.new)
        (chances (C.to_come chance.new) (C.chance_failures chance.new)))) }
    ensures key_faults { Counts (is_key_fault result)
        (I.input_failures inputs.old) (I.input_failures inputs.new) }
    ensures screen_faults { Counts (is_screen_fault result)
        (T.draw_failures terminal.old) (T.draw_failures terminal.new) }
    ensures calm { (result ≢ Err TurnError.NoWords)
        → C.chance_failures chance.new ≡ C.chance_failures chance.old }
    ensures within { tape.new.used ≤ length tape.new.words.items }
    ensures left { T.times_left terminal.new ≡ T.times_left terminal.old }
{
    let Some(input) = next_input(inputs)? else {
        return Ok(false);
    };
    tape.answer(alloc, atlas, chance, input)?;
    show(alloc, tape, terminal)?;
    Ok(true)
}

/// Plays on, turn by turn, to the end of the playtest or of what is typed, and as long as what was said
/// is shown. A turn is a key, which makes a step, or is read where a scroll is open; a choice that was
/// kept; or another size of the terminal. What comes of each is drawn.
///
/// # Errors
/// KeyFault where the source of what is typed fails; NoWords where the source of chance fails, or brings
/// 131,072 words that are too few for one step; ScreenFault where the terminal fails, with a turn made
/// that isn't drawn; TooManyTurns where 1,048,576 turns didn't end the playtest; and Memory.
pub fn play_on<A: Atlas, T: Terminal, I: Inputs, C: Chance>(
    alloc: Global,
    atlas: &A,
    tape: &mut Tape,
    terminal: &mut T,
    inputs: &mut I,
    chance: &mut C,
) -> Result<(), TurnError>
    requires within { tape.old.used ≤ length tape.old.words.items }
    ensures plays { PlaysOn (A.world atlas.now)
        (course (point tape.old) (stage (T.drawn terminal.old) (T.draws_foretell terminal.old)
        (I.left inputs.old) (I.inputs_foretell inputs.old)
        (chances (C.to_come chance.old) (C.chance_failures chance.old))))
        (course (point tape.new) (stage (T.drawn terminal.new) (T.draws_foretell terminal.new)
        (I.left inputs.new) (I.inputs_foretell inputs.new)
        (chances (C.to_come chance.new) (C.chance_failures chance.new)))) result }
    ensures key_faults { Counts (is_key_fault result)
        (I.input_failures inputs.old) (I.input_failures inputs.new) }
    ensures screen_faults { Counts (is_screen_fault result)
        (T.draw_failures terminal.old) (T.draw_failures terminal.new) }
    ensures calm { (result ≢ Err TurnError.NoWords)
        → C.chance_failures chance.new ≡ C.chance_failures chance.old }
    ensures within { tape.new.used ≤ length tape.new.words.items }
    ensures left { T.times_left terminal.new ≡ T.times_left terminal.old }
{
    for _ in 0..MOST_TURNS {
        if tape.is_over() {
            return Ok(());
        }
        if !turn(alloc, atlas, tape, terminal, inputs, chance)? {
            return Ok(());
        }
    }
    if tape.is_over() {
        Ok(())
    } else {
        Err(TurnError::TooManyTurns)
    }
}
