//! Boards of edit files played in place, and kept.
ghost use Rattle.std.specs.Prelude.{[], ◌∷◌, ◌≡◌, ◌++◌, Err, MatchResult, Ok, Some, false};
ghost use Rattle.zed_host.specs.Calls.{Printing};
ghost use Rattle.zed_host.specs.Counting.{Counts, Rose};
ghost use Rattle.zed_host.specs.HostContents.{HostContents};
ghost use Rattle.zed_files.specs.Asked.{refusal_in};
ghost use Rattle.zed_files.specs.Faults.{TellsFailures};
ghost use Rattle.zed_files.specs.Refusals.{is_key_fault, is_screen_fault};
ghost use Rattle.zed_files.specs.Texts.{text_in, texts_of};
ghost use Rattle.zed_terminal.specs.Devices.{once_more};
ghost use Rattle.cmd_play.specs.Asking.{AsksPlay, keeping};
ghost use Rattle.cmd_play.specs.Ending.{EndsKept, EndsPlay, request};
ghost use Rattle.cmd_play.specs.Led.{devices, led};

use crate::boards::perform;
use crate::keeping::{Kept, keep_all, read_kept};
use crate::opening::Going;
use std::alloc::Global;
use zed_files::{Refusal, print_out};
use zed_host::Host;
use zed_terminal::{Chance, Console, Inputs, Size, Terminal, report_of};

/// Plays a board and keeps it, as `play` does, on a terminal that isn't left; what is to be told of it.
fn play_and_keep<H: Host, T: Terminal, I: Inputs, C: Chance>(
    alloc: Global,
    host: &mut H,
    words: Option<&str>,
    keys: Option<&str>,
    going: Going,
    size: Size,
    board: u16,
    files: &[&str],
    console: &mut Console<T, I, C>,
) -> Result<Vec<u8>, Refusal>
    ensures ends { (t : HostContents) → H.contents host.old ≡ Some t
        → let failed = Rose (H.faults host.old) (H.faults host.new) in
        let asked = request (text_in words.entry) (text_in keys.entry) going size board (texts_of files.now) in
        let moved = led (devices T.drawn T.draws_foretell I.left C.to_come C.chance_failures)
        console.old console.new in
        MatchResult result
        (λ text. EndsKept failed t asked moved (Ok text.items) (H.contents host.new))
        (λ e. EndsKept failed t asked moved (Err e) (H.contents host.new)) }
    ensures asked { AsksPlay H.called (text_in words.entry) (text_in keys.entry) (texts_of files.now)
        (keeping (text_in words.entry) (text_in keys.entry)) (refusal_in result) host.old host.new }
    ensures key_faults { Counts (is_key_fault result)
        (I.input_failures console.old.inputs.source) (I.input_failures console.new.inputs.source) }
    ensures screen_faults { Counts (is_screen_fault result)
        (T.draw_failures console.old.terminal) (T.draw_failures console.new.terminal) }
    ensures left { T.times_left console.new.terminal ≡ T.times_left console.old.terminal }
    ensures failures { TellsFailures H.faults H.failed result host.old host.new }
{
    let kept = read_kept(alloc, host, words, keys)?;
    let Kept {
        words: came,
        keys: first,
    } = kept;
    console.inputs.fill(first);
    let tape = perform(
        alloc,
        host,
        going,
        board,
        came,
        files,
        size,
        &mut console.terminal,
        &mut console.inputs,
        &mut console.chance,
    )?;
    let text = report_of(alloc, &tape.play)?;
    keep_all(alloc, host, words, keys, &tape, console.inputs.rest())?;
    Ok(text)
}

/// Plays a board of the world of edit files in place, as `perform` does, and keeps it: what is in
/// the files of two names, if there are such, is played first, words of chance by the one and keys
/// by the other; then comes what is typed. At the end both files have what was played, and the one
/// of keys those behind the end. The terminal is left once, however it ends, and then what is told of the
/// playtest is printed.
///
/// # Errors
/// File where one of the two files can't be read; those of `perform`; File where one of the two
/// can't be written, or nothing printed. And Memory. No file is written where the playtest is
/// refused.
pub fn play<H: Host, T: Terminal, I: Inputs, C: Chance>(
    alloc: Global,
    host: &mut H,
    words: Option<&str>,
    keys: Option<&str>,
    going: Going,
    size: Size,
    board: u16,
    files: &[&str],
    console: &mut Console<T, I, C>,
) -> Result<(), Refusal>
    ensures ends { (t : HostContents) → H.contents host.old ≡ Some t
        → EndsPlay (Rose (H.faults host.old) (H.faults host.new)) t
        (request (text_in words.entry) (text_in keys.entry) going size board (texts_of files.now))
        (led (devices T.drawn T.draws_foretell I.left C.to_come C.chance_failures)
        console.old console.new)
        result (H.contents host.new) }
    ensures asked { AsksPlay H.called (text_in words.entry) (text_in keys.entry) (texts_of files.now)
        (keeping (text_in words.entry) (text_in keys.entry) ++ Printing ∷ []) (refusal_in result)
        host.old host.new }
    ensures left { T.is_entered console.new.terminal ≡ false }
    ensures once { T.times_left console.new.terminal
        ≡ once_more (T.times_left console.old.terminal) }
    ensures key_faults { Counts (is_key_fault result)
        (I.input_failures console.old.inputs.source) (I.input_failures console.new.inputs.source) }
    ensures screen_faults { Counts (is_screen_fault result)
        (T.draw_failures console.old.terminal) (T.draw_failures console.new.terminal) }
    ensures failures { TellsFailures H.faults H.failed result host.old host.new }
{
    let told = play_and_keep(alloc, host, words, keys, going, size, board, files, console);
    console.terminal.leave();
    let text = told?;
    print_out(host, text.as_slice())
}
