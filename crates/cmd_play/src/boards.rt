//! Boards of documents and of edit files played in place.
ghost use Rattle.std.specs.Prelude.{[], ◌≡◌, ◌≢◌, ◌⊎◌, Err, IfErr, MatchResult, Ok, Some, false};
ghost use Rattle.zed_host.specs.Counting.{Counts, Rose};
ghost use Rattle.zed_host.specs.HostContents.{HostContents};
ghost use Rattle.zed_files.specs.Asked.{Asks, reading, refusal_in};
ghost use Rattle.zed_files.specs.Faults.{TellsFailures};
ghost use Rattle.zed_files.specs.Refusals.{is_key_fault, is_screen_fault};
ghost use Rattle.zed_files.specs.Texts.{texts_of};
ghost use Rattle.cmd_play.specs.Boards.{IsPerformed, PerformsAny, PlaysFrom};
ghost use Rattle.zed_terminal.specs.Course.{point};
ghost use Rattle.zed_terminal.specs.Devices.{chances};
ghost use Rattle.cmd_play.specs.Opening.{opened, over_edits};
ghost use Rattle.zed_terminal.specs.Stage.{stage};

use crate::opening::{Begun, Going, opened};
use crate::refusing::turn_refusal;
use std::alloc::Global;
use zed_document::Document;
use zed_files::{Refusal, load};
use zed_host::Host;
use zed_play::Play;
use zed_terminal::{Atlas, Chance, Inputs, Size, Tape, Terminal, play_from};

/// Plays a playtest from its beginning.
fn play_whole<A: Atlas, T: Terminal, I: Inputs, C: Chance>(
    alloc: Global,
    atlas: &A,
    play: Play,
    words: Vec<u16>,
    size: Size,
    terminal: &mut T,
    inputs: &mut I,
    chance: &mut C,
) -> Result<Tape, Refusal>
    ensures performs { let before = stage (T.drawn terminal.old) (T.draws_foretell terminal.old)
        (I.left inputs.old) (I.inputs_foretell inputs.old)
        (chances (C.to_come chance.old) (C.chance_failures chance.old)) in
        let after = stage (T.drawn terminal.new) (T.draws_foretell terminal.new)
        (I.left inputs.new) (I.inputs_foretell inputs.new)
        (chances (C.to_come chance.new) (C.chance_failures chance.new)) in
        MatchResult result
        (λ tape. PlaysFrom (A.world atlas.now) size play words.items before after (Ok (point tape)))
        (λ e. PlaysFrom (A.world atlas.now) size play words.items before after (Err e)) }
    ensures key_faults { Counts (is_key_fault result)
        (I.input_failures inputs.old) (I.input_failures inputs.new) }
    ensures screen_faults { Counts (is_screen_fault result)
        (T.draw_failures terminal.old) (T.draw_failures terminal.new) }
    ensures left { T.times_left terminal.new ≡ T.times_left terminal.old }
    ensures other { IfErr result (λ e. e ≢ Refusal.File) }
{
    match play_from(alloc, atlas, play, words, size, terminal, inputs, chance) {
        Ok(tape) => Ok(tape),
        Err(error) => Err(turn_refusal(error)),
    }
}

/// Plays a board of a document's world.
pub(crate) fn play_board<T: Terminal, I: Inputs, C: Chance>(
    alloc: Global,
    document: &Document,
    going: Going,
    board: usize,
    words: Vec<u16>,
    size: Size,
    terminal: &mut T,
    inputs: &mut I,
    chance: &mut C,
) -> Result<Tape, Refusal>
    requires sound { document.now.is_stale ≡ false }
    ensures performs { let before = stage (T.drawn terminal.old) (T.draws_foretell terminal.old)
        (I.left inputs.old) (I.inputs_foretell inputs.old)
        (chances (C.to_come chance.old) (C.chance_failures chance.old)) in
        let after = stage (T.drawn terminal.new) (T.draws_foretell terminal.new)
        (I.left inputs.new) (I.inputs_foretell inputs.new)
        (chances (C.to_come chance.new) (C.chance_failures chance.new)) in
        MatchResult result
        (λ tape. PerformsAny (over_edits going document.now.edits) size
        (opened board document.now.edits) words.items before after (Ok (point tape)))
        (λ e. ((e ≡ Refusal.Memory) × (after ≡ before))
        ⊎ PerformsAny (over_edits going document.now.edits) size
        (opened board document.now.edits) words.items before after (Err e)) }
    ensures key_faults { Counts (is_key_fault result)
        (I.input_failures inputs.old) (I.input_failures inputs.new) }
    ensures screen_faults { Counts (is_screen_fault result)
        (T.draw_failures terminal.old) (T.draw_failures terminal.new) }
    ensures left { T.times_left terminal.new ≡ T.times_left terminal.old }
    ensures other { IfErr result (λ e. e ≢ Refusal.File) }
{
    let begun = opened(alloc, document, going, board)?;
    let Begun { play, boards } = begun;
    play_whole(alloc, &boards, play, words, size, terminal, inputs, chance)
}

/// Plays a board of the world of edit files in place: draws it on a terminal of a size, and
/// then plays turn by turn, with words of chance that came already before those of a source, and
/// draws each, to the end of the playtest or of what is typed. One that goes on over boards goes on
/// on each for which the player leaves. Bodies of a board may have 32,767 bytes.
///
/// # Errors
/// The first of these: a file that can't be read, a clash or a fault of the files; what the world
/// can't be exported for; NoBoard where it has no board of this number; ScreenFault, KeyFault,
/// NoWords and TooManyTurns of the playtest. And Memory.
pub fn perform<H: Host, T: Terminal, I: Inputs, C: Chance>(
    alloc: Global,
    host: &mut H,
    going: Going,
    board: u16,
    words: Vec<u16>,
    files: &[&str],
    size: Size,
    terminal: &mut T,
    inputs: &mut I,
    chance: &mut C,
) -> Result<Tape, Refusal>
    ensures performed { (t : HostContents) → H.contents host.old ≡ Some t
        → let failed = Rose (H.faults host.old) (H.faults host.new) in
        let before = stage (T.drawn terminal.old) (T.draws_foretell terminal.old)
        (I.left inputs.old) (I.inputs_foretell inputs.old)
        (chances (C.to_come chance.old) (C.chance_failures chance.old)) in
        let after = stage (T.drawn terminal.new) (T.draws_foretell terminal.new)
        (I.left inputs.new) (I.inputs_foretell inputs.new)
        (chances (C.to_come chance.new) (C.chance_failures chance.new)) in
        MatchResult result
        (λ tape. IsPerformed failed t going board size words.items (texts_of files.now) before after
        (Ok (point tape)))
        (λ e. ((e ≡ Refusal.Memory) × (after ≡ before))
        ⊎ IsPerformed failed t going board size words.items (texts_of files.now) before after (Err e)) }
    ensures kept { H.contents host.new ≡ H.contents host.old }
    ensures key_faults { Counts (is_key_fault result)
        (I.input_failures inputs.old) (I.input_failures inputs.new) }
    ensures screen_faults { Counts (is_screen_fault result)
        (T.draw_failures terminal.old) (T.draw_failures terminal.new) }
    ensures left { T.times_left terminal.new ≡ T.times_left terminal.old }
    ensures asked { Asks H.called (reading (texts_of files.now)) [] (refusal_in result) host.old host.new }
    ensures failures { TellsFailures H.faults H.failed result host.old host.new }
{
    let document = load(alloc, host, files)?;
    play_board(
        alloc,
        &document,
        going,
        usize::from(board),
        words,
        size,
        terminal,
        inputs,
        chance,
    )
}
