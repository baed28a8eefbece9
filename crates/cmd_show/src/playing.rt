//! Boards played.
ghost use Rattle.std.specs.Prelude.{[], ◌∷◌, ◌≡◌, ◌≤◌, ◌<◌, ◌⊎◌, ◌++◌, Err, IfErr, IfOk, MatchResult, Ok, OnErr, OnOk, Some, false, is_some, length, slice_get, string_bytes, true};
ghost use Rattle.std.specs.List.{flat_map};
ghost use Rattle.zed_types.specs.declared.limits.TheConstants.{READ_BODY_LIMIT};
ghost use Rattle.zed_host.specs.Calls.{Printing};
ghost use Rattle.zed_host.specs.Counting.{Counts, Rose};
ghost use Rattle.zed_files.specs.Faults.{TellsFailures};
ghost use Rattle.zed_host.specs.HostContents.{HostContents, file_in};
ghost use Rattle.cmd_show.specs.Told.{message_line, standing_line, told_of};
ghost use Rattle.zed_files.specs.Asked.{Asks, reading, refusal_in};
ghost use Rattle.cmd_show.specs.Shown.{EndsPlaying, IsOfPlay, IsPlayedOf, PlaysOn, board_in, chances_in, is_of_playing};
ghost use Rattle.cmd_show.specs.Stage.{stage};
ghost use Rattle.zed_files.specs.Refusals.{TellsRefusal, is_key_fault, is_screen_fault};
ghost use Rattle.zed_files.specs.Texts.{texts_of};

use std::alloc::{AllocError, Global};
use zed_document::Document;
use zed_files::{Refusal, bytes_of_file, load, print_out};
use zed_host::Host;
use zed_play::{Ending, Messages, Play};
use zed_session::{Keys, Playing, Screen};

/// The most keys of one playtest.
const MOST_KEYS: u32 = 1_048_576;

// The words of chance of a file: numbers of two bytes each, the low one first; an odd last byte is dropped.
fn chances_of(alloc: Global, bytes: &[u8]) -> Result<Vec<u16>, AllocError>
    ensures words { IfOk result (λ words. words.items ≡ chances_in bytes.now) }
    ensures memory_only_when { OnErr result (2 ≤ length bytes.now) }
{
    let mut words = Vec::new(alloc);
    let mut rest = bytes;
    for _ in 0..bytes.len() / 2 {
        let (pair, more) = rest.split_at(2);
        words.push(u16::from(pair[0]) + 256 * u16::from(pair[1]))?;
        rest = more;
    }
    Ok(words)
}

// The message of this number, counted from the oldest.
fn message_at(messages: &Messages, index: usize) -> &[u8]
    requires { index < length messages.now }
    ensures { slice_get messages.now index ≡ Some result.now }
{
    match messages.get(index) {
        Some(line) => line.as_slice(),
        None => &[],
    }
}

// Appends the line of a message.
fn add_message(text: &mut Vec<u8>, message: &[u8]) -> Result<(), AllocError>
    ensures { OnOk result (text.new.items ≡ text.old.items ++ message_line message.now) }
{
    text.extend_from_slice(b"> ")?;
    text.extend_from_slice(message)?;
    text.push(b'\n')?;
    Ok(())
}

// Messages, one a line.
fn messages_told(alloc: Global, messages: &Messages) -> Result<Vec<u8>, AllocError>
    ensures text { IfOk result (λ text. text.items ≡ flat_map message_line messages.now) }
    ensures memory_only_when { OnErr result (0 < length messages.now) }
{
    let mut text = Vec::new(alloc);
    for index in 0..messages.len() {
        add_message(&mut text, message_at(messages, index))?;
    }
    Ok(text)
}

// How a playtest stands.
fn standing_told(alloc: Global, ending: Option<Ending>, tick: u16) -> Result<String, AllocError>
    ensures { IfOk result (λ text. string_bytes text ≡ standing_line ending tick) }
{
    match ending {
        Some(Ending::Left(board)) => format!(in alloc; "left {board}\n"),
        Some(Ending::Died) => String::from_str(alloc, "died\n"),
        Some(Ending::Failed) | None => format!(in alloc; "tick {tick}\n"),
    }
}

// The messages of a playtest, and how it stands.
fn told(alloc: Global, play: &Play) -> Result<Vec<u8>, AllocError>
    ensures { IfOk result (λ text. text.items ≡ told_of play.now) }
{
    let mut text = messages_told(alloc, play.messages())?;
    let standing = standing_told(alloc, play.ending(), play.tick())?;
    text.extend_from_slice(standing.as_bytes())?;
    Ok(text)
}

// Plays a board of a document's world, until the playtest ends or no key is left, and tells of it. Where there is no such board, that is told
// whatever is lacking.
fn play_board(
    alloc: Global,
    document: &Document,
    board: usize,
    limit: usize,
    words: &[u16],
    screen: &mut dyn Screen,
    keys: &mut dyn Keys,
) -> Result<Vec<u8>, Refusal>
    requires sound { document.now.is_stale ≡ false }
    requires limit { limit ≤ READ_BODY_LIMIT }
    ensures plays { let before = stage (shown screen.old) (screen_foretells screen.old)
        (left keys.old) (keys_foretell keys.old) in
        let after = stage (shown screen.new) (screen_foretells screen.new)
        (left keys.new) (keys_foretell keys.new) in
        MatchResult result
        (λ text. PlaysOn before after limit (Ok document.now.edits) board words.now (Ok text.items))
        (λ e. ((e ≡ Refusal.Memory) × (after ≡ before))
        ⊎ PlaysOn before after limit (Ok document.now.edits) board words.now (Err e)) }
    ensures no_board { TellsRefusal (board_in limit document.now.edits board) result }
    ensures idle { IfErr result (λ e. (is_of_playing e ≡ true)
        ⊎ ((screen.new ≡ screen.old) × (keys.new ≡ keys.old))) }
    ensures key_faults { Counts (is_key_fault result)
        (key_failures keys.old) (key_failures keys.new) }
    ensures screen_faults { Counts (is_screen_fault result)
        (screen_failures screen.old) (screen_failures screen.new) }
{
    let mut playing = Playing::nothing();
    playing.start(alloc, document, board, limit)?;
    let mut left = words;
    for _ in 0..MOST_KEYS {
        let used = playing.play_key(screen, keys, left)?;
        let Some(play) = playing.playtest() else {
            return Err(Refusal::Over);
        };
        let Some(used) = used else {
            return Ok(told(alloc, play)?);
        };
        if play.ending().is_some() {
            return Ok(told(alloc, play)?);
        }
        left = left.split_at(used).1;
    }
    Err(Refusal::TooManyTurns)
}

// What is told of a playtest of a board of the world of edit files; the file of chances is read first.
fn played<H: Host>(
    alloc: Global,
    host: &mut H,
    limit: usize,
    board: u16,
    chance: &str,
    files: &[&str],
    screen: &mut dyn Screen,
    keys: &mut dyn Keys,
) -> Result<Vec<u8>, Refusal>
    requires { limit ≤ READ_BODY_LIMIT }
    ensures played { (t : HostContents) → H.contents host.old ≡ Some t
        → let failed = Rose (H.faults host.old) (H.faults host.new) in
        let before = stage (shown screen.old) (screen_foretells screen.old)
        (left keys.old) (keys_foretell keys.old) in
        let after = stage (shown screen.new) (screen_foretells screen.new)
        (left keys.new) (keys_foretell keys.new) in
        MatchResult result
        (λ text. IsPlayedOf failed before after t limit board chance.now
        (texts_of files.now) (Ok text.items))
        (λ e. ((e ≡ Refusal.Memory) × (after ≡ before))
        ⊎ IsPlayedOf failed before after t limit board chance.now
        (texts_of files.now) (Err e)) }
    ensures memory_only_when { (t : HostContents) → H.contents host.old ≡ Some t
        → IfErr result (λ e. e ≡ Refusal.Memory → is_some (file_in t chance.now) ≡ true) }
    ensures idle { IfErr result (λ e. (is_of_playing e ≡ true)
        ⊎ ((screen.new ≡ screen.old) × (keys.new ≡ keys.old))) }
    ensures key_faults { Counts (is_key_fault result)
        (key_failures keys.old) (key_failures keys.new) }
    ensures screen_faults { Counts (is_screen_fault result)
        (screen_failures screen.old) (screen_failures screen.new) }
    ensures kept { H.contents host.new ≡ H.contents host.old }
    ensures asked { Asks H.called (reading (chance.now ∷ texts_of files.now)) []
        (refusal_in result) host.old host.new }
    ensures failures { TellsFailures H.faults H.failed result host.old host.new }
{
    let bytes = bytes_of_file(host, chance)?;
    let words = chances_of(alloc, bytes.as_slice())?;
    let document = load(alloc, host, files)?;
    play_board(
        alloc,
        &document,
        usize::from(board),
        limit,
        words.as_slice(),
        screen,
        keys,
    )
}

/// Plays a board of the world of edit files, by the words of chance of a file, and prints the
/// playtest. The limit is the most bytes of a board's body. If the command is refused before the
/// playtest begins, except for want of memory, neither the screen nor the source of keys is called.
/// Memory may be lacking only if the file of chance is there.
pub fn play<H: Host>(
    alloc: Global,
    host: &mut H,
    limit: usize,
    board: u16,
    chance: &str,
    files: &[&str],
    screen: &mut dyn Screen,
    keys: &mut dyn Keys,
) -> Result<(), Refusal>
    requires { limit ≤ READ_BODY_LIMIT }
    ensures ends { (t : HostContents) → H.contents host.old ≡ Some t
        → let failed = Rose (H.faults host.old) (H.faults host.new) in
        let before = stage (shown screen.old) (screen_foretells screen.old)
        (left keys.old) (keys_foretell keys.old) in
        let after = stage (shown screen.new) (screen_foretells screen.new)
        (left keys.new) (keys_foretell keys.new) in
        EndsPlaying failed before after t limit board chance.now
        (texts_of files.now) result (H.contents host.new) }
    ensures memory_only_when { (t : HostContents) → H.contents host.old ≡ Some t
        → IfErr result (λ e. e ≡ Refusal.Memory → is_some (file_in t chance.now) ≡ true) }
    ensures idle { IfErr result (λ e. IsOfPlay H.called e host.new
        ⊎ ((screen.new ≡ screen.old) × (keys.new ≡ keys.old))) }
    ensures key_faults { Counts (is_key_fault result)
        (key_failures keys.old) (key_failures keys.new) }
    ensures screen_faults { Counts (is_screen_fault result)
        (screen_failures screen.old) (screen_failures screen.new) }
    ensures asked { Asks H.called (reading (chance.now ∷ texts_of files.now)) (Printing ∷ [])
        (refusal_in result) host.old host.new }
    ensures failures { TellsFailures H.faults H.failed result host.old host.new }
{
    let text = played(alloc, host, limit, board, chance, files, screen, keys)?;
    print_out(host, text.as_slice())
}
