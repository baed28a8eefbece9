//! What is told of a playtest at its end.
ghost use Rattle.std.specs.Prelude.{◌≡◌, ◌<◌, ◌++◌, IfOk, OnOk, Some, length, slice_get, string_bytes};
ghost use Rattle.std.specs.List.{flat_map};
ghost use Rattle.zed_terminal.specs.Report.{message_line, report_of, standing_line};

use std::alloc::{AllocError, Global};
use zed_look::put_glyphs;
use zed_play::{Ending, Messages, Play};

/// The message of this number, counted from the oldest.
fn message_at(messages: &Messages, index: usize) -> &[u8]
    requires { index < length messages.now }
    ensures { slice_get messages.now index ≡ Some result.now }
{
    match messages.get(index) {
        Some(line) => line.as_slice(),
        None => &[],
    }
}

/// Appends the line of a message.
fn put_message(text: &mut Vec<u8>, message: &[u8]) -> Result<(), AllocError>
    ensures { OnOk result (text.new.items ≡ text.old.items ++ message_line message.now) }
{
    text.extend_from_slice(b"> ")?;
    put_glyphs(message, text)?;
    text.push(b'\n')?;
    Ok(())
}

/// Messages, one a line.
fn messages_told(alloc: Global, messages: &Messages) -> Result<Vec<u8>, AllocError>
    ensures { IfOk result (λ text. text.items ≡ flat_map message_line messages.now) }
{
    let mut text = Vec::new(alloc);
    for index in 0..messages.len() {
        put_message(&mut text, message_at(messages, index))?;
    }
    Ok(text)
}

/// How a playtest stands.
fn standing_told(alloc: Global, ending: Option<Ending>, tick: u16) -> Result<String, AllocError>
    ensures { IfOk result (λ text. string_bytes text ≡ standing_line ending tick) }
{
    match ending {
        Some(Ending::Left(board)) => format!(in alloc; "left {board}\n"),
        Some(Ending::Died) => String::from_str(alloc, "died\n"),
        Some(Ending::Failed) | None => format!(in alloc; "tick {tick}\n"),
    }
}

/// The messages of a playtest, and how it stands.
pub fn report_of(alloc: Global, play: &Play) -> Result<Vec<u8>, AllocError>
    ensures { IfOk result (λ text. text.items ≡ report_of play.now) }
{
    let mut text = messages_told(alloc, play.messages())?;
    let standing = standing_told(alloc, play.ending(), play.tick())?;
    text.extend_from_slice(standing.as_bytes())?;
    Ok(text)
}
