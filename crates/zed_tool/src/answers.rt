//! The answers of commands, as the program hands them on.
ghost use Rattle.std.specs.Prelude.{◌≡◌};
ghost use Rattle.zed_files.specs.Texts.{texts_of};
ghost use Rattle.zed_tool.specs.Answers.{answer_of, drawing_failure, failure_of, handed, set_failure, shared_failure, told_as};

use crate::error::ToolError;
use cmd_set::SetReason;
use cmd_take::DrawingReason;
use zed_driver::Stop;
use zed_files::Refusal;
use zed_refusal::Reason;

/// That of a playtest.
pub(crate) fn played<'a>(answer: Result<(), Refusal>) -> Result<u8, ToolError<'a>>
    ensures { answer_of result ≡ told_as answer }
{
    match answer {
        Ok(()) => Ok(0),
        Err(refusal) => Err(ToolError::Refused(refusal)),
    }
}

/// That of a command that only tells.
pub(crate) fn told<'a>(answer: Result<u8, Stop<Reason>>) -> Result<u8, ToolError<'a>>
    ensures { answer_of result ≡ handed shared_failure answer }
{
    match answer {
        Ok(status) => Ok(status),
        Err(stop) => Err(ToolError::Refused(Refusal::from(stop))),
    }
}

// A refusal of a command that draws, or takes a program from the text of this file.
fn drawing_error<'a>(text: &'a str, reason: DrawingReason) -> ToolError<'a>
    ensures { failure_of result ≡ drawing_failure text.entry.now reason }
{
    match reason {
        DrawingReason::Common(reason) => ToolError::Refused(Refusal::from(reason)),
        DrawingReason::NotTaken => ToolError::NotTaken,
        DrawingReason::TakesAway(boards) => ToolError::TakesAway(boards),
        DrawingReason::BadText(bad) => ToolError::BadText(text, bad),
    }
}

/// That of such a command.
pub(crate) fn drawn<'a>(
    text: &'a str,
    answer: Result<u8, Stop<DrawingReason>>,
) -> Result<u8, ToolError<'a>>
    ensures { answer_of result ≡ handed (drawing_failure text.entry.now) answer }
{
    match answer {
        Ok(status) => Ok(status),
        Err(Stop::Memory) => Err(ToolError::Refused(Refusal::Memory)),
        Err(Stop::File) => Err(ToolError::Refused(Refusal::File)),
        Err(Stop::Refused(reason)) => Err(drawing_error(text, reason)),
    }
}

// A refusal of `set` with these words.
fn set_error<'a>(words: &[&'a str], reason: SetReason) -> ToolError<'a>
    ensures { failure_of result ≡ set_failure (texts_of words.now) reason }
{
    match reason {
        SetReason::Common(reason) => ToolError::Refused(Refusal::from(reason)),
        SetReason::BadWord(bad) => match words.get(bad.at) {
            Some(word) => ToolError::BadWord(Some(*word), bad.expected),
            None => ToolError::BadWord(None, bad.expected),
        },
    }
}

/// That of `set` with these words.
pub(crate) fn set_told<'a>(
    words: &[&'a str],
    answer: Result<u8, Stop<SetReason>>,
) -> Result<u8, ToolError<'a>>
    ensures { answer_of result ≡ handed (set_failure (texts_of words.now)) answer }
{
    match answer {
        Ok(status) => Ok(status),
        Err(Stop::Memory) => Err(ToolError::Refused(Refusal::Memory)),
        Err(Stop::File) => Err(ToolError::Refused(Refusal::File)),
        Err(Stop::Refused(reason)) => Err(set_error(words, reason)),
    }
}
