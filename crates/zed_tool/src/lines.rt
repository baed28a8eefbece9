//! The lines of refusals: those of `zzted`, under the name `zztool`, and some more.
ghost use Rattle.std.specs.Prelude.{◌≡◌, IfOk, IfSome, None, option_map, string_bytes, true};
ghost use Rattle.zed_files.specs.declared.refusal.Refusal.TheVariants.{BadEdit};
ghost use Rattle.zed_tool.specs.Answers.{BadText as TextFailure, BadWord, Refused, TakesAway, failure_of};
ghost use Rattle.zed_tool.specs.Lines.{line_of as line_for, tells_more};

use crate::error::ToolError;
use std::alloc::{AllocError, Global};
use zed_edit::Cause;
use zed_files::Refusal;
use zed_plaintext::BadText;
use zed_set_words::Expected;
use zed_types::Stamp;

// The line of an edit that doesn't fit.
fn bad_edit_line(cause: Cause) -> &'static str
    ensures { result.now ≡ line_for (Refused (BadEdit cause)) }
{
    match cause {
        Cause::Short => "zztool: BadEdit Short\n",
        Cause::Op => "zztool: BadEdit Op\n",
        Cause::Tag => "zztool: BadEdit Tag\n",
        Cause::Long => "zztool: BadEdit Long\n",
        Cause::Stamp => "zztool: BadEdit Stamp\n",
        Cause::Range => "zztool: BadEdit Range\n",
        Cause::Order => "zztool: BadEdit Order\n",
        Cause::Genesis => "zztool: BadEdit Genesis\n",
    }
}

// The line of a refusal that `zzted` has too, if it has no numbers.
fn shared_line(refusal: Refusal) -> Option<&'static str>
    ensures line { IfSome result (λ text. text.now ≡ line_for (Refused refusal)) }
    ensures none { result ≡ None → tells_more (Refused refusal) ≡ true }
{
    let text = match refusal {
        Refusal::Memory => "zztool: Memory\n",
        Refusal::NotZzt => "zztool: NotZzt\n",
        Refusal::TooManyBoards => "zztool: TooManyBoards\n",
        Refusal::Truncated => "zztool: Truncated\n",
        Refusal::BadBoardSize => "zztool: BadBoardSize\n",
        Refusal::TooManyStats => "zztool: TooManyStats\n",
        Refusal::BadShare => "zztool: BadShare\n",
        Refusal::Magic => "zztool: Magic\n",
        Refusal::NewVersion => "zztool: NewVersion\n",
        Refusal::OtherWorld => "zztool: OtherWorld\n",
        Refusal::RecordLength => "zztool: RecordLength\n",
        Refusal::BadEdit(cause) => bad_edit_line(cause),
        Refusal::CutShort => "zztool: CutShort\n",
        Refusal::Stale => "zztool: Stale\n",
        Refusal::ClockSpent => "zztool: ClockSpent\n",
        Refusal::NoSuch => "zztool: NoSuch\n",
        Refusal::OutOfRange => "zztool: OutOfRange\n",
        Refusal::NoWorld => "zztool: NoWorld\n",
        Refusal::BadAction => "zztool: BadAction\n",
        Refusal::File => "zztool: File\n",
        Refusal::NoBoard => "zztool: NoBoard\n",
        Refusal::NoWords => "zztool: NoWords\n",
        Refusal::Over => "zztool: Over\n",
        Refusal::LinkFault => "zztool: LinkFault\n",
        Refusal::ScreenFault => "zztool: ScreenFault\n",
        Refusal::KeyFault => "zztool: KeyFault\n",
        Refusal::TooManyTurns => "zztool: TooManyTurns\n",
        Refusal::NoLink => "zztool: NoLink\n",
        Refusal::Clash(_)
        | Refusal::BoardsOver(_)
        | Refusal::StatsOver { .. }
        | Refusal::BoardOver { .. } => return None,
    };
    Some(text)
}

/// The line of a refusal that has only a name, for standard error.
pub(crate) fn plain_line(error: ToolError<'_>) -> Option<&'static str>
    ensures line { IfSome result (λ text. text.now ≡ line_for (failure_of error.entry)) }
    ensures none { result ≡ None → tells_more (failure_of error.entry) ≡ true }
{
    match error {
        ToolError::Refused(refusal) => shared_line(refusal),
        ToolError::NotTaken => Some("zztool: NotTaken\n"),
        ToolError::TakesAway(_) | ToolError::BadWord(_, _) | ToolError::BadText(_, _) => None,
    }
}

// The line of a refusal that `zzted` has too.
fn shared_line_of(alloc: Global, refusal: Refusal) -> Result<String, AllocError>
    ensures { IfOk result (λ text. string_bytes text ≡ line_for (Refused refusal)) }
{
    match refusal {
        Refusal::Clash(stamp) => {
            let Stamp { time, replica } = stamp;
            format!(in alloc; "zztool: Clash {time} {replica}\n")
        }
        Refusal::BoardsOver(boards) => format!(in alloc; "zztool: BoardsOver {boards}\n"),
        Refusal::StatsOver { board, stats } => format!(in alloc;
            "zztool: StatsOver {board} {stats}\n"
        ),
        Refusal::BoardOver { board, bytes } => format!(in alloc;
            "zztool: BoardOver {board} {bytes}\n"
        ),
        _ => String::from_str(alloc, shared_line(refusal).unwrap_or("")),
    }
}

// The lines where too many boards would go.
fn takes_away_line(alloc: Global, boards: usize) -> Result<String, AllocError>
    ensures { IfOk result (λ text. string_bytes text ≡ line_for (TakesAway boards)) }
{
    format!(in alloc; "zztool: TakesAway {boards}\nzztool: take --force takes it all the same\n")
}

// The line of a word that may not be there.
fn bad_word_line(
    alloc: Global,
    word: Option<&str>,
    expected: Expected,
) -> Result<String, AllocError>
    ensures { IfOk result (λ text.
        string_bytes text ≡ line_for (BadWord (option_map (λ s. s.now) word.entry) expected)) }
{
    let may_be = expected.text();
    match word {
        Some(word) => format!(in alloc; "zztool: BadWord '{word}': expected {may_be}\n"),
        None => format!(in alloc; "zztool: BadWord the end: expected {may_be}\n"),
    }
}

// The line of a text that is no program.
fn bad_text_line(alloc: Global, file: &str, bad: BadText) -> Result<String, AllocError>
    ensures { IfOk result (λ text.
        string_bytes text ≡ line_for (TextFailure file.now bad.line bad.column)) }
{
    let BadText { line, column } = bad;
    format!(in alloc; "zztool: {file}:{line}:{column}: BadText\n")
}

/// The line for standard error: `zztool: `, the name of the refusal, and its numbers or cause, each
/// after a space; or the line of a wrong word or a wrong text.
pub(crate) fn line_of(alloc: Global, error: ToolError<'_>) -> Result<String, AllocError>
    ensures { IfOk result (λ text. string_bytes text ≡ line_for (failure_of error.entry)) }
{
    match error {
        ToolError::Refused(refusal) => shared_line_of(alloc, refusal),
        ToolError::NotTaken => String::from_str(alloc, "zztool: NotTaken\n"),
        ToolError::TakesAway(boards) => takes_away_line(alloc, boards),
        ToolError::BadWord(word, expected) => bad_word_line(alloc, word, expected),
        ToolError::BadText(file, bad) => bad_text_line(alloc, file, bad),
    }
}
