//! Why a command was not carried out, and the lines that the program prints.
ghost use Rattle.std.specs.Prelude.{◌≡◌, ◌≤◌, length, IfOk, IfSome, None, false, string_bytes, true};
ghost use Rattle.zed_files.specs.declared.refusal.Refusal.TheVariants.{BadEdit, File, Memory};
ghost use Rattle.zed_files.specs.Refusals.{action_refusal, document_refusal, export_refusal, file_refusal, link_refusal, reason_refusal, session_refusal, stop_refusal, world_refusal};
ghost use Rattle.zed_files.specs.Lines.{bytes_line, edits_line, has_numbers, held_line, line_of as line_for};

use crate::Line;
use std::alloc::{AllocError, Global};
use thiserror::Error;
use zed_action::ActionError;
use zed_document::DocumentError;
use zed_driver::Stop;
use zed_edit::Cause;
use zed_editfile::EditFileError;
use zed_export::ExportError;
use zed_host::WriteError;
use zed_link::LinkError;
use zed_refusal::Reason;
use zed_session::SessionError;
use zed_types::Stamp;
use zed_world::WorldError;

/// Why a command was not carried out. The texts are for whoever debugs; the program prints the
/// lines of `plain_line` and `line_of` instead.
#[derive(Clone, Copy, Debug, PartialEq, Eq, Error)]
pub enum Refusal {
    #[error("out of memory")]
    Memory,
    #[error("not a world file")]
    NotZzt,
    #[error("a world file has too many boards")]
    TooManyBoards,
    #[error("a world file ends too early")]
    Truncated,
    #[error("a board of a world file is too large")]
    BadBoardSize,
    #[error("a board of a world file has too many stats")]
    TooManyStats,
    #[error("a world file shares a program with a later stat")]
    BadShare,
    #[error("not an edit file")]
    Magic,
    #[error("an edit file of another version")]
    NewVersion,
    #[error("an edit file of another world")]
    OtherWorld,
    #[error("a record of an edit file has an impossible length")]
    RecordLength,
    #[error("an edit breaks a rule: {0:?}")]
    BadEdit(Cause),
    #[error("an edit file ends inside its head or a record")]
    CutShort,
    #[error("two edits have one stamp, {0:?}")]
    Clash(Stamp),
    #[error("memory ran out before: repair the document first")]
    Stale,
    #[error("the clock is spent")]
    ClockSpent,
    #[error("there is no such thing")]
    NoSuch,
    #[error("the position is outside the text")]
    OutOfRange,
    #[error("no edit makes the world")]
    NoWorld,
    #[error("{0} boards beside the title are too many")]
    BoardsOver(usize),
    #[error("board {board} has {stats} stats beside the player")]
    StatsOver { board: usize, stats: usize },
    #[error("board {board} has {bytes} bytes")]
    BoardOver { board: usize, bytes: usize },
    #[error("these words are no action")]
    BadAction,
    #[error("a file can't be read or written")]
    File,
    #[error("there is no such board")]
    NoBoard,
    #[error("the playtest needs more words of chance")]
    NoWords,
    #[error("no playtest is running")]
    Over,
    #[error("a link failed")]
    LinkFault,
    #[error("the screen failed")]
    ScreenFault,
    #[error("the source of keys failed")]
    KeyFault,
    #[error("too many reads of a link, or too many keys")]
    TooManyTurns,
    #[error("there are fewer links than files")]
    NoLink,
}

impl From<EditFileError> for Refusal {
    ghost from_gives = { λ error refusal. refusal ≡ file_refusal error };

    fn from(error: EditFileError) -> Refusal {
        match error {
            EditFileError::Memory => Refusal::Memory,
            EditFileError::Magic => Refusal::Magic,
            EditFileError::NewVersion => Refusal::NewVersion,
            EditFileError::OtherWorld => Refusal::OtherWorld,
            EditFileError::RecordLength => Refusal::RecordLength,
            EditFileError::BadEdit(cause) => Refusal::BadEdit(cause),
            EditFileError::CutShort => Refusal::CutShort,
        }
    }
}

impl From<DocumentError> for Refusal {
    ghost from_gives = { λ error refusal. refusal ≡ document_refusal error };

    fn from(error: DocumentError) -> Refusal {
        match error {
            DocumentError::Memory => Refusal::Memory,
            DocumentError::OtherWorld => Refusal::OtherWorld,
            DocumentError::BadEdit(cause) => Refusal::BadEdit(cause),
            DocumentError::Clash(stamp) => Refusal::Clash(stamp),
            DocumentError::Stale => Refusal::Stale,
            DocumentError::NoSuch => Refusal::NoSuch,
            DocumentError::OutOfRange => Refusal::OutOfRange,
            DocumentError::ClockSpent => Refusal::ClockSpent,
        }
    }
}

impl From<WorldError> for Refusal {
    ghost from_gives = { λ error refusal. refusal ≡ world_refusal error };

    fn from(error: WorldError) -> Refusal {
        match error {
            WorldError::Memory => Refusal::Memory,
            WorldError::NotZzt => Refusal::NotZzt,
            WorldError::TooManyBoards => Refusal::TooManyBoards,
            WorldError::Truncated => Refusal::Truncated,
            WorldError::BadBoardSize => Refusal::BadBoardSize,
            WorldError::TooManyStats => Refusal::TooManyStats,
            WorldError::BadShare => Refusal::BadShare,
            WorldError::BoardOver { board, bytes } => Refusal::BoardOver { board, bytes },
        }
    }
}

impl From<ActionError> for Refusal {
    ghost from_gives = { λ error refusal. refusal ≡ action_refusal error };

    fn from(error: ActionError) -> Refusal {
        match error {
            ActionError::BadAction => Refusal::BadAction,
            ActionError::Document(error) => Refusal::from(error),
        }
    }
}

impl From<ExportError> for Refusal {
    ghost from_gives = { λ error refusal. refusal ≡ export_refusal error };

    fn from(error: ExportError) -> Refusal {
        Refusal::from(SessionError::from(error))
    }
}

impl From<LinkError> for Refusal {
    ghost from_gives = { λ error refusal. refusal ≡ link_refusal error };

    fn from(error: LinkError) -> Refusal {
        Refusal::from(SessionError::from(error))
    }
}

impl From<SessionError> for Refusal {
    ghost from_gives = { λ error refusal. refusal ≡ session_refusal error };

    fn from(error: SessionError) -> Refusal {
        match error {
            SessionError::Memory => Refusal::Memory,
            SessionError::Magic => Refusal::Magic,
            SessionError::NewVersion => Refusal::NewVersion,
            SessionError::OtherWorld => Refusal::OtherWorld,
            SessionError::RecordLength => Refusal::RecordLength,
            SessionError::BadEdit(cause) => Refusal::BadEdit(cause),
            SessionError::CutShort => Refusal::CutShort,
            SessionError::Clash(stamp) => Refusal::Clash(stamp),
            SessionError::Stale => Refusal::Stale,
            SessionError::NoWorld => Refusal::NoWorld,
            SessionError::BoardsOver(boards) => Refusal::BoardsOver(boards),
            SessionError::StatsOver { board, stats } => Refusal::StatsOver { board, stats },
            SessionError::BoardOver { board, bytes } => Refusal::BoardOver { board, bytes },
            SessionError::NoBoard => Refusal::NoBoard,
            SessionError::NoWords => Refusal::NoWords,
            SessionError::Over => Refusal::Over,
            SessionError::LinkFault => Refusal::LinkFault,
            SessionError::ScreenFault => Refusal::ScreenFault,
            SessionError::KeyFault => Refusal::KeyFault,
            SessionError::TooManyTurns => Refusal::TooManyTurns,
            SessionError::NoLink => Refusal::NoLink,
        }
    }
}

impl From<Reason> for Refusal {
    ghost from_gives = { λ reason refusal. refusal ≡ reason_refusal reason };

    fn from(reason: Reason) -> Refusal {
        match reason {
            Reason::NotZzt => Refusal::NotZzt,
            Reason::TooManyBoards => Refusal::TooManyBoards,
            Reason::Truncated => Refusal::Truncated,
            Reason::BadBoardSize => Refusal::BadBoardSize,
            Reason::TooManyStats => Refusal::TooManyStats,
            Reason::BadShare => Refusal::BadShare,
            Reason::Magic => Refusal::Magic,
            Reason::NewVersion => Refusal::NewVersion,
            Reason::OtherWorld => Refusal::OtherWorld,
            Reason::RecordLength => Refusal::RecordLength,
            Reason::BadEdit(cause) => Refusal::BadEdit(cause),
            Reason::CutShort => Refusal::CutShort,
            Reason::Clash(stamp) => Refusal::Clash(stamp),
            Reason::Stale => Refusal::Stale,
            Reason::ClockSpent => Refusal::ClockSpent,
            Reason::NoSuch => Refusal::NoSuch,
            Reason::OutOfRange => Refusal::OutOfRange,
            Reason::NoWorld => Refusal::NoWorld,
            Reason::BoardsOver(boards) => Refusal::BoardsOver(boards),
            Reason::StatsOver { board, stats } => Refusal::StatsOver { board, stats },
            Reason::BoardOver { board, bytes } => Refusal::BoardOver { board, bytes },
            Reason::BadAction => Refusal::BadAction,
            Reason::NoBoard => Refusal::NoBoard,
        }
    }
}

impl From<Stop<Reason>> for Refusal {
    ghost from_gives = { λ stop refusal. refusal ≡ stop_refusal stop };

    fn from(stop: Stop<Reason>) -> Refusal {
        match stop {
            Stop::Memory => Refusal::Memory,
            Stop::File => Refusal::File,
            Stop::Refused(reason) => Refusal::from(reason),
        }
    }
}

impl From<WriteError> for Refusal {
    ghost from_gives = { λ _ refusal. refusal ≡ File };

    fn from(_error: WriteError) -> Refusal {
        Refusal::File
    }
}

impl From<AllocError> for Refusal {
    ghost from_gives = { λ _ refusal. refusal ≡ Memory };

    fn from(_error: AllocError) -> Refusal {
        Refusal::Memory
    }
}

// The line of an edit that doesn't fit.
fn bad_edit_line(cause: Cause) -> &'static str
    ensures line { result.now ≡ line_for (BadEdit cause) }
    ensures short { length result.now ≤ 64 }
{
    match cause {
        Cause::Short => "zzted: BadEdit Short\n",
        Cause::Op => "zzted: BadEdit Op\n",
        Cause::Tag => "zzted: BadEdit Tag\n",
        Cause::Long => "zzted: BadEdit Long\n",
        Cause::Stamp => "zzted: BadEdit Stamp\n",
        Cause::Range => "zzted: BadEdit Range\n",
        Cause::Order => "zzted: BadEdit Order\n",
        Cause::Genesis => "zzted: BadEdit Genesis\n",
    }
}

/// The line of a refusal that has no numbers, for the standard error. None if it has numbers.
pub fn plain_line(refusal: &Refusal) -> Option<&'static str>
    ensures line { IfSome result (λ text. text.now ≡ line_for refusal.now) }
    ensures plain { IfSome result (λ text. has_numbers refusal.now ≡ false) }
    ensures none { result ≡ None → has_numbers refusal.now ≡ true }
    ensures short { IfSome result (λ text. length text.now ≤ 64) }
{
    let text = match *refusal {
        Refusal::Memory => "zzted: Memory\n",
        Refusal::NotZzt => "zzted: NotZzt\n",
        Refusal::TooManyBoards => "zzted: TooManyBoards\n",
        Refusal::Truncated => "zzted: Truncated\n",
        Refusal::BadBoardSize => "zzted: BadBoardSize\n",
        Refusal::TooManyStats => "zzted: TooManyStats\n",
        Refusal::BadShare => "zzted: BadShare\n",
        Refusal::Magic => "zzted: Magic\n",
        Refusal::NewVersion => "zzted: NewVersion\n",
        Refusal::OtherWorld => "zzted: OtherWorld\n",
        Refusal::RecordLength => "zzted: RecordLength\n",
        Refusal::BadEdit(cause) => bad_edit_line(cause),
        Refusal::CutShort => "zzted: CutShort\n",
        Refusal::Stale => "zzted: Stale\n",
        Refusal::ClockSpent => "zzted: ClockSpent\n",
        Refusal::NoSuch => "zzted: NoSuch\n",
        Refusal::OutOfRange => "zzted: OutOfRange\n",
        Refusal::NoWorld => "zzted: NoWorld\n",
        Refusal::BadAction => "zzted: BadAction\n",
        Refusal::File => "zzted: File\n",
        Refusal::NoBoard => "zzted: NoBoard\n",
        Refusal::NoWords => "zzted: NoWords\n",
        Refusal::Over => "zzted: Over\n",
        Refusal::LinkFault => "zzted: LinkFault\n",
        Refusal::ScreenFault => "zzted: ScreenFault\n",
        Refusal::KeyFault => "zzted: KeyFault\n",
        Refusal::TooManyTurns => "zzted: TooManyTurns\n",
        Refusal::NoLink => "zzted: NoLink\n",
        Refusal::Clash(_)
        | Refusal::BoardsOver(_)
        | Refusal::StatsOver { .. }
        | Refusal::BoardOver { .. } => return None,
    };
    Some(text)
}

// The same number, of 64 bits.
fn widened(number: u16) -> u64
    ensures { result ≡ number }
{
    u64::from(number)
}

/// The line for standard error: `zzted: `, the name of the refusal, and its numbers or cause, each
/// after a space. It takes no memory, so it can always be printed.
pub fn line_of(alloc: Global, refusal: &Refusal) -> Line
    ensures { result ≡ line_for refusal.now }
{
    match *refusal {
        Refusal::Clash(stamp) => {
            let Stamp { time, replica } = stamp;
            Line::of_numbers(alloc, "zzted: Clash ", time, widened(replica))
        }
        Refusal::BoardsOver(boards) => Line::of_number(alloc, "zzted: BoardsOver ", boards as u64),
        Refusal::StatsOver { board, stats } => {
            Line::of_numbers(alloc, "zzted: StatsOver ", board as u64, stats as u64)
        }
        Refusal::BoardOver { board, bytes } => {
            Line::of_numbers(alloc, "zzted: BoardOver ", board as u64, bytes as u64)
        }
        _ => Line::of_text(alloc, plain_line(refusal).unwrap_or("")),
    }
}

/// The line with the length of a world file.
pub fn bytes_told(alloc: Global, count: usize) -> Result<String, AllocError>
    ensures { IfOk result (λ text. string_bytes text ≡ bytes_line count) }
{
    format!(in alloc; "{count} bytes\n")
}

/// The line that counts edits, and those that are held.
pub fn joined_told(alloc: Global, edits: usize, held: usize) -> Result<String, AllocError>
    ensures { IfOk result (λ text. string_bytes text ≡ held_line edits held) }
{
    format!(in alloc; "{edits} edits, {held} held\n")
}

/// The line that counts edits.
pub fn edits_told(alloc: Global, count: usize) -> Result<String, AllocError>
    ensures { IfOk result (λ text. string_bytes text ≡ edits_line count) }
{
    format!(in alloc; "{count} edits\n")
}
