//! Why a session refuses a call.
ghost use Rattle.std.specs.Prelude.{◌≡◌};
ghost use Rattle.zed_session.specs.declared.error.SessionError.TheVariants.{NoBoard as NoSuchBoard};
ghost use Rattle.zed_session.specs.Refusals.{export_refusal, play_refusal};
ghost use Rattle.zed_session.specs.Told.{link_refusal};

use thiserror::Error;
use zed_export::ExportError;
use zed_link::LinkError;
use zed_op::Cause;
use zed_play::PlayError;
use zed_screen::ScreenError;
use zed_types::Stamp;

/// Why a session refuses a call. Its texts are for whoever debugs; the program prints none of them.
#[derive(Clone, Copy, Debug, PartialEq, Eq, Error)]
pub enum SessionError {
    #[error("out of memory")]
    Memory,
    #[error("not an edit file")]
    Magic,
    #[error("an edit file of another version")]
    NewVersion,
    #[error("edits of another world")]
    OtherWorld,
    #[error("a record has an impossible length")]
    RecordLength,
    #[error("the edit breaks a rule: {0:?}")]
    BadEdit(Cause),
    #[error("the edit file ends inside its head or a record")]
    CutShort,
    #[error("another edit was made at time {} by replica {}", .0.time, .0.replica)]
    Clash(Stamp),
    #[error("memory ran out before: repair the document first")]
    Stale,
    #[error("no world was made yet")]
    NoWorld,
    #[error("there are {0} boards beside the title")]
    BoardsOver(usize),
    #[error("board {board} has {stats} stats beside the player")]
    StatsOver { board: usize, stats: usize },
    #[error("board {board} has {bytes} bytes")]
    BoardOver { board: usize, bytes: usize },
    #[error("no such board")]
    NoBoard,
    #[error("the playtest needs more words of chance")]
    NoWords,
    #[error("no playtest is running")]
    Over,
    #[error("the link failed")]
    LinkFault,
    #[error("the screen failed")]
    ScreenFault,
    #[error("the source of keys failed")]
    KeyFault,
    #[error("too many reads of a link")]
    TooManyTurns,
    #[error("no such link")]
    NoLink,
}

impl From<LinkError> for SessionError {
    ghost from_gives = { λ error refusal. refusal ≡ link_refusal error };

    fn from(error: LinkError) -> SessionError {
        match error {
            LinkError::Memory => SessionError::Memory,
            LinkError::Magic => SessionError::Magic,
            LinkError::NewVersion => SessionError::NewVersion,
            LinkError::OtherWorld => SessionError::OtherWorld,
            LinkError::RecordLength => SessionError::RecordLength,
            LinkError::BadEdit(cause) => SessionError::BadEdit(cause),
            LinkError::CutShort => SessionError::CutShort,
            LinkError::Clash(stamp) => SessionError::Clash(stamp),
            LinkError::Stale => SessionError::Stale,
            LinkError::LinkFault => SessionError::LinkFault,
            LinkError::TooManyTurns => SessionError::TooManyTurns,
        }
    }
}

impl From<ExportError> for SessionError {
    ghost from_gives = { λ error refusal. refusal ≡ export_refusal error };

    fn from(error: ExportError) -> SessionError {
        match error {
            ExportError::Memory => SessionError::Memory,
            ExportError::Stale => SessionError::Stale,
            ExportError::NoWorld => SessionError::NoWorld,
            ExportError::BoardsOver(boards) => SessionError::BoardsOver(boards),
            ExportError::StatsOver { board, stats } => SessionError::StatsOver { board, stats },
            ExportError::BoardOver { board, bytes } => SessionError::BoardOver { board, bytes },
        }
    }
}

impl From<PlayError> for SessionError {
    ghost from_gives = { λ error refusal. refusal ≡ play_refusal error };

    fn from(error: PlayError) -> SessionError {
        match error {
            PlayError::Memory => SessionError::Memory,
            PlayError::NoBoard => SessionError::NoBoard,
            PlayError::NoWords => SessionError::NoWords,
            PlayError::Over => SessionError::Over,
        }
    }
}

impl From<ScreenError> for SessionError {
    ghost from_gives = { λ _ refusal. refusal ≡ NoSuchBoard };

    fn from(error: ScreenError) -> SessionError {
        match error {
            ScreenError::NoBoard => SessionError::NoBoard,
        }
    }
}
