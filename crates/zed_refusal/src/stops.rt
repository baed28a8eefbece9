//! Refusals of the layers below as stops of a command, for `map_err`.
ghost use Rattle.std.specs.Prelude.{◌≡◌};
ghost use Rattle.zed_refusal.specs.Stops.{action_stop, document_stop, export_stop, file_stop, world_stop};

use crate::reason::Reason;
use zed_action::ActionError;
use zed_document::DocumentError;
use zed_driver::Stop;
use zed_editfile::EditFileError;
use zed_export::ExportError;
use zed_world::WorldError;

/// Why a command stops at an edit file.
pub fn file_stop(error: EditFileError) -> Stop<Reason>
    ensures { result ≡ file_stop error }
{
    match error {
        EditFileError::Memory => Stop::Memory,
        EditFileError::Magic => Stop::Refused(Reason::Magic),
        EditFileError::NewVersion => Stop::Refused(Reason::NewVersion),
        EditFileError::OtherWorld => Stop::Refused(Reason::OtherWorld),
        EditFileError::RecordLength => Stop::Refused(Reason::RecordLength),
        EditFileError::BadEdit(cause) => Stop::Refused(Reason::BadEdit(cause)),
        EditFileError::CutShort => Stop::Refused(Reason::CutShort),
    }
}

/// Why it stops at a document.
pub fn document_stop(error: DocumentError) -> Stop<Reason>
    ensures { result ≡ document_stop error }
{
    match error {
        DocumentError::Memory => Stop::Memory,
        DocumentError::OtherWorld => Stop::Refused(Reason::OtherWorld),
        DocumentError::BadEdit(cause) => Stop::Refused(Reason::BadEdit(cause)),
        DocumentError::Clash(stamp) => Stop::Refused(Reason::Clash(stamp)),
        DocumentError::Stale => Stop::Refused(Reason::Stale),
        DocumentError::NoSuch => Stop::Refused(Reason::NoSuch),
        DocumentError::OutOfRange => Stop::Refused(Reason::OutOfRange),
        DocumentError::ClockSpent => Stop::Refused(Reason::ClockSpent),
    }
}

/// Why it stops at a world file.
pub fn world_stop(error: WorldError) -> Stop<Reason>
    ensures { result ≡ world_stop error }
{
    match error {
        WorldError::Memory => Stop::Memory,
        WorldError::NotZzt => Stop::Refused(Reason::NotZzt),
        WorldError::TooManyBoards => Stop::Refused(Reason::TooManyBoards),
        WorldError::Truncated => Stop::Refused(Reason::Truncated),
        WorldError::BadBoardSize => Stop::Refused(Reason::BadBoardSize),
        WorldError::TooManyStats => Stop::Refused(Reason::TooManyStats),
        WorldError::BadShare => Stop::Refused(Reason::BadShare),
        WorldError::BoardOver { board, bytes } => {
            Stop::Refused(Reason::BoardOver { board, bytes })
        }
    }
}

/// Why it stops at an action.
pub fn action_stop(error: ActionError) -> Stop<Reason>
    ensures { result ≡ action_stop error }
{
    match error {
        ActionError::BadAction => Stop::Refused(Reason::BadAction),
        ActionError::Document(error) => document_stop(error),
    }
}

/// Why it stops at an export.
pub fn export_stop(error: ExportError) -> Stop<Reason>
    ensures { result ≡ export_stop error }
{
    match error {
        ExportError::Memory => Stop::Memory,
        ExportError::Stale => Stop::Refused(Reason::Stale),
        ExportError::NoWorld => Stop::Refused(Reason::NoWorld),
        ExportError::BoardsOver(boards) => Stop::Refused(Reason::BoardsOver(boards)),
        ExportError::StatsOver { board, stats } => {
            Stop::Refused(Reason::StatsOver { board, stats })
        }
        ExportError::BoardOver { board, bytes } => {
            Stop::Refused(Reason::BoardOver { board, bytes })
        }
    }
}
