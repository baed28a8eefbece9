//! What an action does, with the names of its things.
ghost use Rattle.std.specs.Prelude.{◌≡◌, false};
ghost use Rattle.zed_edit.specs.Replay.{replay};
ghost use Rattle.zed_action.specs.Deeds.{board_in, deed_of, exit_in, fields_of, insertion_of, name_in, rank_in, stat_in, target_in};

use crate::action::Action;
use zed_document::{Document, DocumentError};
use zed_edit::Op;
use zed_types::{
    BoardId, BoardSetting, BoardText, Bytes, Side, StatFields, StatId, TextId, ThirdParameter,
};

/// What an action does.
#[derive(Drop)]
pub(crate) enum Deed {
    /// An edit.
    Make(Op),
    /// Bytes go into a text, at a position.
    Insert(TextId, u32, Bytes),
    /// A stat gets a new text of these bytes.
    Start(StatId, Bytes),
    /// The bytes from one position of a text to another are deleted.
    Delete(TextId, u32, u32),
}

fn board_in(document: &Document, number: u16) -> Result<BoardId, DocumentError>
    requires { document.now.is_stale ≡ false }
    ensures { result ≡ board_in (replay document.now.edits) number }
{
    match document.board(usize::from(number))? {
        Some(board) => Ok(board),
        None => Err(DocumentError::NoSuch),
    }
}

fn stat_in(document: &Document, board: u16, number: u16) -> Result<StatId, DocumentError>
    requires { document.now.is_stale ≡ false }
    ensures { result ≡ stat_in (replay document.now.edits) board number }
{
    let board = board_in(document, board)?;
    match document.stat(board, usize::from(number))? {
        Some(stat) => Ok(stat),
        None => Err(DocumentError::NoSuch),
    }
}

/// The board that an exit leads to; 0 is none.
fn target_in(document: &Document, number: u16) -> Result<Option<BoardId>, DocumentError>
    requires { document.now.is_stale ≡ false }
    ensures { result ≡ target_in (replay document.now.edits) number }
{
    if number == 0 {
        return Ok(None);
    }
    let board = board_in(document, number)?;
    Ok(Some(board))
}

/// The fields of a new stat.
fn fields_of(x: u8, y: u8, cycle: i16) -> StatFields
    ensures { result ≡ fields_of x y cycle }
{
    StatFields {
        bytes: [x, y, 0, 0, 0, 0],
        numbers: [0, 0, cycle],
        p3: ThirdParameter::Byte(0),
        text: None,
    }
}

/// A board gets a name.
fn name_of(document: &Document, board: u16, name: Bytes) -> Result<Deed, DocumentError>
    requires { document.now.is_stale ≡ false }
    ensures { result ≡ name_in (replay document.now.edits) board name }
{
    let board = board_in(document, board)?;
    let setting = BoardSetting::Text(BoardText::Name, name);
    Ok(Deed::Make(Op::SetBoard(board, setting)))
}

/// A board gets an exit.
fn exit_of(document: &Document, board: u16, side: Side, to: u16) -> Result<Deed, DocumentError>
    requires { document.now.is_stale ≡ false }
    ensures { result ≡ exit_in (replay document.now.edits) board side to }
{
    let board = board_in(document, board)?;
    let to = target_in(document, to)?;
    let setting = BoardSetting::Exit(side, to);
    Ok(Deed::Make(Op::SetBoard(board, setting)))
}

/// A board gets a rank.
fn rank_of(document: &Document, board: u16, rank: u16) -> Result<Deed, DocumentError>
    requires { document.now.is_stale ≡ false }
    ensures { result ≡ rank_in (replay document.now.edits) board rank }
{
    let board = board_in(document, board)?;
    let setting = BoardSetting::Rank(rank);
    Ok(Deed::Make(Op::SetBoard(board, setting)))
}

/// Bytes go into the text of a stat, or into a new one.
fn insertion_of(
    stat: StatId,
    text: Option<TextId>,
    position: u32,
    bytes: Bytes,
) -> Result<Deed, DocumentError>
    ensures { result ≡ insertion_of stat text position bytes }
{
    match text {
        Some(text) => Ok(Deed::Insert(text, position, bytes)),
        None => {
            if position == 0 {
                Ok(Deed::Start(stat, bytes))
            } else {
                Err(DocumentError::OutOfRange)
            }
        }
    }
}

/// The deed of an action. It takes no memory.
pub(crate) fn deed_of(document: &Document, action: Action) -> Result<Deed, DocumentError>
    requires { document.now.is_stale ≡ false }
    ensures { result ≡ deed_of (replay document.now.edits) action }
{
    match action {
        Action::BoardAdd(name) => Ok(Deed::Make(Op::BoardAdd(name))),
        Action::BoardRemove(board) => {
            let board = board_in(document, board)?;
            Ok(Deed::Make(Op::BoardRemove(board)))
        }
        Action::BoardName(board, name) => name_of(document, board, name),
        Action::Exit(board, side, to) => exit_of(document, board, side, to),
        Action::Rank(board, rank) => rank_of(document, board, rank),
        Action::Cells(board, cells, tile) => {
            let board = board_in(document, board)?;
            Ok(Deed::Make(Op::SetCells(board, cells, tile)))
        }
        Action::StatAdd { board, x, y, cycle } => {
            let board = board_in(document, board)?;
            Ok(Deed::Make(Op::StatAdd(board, fields_of(x, y, cycle))))
        }
        Action::StatRemove { board, stat } => {
            let stat = stat_in(document, board, stat)?;
            Ok(Deed::Make(Op::StatRemove(stat)))
        }
        Action::Insert {
            board,
            stat,
            position,
            bytes,
        } => {
            let stat = stat_in(document, board, stat)?;
            let text = document.text_of(stat)?;
            insertion_of(stat, text, position, bytes)
        }
        Action::Delete {
            board,
            stat,
            from,
            to,
        } => {
            let stat = stat_in(document, board, stat)?;
            match document.text_of(stat)? {
                Some(text) => Ok(Deed::Delete(text, from, to)),
                None => Err(DocumentError::NoSuch),
            }
        }
    }
}
