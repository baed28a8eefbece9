//! Filters in a document: boards by their names.
ghost use Rattle.std.specs.Prelude.{◌≡◌, false};
ghost use Rattle.zed_op.specs.declared.thing.Thing.TheVariants.{Board as the_board};
ghost use Rattle.zed_edit.specs.Document.{has};
ghost use Rattle.zed_edit.specs.Replay.{replay};
ghost use Rattle.zed_filter.specs.Sought.{board_sought, cell_at, cell_sought, chosen_board, named_board, numbered_board, place_of, sought_of as sought_in};

use crate::error::FilterError;
use crate::filter::{BoardChoice, Filter};
use zed_document::{Document, View};
use zed_types::{BoardId, COLUMNS, Place, ROWS, Stamp};

/// A cell of a board.
#[derive(Clone, Copy)]
pub(crate) struct Cell {
    pub(crate) board: BoardId,
    pub(crate) place: Place,
}

/// What a filter asks for.
#[derive(Clone, Copy)]
pub struct Sought {
    pub(crate) board: Option<BoardId>,
    pub(crate) cell: Option<Cell>,
    pub(crate) replica: Option<u16>,
    pub(crate) since: Option<Stamp>,
    pub(crate) until: Option<Stamp>,
}

// The board of today's number.
fn numbered_board(document: &Document, number: u16) -> Result<BoardId, FilterError>
    requires { document.now.is_stale ≡ false }
    ensures { result ≡ numbered_board (replay document.now.edits) number }
{
    match document.board(usize::from(number)) {
        Ok(Some(board)) => Ok(board),
        Ok(None) => Err(FilterError::NoBoard),
        // a document that isn't stale refuses nothing
        Err(_) => Err(FilterError::NoBoard),
    }
}

// Whether a board was made, removed or not.
fn was_made(view: &View, board: BoardId) -> bool
    ensures { result ≡ has view.now (the_board board) }
{
    for i in 0..view.boards() {
        let (id, _) = view.board(i);
        if id == board {
            return true;
        }
    }
    false
}

// The board of a name.
fn named_board(document: &Document, board: BoardId) -> Result<BoardId, FilterError>
    requires { document.now.is_stale ≡ false }
    ensures { result ≡ named_board (replay document.now.edits) board }
{
    match document.view() {
        Ok(view) => {
            if was_made(&view, board) {
                Ok(board)
            } else {
                Err(FilterError::NoBoard)
            }
        }
        // a document that isn't stale refuses nothing
        Err(_) => Err(FilterError::NoBoard),
    }
}

// The board that is chosen.
fn chosen_board(document: &Document, choice: BoardChoice) -> Result<BoardId, FilterError>
    requires { document.now.is_stale ≡ false }
    ensures { result ≡ chosen_board (replay document.now.edits) choice }
{
    match choice {
        BoardChoice::Number(number) => numbered_board(document, number),
        BoardChoice::Name(board) => named_board(document, board),
    }
}

// The place of a column and a row.
fn place_of(x: u16, y: u16) -> Result<Place, FilterError>
    ensures { result ≡ place_of x y }
{
    if 1 <= x && usize::from(x) <= COLUMNS && 1 <= y && usize::from(y) <= ROWS {
        Ok(Place {
            x: x as u8,
            y: y as u8,
        })
    } else {
        Err(FilterError::OutOfRange)
    }
}

fn board_sought(
    document: &Document,
    choice: Option<BoardChoice>,
) -> Result<Option<BoardId>, FilterError>
    requires { document.now.is_stale ≡ false }
    ensures { result ≡ board_sought (replay document.now.edits) choice }
{
    match choice {
        Some(choice) => match chosen_board(document, choice) {
            Ok(board) => Ok(Some(board)),
            Err(refusal) => Err(refusal),
        },
        None => Ok(None),
    }
}

fn cell_at(document: &Document, number: u16, x: u16, y: u16) -> Result<Cell, FilterError>
    requires { document.now.is_stale ≡ false }
    ensures { result ≡ cell_at (replay document.now.edits) number x y }
{
    match (place_of(x, y), numbered_board(document, number)) {
        (Err(refusal), _) | (Ok(_), Err(refusal)) => Err(refusal),
        (Ok(place), Ok(board)) => Ok(Cell { board, place }),
    }
}

fn cell_sought(
    document: &Document,
    cell: Option<(u16, u16, u16)>,
) -> Result<Option<Cell>, FilterError>
    requires { document.now.is_stale ≡ false }
    ensures { result ≡ cell_sought (replay document.now.edits) cell }
{
    match cell {
        Some((number, x, y)) => match cell_at(document, number, x, y) {
            Ok(cell) => Ok(Some(cell)),
            Err(refusal) => Err(refusal),
        },
        None => Ok(None),
    }
}

/// What a filter asks for in a document that isn't stale. Refusals, in order: NoBoard if there is
/// no board of its number, or none of its name was made; OutOfRange if its cell is outside the table;
/// NoBoard if the cell's board isn't there.
pub fn sought_of(document: &Document, filter: &Filter) -> Result<Sought, FilterError>
    requires { document.now.is_stale ≡ false }
    ensures { result ≡ sought_in (replay document.now.edits) filter.now }
{
    let board = match board_sought(document, filter.board) {
        Ok(board) => board,
        Err(refusal) => return Err(refusal),
    };
    match cell_sought(document, filter.cell) {
        Ok(cell) => Ok(Sought {
            board,
            cell,
            replica: filter.replica,
            since: filter.since,
            until: filter.until,
        }),
        Err(refusal) => Err(refusal),
    }
}
