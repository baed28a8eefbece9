//! Which edits pass filters: those about a board, about a cell, of a replica and of times.
ghost use Rattle.std.specs.Prelude.{◌≡◌, ◌<◌, ◌&&◌, length};
ghost use Rattle.std.specs.List.{list_any};
ghost use Rattle.zed_types.specs.Names.{same_board};
ghost use Rattle.zed_types.specs.Table.{is_inside as is_in_rectangle};
ghost use Rattle.zed_view.specs.View.{board_at};
ghost use Rattle.zed_filter.specs.Passing.{is_edit_of as is_edit_of_board, is_edit_of_cell as is_of_cell, is_of_board as is_of_that_board, is_of_stat as is_of_that_stat, is_on as is_on_board, made_board as made_that_board, passes as passes_all, passes_board as passes_that_board, passes_cell as passes_that_cell, passes_replica as passes_that_replica, passes_since as passes_that_start, passes_until as passes_that_end, sets_cell as sets_that_cell, worked_on as thing_worked_on};

use crate::sought::{Cell, Sought};
use zed_document::View;
use zed_edit::{Edit, Op, Thing};
use zed_types::{BoardId, Place, Rectangle, Stamp, StatId, TextId};

// The board, stat or text that an edit with this stamp works on.
fn worked_on(stamp: Stamp, op: &Op) -> Option<Thing>
    ensures { result ≡ thing_worked_on stamp op.now }
{
    match op {
        Op::BoardRemove(board) => Some(Thing::Board(*board)),
        Op::SetBoard(board, _) => Some(Thing::Board(*board)),
        Op::SetCells(board, _, _) => Some(Thing::Board(*board)),
        Op::StatAdd(board, _) => Some(Thing::Board(*board)),
        Op::StatRemove(stat) => Some(Thing::Stat(*stat)),
        Op::SetStat(stat, _) => Some(Thing::Stat(*stat)),
        Op::TextAdd => Some(Thing::Text(TextId::new(stamp, 0))),
        Op::TextInsert(text, _, _) => Some(Thing::Text(*text)),
        Op::TextDelete(text, _) => Some(Thing::Text(*text)),
        Op::Genesis(_) | Op::SetHeader(_) | Op::BoardAdd(_) => None,
    }
}

// Whether a thing is the stat of this name, or the text that it has.
fn is_of_stat(thing: Thing, id: StatId, text: Option<TextId>) -> bool
    ensures { result ≡ is_of_that_stat thing id text }
{
    match thing {
        Thing::Stat(stat) => id == stat,
        Thing::Text(wanted) => match text {
            Some(text) => text == wanted,
            None => false,
        },
        Thing::Board(_) | Thing::Element(_, _) => false,
    }
}

// Whether a thing is a stat of a board, or a text that a stat of it has.
fn is_of_stats(view: &View, i: usize, thing: Thing) -> bool
    requires { i < length view.now.boards }
    ensures { result ≡ list_any (λ s. is_of_that_stat thing s.id s.fields.text)
        (board_at view.now i).stats }
{
    for j in 0..view.stats(i) {
        let (id, stat) = view.stat(i, j);
        if is_of_stat(thing, id, stat.values.fields.text) {
            return true;
        }
    }
    false
}

// Whether a thing is a board, a stat of it, or a text that a stat of it has.
fn is_of_board(view: &View, i: usize, thing: Thing) -> bool
    requires { i < length view.now.boards }
    ensures { result ≡ is_of_that_board thing (board_at view.now i) }
{
    match thing {
        Thing::Board(wanted) => {
            let (id, _) = view.board(i);
            id == wanted
        }
        _ => is_of_stats(view, i, thing),
    }
}

// Whether this is the board of a name, and a thing is of it.
fn is_of_named(view: &View, i: usize, board: BoardId, thing: Thing) -> bool
    requires { i < length view.now.boards }
    ensures { result ≡ (same_board (board_at view.now i).id board
        && is_of_that_board thing (board_at view.now i)) }
{
    let (id, _) = view.board(i);
    id == board && is_of_board(view, i, thing)
}

// Whether there is a thing, and it is of the board of a name.
fn is_on(view: &View, board: BoardId, thing: Option<Thing>) -> bool
    ensures { result ≡ is_on_board view.now board thing }
{
    let Some(thing) = thing else {
        return false;
    };
    for i in 0..view.boards() {
        if is_of_named(view, i, board, thing) {
            return true;
        }
    }
    false
}

// Whether an edit made a board.
fn made_board(board: BoardId, edit: &Edit) -> bool
    ensures { result ≡ made_that_board board edit.now }
{
    board.name.stamp == edit.stamp
}

// Whether an edit is of a board.
fn is_edit_of(view: &View, board: BoardId, edit: &Edit) -> bool
    ensures { result ≡ is_edit_of_board view.now board edit.now }
{
    made_board(board, edit) || is_on(view, board, worked_on(edit.stamp, &edit.op))
}

// Whether a place is in a rectangle.
fn is_inside(cells: Rectangle, place: Place) -> bool
    ensures { result ≡ is_in_rectangle cells place }
{
    cells.left <= place.x
        && place.x <= cells.right
        && cells.top <= place.y
        && place.y <= cells.bottom
}

// Whether an op sets a cell of a board.
fn sets_cell(board: BoardId, place: Place, op: &Op) -> bool
    ensures { result ≡ sets_that_cell board place op.now }
{
    match op {
        Op::SetCells(other, cells, _) => *other == board && is_inside(*cells, place),
        _ => false,
    }
}

// Whether an edit is of a cell.
fn is_edit_of_cell(cell: Cell, edit: &Edit) -> bool
    ensures { result ≡ is_of_cell cell edit.now }
{
    made_board(cell.board, edit) || sets_cell(cell.board, cell.place, &edit.op)
}

fn passes_board(view: &View, board: Option<BoardId>, edit: &Edit) -> bool
    ensures { result ≡ passes_that_board view.now board edit.now }
{
    match board {
        Some(board) => is_edit_of(view, board, edit),
        None => true,
    }
}

fn passes_cell(cell: Option<Cell>, edit: &Edit) -> bool
    ensures { result ≡ passes_that_cell cell edit.now }
{
    match cell {
        Some(cell) => is_edit_of_cell(cell, edit),
        None => true,
    }
}

fn passes_replica(replica: Option<u16>, edit: &Edit) -> bool
    ensures { result ≡ passes_that_replica replica edit.now }
{
    match replica {
        Some(replica) => edit.stamp.replica == replica,
        None => true,
    }
}

fn passes_since(since: Option<Stamp>, edit: &Edit) -> bool
    ensures { result ≡ passes_that_start since edit.now }
{
    match since {
        Some(since) => !edit.stamp.is_before(since),
        None => true,
    }
}

fn passes_until(until: Option<Stamp>, edit: &Edit) -> bool
    ensures { result ≡ passes_that_end until edit.now }
{
    match until {
        Some(until) => !until.is_before(edit.stamp),
        None => true,
    }
}

/// Whether an edit is all that is asked for, in a document that shows this view.
pub fn passes(view: &View, sought: &Sought, edit: &Edit) -> bool
    ensures { result ≡ passes_all view.now sought.now edit.now }
{
    passes_replica(sought.replica, edit)
        && passes_since(sought.since, edit)
        && passes_until(sought.until, edit)
        && passes_board(view, sought.board, edit)
        && passes_cell(sought.cell, edit)
}
