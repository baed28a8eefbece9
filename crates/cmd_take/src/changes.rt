//! What edits change of the boards that a base shows.
ghost use Rattle.std.specs.Prelude.{◌≡◌, ◌<◌, ◌+◌, IfOk, count_by, filter, length, sum_by};
ghost use Rattle.std.specs.List.{list_any};
ghost use Rattle.zed_view.specs.View.{board_at, stat_at};
ghost use Rattle.cmd_take.specs.Changes.{adds_stat as adds_a_stat, boards_removed as removes_boards, cells_of as area_of, cells_set as sets_cells, changes_program as changes_its_program, changes_stat as changes_that_stat, counts, gives_text as gives_a_text, is_changed, is_its_text as has_that_text, is_more, is_reprogrammed, registers, registers_set as sets_registers, removals, removes as removes_board, sets_property as sets_a_property};

use std::alloc::AllocError;
use zed_document::View;
use zed_edit::{Edit, Op};
use zed_types::{BoardId, Rectangle, StatId, StatSetting, TextId};

// The sum of two counts. It is refused where that is no number of 64 bits.
fn sum_of(count: usize, more: usize) -> Result<usize, AllocError>
    ensures { IfOk result (λ n. n ≡ count + more) }
{
    match count.checked_add(more) {
        Some(sum) => Ok(sum),
        None => Err(AllocError),
    }
}

// How many boards an op removes.
fn boards_removed(op: &Op) -> usize
    ensures { result ≡ removes_boards op.now }
{
    match op {
        Op::BoardRemove(_) => 1,
        _ => 0,
    }
}

/// How many boards edits remove.
pub(crate) fn removals(edits: &[Edit]) -> Result<usize, AllocError>
    ensures { IfOk result (λ n. n ≡ removals edits.now) }
{
    let mut count = 0;
    for edit in edits {
        count = sum_of(count, boards_removed(&edit.op))?;
    }
    Ok(count)
}

// Whether an op removes this board.
fn removes(board: BoardId, op: &Op) -> bool
    ensures { result ≡ removes_board board op.now }
{
    match op {
        Op::BoardRemove(removed) => *removed == board,
        _ => false,
    }
}

/// Whether edits remove a board.
pub(crate) fn is_removed(board: BoardId, edits: &[Edit]) -> bool
    ensures { result ≡ list_any (λ e. removes_board board e.op) edits.now }
{
    edits.iter().any(|edit| removes(board, &edit.op))
}

// How many registers of the header an op sets.
fn registers_set(op: &Op) -> usize
    ensures { result ≡ sets_registers op.now }
{
    match op {
        Op::SetHeader(_) => 1,
        _ => 0,
    }
}

/// How many registers of the header edits set.
pub(crate) fn registers_of(edits: &[Edit]) -> Result<usize, AllocError>
    ensures { IfOk result (λ n. n ≡ registers edits.now) }
{
    let mut count = 0;
    for edit in edits {
        count = sum_of(count, registers_set(&edit.op))?;
    }
    Ok(count)
}

/// How much edits change of a board.
#[derive(Clone, Copy)]
pub(crate) struct Counts {
    pub(crate) cells: usize,
    pub(crate) properties: usize,
    /// Those that were added, removed, or have another field than their text.
    pub(crate) stats: usize,
    /// Those of stats that the board had.
    pub(crate) programs: usize,
}

impl Counts {
    /// Whether that is more than cells.
    pub(crate) fn is_more(&self) -> bool
        ensures { result ≡ is_more self.now }
    {
        0 < self.properties || 0 < self.stats || 0 < self.programs
    }
}

// How many cells a rectangle has.
fn cells_of(cells: Rectangle) -> usize
    ensures { result ≡ area_of cells }
{
    let columns = usize::from(cells.right.saturating_sub(cells.left)) + 1;
    let rows = usize::from(cells.bottom.saturating_sub(cells.top)) + 1;
    columns * rows
}

// How many cells of a board an op sets.
fn cells_set(board: BoardId, op: &Op) -> usize
    ensures { result ≡ sets_cells board op.now }
{
    match op {
        Op::SetCells(drawn, cells, _) => { if *drawn == board { cells_of(*cells) } else { 0 } }
        _ => 0,
    }
}

// How many cells of a board edits set.
fn cells_in(board: BoardId, edits: &[Edit]) -> Result<usize, AllocError>
    ensures { IfOk result (λ n. n ≡ sum_by (λ e. sets_cells board e.op) edits.now) }
{
    let mut count = 0;
    for edit in edits {
        count = sum_of(count, cells_set(board, &edit.op))?;
    }
    Ok(count)
}

// Whether an op sets a property of a board.
fn sets_property(board: BoardId, op: &Op) -> bool
    ensures { result ≡ sets_a_property board op.now }
{
    match op {
        Op::SetBoard(changed, _) => *changed == board,
        _ => false,
    }
}

fn properties_in(board: BoardId, edits: &[Edit]) -> usize
    ensures { result ≡ count_by (λ e. sets_a_property board e.op) edits.now }
{
    edits
        .iter()
        .filter(|edit| sets_property(board, &edit.op))
        .count()
}

// Whether an op adds a stat to a board.
fn adds_stat(board: BoardId, op: &Op) -> bool
    ensures { result ≡ adds_a_stat board op.now }
{
    match op {
        Op::StatAdd(changed, _) => *changed == board,
        _ => false,
    }
}

fn added_in(board: BoardId, edits: &[Edit]) -> usize
    ensures { result ≡ count_by (λ e. adds_a_stat board e.op) edits.now }
{
    edits
        .iter()
        .filter(|edit| adds_stat(board, &edit.op))
        .count()
}

// Whether a setting gives a stat another text.
fn gives_text(setting: &StatSetting) -> bool
    ensures { result ≡ gives_a_text setting.now }
{
    match setting {
        StatSetting::Text(_) => true,
        _ => false,
    }
}

// Whether an op removes a stat, or sets a field of it beside its text.
fn changes_stat(id: StatId, op: &Op) -> bool
    ensures { result ≡ changes_that_stat id op.now }
{
    match op {
        Op::StatRemove(stat) => *stat == id,
        Op::SetStat(stat, setting) => *stat == id && !gives_text(setting),
        _ => false,
    }
}

// Whether edits change a stat of a board.
#[tactic(auto, unfolding(crate::specs::Changes::is_changed))]
fn is_changed(view: &View, i: usize, j: usize, edits: &[Edit]) -> bool
    requires board { i < length view.now.boards }
    requires stat { j < length (board_at view.now i).stats }
    ensures { result ≡ is_changed edits.now (stat_at (board_at view.now i) j) }
{
    let (id, _) = view.stat(i, j);
    edits.iter().any(|edit| changes_stat(id, &edit.op))
}

// How many of the stats that a board has edits change.
fn changed_in(view: &View, i: usize, edits: &[Edit]) -> usize
    requires { i < length view.now.boards }
    ensures { result ≡ length (filter (is_changed edits.now) (board_at view.now i).stats) }
{
    let mut count = 0;
    for j in 0..view.stats(i) {
        if is_changed(view, i, j, edits) {
            count += 1;
        }
    }
    count
}

// Whether a text is the one that a stat has.
fn is_its_text(own: Option<TextId>, text: TextId) -> bool
    ensures { result ≡ has_that_text own text }
{
    match own {
        Some(own) => own == text,
        None => false,
    }
}

// Whether an op changes the program of a stat with this text.
fn changes_program(id: StatId, own: Option<TextId>, op: &Op) -> bool
    ensures { result ≡ changes_its_program id own op.now }
{
    match op {
        Op::SetStat(stat, setting) => *stat == id && gives_text(setting),
        Op::TextInsert(text, _, _) => is_its_text(own, *text),
        Op::TextDelete(text, _) => is_its_text(own, *text),
        _ => false,
    }
}

// Whether edits change the program of a stat of a board.
#[tactic(auto, unfolding(crate::specs::Changes::is_reprogrammed))]
fn is_reprogrammed(view: &View, i: usize, j: usize, edits: &[Edit]) -> bool
    requires board { i < length view.now.boards }
    requires stat { j < length (board_at view.now i).stats }
    ensures { result ≡ is_reprogrammed edits.now (stat_at (board_at view.now i) j) }
{
    let (id, stat) = view.stat(i, j);
    let text = stat.values.fields.text;
    edits.iter().any(|edit| changes_program(id, text, &edit.op))
}

// How many of the stats that a board has get another program.
fn programs_in(view: &View, i: usize, edits: &[Edit]) -> usize
    requires { i < length view.now.boards }
    ensures { result ≡ length (filter (is_reprogrammed edits.now) (board_at view.now i).stats) }
{
    let mut count = 0;
    for j in 0..view.stats(i) {
        if is_reprogrammed(view, i, j, edits) {
            count += 1;
        }
    }
    count
}

/// How much edits change of a board. It is refused where a count is no number of 64 bits.
pub(crate) fn counts_of(view: &View, i: usize, edits: &[Edit]) -> Result<Counts, AllocError>
    requires { i < length view.now.boards }
    ensures { IfOk result (λ c. c ≡ counts (board_at view.now i) edits.now) }
{
    let (id, _) = view.board(i);
    let cells = cells_in(id, edits)?;
    let stats = sum_of(added_in(id, edits), changed_in(view, i, edits))?;
    Ok(Counts {
        cells,
        properties: properties_in(id, edits),
        stats,
        programs: programs_in(view, i, edits),
    })
}
