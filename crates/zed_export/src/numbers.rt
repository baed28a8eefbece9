//! The numbers that the things of an exported world have.
ghost use Rattle.std.specs.Prelude.{◌≡◌, ◌<◌, ◌≤◌, length, map, IfOk, IfSome};
ghost use Rattle.std.specs.List.{All};
ghost use Rattle.zed_edit.specs.Numbers.{alive_boards, boards_there};
ghost use Rattle.zed_laws.specs.NameOrder.{IsOrdered};
ghost use Rattle.zed_view.specs.View.{board_at};
ghost use Rattle.zed_export.specs.ByNumber.{AreByNumber};
ghost use Rattle.zed_export.specs.Fields.{board_names as names_of_boards, stat_names as names_of_stats, place_among, place_or_0, exit_place, stat_place};

use smallvec::SmallVec;
use std::alloc::{AllocError, Global};
use std::marker::Model;
use zed_document::View;
use zed_types::{BoardId, Name, StatId};

/// The places in the view of the boards that aren't removed, in the order of their numbers. It goes through the boards once, and takes
/// no memory.
pub(crate) fn boards_by_number(alloc: Global, view: &View) -> SmallVec<usize, 102>
    requires ordered { IsOrdered view.now }
    requires few { length (alive_boards view.now) ≤ 101 }
    ensures { AreByNumber view.now result.items }
{
    view.first_boards(alloc, None)
}

/// The names of things that aren't removed, in their order. Contracts see the list. A name is found
/// by binary search.
#[derive(Drop)]
pub(crate) struct Names {
    names: Vec<Name>,
}

impl Model for Names {
    ghost use Rattle.std.specs.Prelude.{List};
    ghost use Rattle.zed_types.specs.declared.names.Name.{Name as TheName};
    ghost use Rattle.zed_types.specs.Names.{NamesRise};

    ghost Value = { List TheName };

    ghost view = { λ n. n.names.items };

    ghost invariant = { λ n. NamesRise (λ name. name) n.names.items };
}

impl Names {
    fn place_of(&self, name: Name) -> Option<usize>
        ensures result { result ≡ place_among self.now name }
        ensures within { IfSome result (λ n. n < length self.now) }
    {
        self.names.binary_search(&name).ok()
    }
}

/// The names of the boards that aren't removed, by number. Contracts see the list. A second list
/// has the names in their own order, each with its number, so that a name is found by binary
/// search.
#[derive(Drop)]
pub(crate) struct BoardNames {
    by_number: Vec<Name>,
    names: Names,
    numbers: Vec<Option<usize>>,
}

impl Model for BoardNames {
    ghost use Rattle.std.specs.Prelude.{List};
    ghost use Rattle.zed_types.specs.declared.names.Name.{Name as TheName};
    ghost use Rattle.zed_export.specs.ByNumber.{AreBeside};

    ghost Value = { List TheName };

    ghost view = { λ n. n.by_number.items };

    ghost invariant = { λ n. AreBeside n.by_number.items n.names n.numbers.items };
}

impl BoardNames {
    pub(crate) fn len(&self) -> usize
        ensures { result ≡ length self.now }
    {
        self.by_number.len()
    }

    fn place_of(&self, name: Name) -> Option<usize>
        ensures result { result ≡ place_among self.now name }
        ensures within { IfSome result (λ n. n < length self.now) }
    {
        match self.names.place_of(name) {
            Some(k) => self.numbers[k],
            None => None,
        }
    }
}

/// The names of the boards that aren't removed, in the order in which these were made.
fn names_there(alloc: Global, view: &View) -> Result<Names, AllocError>
    requires { IsOrdered view.now }
    ensures { IfOk result (λ names. names ≡ map (λ b. b.id.name) (boards_there view.now)) }
{
    let mut names = Vec::new(alloc);
    for i in 0..view.boards() {
        let (id, board) = view.board(i);
        if !board.is_removed() {
            names.push(id.name)?;
        }
    }
    Ok(Names { names })
}

/// The names of boards of these places.
fn names_at(alloc: Global, view: &View, places: &[usize]) -> Result<Vec<Name>, AllocError>
    requires { All (λ i. i < length view.now.boards) places.now }
    ensures { IfOk result (λ names. names.items ≡ map (λ i. (board_at view.now i).id.name) places.now) }
{
    let mut names = Vec::new(alloc);
    for i in places {
        let (id, _) = view.board(*i);
        names.push(id.name)?;
    }
    Ok(names)
}

/// The place of a name among others.
fn place_in(names: &[Name], name: Name) -> Option<usize>
    ensures { result ≡ place_among names.now name }
{
    names.iter().position(|other| *other == name)
}

/// The place of each of these names among others.
fn places_of(
    alloc: Global,
    names: &[Name],
    others: &[Name],
) -> Result<Vec<Option<usize>>, AllocError>
    ensures { IfOk result (λ places. places.items ≡ map (place_among others.now) names.now) }
{
    let mut places = Vec::new(alloc);
    for name in names {
        places.push(place_in(others, *name))?;
    }
    Ok(places)
}

/// The names of the boards that aren't removed, by number. These are their places by number.
pub(crate) fn board_names(
    alloc: Global,
    view: &View,
    places: &[usize],
) -> Result<BoardNames, AllocError>
    requires ordered { IsOrdered view.now }
    requires places { AreByNumber view.now places.now }
    ensures { IfOk result (λ names. names ≡ names_of_boards view.now) }
{
    let by_number = names_at(alloc, view, places)?;
    let names = names_there(alloc, view)?;
    let numbers = places_of(alloc, &names.names, &by_number)?;
    Ok(BoardNames {
        by_number,
        names,
        numbers,
    })
}

/// The names of the stats of a board that aren't removed, by number.
pub(crate) fn stat_names(alloc: Global, view: &View, i: usize) -> Result<Names, AllocError>
    requires board { i < length view.now.boards }
    requires ordered { IsOrdered view.now }
    ensures { IfOk result (λ names. names ≡ names_of_stats (board_at view.now i)) }
{
    let mut names = Vec::new(alloc);
    for j in 0..view.stats(i) {
        let (id, stat) = view.stat(i, j);
        if !stat.removed {
            names.push(id.name)?;
        }
    }
    Ok(Names { names })
}

/// The number of a board, or 0 if it is removed.
pub(crate) fn board_number(names: &BoardNames, board: BoardId) -> u8
    requires { length names.now ≤ 101 }
    ensures { result ≡ place_or_0 names.now board }
{
    match names.place_of(board.name) {
        Some(place) => place as u8,
        None => 0,
    }
}

/// The number of the board behind an exit, or 0 if there is none.
pub(crate) fn exit_number(names: &BoardNames, exit: Option<BoardId>) -> u8
    requires { length names.now ≤ 101 }
    ensures { result ≡ exit_place names.now exit }
{
    match exit {
        Some(board) => board_number(names, board),
        None => 0,
    }
}

/// The number of a stat on its board, if it is there.
pub(crate) fn stat_number(names: &Names, stat: Option<StatId>) -> Option<u8>
    requires { length names.now ≤ 151 }
    ensures { result ≡ stat_place names.now stat }
{
    match names.place_of(stat?.name) {
        Some(place) => Some(place as u8),
        None => None,
    }
}
