//! The boards on which each stat may be, so that a stat is found without looking at all boards.
//! Each stat is listed with its board, normally one. After a refused growth a stat may also be
//! listed with a board that doesn't have it; that changes nothing. The board of the stat that was
//! looked for last is known.

ghost use Rattle.std.specs.Prelude.{◌≡◌, ◌∷◌, [], true, false, IfSome, OnOk, OnErr, IsSorted};
ghost use Rattle.std.specs.Option.{option_map_or};
ghost use Rattle.std.specs.Map.{keys_of};
ghost use Rattle.zed_op.specs.Growth.{may_grow};
ghost use Rattle.zed_laws.specs.Winners.{changes_stat};
ghost use Rattle.zed_stats.specs.Stats.{has};
ghost use Rattle.zed_live.specs.Board.{stat_changed};
ghost use Rattle.zed_live.specs.Boards.{board_cmp, board_in, home_in, change as changed, change_all};
ghost use Rattle.zed_live.specs.Listed.{is_listed, boards_with, StayListed, AreOn, AreMadeOn, IsAddedOn, AreKept};

use crate::board::LiveBoard;
use indexmap::IndexMap;
use std::alloc::{AllocError, Global};
use std::collections::BTreeSet;
use std::marker::Model;
use zed_edit::{Board, Edit, Op, Stat};
use zed_stats::{find, seek};
use zed_types::{BoardId, Name, Stamp, StatId};

/// No name of a board comes before this one.
const FIRST: BoardId = BoardId {
    name: Name {
        stamp: Stamp {
            time: 0,
            replica: 0,
        },
        index: 0,
    },
};

/// Stats, each with a board.
#[derive(Drop)]
pub(crate) struct Homes {
    pairs: BTreeSet<(StatId, BoardId)>,
    // the stat that was sought last, with its board, if it is listed with that alone
    only: Option<(StatId, BoardId)>,
}

impl Model for Homes {
    ghost use Rattle.zed_live.specs.Listed.{Homes, IsOnly};

    ghost Value = { Homes };

    ghost view = { λ h. h.pairs.keys };

    ghost invariant = { λ h. IsOnly h.only h.pairs.keys };
}

impl Homes {
    /// No stat is listed.
    pub(crate) fn new(alloc: Global) -> Homes
        ensures { result ≡ [] }
    {
        Homes {
            pairs: BTreeSet::new(alloc),
            only: None,
        }
    }

    /// The board that a stat is listed with alone, if it is the stat that was sought last.
    fn known(&self, stat: StatId) -> Option<BoardId>
        ensures { IfSome result (λ b. boards_with stat self.now ≡ b ∷ []) }
    {
        match self.only {
            Some((of, board)) => { if of == stat { Some(board) } else { None } }
            None => None,
        }
    }
}

/// The board that a stat is listed with, if it is with one alone.
fn one_home(pairs: &BTreeSet<(StatId, BoardId)>, stat: StatId) -> Option<BoardId>
    ensures { IfSome result (λ b. boards_with stat pairs.now.keys ≡ b ∷ []) }
{
    let mut one = None;
    for home in pairs.range((stat, FIRST)..) {
        if home.0 != stat {
            return one;
        }
        if one.is_some() {
            return None;
        }
        one = Some(home.1);
    }
    one
}

/// The board that a stat is listed with, if it is with one alone, which is known from here on. Nothing that is listed changes.
pub(crate) fn seek_home(homes: &mut Homes, stat: StatId) -> Option<BoardId>
    ensures { homes.new ≡ homes.old }
{
    if let Some(board) = homes.known(stat) {
        return Some(board);
    }
    let one = one_home(&homes.pairs, stat);
    if let Some(board) = one {
        homes.only = Some((stat, board));
    }
    one
}

/// Puts a pair in. What was there stays.
fn put(
    pairs: &mut BTreeSet<(StatId, BoardId)>,
    stat: StatId,
    board: BoardId,
) -> Result<(), AllocError>
    ensures ok { OnOk result (is_listed stat board pairs.new.keys ≡ true) }
    ensures kept { StayListed pairs.old.keys pairs.new.keys }
{
    pairs.insert((stat, board))?;
    Ok(())
}

/// Lists a stat with a board. What was listed stays.
fn list(homes: &mut Homes, stat: StatId, board: BoardId) -> Result<(), AllocError>
    ensures ok { OnOk result (is_listed stat board homes.new ≡ true) }
    ensures kept { StayListed homes.old homes.new }
{
    homes.only = None;
    put(&mut homes.pairs, stat, board)
}

/// Lists the stats that a board is made with. What was listed stays, and with Memory some of them may be.
fn list_stats(homes: &mut Homes, board: BoardId, stats: &[Stat]) -> Result<(), AllocError>
    ensures ok { OnOk result (AreOn board stats.now homes.new) }
    ensures kept { StayListed homes.old homes.new }
{
    for stat in stats {
        list(homes, stat.id, board)?;
    }
    Ok(())
}

/// Lists the stats that boards are made with. What was listed stays, and with Memory some of them may be.
pub(crate) fn list_made(homes: &mut Homes, boards: &[Board]) -> Result<(), AllocError>
    ensures ok { OnOk result (AreMadeOn boards.now homes.new) }
    ensures kept { StayListed homes.old homes.new }
{
    for board in boards {
        list_stats(homes, board.id, board.stats.as_slice())?;
    }
    Ok(())
}

/// Lists the stat that an edit of a board adds, if it adds one.
pub(crate) fn list_added(homes: &mut Homes, board: BoardId, edit: &Edit) -> Result<(), AllocError>
    ensures ok { OnOk result (IsAddedOn board edit.now.stamp edit.now.op homes.new) }
    ensures kept { StayListed homes.old homes.new }
    ensures memory_only_when { OnErr result (may_grow edit.now.op ≡ true) }
{
    match &edit.op {
        Op::StatAdd(_, _) => list(homes, StatId::new(edit.stamp, 0), board),
        _ => Ok(()),
    }
}

/// Whether a stat is on the board of a name. A likely place is looked at first.
fn is_on(
    entries: &IndexMap<BoardId, LiveBoard>,
    likely: usize,
    board: BoardId,
    stat: StatId,
) -> bool
    ensures { result
        ≡ option_map_or (λ b. has stat b.stats) (board_in board entries.now.entries) false }
{
    match find(entries, likely, board) {
        Some(found) => found.stats.has(stat),
        None => false,
    }
}

/// The first of the boards that a stat is listed with that has it.
fn first_home(
    pairs: &BTreeSet<(StatId, BoardId)>,
    entries: &IndexMap<BoardId, LiveBoard>,
    likely: usize,
    stat: StatId,
) -> Option<BoardId>
    requires { AreKept entries.now.entries pairs.now.keys }
    ensures { result ≡ home_in stat entries.now.entries }
{
    for home in pairs.range((stat, FIRST)..) {
        if home.0 != stat {
            return None;
        }
        if is_on(entries, likely, home.1, stat) {
            return Some(home.1);
        }
    }
    None
}

/// The board that a stat is on: the first of those that it is listed with that has it.
pub(crate) fn home_of(
    homes: &Homes,
    entries: &IndexMap<BoardId, LiveBoard>,
    likely: usize,
    stat: StatId,
) -> Option<BoardId>
    requires { AreKept entries.now.entries homes.now }
    ensures { result ≡ home_in stat entries.now.entries }
{
    match homes.known(stat) {
        Some(board) => {
            if is_on(entries, likely, board, stat) {
                Some(board)
            } else {
                None
            }
        }
        None => first_home(&homes.pairs, entries, likely, stat),
    }
}

/// Seeks a stat on the board of a name. Nothing of the boards changes.
pub(crate) fn hint_on(
    entries: &mut IndexMap<BoardId, LiveBoard>,
    last: &mut usize,
    board: BoardId,
    stat: StatId,
)
    ensures { entries.new.entries ≡ entries.old.entries }
{
    if let Some(i) = seek(entries, *last, board) {
        *last = i;
        if let Some(found) = entries.get_index_mut(i) {
            found.hint_stat(stat);
        }
    }
}

/// Puts an edit of a stat in on the board of a name, if that is there and has the stat.
fn change_on(
    entries: &mut IndexMap<BoardId, LiveBoard>,
    last: &mut usize,
    board: BoardId,
    edit: &Edit,
)
    ensures entries { entries.new.entries
        ≡ changed board (stat_changed edit.now.stamp edit.now.op) entries.old.entries }
    ensures keys { keys_of entries.new.entries ≡ keys_of entries.old.entries }
{
    if let Some(i) = seek(entries, *last, board) {
        *last = i;
        if let Some(found) = entries.get_index_mut(i) {
            found.change_stat(edit);
        }
    }
}

/// Puts an edit of one stat in on each board that it is listed with, if that has it.
fn pass_each(
    pairs: &BTreeSet<(StatId, BoardId)>,
    entries: &mut IndexMap<BoardId, LiveBoard>,
    last: &mut usize,
    stat: StatId,
    edit: &Edit,
)
    requires changes { changes_stat stat edit.now.op ≡ true }
    requires kept { AreKept entries.old.entries pairs.now.keys }
    ensures entries { entries.new.entries
        ≡ change_all (stat_changed edit.now.stamp edit.now.op) entries.old.entries }
    ensures sorted { IsSorted board_cmp (keys_of entries.new.entries) }
{
    for home in pairs.range((stat, FIRST)..) {
        if home.0 != stat {
            return;
        }
        change_on(entries, last, home.1, edit);
    }
}

/// Puts an edit of a stat in on each board that has it: no others are looked at than those that it is listed with. It takes no memory.
pub(crate) fn pass_listed(
    homes: &Homes,
    entries: &mut IndexMap<BoardId, LiveBoard>,
    last: &mut usize,
    stat: StatId,
    edit: &Edit,
)
    requires changes { changes_stat stat edit.now.op ≡ true }
    requires kept { AreKept entries.old.entries homes.now }
    ensures entries { entries.new.entries
        ≡ change_all (stat_changed edit.now.stamp edit.now.op) entries.old.entries }
    ensures sorted { IsSorted board_cmp (keys_of entries.new.entries) }
{
    match homes.known(stat) {
        Some(board) => change_on(entries, last, board, edit),
        None => pass_each(&homes.pairs, entries, last, stat, edit),
    }
}
