//! What a wish does, with the names of its things.
ghost use Rattle.std.specs.Prelude.{◌≡◌, false};
ghost use Rattle.zed_edit.specs.Replay.{replay};
ghost use Rattle.zed_action.specs.Deeds.{board_in, stat_in};
ghost use Rattle.cmd_set.specs.Deeds.{Comes, board_at, board_deed, deed_at_board, deed_at_stat, deed_of, exit_at, header_of, kept_in, kept_in_board, kept_in_world, of_board, of_place, of_start, of_stat, p3_of, shared_text, stat_at, stat_deed, stat_or_none, world_deed};

use std::alloc::Global;
use zed_document::{Document, DocumentError};
use zed_edit::Op;
use zed_set_words::{BoardPlace, BoardWish, P3Wish, StatPlace, StatWish, Wish, WorldWish};
use zed_types::{
    BoardByte, BoardId, BoardSetting, HeaderSetting, StatByte, StatId, StatSetting, TextId,
    ThirdParameter,
};

/// What a wish does: an edit, or two.
#[derive(Drop)]
pub(crate) enum Deed {
    One(Op),
    Two(Op, Op),
}

fn board_in(document: &Document, number: u16) -> Result<BoardId, DocumentError>
    requires { document.now.is_stale ≡ false }
    ensures { result ≡ board_in (replay document.now.edits) number }
{
    match document.board(usize::from(number))? {
        Some(board) => Ok(board),
        None => Err(DocumentError::NoSuch),
    }
}

fn stat_in(document: &Document, board: u16, number: u16) -> Result<StatId, DocumentError>
    requires { document.now.is_stale ≡ false }
    ensures { result ≡ stat_in (replay document.now.edits) board number }
{
    let board = board_in(document, board)?;
    match document.stat(board, usize::from(number))? {
        Some(stat) => Ok(stat),
        None => Err(DocumentError::NoSuch),
    }
}

fn board_at(document: &Document, place: BoardPlace) -> Result<BoardId, DocumentError>
    requires { document.now.is_stale ≡ false }
    ensures { result ≡ board_at (replay document.now.edits) place }
{
    match place {
        BoardPlace::Numbered(number) => board_in(document, number),
        BoardPlace::Named(board) => Ok(board),
    }
}

fn stat_at(document: &Document, place: StatPlace) -> Result<StatId, DocumentError>
    requires { document.now.is_stale ≡ false }
    ensures { result ≡ stat_at (replay document.now.edits) place }
{
    match place {
        StatPlace::Numbered(board, number) => stat_in(document, board, number),
        StatPlace::Named(stat) => Ok(stat),
    }
}

fn exit_at(document: &Document, place: Option<BoardPlace>) -> Result<Option<BoardId>, DocumentError>
    requires { document.now.is_stale ≡ false }
    ensures { result ≡ exit_at (replay document.now.edits) place }
{
    match place {
        Some(place) => {
            let board = board_at(document, place)?;
            Ok(Some(board))
        }
        None => Ok(None),
    }
}

fn stat_or_none(
    document: &Document,
    place: Option<StatPlace>,
) -> Result<Option<StatId>, DocumentError>
    requires { document.now.is_stale ≡ false }
    ensures { result ≡ stat_or_none (replay document.now.edits) place }
{
    match place {
        Some(place) => {
            let stat = stat_at(document, place)?;
            Ok(Some(stat))
        }
        None => Ok(None),
    }
}

/// The text of another stat, which has to have one.
fn shared_text(document: &Document, place: StatPlace) -> Result<TextId, DocumentError>
    requires { document.now.is_stale ≡ false }
    ensures { result ≡ shared_text (replay document.now.edits) place }
{
    let stat = stat_at(document, place)?;
    match document.text_of(stat)? {
        Some(text) => Ok(text),
        None => Err(DocumentError::NoSuch),
    }
}

fn header_of(
    alloc: Global,
    document: &Document,
    wish: WorldWish,
) -> Result<HeaderSetting, DocumentError>
    requires { document.now.is_stale ≡ false }
    ensures { Comes (kept_in_world wish.entry) result (header_of (replay document.now.edits) wish.entry) }
{
    match wish {
        WorldWish::Number(field, n) => Ok(HeaderSetting::Number(field, n)),
        WorldWish::Key(key, has) => Ok(HeaderSetting::Key(key, has)),
        WorldWish::Saved(is) => Ok(HeaderSetting::Saved(is)),
        WorldWish::CurrentBoard(place) => {
            let board = board_at(document, place)?;
            Ok(HeaderSetting::CurrentBoard(board))
        }
        WorldWish::Name(text) => match text.to_bytes(alloc) {
            Ok(name) => Ok(HeaderSetting::WorldName(name)),
            Err(_) => Err(DocumentError::Memory),
        },
        WorldWish::Flag(slot, text) => match text.to_bytes(alloc) {
            Ok(name) => Ok(HeaderSetting::Flag(slot, name)),
            Err(_) => Err(DocumentError::Memory),
        },
    }
}

fn of_board(board: BoardId, setting: BoardSetting) -> Deed
    ensures { result ≡ of_board board setting }
{
    Deed::One(Op::SetBoard(board, setting))
}

/// Where the player starts: a column and a row.
fn of_start(board: BoardId, x: u8, y: u8) -> Deed
    ensures { result ≡ of_start board x y }
{
    let first = BoardSetting::Byte(BoardByte::StartX, x);
    let second = BoardSetting::Byte(BoardByte::StartY, y);
    Deed::Two(Op::SetBoard(board, first), Op::SetBoard(board, second))
}

fn board_deed(
    alloc: Global,
    document: &Document,
    board: BoardId,
    wish: BoardWish,
) -> Result<Deed, DocumentError>
    requires { document.now.is_stale ≡ false }
    ensures { Comes (kept_in_board wish.entry) result
        (board_deed (replay document.now.edits) board wish.entry) }
{
    match wish {
        BoardWish::Byte(field, n) => Ok(of_board(board, BoardSetting::Byte(field, n))),
        BoardWish::Flag(field, is) => Ok(of_board(board, BoardSetting::Flag(field, is))),
        BoardWish::TimeLimit(n) => Ok(of_board(board, BoardSetting::TimeLimit(n))),
        BoardWish::Rank(n) => Ok(of_board(board, BoardSetting::Rank(n))),
        BoardWish::Exit(side, place) => {
            let to = exit_at(document, place)?;
            Ok(of_board(board, BoardSetting::Exit(side, to)))
        }
        BoardWish::Text(field, text) => match text.to_bytes(alloc) {
            Ok(text) => Ok(of_board(board, BoardSetting::Text(field, text))),
            Err(_) => Err(DocumentError::Memory),
        },
        BoardWish::Start(x, y) => Ok(of_start(board, x, y)),
    }
}

fn p3_of(document: &Document, wish: P3Wish) -> Result<ThirdParameter, DocumentError>
    requires { document.now.is_stale ≡ false }
    ensures { result ≡ p3_of (replay document.now.edits) wish }
{
    match wish {
        P3Wish::Byte(n) => Ok(ThirdParameter::Byte(n)),
        P3Wish::Board(place) => {
            let board = board_at(document, place)?;
            Ok(ThirdParameter::Board(board))
        }
    }
}

fn of_stat(stat: StatId, setting: StatSetting) -> Deed
    ensures { result ≡ of_stat stat setting }
{
    Deed::One(Op::SetStat(stat, setting))
}

/// Where a stat is: a column and a row.
fn of_place(stat: StatId, x: u8, y: u8) -> Deed
    ensures { result ≡ of_place stat x y }
{
    let first = StatSetting::Byte(StatByte::X, x);
    let second = StatSetting::Byte(StatByte::Y, y);
    Deed::Two(Op::SetStat(stat, first), Op::SetStat(stat, second))
}

fn stat_deed(document: &Document, stat: StatId, wish: StatWish) -> Result<Deed, DocumentError>
    requires { document.now.is_stale ≡ false }
    ensures { result ≡ stat_deed (replay document.now.edits) stat wish }
{
    match wish {
        StatWish::Byte(field, n) => Ok(of_stat(stat, StatSetting::Byte(field, n))),
        StatWish::Number(field, n) => Ok(of_stat(stat, StatSetting::Number(field, n))),
        StatWish::P3(p3) => {
            let target = p3_of(document, p3)?;
            Ok(of_stat(stat, StatSetting::P3(target)))
        }
        StatWish::Follower(place) => {
            let other = stat_or_none(document, place)?;
            Ok(of_stat(stat, StatSetting::Follower(other)))
        }
        StatWish::Leader(place) => {
            let other = stat_or_none(document, place)?;
            Ok(of_stat(stat, StatSetting::Leader(other)))
        }
        StatWish::Text(text) => Ok(of_stat(stat, StatSetting::Text(text))),
        StatWish::Shares(place) => {
            let text = shared_text(document, place)?;
            Ok(of_stat(stat, StatSetting::Text(Some(text))))
        }
        StatWish::At(x, y) => Ok(of_place(stat, x, y)),
    }
}

/// A register of the world is set.
fn world_deed(alloc: Global, document: &Document, wish: WorldWish) -> Result<Deed, DocumentError>
    requires { document.now.is_stale ≡ false }
    ensures { Comes (kept_in_world wish.entry) result (world_deed (replay document.now.edits) wish.entry) }
{
    let setting = header_of(alloc, document, wish)?;
    Ok(Deed::One(Op::SetHeader(setting)))
}

/// A property of a board is set.
fn deed_at_board(
    alloc: Global,
    document: &Document,
    place: BoardPlace,
    wish: BoardWish,
) -> Result<Deed, DocumentError>
    requires { document.now.is_stale ≡ false }
    ensures { Comes (kept_in_board wish.entry) result
        (deed_at_board (replay document.now.edits) place wish.entry) }
{
    let board = board_at(document, place)?;
    board_deed(alloc, document, board, wish)
}

/// A field of a stat is set.
fn deed_at_stat(
    document: &Document,
    place: StatPlace,
    wish: StatWish,
) -> Result<Deed, DocumentError>
    requires { document.now.is_stale ≡ false }
    ensures { result ≡ deed_at_stat (replay document.now.edits) place wish }
{
    let stat = stat_at(document, place)?;
    stat_deed(document, stat, wish)
}

/// The deed of a wish. NoSuch if a board or a stat isn't there, or a text that is to be shared;
/// Memory only if bytes are kept.
#[tactic(auto, using(crate::proofs::Coming::comes_same))]
pub(crate) fn deed_of(alloc: Global, document: &Document, wish: Wish) -> Result<Deed, DocumentError>
    requires { document.now.is_stale ≡ false }
    ensures { Comes (kept_in wish.entry) result (deed_of (replay document.now.edits) wish.entry) }
{
    match wish {
        Wish::World(wish) => world_deed(alloc, document, wish),
        Wish::Board(place, wish) => deed_at_board(alloc, document, place, wish),
        Wish::Stat(place, wish) => deed_at_stat(document, place, wish),
    }
}
