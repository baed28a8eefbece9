//! What words wish.
ghost use Rattle.std.specs.Prelude.{◌≡◌, ◌+◌, ◌≤◌, length};
ghost use Rattle.zed_set_words.specs.Readers.{named as named_in, rows_of, words_of};
ghost use Rattle.zed_set_words.specs.Rows as rows;
ghost use Rattle.zed_set_words.specs.Values.{name_of};

use crate::bad::{BadWord, Expected};
use crate::board::{BoardState, board_behind, board_expected, board_rows, board_said};
use crate::numerals::short;
use crate::place::{board_place, name};
use crate::stat::{StatState, stat_behind, stat_expected, stat_rows, stat_said};
use crate::wishes::{BoardPlace, StatPlace, Wish};
use crate::world::{WorldState, world_expected, world_rows, world_said};
use zed_types::StatId;

/// What the next word has to say.
#[derive(Clone, Copy)]
pub(crate) enum State {
    /// Of what something is to be set.
    Thing,
    World(WorldState),
    /// Which board.
    Board,
    Property(BoardPlace, BoardState),
    /// Which stat, or the number of its board.
    Stat,
    /// The number of a stat on the board of this number.
    StatNumber(u16),
    Field(StatPlace, StatState),
}

const THINGS: [(&str, State); 4] = [
    ("world", State::World(WorldState::Register)),
    ("header", State::World(WorldState::Register)),
    ("board", State::Board),
    ("stat", State::Stat),
];

/// What stands beside a word in a table.
fn named<T: Copy>(rows: &[(&'static str, T)], word: &str) -> Option<T>
    ensures { result ≡ named_in (rows_of rows.now) word.now }
{
    for row in rows {
        if word == row.0 {
            return Some(row.1);
        }
    }
    None
}

fn in_world(state: WorldState, word: &str) -> Option<State>
    ensures { result ≡ rows.in_world state word.now }
{
    Some(State::World(named(world_rows(state), word)?))
}

fn on_board(board: BoardPlace, state: BoardState, word: &str) -> Option<State>
    ensures { result ≡ rows.on_board board state word.now }
{
    match named(board_rows(state), word) {
        Some(state) => Some(State::Property(board, state)),
        None => Some(State::Property(board, board_behind(state, word)?)),
    }
}

fn of_stat(stat: StatPlace, state: StatState, word: &str) -> Option<State>
    ensures { result ≡ rows.of_stat stat state word.now }
{
    match named(stat_rows(state), word) {
        Some(state) => Some(State::Field(stat, state)),
        None => Some(State::Field(stat, stat_behind(state, word)?)),
    }
}

/// A stat by its name, or the number of its board.
fn stat_or_board(word: &str) -> Option<State>
    ensures { result ≡ rows.stat_or_board (name_of word.now) word.now }
{
    match name(word) {
        Some(name) => Some(State::Field(StatPlace::Named(StatId { name }), StatState::Field)),
        None => Some(State::StatNumber(short(word)?)),
    }
}

/// What a word leads to, if more has to be said.
fn next(state: State, word: &str) -> Option<State>
    ensures { result ≡ rows.next state word.now }
{
    match state {
        State::Thing => named(&THINGS, word),
        State::World(state) => in_world(state, word),
        State::Board => Some(State::Property(board_place(word)?, BoardState::Property)),
        State::Property(board, state) => on_board(board, state, word),
        State::Stat => stat_or_board(word),
        State::StatNumber(board) => {
            Some(State::Field(StatPlace::Numbered(board, short(word)?), StatState::Field))
        }
        State::Field(stat, state) => of_stat(stat, state, word),
    }
}

/// What is wished, if a word says the value.
fn said<'a>(state: State, word: &'a str) -> Option<Wish<'a>>
    ensures { result ≡ rows.said state word.now }
{
    match state {
        State::World(state) => Some(Wish::World(world_said(state, word)?)),
        State::Property(board, state) => Some(Wish::Board(board, board_said(state, word)?)),
        State::Field(stat, state) => Some(Wish::Stat(stat, stat_said(stat, state, word)?)),
        _ => None,
    }
}

/// What may be in the place of a word.
fn expected(state: State) -> Expected
    ensures { result ≡ rows.expected state }
{
    match state {
        State::Thing => Expected::Thing,
        State::World(state) => world_expected(state),
        State::Board => Expected::BoardPlace,
        State::Property(_, state) => board_expected(state),
        State::Stat => Expected::StatPlace,
        State::StatNumber(_) => Expected::StatNumber,
        State::Field(_, state) => stat_expected(state),
    }
}

/// A wish, if no word is left.
fn ended<'a>(wish: Wish<'a>, words: &[&str], at: usize) -> Result<Wish<'a>, BadWord>
    ensures { result ≡ rows.ended (words_of words.now) at wish.entry }
{
    if words.is_empty() {
        Ok(wish)
    } else {
        Err(BadWord {
            at,
            expected: Expected::End,
        })
    }
}

/// What is wished by the words from here on, where so many were before them.
#[tactic(auto, unfolding(crate::specs::Rows::reading))]
fn reading<'a>(state: State, words: &[&'a str], at: usize) -> Result<Wish<'a>, BadWord>
    requires { at + length words.now ≤ 18446744073709551615 }
    ensures { result ≡ rows.reading (words_of words.now) at state }
{
    let [word, rest @ ..] = words else {
        return Err(BadWord {
            at,
            expected: expected(state),
        });
    };
    if let Some(wish) = said(state, word) {
        return ended(wish, rest, at + 1);
    }
    match next(state, word) {
        Some(state) => reading(state, rest, at + 1),
        None => Err(BadWord {
            at,
            expected: expected(state),
        }),
    }
}

/// What is to be set, and where: `world` and a register, `board`, a board and a property, or
/// `stat`, a stat and a field; then the value. docs/SET.md has the table of all words. A board or a
/// stat is given by its number or by its name.
///
/// # Errors
/// The first wrong word, and what may be in its place.
#[tactic(auto, unfolding(crate::specs::Rows::wish_of))]
pub fn wish<'a>(words: &[&'a str]) -> Result<Wish<'a>, BadWord>
    ensures { result ≡ rows.wish_of (words_of words.now) }
{
    reading(State::Thing, words, 0)
}
