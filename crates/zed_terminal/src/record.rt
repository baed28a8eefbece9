//! A playtest as it is kept in two files: its moves, and its words of chance.
ghost use Rattle.std.specs.Prelude.{◌≡◌, ◌<◌, ◌≤◌, ◌+◌, ◌++◌, IfOk, OnErr, OnOk, length, vec_capacity, vec_len};
ghost use Rattle.zed_terminal.specs.Record.{begun, figure, key_of, letter_of, listed, moves_from, moves_in, read, spelled, spelled_all, spelled_choice, spelled_move, spelled_moves, spelled_number, with_figure, words_in};

use crate::moves::{Choice, Move};
use std::alloc::{AllocError, Global};
use zed_play::Key;

/// The letter of a key, as `zzted play` reads it.
fn letter_of(key: Key) -> u8
    ensures { result ≡ letter_of key }
{
    match key {
        Key::Wait => b'.',
        Key::North => b'n',
        Key::South => b's',
        Key::West => b'w',
        Key::East => b'e',
        Key::ShootNorth => b'N',
        Key::ShootSouth => b'S',
        Key::ShootWest => b'W',
        Key::ShootEast => b'E',
    }
}

/// The key of a letter, if it is one.
fn key_of(byte: u8) -> Option<Key>
    ensures { result ≡ key_of byte }
{
    match byte {
        b'.' => Some(Key::Wait),
        b'n' => Some(Key::North),
        b's' => Some(Key::South),
        b'w' => Some(Key::West),
        b'e' => Some(Key::East),
        b'N' => Some(Key::ShootNorth),
        b'S' => Some(Key::ShootSouth),
        b'W' => Some(Key::ShootWest),
        b'E' => Some(Key::ShootEast),
        _ => None,
    }
}

/// How far a choice was read.
#[derive(Clone, Copy, PartialEq, Eq)]
pub enum Spelt {
    /// Between moves.
    Nothing,
    /// Behind `!`, within the number of its scroll, which is this so far.
    Scroll(usize),
    /// Behind `.`, within the number of its line, which is the second so far.
    Line(usize, usize),
}

/// How far was read with a byte, and the move that it completes, if it does.
#[derive(Clone, Copy, PartialEq, Eq)]
pub struct Taken {
    pub spelt: Spelt,
    pub made: Option<Move>,
}

/// A byte between moves.
fn begun(byte: u8) -> Taken
    ensures { result ≡ begun byte }
{
    if byte == b'!' {
        return Taken {
            spelt: Spelt::Scroll(0),
            made: None,
        };
    }
    let made = match key_of(byte) {
        Some(key) => Some(Move::Key(key)),
        None => None,
    };
    Taken {
        spelt: Spelt::Nothing,
        made,
    }
}

/// A number with one figure more, as far as that leaves it below a million.
fn with_figure(number: usize, figure: u8) -> usize
    requires { (48 ≤ figure) × (figure ≤ 57) }
    ensures { result ≡ with_figure number figure }
{
    if number < 100_000 {
        10 * number + usize::from(figure - 48)
    } else {
        number
    }
}

/// What a byte comes to.
fn read(spelt: Spelt, byte: u8) -> Taken
    ensures { result ≡ read spelt byte }
{
    let is_figure = 48 <= byte && byte <= 57;
    match spelt {
        Spelt::Nothing => begun(byte),
        Spelt::Scroll(scroll) if is_figure => Taken {
            spelt: Spelt::Scroll(with_figure(scroll, byte)),
            made: None,
        },
        Spelt::Scroll(scroll) if byte == b'.' => Taken {
            spelt: Spelt::Line(scroll, 0),
            made: None,
        },
        Spelt::Line(scroll, line) if is_figure => Taken {
            spelt: Spelt::Line(scroll, with_figure(line, byte)),
            made: None,
        },
        Spelt::Line(scroll, line) if byte == b';' => Taken {
            spelt: Spelt::Nothing,
            made: Some(Move::Choice(Choice { scroll, line })),
        },
        Spelt::Scroll(_) | Spelt::Line(_, _) => begun(byte),
    }
}

/// Appends a move, if there is one.
fn put_made(out: &mut Vec<Move>, made: Option<Move>) -> Result<(), AllocError>
    ensures ok { OnOk result (out.new.items ≡ out.old.items ++ listed made) }
    ensures memory_only_when { OnErr result (0 < length (listed made)) }
{
    if let Some(made) = made {
        out.push(made)?;
    }
    Ok(())
}

/// The moves of a file. What is no letter of a key and no choice is passed over. Memory comes only
/// if there is a move.
pub fn moves_in(alloc: Global, bytes: &[u8]) -> Result<Vec<Move>, AllocError>
    ensures ok { IfOk result (λ moves. moves.items ≡ moves_in bytes.now) }
    ensures memory_only_when { OnErr result (0 < length (moves_in bytes.now)) }
{
    let mut moves = Vec::new(alloc);
    let mut spelt = Spelt::Nothing;
    for byte in bytes {
        let step = read(spelt, *byte);
        put_made(&mut moves, step.made)?;
        spelt = step.spelt;
    }
    Ok(moves)
}

/// Appends a figure of a number below a million, unless it stands in front of the first one.
fn put_figure(out: &mut Vec<u8>, number: usize, unit: usize) -> Result<(), AllocError>
    requires { 0 < unit }
    ensures { OnOk result (out.new.items ≡ out.old.items ++ figure number unit) }
{
    if unit == 1 || unit <= number {
        out.push(48 + (number / unit % 10) as u8)?;
    }
    Ok(())
}

/// Appends the figures of a number below a million.
#[tactic(auto, unfolding(crate::specs::Record::spelled_number))]
fn put_number(out: &mut Vec<u8>, number: usize) -> Result<(), AllocError>
    ensures { OnOk result (out.new.items ≡ out.old.items ++ spelled_number number) }
{
    put_figure(out, number, 100_000)?;
    put_figure(out, number, 10_000)?;
    put_figure(out, number, 1000)?;
    put_figure(out, number, 100)?;
    put_figure(out, number, 10)?;
    put_figure(out, number, 1)?;
    Ok(())
}

/// Appends a choice.
fn put_choice(out: &mut Vec<u8>, choice: Choice) -> Result<(), AllocError>
    ensures { OnOk result (out.new.items ≡ out.old.items ++ spelled_choice choice) }
{
    out.push(b'!')?;
    put_number(out, choice.scroll)?;
    out.push(b'.')?;
    put_number(out, choice.line)?;
    out.push(b';')?;
    Ok(())
}

/// Appends a move.
fn put_move(out: &mut Vec<u8>, made: Move) -> Result<(), AllocError>
    ensures ok { OnOk result (out.new.items ≡ out.old.items ++ spelled_move made) }
    ensures some { 0 < length (spelled_move made) }
{
    match made {
        Move::Key(key) => {
            out.push(letter_of(key))?;
            Ok(())
        }
        Move::Choice(choice) => put_choice(out, choice),
    }
}

/// Appends moves. Memory comes only if there is a move.
pub fn put_moves(out: &mut Vec<u8>, moves: &[Move]) -> Result<(), AllocError>
    ensures ok { OnOk result (out.new.items ≡ out.old.items ++ spelled_moves moves.now) }
    ensures memory_only_when { OnErr result (0 < length (spelled_moves moves.now)) }
{
    for made in moves {
        put_move(out, *made)?;
    }
    Ok(())
}

/// The words of a file. Memory comes only if there is a word.
pub fn words_in(alloc: Global, bytes: &[u8]) -> Result<Vec<u16>, AllocError>
    ensures ok { IfOk result (λ words. words.items ≡ words_in bytes.now) }
    ensures memory_only_when { OnErr result (0 < length (words_in bytes.now)) }
{
    let mut words = Vec::new(alloc);
    let mut rest = bytes;
    for _ in 0..bytes.len() / 2 {
        let (pair, more) = rest.split_at(2);
        words.push(u16::from(pair[0]) + 256 * u16::from(pair[1]))?;
        rest = more;
    }
    Ok(words)
}

/// Appends a word as two bytes.
fn put_word(out: &mut Vec<u8>, word: u16) -> Result<(), AllocError>
    ensures ok { OnOk result (out.new.items ≡ out.old.items ++ spelled word) }
    ensures memory_only_when { OnErr result
        (vec_capacity out.old < vec_len out.old + length (spelled word)) }
    ensures capacity { vec_capacity out.old ≤ vec_capacity out.new }
{
    out.push((word % 256) as u8)?;
    out.push((word / 256) as u8)?;
    Ok(())
}

/// Appends words, two bytes each. Memory comes only if the vector has no room for them.
pub fn put_words(out: &mut Vec<u8>, words: &[u16]) -> Result<(), AllocError>
    ensures ok { OnOk result (out.new.items ≡ out.old.items ++ spelled_all words.now) }
    ensures memory_only_when { OnErr result
        (vec_capacity out.old < vec_len out.old + length (spelled_all words.now)) }
    ensures capacity { vec_capacity out.old ≤ vec_capacity out.new }
{
    for word in words {
        put_word(out, *word)?;
    }
    Ok(())
}
