//! Keys and sizes as a terminal sends them, byte by byte.
ghost use Rattle.std.specs.Prelude.{◌≡◌, ◌≤◌};
ghost use Rattle.zed_terminal.specs.Typing.{arrow, begins, columns_on, completes, ends, escaped, inside, is_digit, letter, longer, numbers, on, paging, plain, rows_on, shot, typed};

use crate::input::{Input, Page, Size};
use zed_play::Key;

/// How far the bytes of a key or of a size were read.
#[derive(Clone, Copy, PartialEq, Eq)]
pub enum Reading {
    /// Between keys.
    Between,
    /// Behind the byte escape.
    Escape,
    /// Behind `[` or `O`.
    Arrow,
    /// Behind numbers that change nothing.
    Number,
    /// Behind the number that a page key begins with.
    Paging(Page),
    /// Behind `;`, where 2 stands for shift.
    Modifier,
    /// Behind that 2.
    Shifted,
    /// Behind the 8 that tells of a size.
    Size,
    /// Within the number of its rows, which is this so far.
    Rows(u16),
    /// Within the number of its columns, which is the second so far, behind so many rows.
    Columns(u16, u16),
    /// Behind `q`, or control with C or D: no more keys come.
    Over,
}

/// How far was read with a byte, and what it completes, if it does.
#[derive(Clone, Copy, PartialEq, Eq)]
pub struct Stroke {
    pub reading: Reading,
    pub input: Option<Input>,
}

/// The key of a letter behind `ESC [` or `ESC O`, which is small where shift is held.
fn arrow(byte: u8) -> Option<Key>
    ensures { result ≡ arrow byte }
{
    match byte {
        b'A' => Some(Key::North),
        b'B' => Some(Key::South),
        b'C' => Some(Key::East),
        b'D' => Some(Key::West),
        _ => shot(byte),
    }
}

/// The same with shift.
fn shot(byte: u8) -> Option<Key>
    ensures { result ≡ shot byte }
{
    match byte {
        b'A' | b'a' => Some(Key::ShootNorth),
        b'B' | b'b' => Some(Key::ShootSouth),
        b'C' | b'c' => Some(Key::ShootEast),
        b'D' | b'd' => Some(Key::ShootWest),
        _ => None,
    }
}

/// The key of a byte by itself.
fn letter(byte: u8) -> Option<Key>
    ensures { result ≡ letter byte }
{
    match byte {
        b' ' => Some(Key::Wait),
        b'w' => Some(Key::ShootNorth),
        b'a' => Some(Key::ShootWest),
        b's' => Some(Key::ShootSouth),
        b'd' => Some(Key::ShootEast),
        _ => None,
    }
}

/// A byte by itself.
fn plain(byte: u8) -> Stroke
    ensures { result ≡ plain byte }
{
    match byte {
        b'q' | 3 | 4 => on(Reading::Over),
        b'\n' | b'\r' => completes(Some(Input::Entered)),
        _ => ends(letter(byte)),
    }
}

fn is_digit(byte: u8) -> bool
    ensures { result ≡ is_digit byte }
{
    48 <= byte && byte <= 57
}

/// A byte that completes nothing.
fn on(reading: Reading) -> Stroke
    ensures { result ≡ on reading }
{
    Stroke {
        reading,
        input: None,
    }
}

/// A byte that completes this, or nothing.
fn completes(input: Option<Input>) -> Stroke
    ensures { result ≡ completes input }
{
    Stroke {
        reading: Reading::Between,
        input,
    }
}

/// A byte that completes this key, or none.
fn ends(key: Option<Key>) -> Stroke
    ensures { result ≡ ends key }
{
    match key {
        Some(key) => completes(Some(Input::Pressed(key))),
        None => completes(None),
    }
}

/// A byte behind `[`, `O` or numbers, which is a letter for this key, if it isn't of a number.
fn numbers(byte: u8, key: Option<Key>) -> Stroke
    ensures { result ≡ numbers byte key }
{
    if byte == b';' {
        on(Reading::Modifier)
    } else if is_digit(byte) {
        on(Reading::Number)
    } else {
        ends(key)
    }
}

/// A byte behind an escape.
fn escaped(byte: u8) -> Stroke
    ensures { result ≡ escaped byte }
{
    match byte {
        b'[' | b'O' => on(Reading::Arrow),
        // The escape was a key of its own: time went by, or it came once more.
        0 => completes(Some(Input::Escaped)),
        27 => Stroke {
            reading: Reading::Escape,
            input: Some(Input::Escaped),
        },
        _ => plain(byte),
    }
}

/// A byte behind the number of a page key.
fn paging(page: Page, byte: u8) -> Stroke
    ensures { result ≡ paging page byte }
{
    if byte == b'~' {
        completes(Some(Input::Paged(page)))
    } else {
        numbers(byte, arrow(byte))
    }
}

/// A number with one digit more.
fn longer(number: u16, digit: u8) -> u16
    requires { 48 ≤ digit }
    ensures { result ≡ longer number digit }
{
    if number < 1000 {
        10 * number + u16::from(digit - 48)
    } else {
        number
    }
}

/// A byte behind the rows of a size.
fn rows_on(rows: u16, byte: u8) -> Stroke
    ensures { result ≡ rows_on rows byte }
{
    if byte == b';' {
        on(Reading::Columns(rows, 0))
    } else if is_digit(byte) {
        on(Reading::Rows(longer(rows, byte)))
    } else {
        completes(None)
    }
}

/// A byte behind its columns.
fn columns_on(rows: u16, columns: u16, byte: u8) -> Stroke
    ensures { result ≡ columns_on rows columns byte }
{
    if is_digit(byte) {
        on(Reading::Columns(rows, longer(columns, byte)))
    } else if byte == b't' {
        completes(Some(Input::Resized(Size { rows, columns })))
    } else {
        completes(None)
    }
}

/// A byte behind `[` or `O`.
fn begins(byte: u8) -> Stroke
    ensures { result ≡ begins byte }
{
    match byte {
        b'5' => on(Reading::Paging(Page::Up)),
        b'6' => on(Reading::Paging(Page::Down)),
        b'8' => on(Reading::Size),
        _ => numbers(byte, arrow(byte)),
    }
}

/// A byte that doesn't begin anew.
fn inside(reading: Reading, byte: u8) -> Stroke
    ensures { result ≡ inside reading byte }
{
    match reading {
        Reading::Between => plain(byte),
        Reading::Escape => escaped(byte),
        Reading::Arrow => begins(byte),
        Reading::Number => numbers(byte, arrow(byte)),
        Reading::Paging(page) => paging(page, byte),
        Reading::Modifier if byte == b'2' => on(Reading::Shifted),
        Reading::Modifier => numbers(byte, arrow(byte)),
        Reading::Shifted => numbers(byte, shot(byte)),
        Reading::Size if byte == b';' => on(Reading::Rows(0)),
        Reading::Size => numbers(byte, arrow(byte)),
        Reading::Rows(rows) => rows_on(rows, byte),
        Reading::Columns(rows, columns) => columns_on(rows, columns, byte),
        Reading::Over => on(Reading::Over),
    }
}

/// What a byte comes to. An escape begins anew, but behind another one, which was a key of its own then.
pub fn typed(reading: Reading, byte: u8) -> Stroke
    ensures { result ≡ typed reading byte }
{
    match reading {
        Reading::Over => on(Reading::Over),
        Reading::Escape => escaped(byte),
        _ if byte == 27 => on(Reading::Escape),
        _ => inside(reading, byte),
    }
}
