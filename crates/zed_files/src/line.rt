//! A line of at most 64 bytes.
ghost use Rattle.std.specs.Prelude.{◌≡◌, ◌≤◌, ◌+◌, ◌%◌, ◌++◌, [], ◌∷◌, length};
ghost use Rattle.std.specs.Fmt.{decimal};
ghost use Rattle.smallvec.specs.SmallVec.{HasRoomFor};

use smallvec::SmallVec;
use std::alloc::Global;
use std::marker::Model;

/// A line that is made from left to right, of at most 64 bytes, which are kept in the value itself.
/// Contracts see its bytes.
#[derive(Drop)]
pub struct Line {
    bytes: SmallVec<u8, 64>,
}

impl Model for Line {
    ghost use Rattle.std.specs.Prelude.{◌≡◌, ℕ, List};

    ghost Value = { List ℕ };

    ghost view = { λ l. l.bytes.items };

    ghost invariant = { λ l. l.bytes.capacity ≡ 64 };
}

// The last decimal digit of a number.
fn digit_of(number: u64) -> u8
    ensures { result ≡ 48 + number % 10 }
{
    b'0' + (number % 10) as u8
}

// Appends the decimal digits of a number.
fn put_number(bytes: &mut SmallVec<u8, 64>, number: u64)
    requires { HasRoomFor bytes.old (length (decimal number)) }
    ensures items { bytes.new.items ≡ bytes.old.items ++ decimal number }
    ensures capacity { bytes.new.capacity ≡ bytes.old.capacity }
{
    if 10 <= number {
        put_number(bytes, number / 10);
    }
    bytes.push_reserved(digit_of(number));
}

impl Line {
    /// An empty line.
    pub fn new(alloc: Global) -> Line
        ensures { result ≡ [] }
    {
        Line {
            bytes: SmallVec::new(alloc),
        }
    }

    /// The bytes of the line.
    pub fn as_slice(&self) -> &[u8]
        ensures { result.now ≡ self.now }
    {
        self.bytes.as_slice()
    }

    /// Appends a text.
    pub fn put_text(&mut self, text: &str)
        requires { length self.old + length text.now ≤ 64 }
        ensures { self.new ≡ self.old ++ text.now }
    {
        self.bytes.extend_from_slice(text.as_bytes()).unwrap();
    }

    /// Appends a number in decimal digits, at most 20.
    pub fn put_number(&mut self, number: u64)
        requires { length self.old + 20 ≤ 64 }
        ensures items { self.new ≡ self.old ++ decimal number }
        ensures short { length (decimal number) ≤ 20 }
    {
        put_number(&mut self.bytes, number);
    }

    /// The line of a text.
    pub fn of_text(alloc: Global, text: &str) -> Line
        requires { length text.now ≤ 64 }
        ensures { result ≡ text.now }
    {
        let mut line = Line::new(alloc);
        line.put_text(text);
        line
    }

    /// A name, a number, and a line feed.
    pub fn of_number(alloc: Global, name: &str, number: u64) -> Line
        requires { length name.now ≤ 20 }
        ensures { result ≡ name.now ++ (decimal number ++ 10 ∷ []) }
    {
        let mut line = Line::of_text(alloc, name);
        line.put_number(number);
        line.put_text("\n");
        line
    }

    /// A name, two numbers with a space between them, and a line feed.
    pub fn of_numbers(alloc: Global, name: &str, first: u64, second: u64) -> Line
        requires { length name.now ≤ 20 }
        ensures { result ≡ name.now ++ (decimal first ++ 32 ∷ (decimal second ++ 10 ∷ [])) }
    {
        let mut line = Line::of_text(alloc, name);
        line.put_number(first);
        line.put_text(" ");
        line.put_number(second);
        line.put_text("\n");
        line
    }
}
