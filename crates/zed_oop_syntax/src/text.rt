//! Words, values and lines in the bytes of a program.
ghost use Rattle.std.specs.Prelude.{◌≡◌, ◌<◌, ◌≤◌, IfOk, OnErr, IsTrue, length, max, min, slice_get, slice_range};
ghost use Rattle.std.specs.Str.{bytes_eq};
ghost use Rattle.zed_oop_syntax.specs.Text.{HasWord, is_of, end_by_first, number, with_digit, value_at, line_after, line_end, run_end, upper, value_end, word_at, word_end, word_start};

use std::alloc::{AllocError, Global};
use zed_types::Bytes;

/// What a run of bytes is made of.
#[derive(Clone, Copy)]
pub(crate) enum Class {
    Space,
    Digit,
    /// Letters, digits, `:` and `_`.
    Word,
    /// All but the end of a line.
    Line,
}

fn is_of(class: Class, byte: u8) -> bool
    ensures { result ≡ is_of class byte }
{
    match class {
        Class::Space => byte == b' ',
        Class::Digit => byte.is_ascii_digit(),
        Class::Word => byte.is_ascii_alphanumeric() || byte == b':' || byte == b'_',
        Class::Line => byte != 13,
    }
}

/// Where the bytes of a class that begin at a place end.
pub(crate) fn run_end(class: Class, program: &[u8], at: usize) -> usize
    ensures result { result ≡ run_end class program.now at }
    ensures within { result ≤ max at (length program.now) }
    ensures ends { at ≤ result }
{
    let mut to = at;
    while to < program.len() && is_of(class, program[to]) {
        to += 1;
    }
    to
}

/// The bytes from a place to another one, of which there are none past the end.
pub(crate) fn part(program: &[u8], from: usize, to: usize) -> &[u8]
    requires ordered { from ≤ to }
    requires within { to ≤ max from (length program.now) }
    ensures { result.now ≡ slice_range program.now from to }
{
    if to > program.len() {
        return &[];
    }
    &program[from..to]
}

/// Where the spaces that begin at a place end.
fn word_start(program: &[u8], at: usize) -> usize
    ensures result { result ≡ word_start program.now at }
    ensures within { result ≤ max at (length program.now) }
    ensures ends { at ≤ result }
{
    run_end(Class::Space, program, at)
}

/// Where the word ends that begins at a place.
fn end_of_word(program: &[u8], from: usize) -> usize
    ensures result { result ≡ end_by_first program.now from (slice_get program.now from) }
    ensures within { result ≤ max from (length program.now) }
    ensures ends { from ≤ result }
{
    match program.get(from) {
        Some(byte) => {
            if byte.is_ascii_digit() {
                from
            } else {
                run_end(Class::Word, program, from)
            }
        }
        None => from,
    }
}

/// Bytes in upper case.
pub fn upper(alloc: Global, bytes: &[u8]) -> Result<Bytes, AllocError>
    ensures result { IfOk result (λ b. b ≡ upper bytes.now) }
    ensures memory_only_when { OnErr result (0 < length bytes.now) }
{
    if bytes.is_empty() {
        return Ok(Bytes::new(Vec::new(alloc)));
    }
    let mut out = Vec::with_capacity(alloc, bytes.len())?;
    for byte in bytes {
        out.push(byte.to_ascii_uppercase())?;
    }
    Ok(Bytes::new(out))
}

#[tactic(auto, unfolding(crate::specs::Text::word_at, crate::specs::Text::word_end))]
/// The word at a place, with its letters as they are written, and where it ends.
pub(crate) fn written_at(program: &[u8], at: usize) -> (&[u8], usize)
    ensures result { upper result.0.now ≡ word_at program.now at }
    ensures within { (length result.0.now ≡ length (word_at program.now at))
        × (result.1 ≤ max at (length program.now)) }
    ensures ends { (result.1 ≡ word_end program.now at) × (at ≤ result.1) }
{
    let from = word_start(program, at);
    let end = end_of_word(program, from);
    (part(program, from, end), end)
}

/// The word at a place, in upper case, and where it ends.
pub fn word_at(alloc: Global, program: &[u8], at: usize) -> Result<(Bytes, usize), AllocError>
    ensures result { IfOk result (λ r. r.0 ≡ word_at program.now at) }
    ensures within { IfOk result (λ r. r.1 ≤ max at (length program.now)) }
    ensures ends { IfOk result (λ r. (r.1 ≡ word_end program.now at) × (at ≤ r.1)) }
    ensures memory_only_when { OnErr result (HasWord program.now at) }
{
    let (word, end) = written_at(program, at);
    Ok((upper(alloc, word)?, end))
}

/// Whether bytes are a word, except for the case of their letters. The word is in upper case.
fn is_upper_of(bytes: &[u8], word: &[u8]) -> bool
    ensures { result ≡ bytes_eq (upper bytes.now) word.now }
{
    if bytes.len() != word.len() {
        return false;
    }
    let mut i = 0;
    while i < bytes.len() {
        if bytes[i].to_ascii_uppercase() != word[i] {
            return false;
        }
        i += 1;
    }
    true
}

/// Whether the word at a place is this one.
pub fn is_word_at(program: &[u8], at: usize, word: &[u8]) -> bool
    ensures result { result ≡ bytes_eq (word_at program.now at) word.now }
{
    let (written, _) = written_at(program, at);
    is_upper_of(written, word)
}

/// Whether a word that is written in letters of any case is this one.
#[tactic(auto, using(crate::proofs::TextLemmas::same_bytes))]
pub(crate) fn says(written: &[u8], name: &str) -> bool
    ensures result { result ≡ bytes_eq (upper written.now) name.now }
    ensures same { IsTrue result → upper written.now ≡ name.now }
{
    is_upper_of(written, name.as_bytes())
}

/// A number with one more digit, or any number over 32,767 once it is over that.
fn with_digit(n: u32, digit: u8) -> u32
    ensures { result ≡ with_digit n digit }
{
    if n > 3276 {
        32767
    } else {
        n * 10 + u32::from(digit.saturating_sub(48))
    }
}

/// The number that digits spell, at most 32,767.
fn number_of(digits: &[u8]) -> u16
    ensures { result ≡ min (number 0 digits.now) 32767 }
{
    let mut n: u32 = 0;
    for digit in digits {
        n = with_digit(n, *digit);
    }
    if n > 32767 { 32767 } else { n as u16 }
}

/// The value at a place: 0 without a digit, at most 32,767.
#[tactic(auto, unfolding(crate::specs::Text::value_at, crate::specs::Text::value_end))]
pub(crate) fn value_at(program: &[u8], at: usize) -> u16
    ensures { result ≡ value_at program.now at }
{
    let from = run_end(Class::Space, program, at);
    let to = run_end(Class::Digit, program, from);
    number_of(part(program, from, to))
}

#[tactic(auto, unfolding(crate::specs::Text::value_end))]
/// Where the value at a place ends.
pub(crate) fn value_end(program: &[u8], at: usize) -> usize
    ensures result { result ≡ value_end program.now at }
    ensures within { result ≤ max at (length program.now) }
    ensures ends { at ≤ result }
{
    let from = run_end(Class::Space, program, at);
    run_end(Class::Digit, program, from)
}

#[tactic(auto, unfolding(crate::specs::Text::line_end))]
/// Where the line at a place ends: at its byte 13, or at the end of the program.
pub fn line_end(program: &[u8], at: usize) -> usize
    ensures result { result ≡ line_end program.now at }
    ensures within { result ≤ max at (length program.now) }
    ensures ends { at ≤ result }
{
    run_end(Class::Line, program, at)
}

#[tactic(auto, unfolding(crate::specs::Text::line_after))]
/// The place after the line at a place.
pub fn line_after(program: &[u8], at: usize) -> usize
    ensures result { result ≡ line_after program.now at }
    ensures within { result ≤ max at (length program.now) }
    ensures ends { at ≤ result }
    ensures moves { at < length program.now → at < result }
{
    let to = line_end(program, at);
    if to < program.len() { to + 1 } else { to }
}

/// Whether a word is this one.
pub fn is_word(word: &[u8], name: &str) -> bool
    ensures result { result ≡ bytes_eq word.now name.now }
    ensures same { IsTrue result → word.now ≡ name.now }
{
    word == name.as_bytes()
}
