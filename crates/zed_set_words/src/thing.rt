//! Elements, colours and choices in words.
ghost use Rattle.std.specs.Prelude.{◌≡◌, ◌<◌, IfSome, MatchOption, None, Some};
ghost use Rattle.zed_set_words.specs.Values.{colour_of, cut as cut_at, element_below as below, element_of, flag_of, hex_of, hex_pair_of, is_word_of as has_word, numbered_of, worded_of};

use crate::numerals::byte;
use zed_types::element as element_numbered;

pub(crate) fn flag(word: &str) -> Option<bool>
    ensures { result ≡ flag_of word.now }
{
    if word == "yes" {
        Some(true)
    } else if word == "no" {
        Some(false)
    } else {
        None
    }
}

fn hex(digit: u8) -> Option<u8>
    ensures result { result ≡ hex_of digit }
    ensures within { IfSome result (λ n. n < 16) }
{
    if b'0' <= digit && digit <= b'9' {
        Some(digit - b'0')
    } else if b'a' <= digit && digit <= b'f' {
        Some(digit - (b'a' - 10))
    } else {
        None
    }
}

fn hex_pair(high: u8, low: u8) -> Option<u8>
    ensures { result ≡ hex_pair_of high low }
{
    let high = hex(high)?;
    let low = hex(low)?;
    Some(high * 16 + low)
}

pub(crate) fn colour(word: &str) -> Option<u8>
    ensures { result ≡ colour_of word.now }
{
    match word.as_bytes() {
        [zero, x, high, low] => {
            if *zero == b'0' && *x == b'x' {
                hex_pair(*high, *low)
            } else {
                byte(word)
            }
        }
        _ => byte(word),
    }
}

/// What is before the first such character, and what is after it.
pub(crate) fn cut(word: &str, at: char) -> Option<(&str, &str)>
    requires { at < 128 }
    ensures { MatchOption result (cut_at at word.now ≡ None)
        (λ parts. cut_at at word.now ≡ Some (parts.0.now, parts.1.now)) }
{
    word.split_once(at)
}

/// Whether this is the word of an element, in letters of either size.
#[tactic(auto, unfolding(crate::specs::Values::is_word_of), using(crate::proofs::Tests::small_is))]
fn is_word_of(word: &str, n: u8) -> bool
    ensures { result ≡ has_word word.now n }
{
    word.eq_ignore_ascii_case(element_numbered(n).word)
}

/// The last element below `n` that has this word.
fn element_below(word: &str, n: u8) -> Option<u8>
    ensures { result ≡ below n word.now }
{
    if n == 0 {
        return None;
    }
    if is_word_of(word, n - 1) {
        return Some(n - 1);
    }
    element_below(word, n - 1)
}

/// The element of a word.
#[tactic(auto, unfolding(crate::specs::Values::worded_of))]
fn worded(word: &str) -> Option<u8>
    ensures { result ≡ worded_of word.now }
{
    if word.is_empty() {
        None
    } else {
        element_below(word, 54)
    }
}

/// An element by its word and its number.
fn numbered(word: &str, behind: &str) -> Option<u8>
    ensures { result ≡ numbered_of word.now behind.now }
{
    let (digits, more) = cut(behind, ')')?;
    let n = byte(digits)?;
    if is_word_of(word, n) && more.is_empty() {
        Some(n)
    } else {
        None
    }
}

/// An element: its number, its word, or its word and its number between brackets.
#[tactic(auto, unfolding(crate::specs::Values::element_of))]
pub(crate) fn element(word: &str) -> Option<u8>
    ensures { result ≡ element_of word.now }
{
    if let Some(n) = byte(word) {
        return Some(n);
    }
    if let Some(n) = worded(word) {
        return Some(n);
    }
    let (letters, behind) = cut(word, '(')?;
    numbered(letters, behind)
}
