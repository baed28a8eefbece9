//! Numbers in words: decimal digits, and a sign in front of some.
ghost use Rattle.std.specs.Prelude.{◌≡◌, ◌≢◌, ◌∷◌, ◌≤◌, ℕ, List, IfSome, MatchOption, option_map, pos};
ghost use Rattle.zed_set_words.specs.Values.{below_zero as less, has_idle_zero as idles, integer_of, number_of};

use zed_plaintext::digits;

/// Whether a 0 is in front of something.
fn has_idle_zero(word: &[u8]) -> bool
    ensures { result ≡ idles word.now }
{
    match word {
        [first, _, ..] => *first == b'0',
        _ => false,
    }
}

/// The number that digits spell without an idle 0, if it is at most `most`.
#[tactic(auto, unfolding(crate::specs::Values::number_of))]
pub(crate) fn number(word: &str, most: u64) -> Option<u64>
    ensures result { result ≡ number_of most word.now }
    ensures within { IfSome result (λ n. n ≤ most) }
{
    if has_idle_zero(word.as_bytes()) {
        return None;
    }
    digits(word, most)
}

pub(crate) fn byte(word: &str) -> Option<u8>
    ensures { result ≡ number_of 255 word.now }
{
    let n = number(word, 255)?;
    Some(n as u8)
}

/// The number of a board or a stat, a rank, or an author.
pub(crate) fn short(word: &str) -> Option<u16>
    ensures { result ≡ number_of 65535 word.now }
{
    let n = number(word, 65_535)?;
    Some(n as u16)
}

/// Which of the things of an edit it is.
pub(crate) fn index(word: &str) -> Option<u32>
    ensures { result ≡ number_of 4294967295 word.now }
{
    let n = number(word, 4_294_967_295)?;
    Some(n as u32)
}

/// A number of two bytes with `-` in front.
fn below_zero(digits: &str) -> Option<i16>
    ensures { result ≡ less (number_of 32768 digits.now) }
{
    let n = number(digits, 32_768)?;
    if n == 0 {
        return None;
    }
    Some(-1 - (n - 1) as i16)
}

/// A number of two bytes without a sign.
fn above_zero(word: &str) -> Option<i16>
    ensures { result ≡ option_map pos (number_of 32767 word.now) }
{
    let n = number(word, 32_767)?;
    Some(n as i16)
}

/// What follows `-`.
fn behind_minus(word: &str) -> Option<&str>
    ensures { MatchOption result
        ((rest : List ℕ) → word.now ≢ 45 ∷ rest)
        (λ rest. word.now ≡ 45 ∷ rest.now) }
{
    word.strip_prefix('-')
}

/// A number of two bytes, with `-` in front of one below 0.
#[tactic(auto, using(crate::proofs::Signs::integer_minus, crate::proofs::Signs::integer_plain))]
pub(crate) fn integer(word: &str) -> Option<i16>
    ensures { result ≡ integer_of word.now }
{
    match behind_minus(word) {
        Some(digits) => below_zero(digits),
        None => above_zero(word),
    }
}
