//! Numbers in the words of an action: only decimal digits.
ghost use Rattle.std.specs.Prelude.{◌≡◌, pos, option_map};
ghost use Rattle.zed_plaintext.specs.Digits.{digits_of};

use zed_plaintext::digits;

/// A number of one byte.
pub(crate) fn byte(word: &str) -> Option<u8>
    ensures { result ≡ digits_of 255 word.now }
{
    let n = digits(word, 255)?;
    Some(n as u8)
}

/// The number of a board or a stat, or a rank.
pub(crate) fn short(word: &str) -> Option<u16>
    ensures { result ≡ digits_of 65535 word.now }
{
    let n = digits(word, 65_535)?;
    Some(n as u16)
}

/// A position in a text.
pub(crate) fn long(word: &str) -> Option<u32>
    ensures { result ≡ digits_of 4294967295 word.now }
{
    let n = digits(word, 4_294_967_295)?;
    Some(n as u32)
}

/// A cycle: its field has a sign, its word doesn't.
pub(crate) fn cycle(word: &str) -> Option<i16>
    ensures { result ≡ option_map pos (digits_of 32767 word.now) }
{
    let n = digits(word, 32_767)?;
    Some(n as i16)
}
