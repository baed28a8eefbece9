//! Strings in words: the bytes of their characters in code page 437.
ghost use Rattle.std.specs.Prelude.{◌≡◌, ◌<◌, IfOk, OnErr, length};
ghost use Rattle.std.specs.Str.{chars};
ghost use Rattle.zed_set_words.specs.Strings.{are_bytes as fit, bytes_in, string_of};

use std::alloc::{AllocError, Global};
use std::marker::Model;
use zed_plaintext::byte_of;
use zed_types::Bytes;

/// A word that is a string, which contracts see as its bytes.
#[derive(Drop)]
pub struct Text<'a> {
    word: &'a str,
}

impl<'a> Model for Text<'a> {
    ghost use Rattle.std.specs.Prelude.{ℕ, List};
    ghost use Rattle.zed_set_words.specs.Strings.{bytes_in};

    ghost Value = { List ℕ };

    ghost view = { λ t. bytes_in t.word.now };
}

impl<'a> Text<'a> {
    /// A word with those of its characters that are bytes.
    fn new(word: &'a str) -> Text<'a>
        ensures { result ≡ bytes_in word.now }
    {
        Text { word }
    }

    fn as_str(&self) -> &'a str
        ensures { bytes_in result.now ≡ self.now }
    {
        self.word
    }

    /// The bytes, copied. An empty string takes no memory.
    pub fn to_bytes(&self, alloc: Global) -> Result<Bytes, AllocError>
        ensures ok { IfOk result (λ bytes. bytes ≡ self.now) }
        ensures memory_only_when { OnErr result (0 < length self.now) }
    {
        bytes_of(alloc, self.as_str())
    }
}

// The bytes of the characters of a word.
fn bytes_of(alloc: Global, word: &str) -> Result<Bytes, AllocError>
    ensures ok { IfOk result (λ bytes. bytes ≡ bytes_in word.now) }
    ensures memory_only_when { OnErr result (0 < length (bytes_in word.now)) }
{
    let mut bytes = Vec::new(alloc);
    for character in word.chars() {
        if let Some(byte) = byte_of(character) {
            bytes.push(byte)?;
        }
    }
    Ok(Bytes::new(bytes))
}

// Whether a word has at most so many characters, and each of them is a byte.
fn are_bytes(word: &str, most: usize) -> bool
    ensures { result ≡ fit most (chars word.now) }
{
    let mut left = most;
    for character in word.chars() {
        if left == 0 || byte_of(character).is_none() {
            return false;
        }
        left -= 1;
    }
    true
}

/// A string, if it has at most so many bytes, and all its characters are some.
pub(crate) fn string<'a>(word: &'a str, most: usize) -> Option<Text<'a>>
    ensures { result ≡ string_of most word.now }
{
    if are_bytes(word, most) {
        Some(Text::new(word))
    } else {
        None
    }
}
