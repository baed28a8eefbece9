//! Text that is UTF-8, of which ZZT shows other characters.
ghost use Rattle.std.specs.List.{list_any};
ghost use Rattle.std.specs.Prelude.{◌≡◌};
ghost use Rattle.std.specs.Str.{is_utf8 as is_utf8_text};
ghost use Rattle.zed_lint.specs.Utf8.{is_utf8, tells_utf8, utf8_name, utf8_program};

use crate::finding::What;

/// The first byte of code page 437 that is part of a box, or a shade.
const FIRST_OF_BOXES: u8 = 176;

/// The last of them.
const LAST_OF_BOXES: u8 = 223;

// Whether a byte is over 127, and no part of a box.
fn tells_utf8(byte: u8) -> bool
    ensures { result ≡ tells_utf8 byte }
{
    128 <= byte && !(FIRST_OF_BOXES <= byte && byte <= LAST_OF_BOXES)
}

#[tactic(auto, using(crate::proofs::Decoded::decoded, crate::proofs::Decoded::not_decoded))]
fn decodes(bytes: &[u8]) -> bool
    ensures { result ≡ is_utf8_text bytes.now }
{
    match str::from_utf8(bytes) {
        Ok(_) => true,
        Err(_) => false,
    }
}

// Whether one of these bytes tells so.
fn tells(bytes: &[u8]) -> bool
    ensures { result ≡ list_any tells_utf8 bytes.now }
{
    bytes.iter().any(|byte| tells_utf8(*byte))
}

// Whether bytes were written as UTF-8.
fn is_utf8(bytes: &[u8]) -> bool
    ensures { result ≡ is_utf8 bytes.now }
{
    tells(bytes) && decodes(bytes)
}

/// A name that is UTF-8.
pub(crate) fn utf8_name(name: &[u8]) -> Option<What>
    ensures { result ≡ utf8_name name.now }
{
    if is_utf8(name) {
        Some(What::Utf8Name)
    } else {
        None
    }
}

/// A program that is UTF-8.
pub(crate) fn utf8_program(program: &[u8]) -> Option<What>
    ensures { result ≡ utf8_program program.now }
{
    if is_utf8(program) {
        Some(What::Utf8Program)
    } else {
        None
    }
}
