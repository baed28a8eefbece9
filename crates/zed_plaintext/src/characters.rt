//! The characters for the bytes of a program, and of any other string of a world.
ghost use Rattle.std.specs.Prelude.{◌≡◌};
ghost use Rattle.zed_plaintext.specs.Characters.{byte_of as byte_for, text_point};

use crate::glyph;

/// The character of a byte of a program in a text: a line feed for 13, which ends a line; a picture
/// for 0, which has none in the code page; and that of the code page for any other byte.
pub(crate) fn text_character(byte: u8) -> char
    ensures { result ≡ text_point byte }
{
    match byte {
        0 => '\u{2400}',
        13 => '\n',
        _ => glyph(byte),
    }
}

/// The byte of a program whose character this is in a text, if there is one.
#[tactic(auto, using(crate::proofs::Lists::exhausted), unfolding(crate::specs::Characters::byte_of))]
pub fn byte_of(character: char) -> Option<u8>
    ensures { result ≡ byte_for character }
{
    for number in 0..256u16 {
        let byte = number as u8;
        if text_character(byte) == character {
            return Some(byte);
        }
    }
    None
}
