//! The characters of code page 437 as text.
ghost use Rattle.std.specs.Prelude.{◌≡◌, ◌++◌, OnOk};
ghost use Rattle.std.specs.List.{flat_map};
ghost use Rattle.zed_look.specs.Glyphs.{glyph};

use std::alloc::AllocError;
use zed_plaintext::glyph;

// Appends the character of a number.
#[tactic(auto, unfolding(crate::specs::Glyphs::glyph))]
pub(crate) fn put_glyph(out: &mut Vec<u8>, character: u8) -> Result<(), AllocError>
    ensures { OnOk result (out.new.items ≡ out.old.items ++ glyph character) }
{
    let mut room = [0; 4];
    let text = glyph(character).encode_utf8(&mut room);
    out.extend_from_slice(text.as_bytes())
}

/// Appends bytes as characters of code page 437, none of which is a control character. If memory
/// runs out, some of them may be appended.
pub fn put_glyphs(bytes: &[u8], out: &mut Vec<u8>) -> Result<(), AllocError>
    ensures { OnOk result (out.new.items ≡ out.old.items ++ flat_map glyph bytes.now) }
{
    for byte in bytes {
        put_glyph(out, *byte)?;
    }
    Ok(())
}
