//! Names and programs as text of a page.
ghost use Rattle.std.specs.Prelude.{◌≡◌, ◌++◌, [], ◌∷◌, OnOk};
ghost use Rattle.std.specs.List.{flat_map};
ghost use Rattle.cmd_page.specs.Escaping.{escape, escaped, program_byte};

use std::alloc::AllocError;
use zed_log::put_text;
use zed_look::put_glyphs;

// Appends a byte as text that ends nothing that it stands in.
#[tactic(auto, unfolding(crate::specs::Escaping::escape))]
fn put_escape(out: &mut Vec<u8>, byte: u8) -> Result<(), AllocError>
    ensures { OnOk result (out.new.items ≡ out.old.items ++ escape byte) }
{
    match byte {
        b'&' => put_text(out, "&amp;"),
        b'<' => put_text(out, "&lt;"),
        b'>' => put_text(out, "&gt;"),
        b'"' => put_text(out, "&quot;"),
        b'\'' => put_text(out, "&#39;"),
        _ => put_glyphs(&[byte], out),
    }
}

/// Appends a string as text.
pub(crate) fn put_escaped(out: &mut Vec<u8>, bytes: &[u8]) -> Result<(), AllocError>
    ensures { OnOk result (out.new.items ≡ out.old.items ++ escaped bytes.now) }
{
    for byte in bytes {
        put_escape(out, *byte)?;
    }
    Ok(())
}

fn put_program_byte(out: &mut Vec<u8>, byte: u8) -> Result<(), AllocError>
    ensures { OnOk result (out.new.items ≡ out.old.items ++ program_byte byte) }
{
    if byte == b'\r' {
        put_text(out, "\n")
    } else {
        put_escape(out, byte)
    }
}

/// Appends a program as lines of text.
pub(crate) fn put_program(out: &mut Vec<u8>, bytes: &[u8]) -> Result<(), AllocError>
    ensures { OnOk result (out.new.items ≡ out.old.items ++ flat_map program_byte bytes.now) }
{
    for byte in bytes {
        put_program_byte(out, *byte)?;
    }
    Ok(())
}
