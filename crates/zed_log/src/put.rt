//! Writing the kinds of fields. Where memory is refused, a front of one may have been written.
ghost use Rattle.std.specs.Prelude.{◌≡◌, ◌<◌, ◌++◌, false, map, OnOk};
ghost use Rattle.std.specs.Fmt.{digit_glyph};
ghost use Rattle.std.specs.List.{flat_map};
ghost use Rattle.zed_log.specs.Fields.{boolean, colour, element, element_word, escape, hex, integer, number, quoted};

use std::alloc::AllocError;
use zed_types::element;

/// Appends a text as it is.
pub fn put_text(out: &mut Vec<u8>, text: &str) -> Result<(), AllocError>
    ensures { OnOk result (out.new.items ≡ out.old.items ++ text.now) }
{
    out.extend_from_slice(text.as_bytes())
}

/// Appends a number in decimal digits.
#[tactic(auto, using(crate::proofs::Digits::number_is_decimal))]
pub fn put_number(out: &mut Vec<u8>, n: u64) -> Result<(), AllocError>
    ensures { OnOk result (out.new.items ≡ out.old.items ++ number n) }
{
    let digits = format!(in *out.allocator(); "{n}")?;
    put_text(out, digits.as_str())
}

/// Appends a number in decimal digits, behind its sign if it is below 0.
#[tactic(auto, using(crate::proofs::Digits::integer_is_decimal))]
pub fn put_integer(out: &mut Vec<u8>, n: i16) -> Result<(), AllocError>
    ensures { OnOk result (out.new.items ≡ out.old.items ++ integer n) }
{
    let digits = format!(in *out.allocator(); "{n}")?;
    put_text(out, digits.as_str())
}

/// A hexadecimal digit.
fn digit_of(n: u8) -> u8
    requires { n < 16 }
    ensures { result ≡ digit_glyph false n }
{
    if n < 10 { b'0' + n } else { b'a' - 10 + n }
}

#[tactic(auto, unfolding(crate::specs::Fields::hex))]
fn put_hex(out: &mut Vec<u8>, byte: u8) -> Result<(), AllocError>
    ensures { OnOk result (out.new.items ≡ out.old.items ++ hex byte) }
{
    out.extend_from_slice(&[digit_of(byte / 16), digit_of(byte % 16)])
}

pub(crate) fn put_colour(out: &mut Vec<u8>, byte: u8) -> Result<(), AllocError>
    ensures { OnOk result (out.new.items ≡ out.old.items ++ colour byte) }
{
    put_text(out, "0x")?;
    put_hex(out, byte)
}

#[tactic(auto, unfolding(crate::specs::Fields::escape))]
fn put_escape(out: &mut Vec<u8>, byte: u8) -> Result<(), AllocError>
    ensures { OnOk result (out.new.items ≡ out.old.items ++ escape byte) }
{
    if byte == b'"' {
        put_text(out, "\\\"")
    } else if byte == b'\\' {
        put_text(out, "\\\\")
    } else if byte == b'\r' {
        put_text(out, "\\r")
    } else if b' ' <= byte && byte < 127 {
        Ok(out.push(byte)?)
    } else {
        put_text(out, "\\x")?;
        put_hex(out, byte)
    }
}

fn put_escapes(out: &mut Vec<u8>, bytes: &[u8]) -> Result<(), AllocError>
    ensures { OnOk result (out.new.items ≡ out.old.items ++ flat_map escape bytes.now) }
{
    for byte in bytes {
        put_escape(out, *byte)?;
    }
    Ok(())
}

/// Appends a string between quotes; what doesn't print in it is escaped.
#[tactic(auto, unfolding(crate::specs::Fields::quoted))]
pub fn put_quoted(out: &mut Vec<u8>, bytes: &[u8]) -> Result<(), AllocError>
    ensures { OnOk result (out.new.items ≡ out.old.items ++ quoted bytes.now) }
{
    put_text(out, "\"")?;
    put_escapes(out, bytes)?;
    put_text(out, "\"")
}

pub(crate) fn put_boolean(out: &mut Vec<u8>, set: bool) -> Result<(), AllocError>
    ensures { OnOk result (out.new.items ≡ out.old.items ++ boolean set) }
{
    if set {
        put_text(out, "yes")
    } else {
        put_text(out, "no")
    }
}

/// Appends the word of an element in small letters.
fn put_element_word(out: &mut Vec<u8>, n: u8) -> Result<(), AllocError>
    ensures { OnOk result (out.new.items ≡ out.old.items ++ element_word n) }
{
    for letter in element(n).word.as_bytes() {
        out.push(letter.to_ascii_lowercase())?;
    }
    Ok(())
}

/// Appends an element: its word, and its number in brackets.
#[tactic(auto, unfolding(crate::specs::Fields::element))]
pub fn put_element(out: &mut Vec<u8>, n: u8) -> Result<(), AllocError>
    ensures { OnOk result (out.new.items ≡ out.old.items ++ element n) }
{
    put_element_word(out, n)?;
    put_text(out, "(")?;
    put_number(out, u64::from(n))?;
    put_text(out, ")")
}
