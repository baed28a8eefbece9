//! The text of a program.
ghost use Rattle.std.specs.Prelude.{◌≡◌, ◌<◌, IfOk, OnErr, length, string_bytes};
ghost use Rattle.zed_plaintext.specs.Text.{text_of as text_for};

use crate::characters::text_character;
use std::alloc::{AllocError, Global};

/// A program as a text in UTF-8: a line feed for each byte 13, which ends a line of the program,
/// and for any other byte its character in code page 437. So the line feed is the only control
/// character. 0 is U+2400, since the code page shows it as a blank. If the program doesn't end its
/// last line, neither does the text.
pub fn text_of(alloc: Global, program: &[u8]) -> Result<String, AllocError>
    ensures text { IfOk result (λ text. string_bytes text ≡ text_for program.now) }
    ensures memory_only_when { OnErr result (0 < length program.now) }
{
    let mut text = String::new(alloc);
    for byte in program {
        text.push(text_character(*byte))?;
    }
    Ok(text)
}
