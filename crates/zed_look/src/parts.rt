//! Words and numbers of texts.
ghost use Rattle.std.specs.Prelude.{◌≡◌, ◌++◌, OnOk};
ghost use Rattle.zed_look.specs.Parts.{ended, number};

use std::alloc::AllocError;

pub(crate) fn put_text(out: &mut Vec<u8>, text: &str) -> Result<(), AllocError>
    ensures { OnOk result (out.new.items ≡ out.old.items ++ text.now) }
{
    out.extend_from_slice(text.as_bytes())
}

/// Appends a text and a line feed.
#[tactic(auto, unfolding(crate::specs::Parts::ended))]
pub(crate) fn put_ended(out: &mut Vec<u8>, text: &str) -> Result<(), AllocError>
    ensures { OnOk result (out.new.items ≡ out.old.items ++ ended text.now) }
{
    put_text(out, text)?;
    put_text(out, "\n")
}

#[tactic(auto, using(crate::proofs::Digits::number_is_decimal))]
pub(crate) fn put_number(out: &mut Vec<u8>, n: u32) -> Result<(), AllocError>
    ensures { OnOk result (out.new.items ≡ out.old.items ++ number n) }
{
    let digits = format!(in *out.allocator(); "{n}")?;
    put_text(out, digits.as_str())
}
