//! Texts of the edit that makes the world, made as runs.

ghost use Rattle.std.specs.Prelude.{◌≡◌, IfOk};
ghost use Rattle.std.specs.List.{AllByRecursion};
ghost use Rattle.zed_code.specs.Text.{elements};
ghost use Rattle.zed_texts.specs.Texts.{elements_of, named, bytes_of as bytes_in, IsUnworked, IsOpened};

use std::alloc::{AllocError, Global};
use zed_code::Text;
use zed_edit::Text as PlainText;
use zed_types::{TextByte, TextId};

/// The bytes of a text.
fn bytes_of(alloc: Global, elements: &[TextByte]) -> Result<Vec<u8>, AllocError>
    ensures ok { IfOk result (λ bytes. bytes.items ≡ bytes_in elements.now) }
{
    let mut bytes = Vec::new(alloc);
    for element in elements {
        bytes.push(element.byte)?;
    }
    Ok(bytes)
}

/// A text of the world, as runs.
fn as_made(alloc: Global, text: &PlainText) -> Result<Text, AllocError>
    requires opened { IsOpened text.now }
    ensures ok { IfOk result (λ made. elements made ≡ text.now.elements) }
    ensures unworked { IfOk result (λ made. IsUnworked made) }
{
    let bytes = bytes_of(alloc, text.elements.as_slice())?;
    Ok(Text::genesis(alloc, &bytes)?)
}

/// Texts of the world, as runs, each under its name.
pub(crate) fn all_as_made(
    alloc: Global,
    texts: &[PlainText],
) -> Result<Vec<(TextId, Text)>, AllocError>
    requires opened { AllByRecursion IsOpened texts.now }
    ensures ok { IfOk result (λ made. elements_of made.items ≡ named texts.now) }
    ensures unworked { IfOk result (λ made. AllByRecursion (λ y. IsUnworked y.1) made.items) }
{
    let mut made = Vec::new(alloc);
    for text in texts {
        let runs = as_made(alloc, text)?;
        made.push((text.id, runs))?;
    }
    Ok(made)
}
