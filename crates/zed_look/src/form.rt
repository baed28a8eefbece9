//! The forms of a picture.
ghost use Rattle.std.specs.Prelude.{◌≡◌, IfOk};
ghost use Rattle.zed_look.specs.Form.{text_in};

use crate::coloured::put_coloured;
use crate::look::Picture;
use crate::plain::put_plain;
use crate::ruled::put_ruled;
use crate::svg::put_svg;
use std::alloc::{AllocError, Global};

/// The form of a picture.
#[derive(Clone, Copy, PartialEq, Eq)]
pub enum Form {
    /// 25 lines in UTF-8, with the codes by which a terminal shows the colours.
    Coloured,
    /// The same lines without colour.
    Plain,
    /// The lines without colour, with the numbers of columns and rows at the edges.
    Ruled,
    /// An SVG file.
    Svg,
}

/// A picture as text in a form. The only refusal is want of memory.
pub fn text_in(alloc: Global, form: Form, picture: &Picture) -> Result<Vec<u8>, AllocError>
    ensures { IfOk result (λ text. text.items ≡ text_in form picture.now) }
{
    let mut text = Vec::new(alloc);
    match form {
        Form::Coloured => put_coloured(picture, &mut text)?,
        Form::Plain => put_plain(picture, &mut text)?,
        Form::Ruled => put_ruled(picture, &mut text)?,
        Form::Svg => put_svg(picture, &mut text)?,
    }
    Ok(text)
}
