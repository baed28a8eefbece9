//! Appending the bytes of a text that a view shows, and their names. This may take memory, and
//! calls of the view itself don't.
ghost use Rattle.std.specs.Prelude.{◌≡◌, ◌<◌, ◌+◌, ◌-◌, ◌++◌, length, vec_len, vec_capacity, OnOk, OnErr};
ghost use Rattle.zed_code.specs.Text.{names_between};
ghost use Rattle.zed_edit.specs.Document.{text as text_shown, elements as elements_shown};

use crate::view::View;
use std::alloc::AllocError;
use zed_types::{ElemId, TextId};

/// Appends the live bytes of a text, or nothing if the text wasn't made. Memory comes only if the
/// vector has no room for them; then nothing is appended.
#[tactic(auto, using(crate::proofs::NamedTexts::of_some_text, crate::proofs::NamedTexts::of_no_text))]
pub fn append_text(view: &View, id: TextId, out: &mut Vec<u8>) -> Result<(), AllocError>
    ensures ok { OnOk result (out.new.items ≡ out.old.items ++ text_shown view.now id) }
    ensures err { OnErr result (out.new.items ≡ out.old.items) }
    ensures memory_only_when { OnErr result
        (vec_capacity out.old < vec_len out.old + length (text_shown view.now id)) }
{
    match view.text(id) {
        Some(text) => text.append_to(out),
        None => Ok(()),
    }
}

/// Appends the names of the live bytes of a text from one position up to another, without the
/// latter, or nothing if the text wasn't made. It walks through the text once. Memory comes only if
/// the vector has no room for so many names; then nothing is appended.
#[tactic(auto, using(crate::proofs::NamedTexts::of_some_text, crate::proofs::NamedTexts::no_names))]
pub fn append_names(
    view: &View,
    id: TextId,
    from: usize,
    to: usize,
    out: &mut Vec<ElemId>,
) -> Result<(), AllocError>
    ensures ok { OnOk result
        (out.new.items ≡ out.old.items ++ names_between from to (elements_shown view.now id)) }
    ensures err { OnErr result (out.new.items ≡ out.old.items) }
    ensures memory_only_when { OnErr result (vec_capacity out.old < vec_len out.old + (to - from)) }
{
    match view.text(id) {
        Some(text) => text.append_names(from, to, out),
        None => Ok(()),
    }
}
