//! What a document shows of its texts.

ghost use Rattle.std.specs.Prelude.{◌≡◌, ◌<◌, length, IfOk, IfErr};
ghost use Rattle.zed_types.specs.Text.{alive_bytes as bytes_alive};
ghost use Rattle.zed_edit.specs.Document.{text as text_shown};

use crate::has::text_named;
use crate::plain::Plain;
use std::alloc::{AllocError, Global};
use zed_op::EditError;
use zed_types::{TextByte, TextId};

fn alive_bytes(alloc: Global, elements: &[TextByte]) -> Result<Vec<u8>, AllocError>
    ensures result { IfOk result (λ v. v.items ≡ bytes_alive elements.now) }
    ensures memory_only_when { IfErr result (λ e. 0 < length (bytes_alive elements.now)) }
{
    let mut bytes = Vec::new(alloc);
    for x in elements {
        if x.alive {
            bytes.push(x.byte)?;
        }
    }
    Ok(bytes)
}

#[tactic(auto, using(crate::proofs::Finding::count_alive))]
fn alive_count(elements: &[TextByte]) -> usize
    ensures { result ≡ length (bytes_alive elements.now) }
{
    elements.iter().filter(|e| e.alive).count()
}

impl Plain {
    /// The alive bytes of a text. A text that was not made has none. `Memory` is the only refusal,
    /// and only if there is an alive byte.
    pub fn text(&self, alloc: Global, t: TextId) -> Result<Vec<u8>, EditError>
        ensures result { IfOk result (λ v. v.items ≡ text_shown self.now t) }
        ensures err { IfErr result (λ e. e ≡ EditError.Memory) }
        ensures memory_only_when { IfErr result (λ e. 0 < length (text_shown self.now t)) }
    {
        match text_named(self, t) {
            Some(x) => Ok(alive_bytes(alloc, x.elements.as_slice())?),
            None => Ok(Vec::new(alloc)),
        }
    }

    /// How many alive bytes a text has.
    pub fn length(&self, t: TextId) -> usize
        ensures { result ≡ length (text_shown self.now t) }
    {
        match text_named(self, t) {
            Some(x) => alive_count(x.elements.as_slice()),
            None => 0,
        }
    }
}
