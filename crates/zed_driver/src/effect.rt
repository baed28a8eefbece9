//! What a command does at its end.
ghost use Rattle.std.specs.Prelude.{◌≡◌, IfOk, Some, None, option_map};
ghost use Rattle.zed_driver.specs.Effects.{effect, line_unless, noted, output, prints, writes};

use std::alloc::{AllocError, Global};
use std::marker::Model;
use zed_types::Bytes;

/// A whole file that is to be written.
#[derive(Drop)]
pub struct Output {
    name: String,
    bytes: Vec<u8>,
}

impl Model for Output {
    ghost use Rattle.std.specs.Prelude.{string_bytes};
    ghost use Rattle.zed_driver.specs.Effects as effects;

    ghost Value = { effects.Output };

    ghost view = { λ f. record { name = string_bytes f.name; bytes = f.bytes.items } };
}

impl Output {
    /// The file of a name, with these bytes.
    pub fn new(alloc: Global, name: &str, bytes: Vec<u8>) -> Result<Output, AllocError>
        ensures { IfOk result (λ f. f ≡ output name.now bytes.items) }
    {
        let name = String::from_str(alloc, name)?;
        Ok(Output { name, bytes })
    }

    pub(crate) fn name(&self) -> &str
        ensures { result.now ≡ self.now.name }
    {
        self.name.as_str()
    }

    pub(crate) fn bytes(&self) -> &[u8]
        ensures { result.now ≡ self.now.bytes }
    {
        self.bytes.as_slice()
    }
}

/// What a command does at its end: it writes these files, one after the other, prints a text behind
/// them, if there is one, and then writes a note to the standard error, if there is one. It answers
/// a status.
#[derive(Drop)]
pub struct Effect {
    files: Vec<Output>,
    text: Option<Bytes>,
    note: Option<Bytes>,
    status: u8,
}

impl Model for Effect {
    ghost use Rattle.zed_driver.specs.Effects as effects;

    ghost Value = { effects.Effect };

    ghost view = { λ x. record { files = x.files.items; text = x.text; note = x.note; status = x.status } };
}

impl Effect {
    /// Files are written and a text is printed, without a note.
    pub fn new(files: Vec<Output>, text: Option<Bytes>, status: u8) -> Effect
        ensures { result ≡ effect files.items text status }
    {
        Effect {
            files,
            text,
            note: None,
            status,
        }
    }

    /// A text is printed.
    pub fn prints(alloc: Global, text: Vec<u8>, status: u8) -> Effect
        ensures { result ≡ prints text.items status }
    {
        Effect::new(Vec::new(alloc), Some(Bytes::new(text)), status)
    }

    /// A file is written, and a line printed, unless the file goes to the standard output.
    pub fn writes(
        alloc: Global,
        out: &str,
        bytes: Vec<u8>,
        line: &str,
    ) -> Result<Effect, AllocError>
        ensures { IfOk result (λ x. x ≡ writes out.now bytes.items line.now) }
    {
        let text = line_beside(alloc, out, line)?;
        let mut files = Vec::new(alloc);
        files.push(Output::new(alloc, out, bytes)?)?;
        Ok(Effect::new(files, text, 0))
    }

    /// The same effect with this note.
    pub fn with_note(self, note: Bytes) -> Effect
        ensures { result ≡ noted note self }
    {
        Effect {
            files: self.files,
            text: self.text,
            note: Some(note),
            status: self.status,
        }
    }

    pub(crate) fn files(&self) -> &[Output]
        ensures { result.now ≡ self.now.files }
    {
        self.files.as_slice()
    }

    pub(crate) fn text(&self) -> Option<&[u8]>
        ensures { option_map (λ s. s.now) result ≡ self.now.text }
    {
        match &self.text {
            Some(text) => Some(text.as_slice()),
            None => None,
        }
    }

    pub(crate) fn note(&self) -> Option<&[u8]>
        ensures { option_map (λ s. s.now) result ≡ self.now.note }
    {
        match &self.note {
            Some(note) => Some(note.as_slice()),
            None => None,
        }
    }

    /// What is answered once the effect was carried out.
    pub fn status(&self) -> u8
        ensures { result ≡ self.now.status }
    {
        self.status
    }
}

// A line on the standard output, unless a file goes there.
fn line_beside(alloc: Global, out: &str, line: &str) -> Result<Option<Bytes>, AllocError>
    ensures { IfOk result (λ text. text ≡ line_unless out.now line.now) }
{
    if out == "stdout" {
        Ok(None)
    } else {
        Ok(Some(Bytes::from_slice(alloc, line.as_bytes())?))
    }
}
