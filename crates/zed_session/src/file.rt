//! The edit file of a document.
ghost use Rattle.std.specs.Prelude.{◌≡◌, IfErr, IfOk};
ghost use Rattle.zed_editfile.specs.Spelling.{file_text};

use std::alloc::Global;
use zed_document::Document;
use zed_editfile::write_file;
use zed_link::LinkError;

/// The edit file of a document.
pub(crate) fn file_of(alloc: Global, document: &Document) -> Result<Vec<u8>, LinkError>
    ensures ok { IfOk result (λ file.
        file.items ≡ file_text document.now.world document.now.edits) }
    ensures err { IfErr result (λ e. e ≡ LinkError.Memory) }
{
    let file = write_file(alloc, document.world(), document.edits())?;
    Ok(file)
}
