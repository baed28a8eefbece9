//! Edit files written.

ghost use Rattle.std.specs.Prelude.{[], ◌≡◌, IfErr, Ok, Some};
ghost use Rattle.zed_editfile.specs.Spelling.{file_text};
ghost use Rattle.zed_files.specs.Asked.{Asks, refusal_in, writing};
ghost use Rattle.zed_files.specs.Effects.{Ends, Writes};
ghost use Rattle.zed_files.specs.Faults.{TellsFailures};
ghost use Rattle.zed_files.specs.Refusals.{IsOffStage};
ghost use Rattle.zed_host.specs.Counting.{Rose};
ghost use Rattle.zed_host.specs.HostContents.{HostContents};

use std::alloc::Global;
use zed_document::Document;
use zed_editfile::write_file;
use zed_files::{Refusal, write_out};
use zed_host::Host;

/// Writes the edit file of a document, and a line on the standard output unless the file goes there.
pub(crate) fn write_document<H: Host>(
    alloc: Global,
    host: &mut H,
    out: &str,
    document: &Document,
    line: &str,
) -> Result<(), Refusal>
    ensures ends { (t : HostContents) → H.contents host.old ≡ Some t
        → let failed = Rose (H.faults host.old) (H.faults host.new) in
        Ends failed
        (λ r. r ≡ Ok (Writes out.now (file_text document.now.world document.now.edits) line.now)) t
        result (H.contents host.new) }
    ensures err { IfErr result IsOffStage }
    ensures asked { Asks H.called [] (writing out.now) (refusal_in result) host.old host.new }
    ensures failures { TellsFailures H.faults H.failed result host.old host.new }
{
    let text = write_file(alloc, document.world(), document.edits())?;
    write_out(host, out, text.as_slice(), line)
}
