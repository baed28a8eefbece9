//! What a command writes and prints.
ghost use Rattle.std.specs.Prelude.{[], ◌∷◌, ◌≡◌, IfErr, OnErr, OnOk, Some, is_err};
ghost use Rattle.zed_files.specs.Asked.{Asks, refusal_in, writing};
ghost use Rattle.zed_files.specs.Effects.{HalfDone, Prints, Writes, after};
ghost use Rattle.zed_host.specs.Calls.{Printing};
ghost use Rattle.zed_host.specs.Counting.{Counts};
ghost use Rattle.zed_host.specs.HostContents.{HostContents, StillTells};

use crate::refusal::Refusal;
use zed_host::Host;

/// Writes a file, and a line on the standard output unless the file goes there.
pub fn write_out<H: Host>(host: &mut H, out: &str, bytes: &[u8], line: &str) -> Result<(), Refusal>
    ensures ok { (t : HostContents) → H.contents host.old ≡ Some t → OnOk result
        (H.contents host.new ≡ Some (after (Writes out.now bytes.now line.now) t)) }
    ensures half { (t : HostContents) → H.contents host.old ≡ Some t → OnErr result
        (StillTells (HalfDone (Writes out.now bytes.now line.now) t) (H.contents host.new)) }
    ensures err { IfErr result (λ e. e ≡ Refusal.File) }
    ensures asked { Asks H.called [] (writing out.now) (refusal_in result) host.old host.new }
    ensures failures { Counts (is_err result) (H.failed host.old) (H.failed host.new) }
    ensures faults { Counts (is_err result) (H.faults host.old) (H.faults host.new) }
{
    host.write(out, bytes)?;
    if out != "stdout" {
        host.print(line.as_bytes())?;
    }
    Ok(())
}

/// Prints a text.
pub fn print_out<H: Host>(host: &mut H, text: &[u8]) -> Result<(), Refusal>
    ensures ok { (t : HostContents) → H.contents host.old ≡ Some t
        → OnOk result (H.contents host.new ≡ Some (after (Prints text.now) t)) }
    ensures half { (t : HostContents) → H.contents host.old ≡ Some t
        → OnErr result (StillTells (HalfDone (Prints text.now) t) (H.contents host.new)) }
    ensures err { IfErr result (λ e. e ≡ Refusal.File) }
    ensures asked { Asks H.called [] (Printing ∷ []) (refusal_in result) host.old host.new }
    ensures failures { Counts (is_err result) (H.failed host.old) (H.failed host.new) }
    ensures faults { Counts (is_err result) (H.faults host.old) (H.faults host.new) }
{
    host.print(text)?;
    Ok(())
}
