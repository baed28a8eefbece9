//! Edit files, read into a document.
ghost use Rattle.std.specs.Prelude.{◌≡◌, ◌≢◌, ◌⊎◌, IfErr, IfOk, IfSome, MatchResult, OnOk, Some, None, Ok, Err, [], false, true, is_some, List};
ghost use Rattle.zed_op.specs.declared.op.Edit.{Edit as TheEdit};
ghost use Rattle.zed_op.specs.Set.{AllFit};
ghost use Rattle.zed_files.specs.Asked.{Asks, reading, refusal_in};
ghost use Rattle.zed_files.specs.Files.{edits_then, end_of as no_world};
ghost use Rattle.zed_files.specs.Collected.{CameInto, Collects, FirstIsThere, IsStreamIn};
ghost use Rattle.zed_files.specs.Texts.{texts_of};
ghost use Rattle.zed_files.specs.Faults.{NoneForgotten, TellsFailures};
ghost use Rattle.zed_files.specs.Refusals.{IsOffStage, is_file_refusal};
ghost use Rattle.zed_host.specs.Calls.{Reading, call};
ghost use Rattle.zed_host.specs.Counting.{Counts, Rose};
ghost use Rattle.zed_host.specs.HostContents.{HostContents, IsRead, file_in};

use crate::gathering::Gathered;
use crate::refusal::Refusal;
use std::alloc::Global;
use zed_document::{Document, deliveries_come_to_sets};
use zed_host::{Host, ReadError};

/// The bytes of the file of a name. File where there is none or it can't be read; Memory.
pub fn bytes_of_file<H: Host>(host: &mut H, name: &str) -> Result<Vec<u8>, Refusal>
    ensures bytes { (t : HostContents) → H.contents host.old ≡ Some t
        → IfOk result (λ bytes. file_in t name.now ≡ Some bytes.items) }
    ensures none { (t : HostContents) → H.contents host.old ≡ Some t
        → IfErr result (λ e. e ≡ Refusal.File
        → IsRead (Rose (H.faults host.old) (H.faults host.new)) t name.now None) }
    ensures memory_only_when { (t : HostContents) → H.contents host.old ≡ Some t
        → IfErr result (λ e. e ≡ Refusal.Memory → is_some (file_in t name.now) ≡ true) }
    ensures kept { H.contents host.new ≡ H.contents host.old }
    ensures err { IfErr result (λ e. (e ≡ Refusal.Memory) ⊎ (e ≡ Refusal.File)) }
    ensures asked { H.called host.old
        (call (Reading name.now) (is_file_refusal result)) host.new }
    ensures counts { Counts (is_file_refusal result) (H.failed host.old) (H.failed host.new) }
    ensures calm { OnOk result (H.faults host.new ≡ H.faults host.old) }
    ensures failures { TellsFailures H.faults H.failed result host.old host.new }
{
    match host.read(name) {
        Ok(bytes) => Ok(bytes),
        Err(ReadError::Memory) => Err(Refusal::Memory),
        Err(ReadError::NoFile | ReadError::File) => Err(Refusal::File),
    }
}

// Without a file there is no world.
fn end_of(asked: Option<u64>) -> Option<Refusal>
    ensures { result ≡ no_world asked }
{
    match asked {
        Some(_) => None,
        None => Some(Refusal::NoWorld),
    }
}

/// Reads edit files one after the other, and delivers their edits as they are read. The first one's world is that of all.
fn read_all<H: Host>(alloc: Global, host: &mut H, names: &[&str]) -> Result<Gathered, Refusal>
    ensures stream { IfOk result (λ g. (es : List TheEdit) × AllFit es
        × CameInto es g.feed g.clash
        × ((t : HostContents) → H.contents host.old ≡ Some t
        → IsStreamIn (Rose (H.faults host.old) (H.faults host.new)) t (texts_of names.now)
        (edits_then es g.refusal))) }
    ensures whole { IfOk result (λ g. g.refusal ≡ None → is_some g.feed ≡ true) }
    ensures kept { H.contents host.new ≡ H.contents host.old }
    ensures err { IfErr result (λ e. e ≡ Refusal.Memory) }
    ensures refusal { IfOk result (λ g. IfSome g.refusal IsOffStage) }
    ensures ample { IfOk result (λ g. g.refusal ≢ Some Refusal.Memory) }
    ensures memory_only_when { (t : HostContents) → H.contents host.old ≡ Some t
        → IfErr result (λ e. FirstIsThere t (texts_of names.now)) }
    ensures asked { MatchResult result
        (λ g. Asks H.called (reading (texts_of names.now)) [] g.refusal host.old host.new)
        (λ e. Asks H.called (reading (texts_of names.now)) [] (Some e) host.old host.new) }
    ensures failures { NoneForgotten H.faults H.failed host.old host.new }
    ensures file_only_when { IfOk result (λ g. g.refusal ≡ Some Refusal.File
        → Rose (H.failed host.old) (H.failed host.new)) }
{
    let mut gathered = Gathered::new(alloc, None);
    for name in names {
        let bytes = match bytes_of_file(host, name) {
            Ok(bytes) => bytes,
            Err(refusal) => match refusal {
                Refusal::File => {
                    gathered.refusal = Some(Refusal::File);
                    return Ok(gathered);
                }
                _ => return Err(Refusal::Memory),
            },
        };
        match gathered.read(alloc, bytes.as_slice())? {
            None => {}
            Some(error) => {
                gathered.refusal = Some(Refusal::from(error));
                return Ok(gathered);
            }
        }
    }
    gathered.refusal = end_of(gathered.world());
    Ok(gathered)
}

/// The document of edit files.
///
/// # Errors
/// What comes first: a clash of two edits, or the refusal of a file. Memory, only where the first file is there.
pub fn load<H: Host>(alloc: Global, host: &mut H, names: &[&str]) -> Result<Document, Refusal>
    ensures collected { (t : HostContents) → H.contents host.old ≡ Some t
        → let failed = Rose (H.faults host.old) (H.faults host.new) in MatchResult result
        (λ d. Collects failed t (texts_of names.now) (Ok d.edits))
        (λ e. (e ≡ Refusal.Memory) ⊎ Collects failed t (texts_of names.now) (Err e)) }
    ensures sound { IfOk result (λ d. d.is_stale ≡ false) }
    ensures memory_only_when { (t : HostContents) → H.contents host.old ≡ Some t
        → IfErr result (λ e. e ≡ Refusal.Memory → FirstIsThere t (texts_of names.now)) }
    ensures err { IfErr result IsOffStage }
    ensures kept { H.contents host.new ≡ H.contents host.old }
    ensures asked { Asks H.called (reading (texts_of names.now)) []
        (refusal_in result) host.old host.new }
    ensures failures { TellsFailures H.faults H.failed result host.old host.new }
{
    let gathered = read_all(alloc, host, names)?;
    deliveries_come_to_sets();
    gathered.settle()
}
