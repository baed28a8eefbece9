//! What an edit file has that another file lacks.
ghost use Rattle.std.specs.Prelude.{◌≡◌, ◌≢◌, ◌↔◌, ◌⊎◌, Contains, Err, IfOk, IsTrue, MatchOption, MatchResult, None, Ok, OnOk, Some, false};
ghost use Rattle.zed_op.specs.declared.op.Edit.{Edit as TheEdit};
ghost use Rattle.zed_op.specs.Set.{IsRising, set_of, with_edit};
ghost use Rattle.zed_system.specs.Loss.{Has, HasAll, IsEditFile, IsFaulty, IsNoFile};

use std::alloc::{AllocError, Global};
use zed_editfile::{EditFileError, EditReader, one_reading};
use zed_history::{History, spot_of};
use zed_op::{Edit, sets_rise};

// The edits of an edit file, in its order, and the number of its world.
#[derive(Drop)]
struct FileEdits {
    world: u64,
    edits: Vec<Edit>,
}

// The number of the world of a file that ended well, by what its reader answers at the end.
fn world_at(end: Result<(), EditFileError>, world: Option<u64>) -> Result<Option<u64>, AllocError>
    ensures { MatchResult result
        (λ told. MatchOption told
        (IsFaulty end ⊎ ((end ≡ Ok tt) × (world ≡ None)))
        (λ n. (end ≡ Ok tt) × (world ≡ Some n)))
        (λ e. end ≡ Err EditFileError.Memory) }
{
    match end {
        Ok(()) => Ok(world),
        Err(EditFileError::Memory) => Err(AllocError),
        Err(_) => Ok(None),
    }
}

// What an edit file has; nothing if the bytes can't be read as one.
fn read(alloc: Global, bytes: &[u8]) -> Result<Option<FileEdits>, AllocError>
    ensures { IfOk result (λ read. MatchOption read
        (IsNoFile bytes.now)
        (λ file. IsEditFile file.world file.edits.items bytes.now)) }
{
    one_reading();
    let mut edits = Vec::new(alloc);
    let mut reader = EditReader::new(alloc, None);
    // it answers a fault at the end again
    let _ = reader.feed(bytes, &mut edits);
    match world_at(reader.finish(), reader.world())? {
        Some(world) => Ok(Some(FileEdits { world, edits })),
        None => Ok(None),
    }
}

// Adds an edit, unless one with its stamp is there.
fn gather(history: &mut History, edit: Edit) -> Result<(), AllocError>
    requires { IsRising history.old }
    ensures { OnOk result (history.new ≡ with_edit edit history.old) }
{
    history.seek(edit.stamp);
    match history.find(edit.stamp) {
        Some(_) => Ok(()),
        None => history.add(edit),
    }
}

// Edits in stamp order, each once. Of two with one stamp the first counts.
fn in_order(alloc: Global, edits: Vec<Edit>) -> Result<Vec<Edit>, AllocError>
    ensures set { IfOk result (λ set. set.items ≡ set_of edits.items) }
    ensures rising { IfOk result (λ set. IsRising set.items) }
{
    sets_rise();
    let mut history = History::of(Vec::new(alloc));
    for edit in edits {
        gather(&mut history, edit)?;
    }
    Ok(history.close())
}

// Whether edits in stamp order have this one.
fn has(set: &[Edit], edit: &Edit) -> bool
    requires { IsRising set.now }
    ensures { IsTrue result ↔ Has set.now edit.now }
{
    match spot_of(set, set.len(), edit.stamp) {
        Ok(there) => there.is_same(edit),
        Err(_) => false,
    }
}

// Whether edits in stamp order have each of these.
fn has_each(set: &[Edit], edits: &[Edit]) -> bool
    requires { IsRising set.now }
    ensures { IsTrue result ↔ ((e : TheEdit) → Contains edits.now e → Has set.now e) }
{
    edits.iter().all(|edit| has(set, edit))
}

/// Whether something is lost where new bytes take the place of an old file: that can't be read as an
/// edit file, or has an edit that the new one, of the same world, lacks. Takes time and memory as
/// reading both does.
///
/// # Errors
/// Memory was refused.
pub fn is_lost(alloc: Global, old: &[u8], new: &[u8]) -> Result<bool, AllocError>
    ensures { IfOk result (λ lost. (lost ≡ false) ↔ HasAll new.now old.now) }
{
    one_reading();
    let Some(old) = read(alloc, old)? else {
        return Ok(true);
    };
    let Some(new) = read(alloc, new)? else {
        return Ok(true);
    };
    if old.world != new.world {
        return Ok(true);
    }
    let set = in_order(alloc, new.edits)?;
    Ok(!has_each(&set, &old.edits))
}
