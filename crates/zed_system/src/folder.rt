//! How a file takes its place: whole, or not at all.
ghost use Rattle.std.specs.Prelude.{◌≡◌, ◌⊎◌, ◌||◌, [], ◌∷◌, ◌++◌, Bool, IfSome, List, OnErr, OnOk, None, Option, false, is_err, option_map, true};
ghost use Rattle.zed_system.specs.Held.{Held, IsUnwritten, IsWhole, StillTells, beside_of, kept_by, none_beside, renamed_by, replaced_by, seen_of, with_beside, with_empty, with_kept, with_more, with_place, with_settled, with_synced};
ghost use Rattle.zed_system.specs.Steps.{Create, Fill, Keep, Remove, Rename, StopsIn, Sync, SyncPlace, Taken, Went, done, filling, making, placing, taken};

use std::io;

/// What becomes of a file when another one takes its place.
#[derive(Clone, Copy, PartialEq, Eq)]
pub enum Old {
    /// It is gone.
    Dropped,
    /// It is kept beside the new one, and so is all that was kept before.
    Kept,
}

/// The folder of one file that is to be written: what is in the file's place, the new file beside
/// it, and the old files that are kept beside it.
pub trait Folder {
    /// What it holds, or none if it doesn't say.
    ghost told: { Self → Option Held };

    /// Whether a step of it failed.
    ghost has_failed: { Self → Bool };

    /// The steps that it took, in order, and whether each failed; or none if it doesn't say.
    ghost steps: { Self → Option (List Taken) };

    /// Makes the new file, empty, under a name that no other file has.
    fn create(&mut self) -> io::Result<()>
        ensures result { OnOk result (told self.new ≡ option_map with_empty (told self.old)) }
        ensures kept { option_map seen_of (told self.new) ≡ option_map seen_of (told self.old) }
        ensures asked { Went (taken Create (is_err result) ∷ [])
            (steps self.old) (steps self.new) }
        ensures faults { has_failed self.new ≡ (is_err result || has_failed self.old) };

    /// Gives the new file its bytes.
    fn fill(&mut self, bytes: &[u8]) -> io::Result<()>
        ensures result { OnOk result
            (told self.new ≡ option_map (with_more bytes.now) (told self.old)) }
        ensures kept { option_map seen_of (told self.new) ≡ option_map seen_of (told self.old) }
        ensures asked { Went (taken (Fill bytes.now) (is_err result) ∷ [])
            (steps self.old) (steps self.new) }
        ensures faults { has_failed self.new ≡ (is_err result || has_failed self.old) };

    /// Brings the new file onto the disk.
    fn sync(&mut self) -> io::Result<()>
        ensures result { OnOk result (told self.new ≡ option_map with_synced (told self.old)) }
        ensures kept { option_map seen_of (told self.new) ≡ option_map seen_of (told self.old) }
        ensures asked { Went (taken Sync (is_err result) ∷ [])
            (steps self.old) (steps self.new) }
        ensures faults { has_failed self.new ≡ (is_err result || has_failed self.old) };

    /// Gives the file in the place a second name beside it, which no file has, and brings that onto
    /// the disk. If a file that is kept there has the same bytes, no other is made. What was kept
    /// before stays, under its names.
    fn keep(&mut self) -> io::Result<()>
        ensures result { OnOk result (told self.new ≡ option_map with_kept (told self.old)) }
        ensures kept { OnErr result (StillTells (IsUnwritten Old.Kept) (told self.old) (told self.new)) }
        ensures asked { Went (taken Keep (is_err result) ∷ [])
            (steps self.old) (steps self.new) }
        ensures faults { has_failed self.new ≡ (is_err result || has_failed self.old) };

    /// Puts the new file into the place. Before this everyone finds the old file there, and after
    /// it the new one.
    fn rename(&mut self) -> io::Result<()>
        requires { IfSome (told self.old) IsWhole }
        ensures result { OnOk result (told self.new ≡ option_map with_place (told self.old)) }
        ensures kept { OnErr result (told self.new ≡ told self.old) }
        ensures asked { Went (taken Rename (is_err result) ∷ [])
            (steps self.old) (steps self.new) }
        ensures faults { has_failed self.new ≡ (is_err result || has_failed self.old) };

    /// Removes the new file, if there is one.
    fn remove(&mut self)
        ensures result { told self.new ≡ option_map none_beside (told self.old) }
        ensures asked { Went (taken Remove false ∷ []) (steps self.old) (steps self.new) }
        ensures faults { has_failed self.new ≡ has_failed self.old };

    /// Brings what is in the place onto the disk.
    fn sync_place(&mut self) -> io::Result<()>
        ensures result { OnOk result (told self.new ≡ option_map with_settled (told self.old)) }
        ensures kept { OnErr result (told self.new ≡ told self.old) }
        ensures asked { Went (taken SyncPlace (is_err result) ∷ [])
            (steps self.old) (steps self.new) }
        ensures faults { has_failed self.new ≡ (is_err result || has_failed self.old) };
}

// Gives the new file its bytes, on the disk.
#[tactic(auto, using(crate::proofs::Steps::stops_first, crate::proofs::Steps::second_fails))]
fn fill<F: Folder>(folder: &mut F, bytes: &[u8]) -> io::Result<()>
    ensures result { OnOk result (F.told folder.new
        ≡ option_map (λ h. with_synced (with_more bytes.now h)) (F.told folder.old)) }
    ensures kept { option_map seen_of (F.told folder.new)
        ≡ option_map seen_of (F.told folder.old) }
    ensures asked { OnOk result
        (Went (done (filling bytes.now)) (F.steps folder.old) (F.steps folder.new)) }
    ensures stopped { OnErr result
        (StopsIn (filling bytes.now) [] (F.steps folder.old) (F.steps folder.new)) }
    ensures faults { F.has_failed folder.new ≡ (is_err result || F.has_failed folder.old) }
{
    folder.fill(bytes)?;
    folder.sync()
}

// Makes the new file with all its bytes, on the disk.
fn make<F: Folder>(folder: &mut F, bytes: &[u8]) -> io::Result<()>
    ensures result { OnOk result (F.told folder.new
        ≡ option_map (λ h. with_synced (with_beside bytes.now h)) (F.told folder.old)) }
    ensures kept { option_map seen_of (F.told folder.new)
        ≡ option_map seen_of (F.told folder.old) }
    ensures asked { OnOk result
        (Went (done (making bytes.now)) (F.steps folder.old) (F.steps folder.new)) }
    ensures stopped { OnErr result
        (StopsIn (making bytes.now) [] (F.steps folder.old) (F.steps folder.new)) }
    ensures faults { F.has_failed folder.new ≡ (is_err result || F.has_failed folder.old) }
{
    folder.create()?;
    fill(folder, bytes)
}

// Makes the new file, keeps the old one where that is asked for, and puts the new one into the place.
fn take_place<F: Folder>(folder: &mut F, old: Old, bytes: &[u8]) -> io::Result<()>
    ensures result { OnOk result (F.told folder.new
        ≡ option_map (λ h. renamed_by bytes.now (kept_by old h)) (F.told folder.old)) }
    ensures kept { OnErr result
        (StillTells (IsUnwritten old) (F.told folder.old) (F.told folder.new)) }
    ensures asked { OnOk result
        (Went (done (placing old bytes.now)) (F.steps folder.old) (F.steps folder.new)) }
    ensures stopped { OnErr result
        (StopsIn (placing old bytes.now) [] (F.steps folder.old) (F.steps folder.new)) }
    ensures faults { F.has_failed folder.new ≡ (is_err result || F.has_failed folder.old) }
{
    make(folder, bytes)?;
    match old {
        Old::Dropped => {}
        Old::Kept => folder.keep()?,
    }
    folder.rename()
}

/// Writes a file: afterwards it has these bytes, or is as it was. The old file is dropped, or kept
/// beside it; the same bytes are kept once, and what was kept before stays. The only refusal is that
/// a step failed. Then the new file is removed, and the file is as it was, unless only the last step
/// failed; the old file may be kept already.
/// The steps, each asked for once, in order: the new file is made, filled and brought onto the
/// disk; the old one is kept, if asked for; the new one is renamed, and the place is brought onto
/// the disk. After the first step that fails, the new file is removed, and nothing else is done.
pub fn replace<F: Folder>(folder: &mut F, old: Old, bytes: &[u8]) -> io::Result<()>
    ensures result { OnOk result (F.told folder.new
        ≡ option_map (λ h. replaced_by bytes.now (kept_by old h)) (F.told folder.old)) }
    ensures kept { OnErr result
        (StillTells (IsUnwritten old) (F.told folder.old) (F.told folder.new)
        ⊎ (F.told folder.new
        ≡ option_map (λ h. renamed_by bytes.now (kept_by old h)) (F.told folder.old))) }
    ensures cleared { option_map beside_of (F.told folder.new)
        ≡ option_map (λ h. None) (F.told folder.old) }
    ensures asked { OnOk result (Went (done (placing old bytes.now ++ SyncPlace ∷ []))
        (F.steps folder.old) (F.steps folder.new)) }
    ensures stopped { OnErr result
        (StopsIn (placing old bytes.now) (Remove ∷ []) (F.steps folder.old) (F.steps folder.new)
        ⊎ Went (done (placing old bytes.now) ++ taken SyncPlace true ∷ [])
        (F.steps folder.old) (F.steps folder.new)) }
    ensures faults { F.has_failed folder.new ≡ (is_err result || F.has_failed folder.old) }
{
    match take_place(folder, old, bytes) {
        Ok(()) => folder.sync_place(),
        Err(error) => {
            folder.remove();
            Err(error)
        }
    }
}
