//! One step of a reader: a piece of a head, or of records.
ghost use Rattle.std.specs.Prelude.{◌≡◌, ◌⊎◌, ◌++◌, ◌+◌, ◌<◌, ◌≤◌, ◌^◌, ℕ, List, [], length, drop, slice_index, Some, None, OnOk, OnErr, IfOk, IfErr, IfSome, IfNone, false, true};
ghost use Rattle.byteorder.specs.Endian.{little_number};
ghost use Rattle.zed_editfile.specs.Spelling.{head_text};
ghost use Rattle.zed_editfile.specs.Stream.{Gains, IsLong, MayWantMemoryBehind, waits, fails, is_other, is_version, head_stop, record_stop, IsWaiting, Advances, end_of};

use crate::error::EditFileError;
use crate::reading::{length_of, read_record, read_records};
use byteorder::{ByteOrder, LittleEndian};
use smallvec::SmallVec;
use std::alloc::{AllocError, Global};
use zed_op::Edit;

/// Bytes of the head.
const HEAD: usize = 12;

/// Whether this version is read.
fn is_version(version: u8) -> bool
    ensures { result ≡ is_version version }
{
    version == 1 || version == 2
}

/// The version and the number of the world, once the whole head is there.
#[tactic(auto, unfolding(crate::specs::Stream::head_stop))]
fn head_of(asked: Option<u64>, head: &[u8]) -> Result<Option<(u8, u64)>, EditFileError>
    ensures none { IfOk result (λ found. IfNone found (head_stop asked head.now ≡ waits head.now)) }
    ensures some { IfOk result (λ found. IfSome found (λ h.
        (head_stop asked head.now ≡ None) × (h.0 ≡ slice_index head.now 3)
        × (h.1 ≡ little_number 8 (drop 4 head.now)))) }
    ensures err { IfErr result (λ e. head_stop asked head.now ≡ fails e) }
    ensures bytes { (i : ℕ) → slice_index head.now i < 256 }
{
    let (letters, _) = head.split_at(head.len().min(3));
    if !b"ZED".starts_with(letters) {
        return Err(EditFileError::Magic);
    }
    if head.len() < 4 {
        return Ok(None);
    }
    let version = head[3];
    if !is_version(version) {
        return Err(EditFileError::NewVersion);
    }
    if head.len() < HEAD {
        return Ok(None);
    }
    let world = LittleEndian::read_u64(&head[4..]);
    match asked {
        Some(asked) if asked != world => Err(EditFileError::OtherWorld),
        _ => Ok(Some((version, world))),
    }
}

/// Appends bytes to those that are kept. A head takes no memory, nor does whatever is as short.
fn keep(kept: &mut SmallVec<u8, 12>, bytes: &[u8]) -> Result<(), AllocError>
    ensures all { OnOk result (kept.new.items ≡ kept.old.items ++ bytes.now) }
    ensures memory_only_when { OnErr result
        ((0 < length bytes.now) × (12 < length kept.old.items + length bytes.now)) }
{
    if bytes.is_empty() {
        return Ok(());
    }
    let room = kept.capacity();
    prove!(HEAD <= room);
    kept.extend_from_slice(bytes)
}

/// Moves bytes from a piece to the end of `kept` until it has `size`, and answers those that are left.
fn fill<'a>(
    kept: &mut SmallVec<u8, 12>,
    size: usize,
    piece: &'a [u8],
) -> Result<&'a [u8], AllocError>
    ensures all { IfOk result (λ left. kept.new.items ++ left.now ≡ kept.old.items ++ piece.now) }
    ensures size { OnOk result (length kept.old.items ≤ size → length kept.new.items ≤ size) }
    ensures none { IfOk result (λ left. length kept.new.items < size → left.now ≡ []) }
    ensures full { OnOk result (size ≤ length kept.old.items → kept.new.items ≡ kept.old.items) }
    ensures memory_only_when { OnErr result
        ((12 < size) × (12 < length kept.old.items + length piece.now)) }
{
    let count = size.saturating_sub(kept.len()).min(piece.len());
    let (front, left) = piece.split_at(count);
    keep(kept, front)?;
    Ok(left)
}

/// Goes on with a head. Answers the version and the number of the world, once the head is whole, and what is left of the piece.
fn take_head<'a>(
    asked: Option<u64>,
    kept: &mut SmallVec<u8, 12>,
    piece: &'a [u8],
) -> Result<(Option<(u8, u64)>, &'a [u8]), EditFileError>
    requires { head_stop asked kept.old.items ≡ waits kept.old.items }
    ensures none { IfOk result (λ x. IfNone x.0
        ((kept.new.items ≡ kept.old.items ++ piece.now)
        × (head_stop asked kept.new.items ≡ waits kept.new.items))) }
    ensures some { IfOk result (λ x. IfSome x.0 (λ h.
        (kept.new.items ≡ []) × (is_other asked h.1 ≡ false) × (h.1 < 2 ^ 64)
        × (is_version h.0 ≡ true)
        × (kept.old.items ++ piece.now ≡ head_text h.0 h.1 ++ x.1.now))) }
    ensures err { IfErr result (λ e. head_stop asked (kept.old.items ++ piece.now) ≡ fails e) }
{
    let left = fill(kept, HEAD, piece)?;
    match head_of(asked, kept.as_slice())? {
        None => Ok((None, left)),
        Some(head) => {
            kept.clear();
            Ok((Some(head), left))
        }
    }
}

/// Goes on with a record that was cut, if there is one. Answers what is left of the piece once no record is cut.
fn take_cut<'a>(
    alloc: Global,
    version: u8,
    kept: &mut SmallVec<u8, 12>,
    piece: &'a [u8],
    out: &mut Vec<Edit>,
) -> Result<Option<&'a [u8]>, EditFileError>
    requires { record_stop version kept.old.items ≡ waits kept.old.items }
    ensures some { IfOk result (λ left. IfSome left (λ l. (kept.new.items ≡ [])
        × Gains version out.old.items out.new.items (kept.old.items ++ piece.now) l.now)) }
    ensures none { IfOk result (λ left. IfNone left ((out.new.items ≡ out.old.items)
        × (kept.new.items ≡ kept.old.items ++ piece.now)
        × (record_stop version kept.new.items ≡ waits kept.new.items))) }
    ensures err { IfErr result (λ e. (out.new.items ≡ out.old.items)
        × (((e ≡ EditFileError.Memory) × (0 < length kept.old.items)
        × IsLong (kept.old.items ++ piece.now))
        ⊎ (record_stop version (kept.old.items ++ piece.now) ≡ fails e))) }
{
    if kept.is_empty() {
        return Ok(Some(piece));
    }
    let piece = fill(kept, 4, piece)?;
    match length_of(kept.as_slice())? {
        None => Ok(None),
        Some(len) => {
            let left = fill(kept, 4 + len, piece)?;
            match read_record(alloc, version, kept.as_slice(), out)? {
                None => Ok(None),
                Some(_) => {
                    kept.clear();
                    Ok(Some(left))
                }
            }
        }
    }
}

/// Takes the edits of the records that are whole now, and keeps what follows them.
fn take_records(
    alloc: Global,
    version: u8,
    kept: &mut SmallVec<u8, 12>,
    piece: &[u8],
    out: &mut Vec<Edit>,
) -> Result<(), EditFileError>
    requires { record_stop version kept.old.items ≡ waits kept.old.items }
    ensures ok { OnOk result
        (Gains version out.old.items out.new.items (kept.old.items ++ piece.now) kept.new.items
        × (record_stop version kept.new.items ≡ waits kept.new.items)) }
    ensures err { IfErr result (λ e. (tail : List ℕ)
        × Gains version out.old.items out.new.items (kept.old.items ++ piece.now) tail
        × (((e ≡ EditFileError.Memory)
        × MayWantMemoryBehind version kept.old.items (kept.old.items ++ piece.now) tail)
        ⊎ (record_stop version tail ≡ fails e))) }
{
    match take_cut(alloc, version, kept, piece, out)? {
        None => Ok(()),
        Some(left) => {
            let tail = read_records(alloc, version, left, out)?;
            keep(kept, tail)?;
            Ok(())
        }
    }
}

/// Goes on with the head or with the records.
pub(crate) fn advance(
    alloc: Global,
    asked: Option<u64>,
    world: &mut Option<u64>,
    version: &mut u8,
    kept: &mut SmallVec<u8, 12>,
    piece: &[u8],
    out: &mut Vec<Edit>,
) -> Result<(), EditFileError>
    requires { IsWaiting asked world.old version.old kept.old.items }
    ensures advances { Advances asked world.old world.new version.old version.new
        kept.old.items (kept.old.items ++ piece.now) out.old.items out.new.items
        (end_of result kept.new.items) }
    ensures waits { OnOk result (IsWaiting asked world.new version.new kept.new.items) }
{
    match *world {
        Some(_) => take_records(alloc, *version, kept, piece, out),
        None => {
            let (found, left) = take_head(asked, kept, piece)?;
            match found {
                None => Ok(()),
                Some((told, number)) => {
                    *world = Some(number);
                    *version = told;
                    take_records(alloc, told, kept, left, out)
                }
            }
        }
    }
}
