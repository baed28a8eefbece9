//! Reading whole records.
ghost use Rattle.std.specs.Prelude.{◌≡◌, ◌⊎◌, ◌++◌, ◌<◌, ◌≤◌, ℕ, List, length, drop, IfOk, IfErr, IfSome, IfNone, true, false};
ghost use Rattle.byteorder.specs.Endian.{little_number};
ghost use Rattle.zed_op.specs.Fit.{fault};
ghost use Rattle.zed_op.specs.Verdict.{HangsOnItsWorld};
ghost use Rattle.zed_editfile.specs.Reading.{GivesUnless, SpellsString, edit_at, unless_faulty};
ghost use Rattle.zed_editfile.specs.Stream.{Frames, Gains, MayWantMemory, waits, fails, is_length, record_stop};

use crate::error::EditFileError;
use crate::ops::unchecked_edit_of;
use byteorder::{ByteOrder, LittleEndian};
use std::alloc::Global;
use zed_op::{Edit, check};

/// Fewest bytes of a body: a stamp and an op.
const LEAST_BODY: usize = 9;

/// Most bytes of a body.
const MOST_BODY: usize = 4_194_304;

/// An edit, if it fits.
fn fitting(alloc: Global, edit: Edit) -> Result<Edit, EditFileError>
    ensures { GivesUnless (HangsOnItsWorld edit) (λ e. e) result (unless_faulty (fault edit) edit) }
{
    check(alloc, &edit)?;
    Ok(edit)
}

/// The edit that the body of a record of a version spells, if it fits.
#[tactic(auto, unfolding(crate::specs::Reading::edit_at), using(crate::proofs::Strings::world_has))]
fn edit_of(alloc: Global, version: u8, body: &[u8]) -> Result<Edit, EditFileError>
    ensures { GivesUnless (SpellsString version body.now) (λ e. e) result
        (edit_at version body.now) }
{
    let edit = unchecked_edit_of(alloc, version, body)?;
    fitting(alloc, edit)
}

/// The length of the body of the record that begins here, once its four bytes are there.
pub(crate) fn length_of(bytes: &[u8]) -> Result<Option<usize>, EditFileError>
    ensures none { IfOk result (λ len. IfNone len (length bytes.now < 4)) }
    ensures some { IfOk result (λ len. IfSome len (λ n. (4 ≤ length bytes.now)
        × (n ≡ little_number 4 bytes.now) × (is_length n ≡ true))) }
    ensures err { IfErr result (λ e. (e ≡ EditFileError.RecordLength)
        × (4 ≤ length bytes.now) × (is_length (little_number 4 bytes.now) ≡ false)) }
{
    if bytes.len() < 4 {
        return Ok(None);
    }
    let len = LittleEndian::read_u32(bytes) as usize;
    if len < LEAST_BODY || MOST_BODY < len {
        return Err(EditFileError::RecordLength);
    }
    Ok(Some(len))
}

/// The body of the record at the front, and what follows it, once it is whole.
#[tactic(auto, unfolding(crate::specs::Stream::record_stop))]
fn split_record(bytes: &[u8]) -> Result<Option<(&[u8], &[u8])>, EditFileError>
    ensures none { IfOk result (λ parts. IfNone parts
        ((version : ℕ) → record_stop version bytes.now ≡ waits bytes.now)) }
    ensures some { IfOk result (λ parts. IfSome parts (λ p. Frames bytes.now p.0.now p.1.now)) }
    ensures err { IfErr result (λ e. (version : ℕ) → record_stop version bytes.now ≡ fails e) }
{
    match length_of(bytes)? {
        None => Ok(None),
        Some(len) => {
            let (_, rest) = bytes.split_at(4);
            if rest.len() < len {
                return Ok(None);
            }
            Ok(Some(rest.split_at(len)))
        }
    }
}

/// Takes the edit of the record at the front, once it is whole, and answers what follows it.
pub(crate) fn read_record<'a>(
    alloc: Global,
    version: u8,
    bytes: &'a [u8],
    out: &mut Vec<Edit>,
) -> Result<Option<&'a [u8]>, EditFileError>
    ensures some { IfOk result (λ rest. IfSome rest (λ r.
        Gains version out.old.items out.new.items bytes.now r.now
        × (r.now ≡ drop (little_number 4 bytes.now) (drop 4 bytes.now))
        × (length r.now < length bytes.now))) }
    ensures none { IfOk result (λ rest. IfNone rest
        ((out.new.items ≡ out.old.items) × (record_stop version bytes.now ≡ waits bytes.now))) }
    ensures err { IfErr result (λ e. (out.new.items ≡ out.old.items)
        × (((e ≡ EditFileError.Memory) × MayWantMemory version bytes.now)
        ⊎ (record_stop version bytes.now ≡ fails e))) }
{
    match split_record(bytes)? {
        None => Ok(None),
        Some((body, rest)) => {
            out.push(edit_of(alloc, version, body)?)?;
            Ok(Some(rest))
        }
    }
}

/// Takes the edits of the whole records at the front, and answers what follows them.
pub(crate) fn read_records<'a>(
    alloc: Global,
    version: u8,
    bytes: &'a [u8],
    out: &mut Vec<Edit>,
) -> Result<&'a [u8], EditFileError>
    ensures ok { IfOk result (λ tail. Gains version out.old.items out.new.items bytes.now tail.now
        × (record_stop version tail.now ≡ waits tail.now)) }
    ensures err { IfErr result (λ e. (tail : List ℕ)
        × Gains version out.old.items out.new.items bytes.now tail
        × (((e ≡ EditFileError.Memory) × MayWantMemory version tail)
        ⊎ (record_stop version tail ≡ fails e))) }
{
    let mut rest = bytes;
    while let Some(after) = read_record(alloc, version, rest, out)? {
        rest = after;
    }
    Ok(rest)
}
