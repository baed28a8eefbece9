//! Writing heads and records.
ghost use Rattle.std.specs.Prelude.{◌≡◌, ◌++◌, ◌+◌, ◌<◌, true, IfOk, IfErr, OnOk, OnErr, length, vec_len};
ghost use Rattle.std.specs.List.{flat_map};
ghost use Rattle.std.specs.Vec.{vec_capacity};
ghost use Rattle.zed_op.specs.Fit.{Fits, is_in_range};
ghost use Rattle.zed_op.specs.Set.{AllFit};
ghost use Rattle.zed_editfile.specs.Room.{HasRoom, Appends};
ghost use Rattle.zed_editfile.specs.Spelling.{file_text, spelling, record_text, head_text};
ghost use Rattle.zed_editfile.specs.Stream.{IsRecord};

use crate::error::EditFileError;
use crate::laws::fitting_edits_are_records;
use crate::put::{put_stamp, put_u32};
use crate::put_op::put_op;
use crate::sizes::body_len;
use byteorder::{ByteOrder, LittleEndian};
use std::alloc::Global;
use zed_op::Edit;

/// The head of a file of edits of a world, of version 2.
#[tactic(auto, unfolding(crate::specs::Spelling::head_text, crate::specs::Spelling::number))]
fn head_of(world: u64) -> [u8; 12]
    ensures { result ≡ head_text 2 world }
{
    let mut head = *b"ZED\x02........";
    LittleEndian::write_u64(&mut head[4..], world);
    head
}

/// Appends the head of an edit file of the world with this number: the letters `ZED`, the version 2, and the number in
/// eight bytes, the lowest first.
///
/// The only refusal is `Memory`, and only if the vector has no room for the 12 bytes; then nothing
/// is appended.
pub fn write_head(world: u64, out: &mut Vec<u8>) -> Result<(), EditFileError>
    ensures ok { OnOk result (out.new.items ≡ out.old.items ++ head_text 2 world) }
    ensures err { IfErr result (λ e. e ≡ EditFileError.Memory) }
    ensures kept { OnErr result (out.new.items ≡ out.old.items) }
    ensures memory_only_when { OnErr result (vec_capacity out.old < vec_len out.old + 12) }
{
    out.extend_from_slice(&head_of(world))?;
    Ok(())
}

/// Appends a record, for which there is room, with the length of its body.
#[tactic(auto, unfolding(crate::specs::Spelling::record_text, crate::specs::Spelling::spelling))]
fn put_record(out: &mut Vec<u8>, len: u32, edit: &Edit)
    requires range { is_in_range edit.now.op ≡ true }
    requires len { len ≡ length (spelling edit.now) }
    requires room { HasRoom (record_text edit.now) out.old }
    ensures { Appends (record_text edit.now) out.old out.new }
{
    put_u32(out, len);
    put_stamp(out, edit.stamp);
    put_op(out, &edit.op);
}

/// Appends the record of an edit: the length of its body in four bytes, the lowest first, and the body.
///
/// The only refusal is `Memory`, and only if the vector has no room for the record; then nothing is
/// appended.
#[tactic(auto, using(crate::proofs::Lengths::length_record))]
pub fn write_edit(edit: &Edit, out: &mut Vec<u8>) -> Result<(), EditFileError>
    requires { Fits edit.now }
    ensures ok { OnOk result (out.new.items ≡ out.old.items ++ record_text edit.now) }
    ensures err { IfErr result (λ e. e ≡ EditFileError.Memory) }
    ensures kept { OnErr result (out.new.items ≡ out.old.items) }
    ensures memory_only_when { OnErr result
        (vec_capacity out.old < vec_len out.old + length (record_text edit.now)) }

    // What the laws on records ask.
    ensures record { IsRecord edit.now }
{
    fitting_edits_are_records(edit);
    let len = body_len(edit);
    out.reserve(4 + len as usize)?;
    put_record(out, len, edit);
    Ok(())
}

/// Appends the records of edits.
fn put_all(edits: &[Edit], out: &mut Vec<u8>) -> Result<(), EditFileError>
    requires { AllFit edits.now }
    ensures ok { OnOk result (out.new.items ≡ out.old.items ++ flat_map record_text edits.now) }
    ensures err { IfErr result (λ e. e ≡ EditFileError.Memory) }
    ensures memory_only_when { OnErr result (0 < length edits.now) }
{
    for edit in edits {
        write_edit(edit, out)?;
    }
    Ok(())
}

/// The edit file of a world, of version 2: its head, and a record for each of these edits, in their order.
///
/// The only refusal is `Memory`.
pub fn write_file(alloc: Global, world: u64, edits: &[Edit]) -> Result<Vec<u8>, EditFileError>
    requires { AllFit edits.now }
    ensures ok { IfOk result (λ file. file.items ≡ file_text world edits.now) }
    ensures err { IfErr result (λ e. e ≡ EditFileError.Memory) }
{
    let mut file = Vec::new(alloc);
    write_head(world, &mut file)?;
    put_all(edits, &mut file)?;
    Ok(file)
}
