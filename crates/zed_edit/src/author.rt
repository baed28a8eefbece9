//! One author, who makes each edit as it comes.

ghost use Rattle.std.specs.Prelude.{◌≡◌, ◌^◌, IsTrue, true, IfOk, IfErr, OnErr};
ghost use Rattle.zed_op.specs.declared.op.Op.TheVariants.{BoardAdd, StatAdd, TextAdd};
ghost use Rattle.zed_op.specs.Growth.{may_grow};
ghost use Rattle.zed_types.specs.Table.{is_in_table};
ghost use Rattle.zed_op.specs.Fit.{Fits, is_in_range};
ghost use Rattle.zed_op.specs.Set.{AllFit, IsRising, StampsRise, stamps_of};
ghost use Rattle.zed_edit.specs.Document.{empty_document};
ghost use Rattle.zed_edit.specs.Replay.{MayGrow, MayGrowBy, made_by as made_alone, do_op, do_edit as done, held as held_of, hold as held_back, step as stepped, replay_on as replayed_on, replay as replayed};

use crate::board::{
    add_to_boards, fill_boards, new_board, remove_boards, remove_stats_on, set_boards, set_stats_on,
};
use crate::genesis::open_world;
use crate::header::set_header;
use crate::made::can;
use crate::plain::{Plain, Text};
use crate::stat::new_stat;
use crate::text::{Insertion, delete_bytes, insert_bytes};
use std::alloc::{AllocError, Global};
use zed_op::{Edit, EditError, Op};
use zed_types::{BoardId, Bytes, Seq, Stamp, StatFields, StatId, TextId};

fn add_board(alloc: Global, plain: &mut Plain, stamp: Stamp, name: &Bytes) -> Result<(), EditError>
    ensures added { IfOk result (λ _. plain.new ≡ do_op stamp (BoardAdd name.now) plain.old) }
    ensures err { IfErr result (λ e. e ≡ EditError.Memory) }
    ensures kept { plain.new.held ≡ plain.old.held }
{
    let id = BoardId::new(stamp, 0);
    let player = StatId::new(stamp, 0);
    let board = new_board(alloc, id, player, name)?;
    plain.boards.push(board)?;
    Ok(())
}

fn add_stat(
    plain: &mut Plain,
    stamp: Stamp,
    b: BoardId,
    fields: StatFields,
) -> Result<(), EditError>
    ensures added { IfOk result (λ _. plain.new ≡ do_op stamp (StatAdd b fields) plain.old) }
    ensures err { IfErr result (λ e. e ≡ EditError.Memory) }
    ensures kept { plain.new.held ≡ plain.old.held }
{
    let stat = new_stat(StatId::new(stamp, 0), false, fields);
    add_to_boards(plain.boards.as_mut_slice(), b, stat)
}

fn add_text(alloc: Global, plain: &mut Plain, stamp: Stamp) -> Result<(), EditError>
    ensures added { IfOk result (λ _. plain.new ≡ do_op stamp TextAdd plain.old) }
    ensures err { IfErr result (λ e. e ≡ EditError.Memory) }
    ensures kept { plain.new.held ≡ plain.old.held }
{
    let text = Text {
        id: TextId::new(stamp, 0),
        elements: Seq::new(alloc),
    };
    plain.texts.push(text)?;
    Ok(())
}

/// Does an edit.
fn do_edit(alloc: Global, plain: &mut Plain, edit: &Edit) -> Result<(), EditError>
    requires { IsTrue (is_in_range edit.now.op) }
    ensures made { IfOk result (λ _. plain.new ≡ done plain.old edit.now) }
    ensures err { IfErr result (λ e. e ≡ EditError.Memory) }
    ensures memory_only_when { IfErr result (λ e. may_grow edit.now.op ≡ true) }
    ensures kept { plain.new.held ≡ plain.old.held }
{
    let stamp = edit.stamp;
    match &edit.op {
        Op::Genesis(bytes) => open_world(alloc, plain, stamp, bytes.as_slice())?,
        Op::SetHeader(setting) => set_header(&mut plain.header, setting)?,
        Op::BoardAdd(name) => add_board(alloc, plain, stamp, name)?,
        Op::BoardRemove(b) => remove_boards(plain.boards.as_mut_slice(), *b),
        Op::SetBoard(b, setting) => set_boards(plain.boards.as_mut_slice(), *b, setting)?,
        Op::SetCells(b, r, tile) => fill_boards(plain.boards.as_mut_slice(), *b, *r, *tile),
        Op::StatAdd(b, fields) => add_stat(plain, stamp, *b, *fields)?,
        Op::StatRemove(s) => remove_stats_on(plain.boards.as_mut_slice(), *s),
        Op::SetStat(s, setting) => set_stats_on(plain.boards.as_mut_slice(), *s, *setting),
        Op::TextAdd => add_text(alloc, plain, stamp)?,
        Op::TextInsert(t, after, bytes) => {
            let texts = plain.texts.as_mut_slice();
            let put = Insertion {
                text: *t,
                after: *after,
                stamp,
            };
            insert_bytes(alloc, texts, put, bytes.as_slice())?
        }
        Op::TextDelete(t, range) => delete_bytes(plain.texts.as_mut_slice(), *t, *range),
    }
    Ok(())
}

fn hold(plain: &mut Plain, edit: &Edit) -> Result<(), EditError>
    ensures result { IfOk result (λ _. plain.new ≡ held_back plain.old edit.now) }
    ensures err { IfErr result (λ e. e ≡ EditError.Memory) }
    ensures kept { OnErr result (plain.new.held ≡ plain.old.held) }
{
    plain.held.push(edit.stamp)?;
    Ok(())
}

/// Replays one more edit, which comes after those that the document has. If all that it names was
/// made, the edit is done; otherwise its stamp is kept as that of a held edit.
///
/// The caller gives an edit that fits. After `Memory` the document may be changed in part, so it
/// has to be made again; only the stamps of the edits held are as before. `Memory` comes only from
/// an edit that may let the document grow, or that is held.
pub fn step(alloc: Global, plain: &mut Plain, edit: &Edit) -> Result<(), EditError>
    requires { Fits edit.now }
    ensures result { IfOk result (λ _. plain.new ≡ stepped plain.old edit.now) }
    ensures err { IfErr result (λ e. e ≡ EditError.Memory) }
    ensures memory_only_when { IfErr result (λ e. MayGrow plain.old edit.now) }
    ensures kept { OnErr result (plain.new.held ≡ plain.old.held) }
{
    if can(alloc, plain, edit) {
        do_edit(alloc, plain, edit)
    } else {
        hold(plain, edit)
    }
}

/// What an author's first edit makes. The caller gives an edit that fits.
pub fn made_by(alloc: Global, edit: &Edit) -> Result<Plain, AllocError>
    requires { Fits edit.now }
    ensures ok { IfOk result (λ made. made ≡ made_alone edit.now) }
    ensures memory_only_when { OnErr result (MayGrow empty_document edit.now) }
{
    let mut made = Plain::empty(alloc);
    match step(alloc, &mut made, edit) {
        Ok(()) => Ok(made),
        Err(_) => Err(AllocError),
    }
}

fn replay_on(alloc: Global, plain: &mut Plain, edits: &[Edit]) -> Result<(), EditError>
    requires { AllFit edits.now }
    ensures result { IfOk result (λ _. plain.new ≡ replayed_on plain.old edits.now) }
    ensures err { IfErr result (λ e. e ≡ EditError.Memory) }
    ensures memory_only_when { OnErr result (MayGrowBy plain.old edits.now) }
{
    for edit in edits {
        step(alloc, plain, edit)?;
    }
    Ok(())
}

/// The document of one author who made these edits, one after the other.
///
/// The caller gives edits that fit. In rising stamp order, their replay is what the union of all
/// authors' edits means. An edit that names a thing that isn't made yet is held, and `held` lists
/// it. `Memory` is the only refusal. It can come only if an edit is held, adds a thing, sets a
/// string or puts bytes into a text.
pub fn replay(alloc: Global, edits: &[Edit]) -> Result<Plain, EditError>
    requires { AllFit edits.now }
    ensures result { IfOk result (λ p. p ≡ replayed edits.now) }
    ensures held { IfOk result (λ p. p.held ≡ stamps_of (held_of edits.now)) }
    ensures sound { IfOk result (λ p. IsRising edits.now → StampsRise p.held) }
    ensures err { IfErr result (λ e. e ≡ EditError.Memory) }
    ensures memory_only_when { OnErr result (MayGrowBy empty_document edits.now) }
{
    let mut plain = Plain::empty(alloc);
    replay_on(alloc, &mut plain, edits)?;
    Ok(plain)
}
