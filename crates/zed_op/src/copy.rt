//! Equal edits.
ghost use Rattle.std.specs.Prelude.{◌≡◌, IfOk, IfErr, true};
ghost use Rattle.zed_op.specs.Growth.{has_string};
ghost use Rattle.zed_op.specs.declared.cause.EditError.TheVariants.{Memory};

use crate::cause::EditError;
use crate::op::{Edit, Op};

impl Op {
    fn copy(&self) -> Result<Op, EditError>
        ensures ok { IfOk result (λ op. op ≡ self.now) }
        ensures err { IfErr result (λ e. e ≡ Memory) }
        ensures memory_only_when { IfErr result (λ e. has_string self.now ≡ true) }
    {
        Ok(match self {
            Op::Genesis(bytes) => Op::Genesis(bytes.copy()?),
            Op::SetHeader(setting) => Op::SetHeader(setting.copy()?),
            Op::BoardAdd(name) => Op::BoardAdd(name.copy()?),
            Op::BoardRemove(board) => Op::BoardRemove(*board),
            Op::SetBoard(board, setting) => Op::SetBoard(*board, setting.copy()?),
            Op::SetCells(board, cells, tile) => Op::SetCells(*board, *cells, *tile),
            Op::StatAdd(board, fields) => Op::StatAdd(*board, *fields),
            Op::StatRemove(stat) => Op::StatRemove(*stat),
            Op::SetStat(stat, setting) => Op::SetStat(*stat, *setting),
            Op::TextAdd => Op::TextAdd,
            Op::TextInsert(text, after, bytes) => { Op::TextInsert(*text, *after, bytes.copy()?) }
            Op::TextDelete(text, range) => Op::TextDelete(*text, *range),
        })
    }
}

impl Edit {
    /// An equal edit. The only refusal is Memory, and only for an edit with a string or bytes that
    /// aren't empty.
    pub fn copy(&self) -> Result<Edit, EditError>
        ensures ok { IfOk result (λ e. e ≡ self.now) }
        ensures err { IfErr result (λ e. e ≡ Memory) }
        ensures memory_only_when { IfErr result (λ e. has_string self.now.op ≡ true) }
    {
        Ok(Edit {
            stamp: self.stamp,
            op: self.op.copy()?,
        })
    }
}
