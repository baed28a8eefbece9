//! Whether two edits are equal.
ghost use Rattle.std.specs.Prelude.{◌≡◌, ◌↔◌, IsTrue};

use crate::op::{Edit, Op};

impl Op {
    /// Whether two edits do the same.
    pub fn is_same(&self, other: &Op) -> bool
        ensures { IsTrue result ↔ self.now ≡ other.now }
    {
        match self {
            Op::Genesis(a) => matches!(other, Op::Genesis(b) if a.is_same(b)),
            Op::SetHeader(a) => matches!(other, Op::SetHeader(b) if a == b),
            Op::BoardAdd(a) => matches!(other, Op::BoardAdd(b) if a.is_same(b)),
            Op::BoardRemove(a) => matches!(other, Op::BoardRemove(b) if a == b),
            Op::SetBoard(a, v) => matches!(other, Op::SetBoard(b, w) if a == b && v == w),
            Op::SetCells(a, r, v) => {
                matches!(other, Op::SetCells(b, s, w) if a == b && r == s && v == w)
            }
            Op::StatAdd(a, v) => { matches!(other, Op::StatAdd(b, w) if a == b && v.is_same(w)) }
            Op::StatRemove(a) => matches!(other, Op::StatRemove(b) if a == b),
            Op::SetStat(a, v) => matches!(other, Op::SetStat(b, w) if a == b && v == w),
            Op::TextAdd => matches!(other, Op::TextAdd),
            Op::TextInsert(a, p, v) => {
                matches!(other, Op::TextInsert(b, q, w) if a == b && p == q && v.is_same(w))
            }
            Op::TextDelete(a, r) => matches!(other, Op::TextDelete(b, s) if a == b && r == s),
        }
    }
}

impl Edit {
    /// Whether two edits are equal: their stamps, and what they do.
    pub fn is_same(&self, other: &Edit) -> bool
        ensures { IsTrue result ↔ self.now ≡ other.now }
    {
        self.stamp == other.stamp && self.op.is_same(&other.op)
    }
}
