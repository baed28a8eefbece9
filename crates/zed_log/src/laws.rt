//! Laws of lines: different edits have different lines, and so do different lists of edits.
ghost use Rattle.std.specs.Prelude.{◌≡◌, length};
ghost use Rattle.zed_op.specs.declared.op.Edit.{Edit as TheEdit};
ghost use Rattle.zed_log.specs.Laws.{AreWhole, DiffersFrom, IsKnownByLines, IsNoLineInFull, IsOneLine, IsShortAsItIs, IsWhole, log_text};
ghost use Rattle.zed_log.specs.Line.{line_text, text_at};
ghost use Rattle.zed_log.specs.declared.length.Length.{Length as TheLength};

use zed_op::{Edit, Op};

fn bytes_are_six(bytes: [u8; 6])
    ensures { length bytes ≡ 6 }
{
    let [_x, _y, _p1, _p2, _element, _colour] = bytes;
}

fn numbers_are_three(numbers: [i16; 3])
    ensures { length numbers ≡ 3 }
{
    let [_step_x, _step_y, _cycle] = numbers;
}

fn op_is_whole(op: &Op)
    ensures { IsWhole op.now }
{
    if let Op::StatAdd(_, fields) = op {
        bytes_are_six(fields.bytes);
        numbers_are_three(fields.numbers);
    }
}

fn edits_are_whole(edits: &[Edit])
    ensures { AreWhole edits.now }
{
    for edit in edits {
        op_is_whole(&edit.op);
    }
}

/// A line, short or in full, has one line feed, at its end, and no other control byte.
pub fn each_line_is_one()
    ensures { (l : TheLength) (e : TheEdit) → IsOneLine (text_at l e) }
{}

/// A short line is the full line, except for a Genesis, whose short line is no edit's full line.
#[tactic(auto, using(crate::proofs::Short::as_it_is, crate::proofs::Short::no_line_in_full))]
pub fn short_line_is_no_other()
    ensures same { (e : TheEdit) → IsShortAsItIs e }
    ensures none { (e f : TheEdit) → IsNoLineInFull e f }
{}

/// Different edits have different lines, and neither line begins the other.
pub fn edit_is_known_by_its_line(edit: &Edit, other: &Edit)
    ensures line { line_text edit.now ≡ line_text other.now → edit.now ≡ other.now }
    ensures alone { DiffersFrom edit.now other.now }
{
    op_is_whole(&edit.op);
    op_is_whole(&other.op);
}

/// Different lists of edits have different lines, also if held edits are marked, in whichever way
/// each list is.
pub fn edits_are_known_by_their_lines(edits: &[Edit], others: &[Edit])
    ensures plain { log_text edits.now ≡ log_text others.now → edits.now ≡ others.now }
    ensures marked { IsKnownByLines edits.now others.now }
{
    edits_are_whole(edits);
    edits_are_whole(others);
}
