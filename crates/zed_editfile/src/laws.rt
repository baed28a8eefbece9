//! Laws of edit files: each edit that fits has one spelling, each list of such edits one text, and
//! each text one reading.
ghost use Rattle.zed_op.specs.declared.op.Edit.{Edit};
ghost use Rattle.zed_op.specs.Fit.{Fits};
ghost use Rattle.zed_op.specs.Set.{AllFit};
ghost use Rattle.zed_editfile.specs.Laws.{IsReadBack, IsSpelledOnce, DiffersFrom, BeginsNoOther, HasOneText, HasNoOtherText, IsReadWhole, ReadsOneWay, TextsAreRead, WrittenIsText, FrontsAreRead, CutIsToldAtTheEnd};
ghost use Rattle.zed_editfile.specs.Stream.{AreRecords, IsRecord};

use zed_op::{Edit, edit_has_sizes};
use zed_world::canonical_files_are_short;

/// An edit that fits is read from its spelling. Bytes that spell an edit are its only spelling.
pub fn one_spelling(edit: &Edit, body: &[u8])
    ensures back { Fits edit.now → IsReadBack edit.now }
    ensures found { IsSpelledOnce body.now }
{
    fitting_edits_are_records(edit);
}

/// Of two different edits that fit, neither's record begins the other's.
pub fn no_record_begins_another(edit: &Edit, other: &Edit)
    ensures { Fits edit.now → Fits other.now → DiffersFrom edit.now other.now }
{
    fitting_edits_are_records(edit);
    fitting_edits_are_records(other);
}

/// Two files of edits that fit have the same text only if they have the same version, the same
/// world and the same edits.
pub fn one_file_text(world: u64, edits: &[Edit], other: u64, others: &[Edit])
    ensures { AllFit edits.now → AllFit others.now → HasOneText world edits.now other others.now }
{
    fitting_edits_make_a_file(world, edits);
    fitting_edits_make_a_file(other, others);
}

/// Bytes are read in one way, however they are cut, unless memory runs out. The text of edits, in
/// either version, is read as those edits. What is written is such a text.
pub fn one_reading()
    ensures one { ReadsOneWay }
    ensures file { TextsAreRead }
    ensures written { WrittenIsText }
{}

/// A reader of a good file never gives a fault before its end: after any front of the text of edits
/// it has the first of these edits, and no fault unless memory ran out. Only the end shows that
/// bytes are missing.
pub fn fronts_are_read()
    ensures front { FrontsAreRead }
    ensures cut { CutIsToldAtTheEnd }
{}

/// Every edit that fits has a record: each number fits its field by its type, and the body has a
/// possible length. The body is read as the edit. Of the records of different edits, neither begins
/// the other.
pub fn fitting_edits_are_records(edit: &Edit)
    ensures record { Fits edit.now → IsRecord edit.now }
    ensures back { Fits edit.now → IsReadBack edit.now }
    ensures alone { Fits edit.now → BeginsNoOther edit.now }
{
    canonical_files_are_short();
    edit_has_sizes(edit);
}

/// Edits that fit make a file: no other edits have its text. A reader that gets all of it, in any
/// pieces, and has enough memory, has these edits, the world, and nothing left.
pub fn fitting_edits_make_a_file(world: u64, edits: &[Edit])
    ensures records { AllFit edits.now → AreRecords edits.now }
    ensures one { AllFit edits.now → HasNoOtherText world edits.now }
    ensures read { AllFit edits.now → IsReadWhole world edits.now }
{
    for edit in edits {
        fitting_edits_are_records(edit);
    }
}
