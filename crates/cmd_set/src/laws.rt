//! What holds of the words of a list of edits.
ghost use Rattle.cmd_set.specs.Again.{PrintedSetsTheSame, PrintedWishesItsOp};
ghost use Rattle.cmd_set.specs.Printed.{FieldIsRead, HeaderIsRead, OtherIsNotRead, PropertyIsRead};

/// The words of a setting in a list of edits read back as that setting: cut at the spaces, with a
/// string as one word.
pub fn printed_settings_are_read()
    ensures header { HeaderIsRead }
    ensures property { PropertyIsRead }
    ensures field { FieldIsRead }
{}

/// The words of an edit that sets nothing don't read: the first word is wrong.
#[tactic(auto, using(crate::proofs::Others::other_is_not_read))]
pub fn other_edits_are_not_read()
    ensures { OtherIsNotRead }
{}

/// The words of a setting in a list of edits, set in a document, do what authoring the same op does.
/// Where everything that the edit names was made, they make one edit, which writes the same.
pub fn printed_settings_set_the_same()
    ensures op { PrintedWishesItsOp }
    ensures edit { PrintedSetsTheSame }
{}
