//! Laws of world files.
ghost use Rattle.zed_world.specs.Laws.{ReadIsNormal, ReadByPlace, FoundByPlace, WrittenIsRead, WrittenIsCanonical, CanonicalIsShort, CanonicalIsTested};

use zed_runs::{greedy_is_read, tiles_are_runs};

/// What is read fits its fields.
pub fn read_is_normal()
    ensures { ReadIsNormal }
{}

/// A world is read exactly if the file spells it, field by field, each at its place.
pub fn files_are_read_by_place()
    ensures spelled { ReadByPlace }
    ensures read { FoundByPlace }
{
    tiles_are_runs();
}

/// The text of a world whose parts fit their fields reads back, whatever follows it, if its bodies
/// aren't too large for the reader. So with nothing after it, it is canonical.
pub fn written_is_read()
    ensures back { WrittenIsRead }
    ensures canonical { WrittenIsCanonical }
{
    greedy_is_read();
}

/// A canonical file has 512 bytes for the header. Each of at most 101 boards has two bytes, and a
/// body of at most 32,767.
pub fn canonical_files_are_short()
    ensures { CanonicalIsShort }
{}

/// `is_canonical` finds exactly the canonical files.
pub fn canonical_files_are_tested()
    ensures { CanonicalIsTested }
{}
