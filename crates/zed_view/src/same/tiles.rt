//! Whether two boards show the same tiles.

ghost use Rattle.std.specs.Prelude.{◌≡◌, ◌↔◌, IsTrue};

use zed_types::Tile;

/// Whether two tables have the same tiles.
pub(crate) fn tiles_same(a: &[Tile], b: &[Tile]) -> bool
    ensures { IsTrue result ↔ a.now ≡ b.now }
{
    if a.len() != b.len() {
        return false;
    }
    for i in 0..a.len() {
        if a[i] != b[i] {
            return false;
        }
    }
    true
}
