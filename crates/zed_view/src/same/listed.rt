//! Whether lists of things that are read by number show the same.

ghost use Rattle.std.specs.Prelude.{◌≡◌, ◌<◌, ◌↔◌, IsTrue, List, length, slice_get};

/// Things that are read by number, of which what they show is compared.
pub(crate) trait Listed {
    /// What one of them shows.
    type Item;

    /// What they show, in order.
    ghost shown: { Self → List Self.Item };

    /// How many there are.
    fn len(&self) -> usize
        ensures { result ≡ length (shown self.now) };

    /// Whether those of a number show the same.
    fn is_same_at(&self, other: &Self, i: usize) -> bool
        requires mine { i < length (shown self.now) }
        requires other { i < length (shown other.now) }
        ensures { IsTrue result
            ↔ slice_get (shown self.now) i ≡ slice_get (shown other.now) i };
}

/// Whether two lists show the same.
pub(crate) fn lists_same<L: Listed>(a: &L, b: &L) -> bool
    ensures { IsTrue result ↔ L.shown a.now ≡ L.shown b.now }
{
    let count = a.len();
    if count != b.len() {
        return false;
    }
    for i in 0..count {
        if !a.is_same_at(b, i) {
            return false;
        }
    }
    true
}
