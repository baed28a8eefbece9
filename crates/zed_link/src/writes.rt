//! How many writes were made to a link.
ghost use Rattle.zed_link.specs.Writing.{CountsWrite};

/// How many writes were made to a link, each count up to the greatest `u64`.
#[derive(Clone, Copy, PartialEq, Eq)]
pub struct Writes {
    /// All of them, those that failed too.
    pub made: u64,
    /// Those of no bytes.
    pub empty: u64,
}

impl Writes {
    /// None was made.
    pub const NONE: Writes = Writes { made: 0, empty: 0 };

    /// Counts a write of these bytes.
    pub fn count(&mut self, bytes: &[u8])
        ensures { CountsWrite bytes.now self.old self.new }
    {
        self.made = self.made.saturating_add(1);
        if bytes.is_empty() {
            self.empty = self.empty.saturating_add(1);
        }
    }
}
