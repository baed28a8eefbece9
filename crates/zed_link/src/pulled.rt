//! How many edits came over a link, by what became of them.
ghost use Rattle.std.specs.Prelude.{◌≡◌, ◌+◌, ◌<◌, ◌∷◌, ◌^◌, []};
ghost use Rattle.zed_link.specs.Tally.{plus as sum_of, tally};

use zed_document::State;

/// How many edits came over a link, by what became of them.
#[derive(Clone, Copy, PartialEq, Eq)]
pub struct Pulled {
    /// All that they name was made at their turn, and they are done.
    pub taken: usize,
    /// A thing that they name wasn't made yet at their turn, so they wait. A later edit of the same
    /// pull may wake them; that isn't counted.
    pub held: usize,
    /// They were there already.
    pub known: usize,
}

impl Pulled {
    /// Of no edit.
    pub(crate) const NONE: Pulled = Pulled {
        taken: 0,
        held: 0,
        known: 0,
    };

    /// Counts one more edit.
    pub(crate) fn count(&mut self, state: State)
        requires taken { self.old.taken + 1 < 2 ^ 64 }
        requires held { self.old.held + 1 < 2 ^ 64 }
        requires known { self.old.known + 1 < 2 ^ 64 }
        ensures { self.new ≡ sum_of self.old (tally (state ∷ [])) }
    {
        match state {
            State::Taken => self.taken += 1,
            State::Held => self.held += 1,
            State::Known => self.known += 1,
        }
    }

    /// The counts of both.
    pub(crate) fn plus(self, other: Pulled) -> Pulled
        requires taken { self.taken + other.taken < 2 ^ 64 }
        requires held { self.held + other.held < 2 ^ 64 }
        requires known { self.known + other.known < 2 ^ 64 }
        ensures { result ≡ sum_of self other }
    {
        Pulled {
            taken: self.taken + other.taken,
            held: self.held + other.held,
            known: self.known + other.known,
        }
    }
}
