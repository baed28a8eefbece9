//! What a delivery answers.
ghost use Rattle.std.specs.Prelude.{◌≡◌};
ghost use Rattle.zed_document.specs.Delivery.{state_of};

/// What became of an edit that was delivered.
#[derive(Clone, Copy, PartialEq, Eq)]
pub enum State {
    /// All that it names was made, and it is done.
    Taken,
    /// It waits for a thing that it names, which isn't made yet.
    Held,
    /// It was there already.
    Known,
}

impl State {
    /// What becomes of a new edit.
    pub(crate) fn of_new(is_held: bool) -> State
        ensures { result ≡ state_of is_held }
    {
        if is_held { State::Held } else { State::Taken }
    }
}

/// What a delivery did.
#[derive(Clone, Copy, PartialEq, Eq)]
pub struct Delivered {
    pub state: State,
    /// How many held edits this one let be taken.
    pub woken: usize,
    /// How many runs of texts were looked at.
    pub visits: u64,
}

impl Delivered {
    /// The answer for an edit that is there already.
    pub(crate) const KNOWN: Delivered = Delivered {
        state: State::Known,
        woken: 0,
        visits: 0,
    };
}
