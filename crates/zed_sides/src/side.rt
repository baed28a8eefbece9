//! Two sides, and whose value of a register doesn't show.
ghost use Rattle.std.specs.Prelude.{◌≡◌};
ghost use Rattle.zed_sides.specs.Overridden.{loss_of as loss_by, other_of, shown_of as side_shown};

/// One of two sides: who compares, or the other one.
#[derive(Clone, Copy, PartialEq, Eq)]
pub enum Side {
    Mine,
    Theirs,
}

impl Side {
    /// The other side.
    pub fn other(self) -> Side
        ensures { result ≡ other_of self }
    {
        match self {
            Side::Mine => Side::Theirs,
            Side::Theirs => Side::Mine,
        }
    }
}

/// Whose value of a register doesn't show.
#[derive(Clone, Copy, PartialEq, Eq)]
pub enum Loss {
    Mine,
    Theirs,
    Both,
}

/// A register that is overridden: whose value of it doesn't show, and which side shows what the union
/// shows, if one does.
#[derive(Clone, Copy, PartialEq, Eq)]
pub struct Overridden {
    pub lost: Loss,
    pub shown: Option<Side>,
}

// Whose value doesn't show, if one's doesn't.
pub(crate) fn loss_of(mine: bool, theirs: bool) -> Option<Loss>
    ensures { result ≡ loss_by mine theirs }
{
    match (mine, theirs) {
        (true, true) => Some(Loss::Both),
        (true, false) => Some(Loss::Mine),
        (false, true) => Some(Loss::Theirs),
        (false, false) => None,
    }
}

// Which side shows the same as the union.
pub(crate) fn shown_of(mine: bool, theirs: bool) -> Option<Side>
    ensures { result ≡ side_shown mine theirs }
{
    match (mine, theirs) {
        (_, true) => Some(Side::Theirs),
        (true, false) => Some(Side::Mine),
        (false, false) => None,
    }
}
