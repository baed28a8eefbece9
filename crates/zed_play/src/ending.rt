//! How playtests end.
ghost use Rattle.std.specs.Prelude.{◌≡◌};
ghost use Rattle.zed_play.specs.Step.{ending_by};

/// How a playtest ended.
#[derive(Clone, Copy, PartialEq, Eq)]
pub enum Ending {
    /// The player left for the board of this number.
    Left(u8),
    /// Health fell to 0 or below.
    Died,
    /// A growth was refused in a step.
    Failed,
}

/// How a playtest ends by the board that the player left for, if any, and the health.
pub(crate) fn ending_by(left: Option<u8>, health: i16) -> Option<Ending>
    ensures result { result ≡ ending_by left health }
{
    match left {
        Some(board) => Some(Ending::Left(board)),
        None => { if health > 0 { None } else { Some(Ending::Died) } }
    }
}
