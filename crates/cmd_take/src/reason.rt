//! Why a command that draws was refused.
ghost use Rattle.std.specs.Prelude.{◌≡◌};
ghost use Rattle.cmd_take.specs.Stops.{drawing_stop, take_stop};

use thiserror::Error;
use zed_driver::Stop;
use zed_plaintext::BadText;
use zed_refusal::{Reason, export_stop};
use zed_take::TakeError;

/// Why `open`, `take` or the setting of a program was refused. The texts are for whoever debugs; the
/// program prints none of them.
#[derive(Clone, Copy, Debug, PartialEq, Eq, Error)]
pub enum DrawingReason {
    /// A reason of other commands too.
    #[error("{0}")]
    Common(Reason),
    /// From `open`: the world file was drawn in since it was written. From `take`: no edits were
    /// found that lead to it.
    #[error("what was drawn was not taken")]
    NotTaken,
    /// From `take`: so many boards would go, more than half of those beside the title.
    #[error("{0} boards would go")]
    TakesAway(usize),
    /// From the setting of a program: here its text has something that no program has.
    #[error("the text has something that no program has, at {0:?}")]
    BadText(BadText),
}

/// Why other commands stop, as a command that draws tells it.
pub fn drawing_stop(stop: Stop<Reason>) -> Stop<DrawingReason>
    ensures { result ≡ drawing_stop stop }
{
    match stop {
        Stop::Memory => Stop::Memory,
        Stop::File => Stop::File,
        Stop::Refused(reason) => Stop::Refused(DrawingReason::Common(reason)),
    }
}

/// Why a command stops at a taking.
pub(crate) fn take_stop(error: TakeError) -> Stop<DrawingReason>
    ensures { result ≡ take_stop error }
{
    match error {
        TakeError::Memory => Stop::Memory,
        TakeError::Base(error) => drawing_stop(export_stop(error)),
        TakeError::WorldOver { board, bytes } => {
            Stop::Refused(DrawingReason::Common(Reason::BoardOver { board, bytes }))
        }
        TakeError::ClockSpent => Stop::Refused(DrawingReason::Common(Reason::ClockSpent)),
        TakeError::NotTaken => Stop::Refused(DrawingReason::NotTaken),
    }
}
