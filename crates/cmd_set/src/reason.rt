//! Why nothing was set.
ghost use Rattle.std.specs.Prelude.{◌≡◌};
ghost use Rattle.cmd_set.specs.Setting.{set_stop};

use thiserror::Error;
use zed_action::ActionError;
use zed_driver::Stop;
use zed_refusal::{Reason, action_stop};
use zed_set_words::BadWord;

/// Why nothing was set. The texts are for whoever debugs; the program prints none of them.
#[derive(Clone, Copy, Debug, Error)]
pub enum SetReason {
    /// A reason of other commands too.
    #[error("{0}")]
    Common(Reason),
    /// A word is wrong. No file was read.
    #[error("a word is wrong: {0:?}")]
    BadWord(BadWord),
}

/// Why the command stops at an action.
pub(crate) fn set_stop(error: ActionError) -> Stop<SetReason>
    ensures { result ≡ set_stop error }
{
    match action_stop(error) {
        Stop::Memory => Stop::Memory,
        Stop::File => Stop::File,
        Stop::Refused(reason) => Stop::Refused(SetReason::Common(reason)),
    }
}
