//! What is told of a playtest that doesn't go on.
ghost use Rattle.std.specs.Prelude.{◌≡◌, ◌≢◌};
ghost use Rattle.zed_files.specs.Refusals.{is_of_keys, is_of_screen};
ghost use Rattle.zed_terminal.specs.Errors.{is_key_fault, is_screen_fault};
ghost use Rattle.cmd_play.specs.Refusing.{turn_refusal};

use zed_files::Refusal;
use zed_terminal::TurnError;

/// The refusal of a command for one of a playtest.
pub(crate) fn turn_refusal(error: TurnError) -> Refusal
    ensures { result ≡ turn_refusal error }
{
    match error {
        TurnError::Memory => Refusal::Memory,
        TurnError::NoWords => Refusal::NoWords,
        TurnError::ScreenFault => Refusal::ScreenFault,
        TurnError::KeyFault => Refusal::KeyFault,
        TurnError::TooManyTurns => Refusal::TooManyTurns,
    }
}
