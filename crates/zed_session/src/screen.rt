//! Screens, as boxed objects that are handed in.
ghost use Rattle.std.specs.Prelude.{◌≡◌, ℕ, Bool, List, Option, IfErr, OnErr, OnOk, is_err, is_some};
ghost use Rattle.zed_host.specs.Counting.{Counts};
ghost use Rattle.zed_session.specs.Devices.{Foretold, showing};

use crate::error::SessionError;
use zed_screen::Frame;

/// The answer of a device that failed.
#[derive(Clone, Copy, PartialEq, Eq)]
pub struct DeviceFailed;

/// A screen, on which frames are shown one after the other.
pub trait Screen: Drop {
    ghost use Rattle.zed_screen.specs.declared.frame.Frame.{Frame};

    /// The frame that it shows, if there is one; or none if it doesn't say.
    ghost shown: { Self → Option (Option Frame) };

    /// How many calls of `show` failed.
    ghost screen_failures: { Self → ℕ };

    /// Which of the next calls of `show` fail, one after the other, and none after these; or none
    /// if it doesn't say.
    ghost screen_foretells: { Self → Option (List Bool) };

    /// Shows a frame in place of the one before. If that fails, it may show anything.
    fn show(&mut self, frame: &Frame) -> Result<(), DeviceFailed>
        ensures ok { OnOk result (shown self.new ≡ showing frame.now (shown self.old)) }
        ensures err { OnErr result (is_some (shown self.new) ≡ is_some (shown self.old)) }
        ensures failures { Counts (is_err result)
            (screen_failures self.old) (screen_failures self.new) }
        ensures foretold { Foretold (is_err result)
            (screen_foretells self.old) (screen_foretells self.new) };

    /// How many calls of `show` failed, up to the greatest `u64`.
    fn failures(&self) -> u64
        ensures { result ≡ screen_failures self.now };
}

/// Shows a frame on a screen.
pub(crate) fn show_on(screen: &mut dyn Screen, frame: &Frame) -> Result<(), SessionError>
    ensures ok { OnOk result (shown screen.new ≡ showing frame.now (shown screen.old)) }
    ensures told { OnErr result (is_some (shown screen.new) ≡ is_some (shown screen.old)) }
    ensures err { IfErr result (λ e. e ≡ SessionError.ScreenFault) }
    ensures failures { Counts (is_err result)
        (screen_failures screen.old) (screen_failures screen.new) }
    ensures foretold { Foretold (is_err result)
        (screen_foretells screen.old) (screen_foretells screen.new) }
{
    match screen.show(frame) {
        Ok(()) => Ok(()),
        Err(DeviceFailed) => Err(SessionError::ScreenFault),
    }
}
