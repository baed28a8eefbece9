//! What holds where nothing is found.
ghost use Rattle.zed_compare.specs.Silence.{SilenceIsSafe};

/// Where no register is found to be overridden, what each side made of the registers of the world, of
/// the boards that the union shows and of their stats is shown.
pub fn silence_is_safe()
    ensures { SilenceIsSafe }
{}
