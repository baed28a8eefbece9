//! Laws of what is typed.
ghost use Rattle.zed_terminal.specs.SizeLaws.{ArrowsAreKeys, LettersAreKeys, ScrollKeysAreTold, SizesAreTold};

/// The arrows of a terminal are the keys that move, and with shift those that shoot.
pub fn arrows_are_keys()
    ensures result { ArrowsAreKeys }
{}

/// The space waits, and four letters shoot.
pub fn letters_are_keys()
    ensures result { LettersAreKeys }
{}

/// Page keys, Enter, and Escape behind which time went by, are told as terminals send them.
pub fn scroll_keys_are_told()
    ensures result { ScrollKeysAreTold }
{}

/// A size is told as a terminal tells it that is asked.
pub fn sizes_are_told()
    ensures result { SizesAreTold }
{}
