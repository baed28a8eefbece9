//! The sixteen colours.
ghost use Rattle.std.specs.Prelude.{◌≡◌, ◌<◌, ◌≤◌};
ghost use Rattle.zed_look.specs.Colours.{blinks, hue, ink, paper, rgb};

/// The colour of a character, 0 to 15.
pub(crate) fn ink(attribute: u8) -> u8
    ensures result { result ≡ ink attribute }
    ensures within { result < 16 }
{
    attribute % 16
}

/// The colour of a background, 0 to 7.
pub(crate) fn paper(attribute: u8) -> u8
    ensures result { result ≡ paper attribute }
    ensures within { result < 8 }
{
    attribute / 16 % 8
}

pub(crate) fn blinks(attribute: u8) -> bool
    ensures { result ≡ blinks attribute }
{
    128 <= attribute
}

/// The number of one of the first eight colours to a terminal.
pub(crate) fn hue(colour: u8) -> u8
    ensures result { result ≡ hue colour }
    ensures within { result ≤ 7 }
{
    match colour {
        0 => 0,
        1 => 4,
        2 => 2,
        3 => 6,
        4 => 1,
        5 => 5,
        6 => 3,
        _ => 7,
    }
}

/// A colour as SVG has it.
pub(crate) fn rgb(colour: u8) -> &'static str
    ensures { result.now ≡ rgb colour }
{
    match colour {
        0 => "#000000",
        1 => "#0000aa",
        2 => "#00aa00",
        3 => "#00aaaa",
        4 => "#aa0000",
        5 => "#aa00aa",
        6 => "#aa5500",
        7 => "#aaaaaa",
        8 => "#555555",
        9 => "#5555ff",
        10 => "#55ff55",
        11 => "#55ffff",
        12 => "#ff5555",
        13 => "#ff55ff",
        14 => "#ffff55",
        _ => "#ffffff",
    }
}
