//! Pictures as text.
ghost use Rattle.std.specs.Prelude.{◌≡◌, ◌<◌, length, slice_set};
ghost use Rattle.zed_screen.specs.Frames.{AreLines, IsLine, line_byte, printable};

use crate::frame::Frame;

fn printable(byte: u8) -> u8
    ensures { result ≡ printable byte }
{
    if 32 <= byte && byte <= 126 {
        byte
    } else {
        b'?'
    }
}

#[tactic(auto, unfolding(crate::specs::Frames::line_byte))]
fn line_byte(frame: &Frame, y: usize, x: usize) -> u8
    requires y { y < 25 }
    requires x { x < 80 }
    ensures { result ≡ line_byte frame.now y x }
{
    printable(frame.cells[80 * y + x].character)
}

fn put_byte(line: &mut [u8; 80], x: usize, byte: u8)
    requires { x < 80 }
    ensures { line.new ≡ slice_set line.old x byte }
{
    line[x] = byte;
}

#[tactic(auto, using(crate::proofs::Painting::one_more))]
fn line_of(frame: &Frame, y: usize) -> [u8; 80]
    requires { y < 25 }
    ensures { IsLine frame.now y result }
{
    let mut line = [b' '; 80];
    for x in 0..80_usize {
        put_byte(&mut line, x, line_byte(frame, y, x));
    }
    line
}

fn put_line(lines: &mut [[u8; 80]; 25], y: usize, line: [u8; 80])
    requires { y < 25 }
    ensures { lines.new ≡ slice_set lines.old y line }
{
    lines[y] = line;
}

/// A picture as 25 lines of text. What can't be printed is `?`.
#[tactic(auto, using(crate::proofs::Painting::one_such))]
pub fn ascii(frame: &Frame) -> [[u8; 80]; 25]
    ensures result { AreLines result frame.now 25 }
{
    let mut lines = [[b' '; 80]; 25];
    for y in 0..25_usize {
        put_line(&mut lines, y, line_of(frame, y));
    }
    lines
}
