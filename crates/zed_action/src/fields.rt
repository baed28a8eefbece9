//! What words of an action say: sides, rectangles, tiles, texts.
ghost use Rattle.std.specs.Prelude.{◌≡◌, ◌<◌, length, IfOk, OnErr};
ghost use Rattle.zed_action.specs.Words.{end_for, rectangle_of, side_of, tile_of, with_line_ends};

use crate::number::byte;
use std::alloc::{AllocError, Global};
use zed_types::{Bytes, Rectangle, Side, Tile};

pub(crate) fn side(word: &str) -> Option<Side>
    ensures { result ≡ side_of word.now }
{
    if word == "north" {
        Some(Side::North)
    } else if word == "south" {
        Some(Side::South)
    } else if word == "west" {
        Some(Side::West)
    } else if word == "east" {
        Some(Side::East)
    } else {
        None
    }
}

pub(crate) fn rectangle(x0: &str, y0: &str, x1: &str, y1: &str) -> Option<Rectangle>
    ensures { result ≡ rectangle_of x0.now y0.now x1.now y1.now }
{
    let left = byte(x0)?;
    let top = byte(y0)?;
    let right = byte(x1)?;
    let bottom = byte(y1)?;
    Some(Rectangle {
        left,
        top,
        right,
        bottom,
    })
}

pub(crate) fn tile(element: &str, colour: &str) -> Option<Tile>
    ensures { result ≡ tile_of element.now colour.now }
{
    let element = byte(element)?;
    let colour = byte(colour)?;
    Some(Tile { element, colour })
}

/// The bytes of a word. An empty one takes no memory.
pub(crate) fn plain(alloc: Global, word: &str) -> Result<Bytes, AllocError>
    ensures ok { IfOk result (λ bytes. bytes ≡ word.now) }
    ensures memory_only_when { OnErr result (0 < length word.now) }
{
    let mut bytes = Vec::new(alloc);
    bytes.extend_from_slice(word.as_bytes())?;
    Ok(Bytes::new(bytes))
}

/// A byte of a word, in which `|` means the end of a line.
fn with_end(byte: u8) -> u8
    ensures { result ≡ end_for byte }
{
    if byte == b'|' { b'\r' } else { byte }
}

/// The bytes of a word, in which `|` means the end of a line. An empty one takes no memory.
pub(crate) fn with_ends(alloc: Global, word: &str) -> Result<Bytes, AllocError>
    ensures ok { IfOk result (λ bytes. bytes ≡ with_line_ends word.now) }
    ensures memory_only_when { OnErr result (0 < length (with_line_ends word.now)) }
{
    let mut bytes = Vec::new(alloc);
    for byte in word.as_bytes() {
        bytes.push(with_end(*byte))?;
    }
    Ok(Bytes::new(bytes))
}
