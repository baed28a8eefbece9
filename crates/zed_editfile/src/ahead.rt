//! What is at the front of bytes, found before they are read.
ghost use Rattle.std.specs.Prelude.{◌≡◌, ◌<◌, ◌≤◌, length, IfSome, IfNone, drop};
ghost use Rattle.byteorder.specs.Endian.{little_number};

use byteorder::{ByteOrder, LittleEndian};
use zed_types::Stamp;

/// The stamp of the record at the front, if its length and its stamp, 12 bytes, are there.
pub fn stamp_ahead(piece: &[u8]) -> Option<Stamp>
    ensures some { IfSome result (λ s. (12 ≤ length piece.now)
        × (s.time ≡ little_number 6 (drop 4 piece.now))
        × (s.replica ≡ little_number 2 (drop 6 (drop 4 piece.now)))) }
    ensures none { IfNone result (length piece.now < 12) }
{
    if piece.len() < 12 {
        return None;
    }
    let (_, body) = piece.split_at(4);
    let (_, behind) = body.split_at(6);
    Some(Stamp {
        time: LittleEndian::read_u48(body),
        replica: LittleEndian::read_u16(behind),
    })
}

/// The number of the world in the head at the front, if the 12 bytes of a head are there.
pub fn world_ahead(bytes: &[u8]) -> Option<u64>
    ensures some { IfSome result (λ w. (12 ≤ length bytes.now)
        × (w ≡ little_number 8 (drop 4 bytes.now))) }
    ensures none { IfNone result (length bytes.now < 12) }
{
    if bytes.len() < 12 {
        return None;
    }
    let (_, number) = bytes.split_at(4);
    Some(LittleEndian::read_u64(number))
}

/// How many bytes the record at the front takes, by its length; all of them if the length isn't whole.
pub(crate) fn record_len(piece: &[u8]) -> usize {
    if piece.len() < 4 {
        return piece.len();
    }
    (LittleEndian::read_u32(piece) as usize).saturating_add(4)
}
