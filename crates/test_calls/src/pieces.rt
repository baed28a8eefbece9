//! World files that tests begin with.
use std::alloc::Global;

/// Bytes, and how many zeros follow them.
pub(crate) type Piece = (&'static [u8], usize);

/// The runs of a board that is empty but for the player at (30, 12).
pub(crate) const RUNS: &[u8] =
    b"\xff\0\0\xff\0\0\xb3\0\0\x01\x04\x1f\xff\0\0\xff\0\0\xff\0\0\x2d\0\0";

/// A title that is empty but for its player, of 710 bytes.
pub(crate) const EMPTY: &[Piece] = &[
    (b"\xff\xff", 510),
    (b"\xc4", 52),
    (RUNS, 0),
    (b"\xff", 65),
    (b"\x1e\x0c", 20),
    (b"\x1e\x0c\0\0\0\0\x01\0\0\0\0\xff\xff\xff\xff", 18),
];

fn put_piece(out: &mut Vec<u8>, piece: &[u8], zeros: usize) {
    let _ = out.extend_from_slice(piece);
    for _ in 0..zeros {
        let _ = out.push(0);
    }
}

/// Appends pieces. Where memory lacks, something is left out, and the test finds other bytes than it wants.
pub(crate) fn put_pieces(out: &mut Vec<u8>, pieces: &[Piece]) {
    for (piece, zeros) in pieces {
        put_piece(out, *piece, *zeros);
    }
}

/// The bytes of pieces.
pub(crate) fn made_of(alloc: Global, pieces: &[Piece]) -> Vec<u8> {
    let mut out = Vec::new(alloc);
    put_pieces(&mut out, pieces);
    out
}
