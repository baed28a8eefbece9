//! What texts are made of.
use crate::names::ElemId;
use crate::stamp::Stamp;

/// A byte of a text, under its name. A deleted byte stays as a tombstone: it is no longer alive.
#[derive(Clone, Copy, PartialEq, Eq)]
pub struct TextByte {
    pub id: ElemId,
    pub byte: u8,
    pub alive: bool,
}

/// Bytes `first` to `last`, both included, of the insertion with this stamp.
#[derive(Clone, Copy, PartialEq, Eq)]
pub struct ByteRange {
    pub stamp: Stamp,
    pub first: u32,
    pub last: u32,
}
