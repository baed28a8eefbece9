ghost use Rattle.std.specs.Prelude.{◌≡◌, ◌+◌, ◌<◌, ◌≤◌, ◌^◌, ◌-◌, length};
ghost use Rattle.zed_types.specs.Names.{byte_of};
ghost use Rattle.zed_code.specs.Cutting.{bytes_in};
ghost use Rattle.zed_code.specs.Runs.{has as is_in, front as front_of, back as back_of, low as low_of, high as high_of, touches as is_touched, reaches as is_reached, lasts as is_lasting, part as part_of, killed as killed_of, up_to as count_to, whole as whole_of};

use zed_types::{ByteRange, ElemId, Stamp};

/// Neighbouring bytes of one insertion, numbered in a row, all alive or all dead:
/// `len` bytes of the store from `start` on.
#[derive(Clone, Copy)]
pub struct Run {
    pub stamp: Stamp,
    pub first: u32,
    pub start: usize,
    pub len: u32,
    pub alive: bool,
}

impl Run {
    /// A run of all the bytes of an insertion, alive.
    pub(crate) fn whole(stamp: Stamp, start: usize, len: u32) -> Run
        ensures { result ≡ whole_of stamp start len }
    {
        Run {
            stamp,
            first: 0,
            start,
            len,
            alive: true,
        }
    }

    /// Whether a byte is one of the run.
    pub(crate) fn has(self, a: ElemId) -> bool
        ensures { result ≡ is_in a self }
    {
        self.stamp == a.name.stamp
            && self.first <= a.name.index
            && u64::from(a.name.index) < u64::from(self.first) + u64::from(self.len)
    }

    /// How many bytes of the run there are up to one of them.
    pub(crate) fn up_to(self, a: ElemId) -> u32
        requires from { self.first ≤ a.name.index }
        requires below { a.name.index + 1 < 2 ^ 32 }
        ensures { result ≡ count_to a self }
    {
        a.name.index - self.first + 1
    }

    /// The first bytes of the run.
    pub(crate) fn front(self, count: u32) -> Run
        ensures { result ≡ front_of count self }
    {
        Run {
            stamp: self.stamp,
            first: self.first,
            start: self.start,
            len: count,
            alive: self.alive,
        }
    }

    /// The run without its first bytes.
    pub(crate) fn back(self, count: u32) -> Run
        requires within { count ≤ self.len }
        requires first { self.first + self.len < 2 ^ 32 }
        requires some { count < self.len }
        requires start { self.start + self.len < 2 ^ 64 }
        ensures { result ≡ back_of count self }
    {
        Run {
            stamp: self.stamp,
            first: self.first + count,
            start: self.start + count as usize,
            len: self.len - count,
            alive: self.alive,
        }
    }

    /// How many bytes of the run are before a range.
    pub(crate) fn low(self, range: ByteRange) -> u32
        ensures { result ≡ low_of range self }
    {
        range.first.saturating_sub(self.first)
    }

    /// How many bytes of the run there are up to the end of a range.
    pub(crate) fn high(self, range: ByteRange) -> u32
        ensures { result ≡ high_of range self }
    {
        let last = range.last.saturating_sub(self.first);
        if range.last < self.first {
            0
        } else if last < self.len {
            last + 1
        } else {
            self.len
        }
    }

    /// Whether alive bytes of the run are in a range.
    pub(crate) fn touches(self, range: ByteRange) -> bool
        ensures { result ≡ is_touched range self }
    {
        self.alive && self.stamp == range.stamp && self.low(range) < self.high(range)
    }

    /// Whether the run has the end of a range, or is after it, so that no later run has bytes of
    /// it.
    pub(crate) fn reaches(self, range: ByteRange) -> bool
        ensures { result ≡ is_reached range self }
    {
        self.stamp == range.stamp
            && u64::from(range.last) < u64::from(self.first) + u64::from(self.len)
    }

    /// Whether the run is of an insertion and has bytes of it from a number on.
    pub(crate) fn lasts(self, stamp: Stamp, index: u32) -> bool
        ensures { result ≡ is_lasting stamp index self }
    {
        self.stamp == stamp && u64::from(index) < u64::from(self.first) + u64::from(self.len)
    }

    /// The bytes of the run from one place to another.
    pub(crate) fn part(self, from: u32, to: u32) -> Run
        requires order { from ≤ to }
        requires within { to ≤ self.len }
        requires first { self.first + self.len < 2 ^ 32 }
        requires start { self.start + self.len < 2 ^ 64 }
        ensures { result ≡ part_of from to self }
    {
        Run {
            stamp: self.stamp,
            first: self.first + from,
            start: self.start + from as usize,
            len: to - from,
            alive: self.alive,
        }
    }

    /// The run, dead.
    pub(crate) fn killed(self) -> Run
        ensures { result ≡ killed_of self }
    {
        Run {
            stamp: self.stamp,
            first: self.first,
            start: self.start,
            len: self.len,
            alive: false,
        }
    }

    /// The name of a byte of the run.
    pub(crate) fn name(self, i: u32) -> ElemId
        requires { self.first + i < 2 ^ 32 }
        ensures { result ≡ byte_of self.stamp (self.first + i) }
    {
        ElemId::new(self.stamp, self.first + i)
    }

    /// The bytes of the run.
    pub(crate) fn bytes_of(self, store: &[u8]) -> &[u8]
        requires { self.start + self.len ≤ length store.now }
        ensures { result.now ≡ bytes_in store.now self }
    {
        &store[self.start..self.start + self.len as usize]
    }
}
