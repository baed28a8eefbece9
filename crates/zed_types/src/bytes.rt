//! Strings of bytes.
ghost use Rattle.std.specs.Prelude.{◌≡◌, IfOk, OnErr, ◌↔◌, IsTrue, nat_eq, ◌<◌, length, slice_set};
ghost use Rattle.std.proofs.Common.{rules};
ghost use Rattle.std.specs.Cmp.Rules.{comparing};
ghost use lib.Pointwise.{pointwise};

use std::alloc::{AllocError, Global};
use std::marker::Model;

/// A string of bytes, which contracts see as their list.
#[derive(Drop)]
pub struct Bytes {
    bytes: Vec<u8>,
}

impl Model for Bytes {
    ghost use Rattle.std.specs.Prelude.{ℕ, List};

    ghost Value = { List ℕ };

    ghost view = { λ b. b.bytes.items };
}

impl PartialEq for Bytes {
    ghost eq = { pointwise nat_eq };

    ghost laws = { Prim.search (comparing, rules) };

    fn eq(&self, other: &Bytes) -> bool {
        self.bytes.as_slice() == other.bytes.as_slice()
    }
}

impl Eq for Bytes {
    ghost laws = { Prim.search (comparing, rules) };
}

impl Bytes {
    /// The bytes of a vector, which takes no memory.
    pub fn new(bytes: Vec<u8>) -> Bytes
        ensures { result ≡ bytes.items }
    {
        Bytes { bytes }
    }

    /// A string of these bytes. One without bytes takes no memory.
    pub fn from_slice(alloc: Global, bytes: &[u8]) -> Result<Bytes, AllocError>
        ensures result { IfOk result (λ b. b ≡ bytes.now) }
        ensures memory_only_when { OnErr result (0 < length bytes.now) }
    {
        if bytes.is_empty() {
            return Ok(Bytes::new(Vec::new(alloc)));
        }
        Ok(Bytes {
            bytes: bytes.to_vec(alloc)?,
        })
    }

    pub fn as_slice(&self) -> &[u8]
        ensures { result.now ≡ self.now }
    {
        self.bytes.as_slice()
    }

    /// An equal string. One without bytes takes no memory.
    pub fn copy(&self) -> Result<Bytes, AllocError>
        ensures result { IfOk result (λ b. b ≡ self.now) }
        ensures memory_only_when { OnErr result (0 < length self.now) }
    {
        Bytes::from_slice(*self.bytes.allocator(), self.as_slice())
    }

    /// Whether two strings are equal.
    pub fn is_same(&self, other: &Bytes) -> bool
        ensures { IsTrue result ↔ self.now ≡ other.now }
    {
        self.bytes.as_slice() == other.bytes.as_slice()
    }

    /// Replaces byte `i`.
    pub fn set(&mut self, i: usize, byte: u8)
        requires { i < length self.old }
        ensures { self.new ≡ slice_set self.old i byte }
    {
        self.bytes[i] = byte;
    }
}
