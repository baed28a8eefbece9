//! Registers that keep the stamp of their write.
ghost use Rattle.std.specs.Prelude.{◌≡◌, []};
ghost use Rattle.zed_types.specs.Register.{value_or};

use crate::bytes::Bytes;
use crate::stamp::Stamp;

/// A value of a register, with the stamp of its write.
#[derive(Drop)]
pub struct Written<V> {
    pub stamp: Stamp,
    pub value: V,
}

/// The value that a register shows: that of its latest write, or this one if it was never written.
pub fn value_or<V: Copy>(register: &Option<Written<V>>, unwritten: V) -> V
    ensures result { result ≡ value_or unwritten register.now }
{
    match register {
        Some(write) => write.value,
        None => unwritten,
    }
}

/// The string that a register shows, lent: empty if it was never written.
pub fn string_or_empty(register: &Option<Written<Bytes>>) -> &[u8]
    ensures result { result.now ≡ value_or [] register.now }
{
    match register {
        Some(write) => write.value.as_slice(),
        None => &[],
    }
}
