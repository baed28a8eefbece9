//! What is typed at a terminal.
ghost use Rattle.std.specs.Prelude.{◌≡◌, ℕ, IfOk, List, None, OnErr, OnOk, Option, is_err};
ghost use Rattle.zed_host.specs.Counting.{Counts};
ghost use Rattle.zed_terminal.specs.Terminals.{Foretold, Takes, TypingFails, is_byte};
ghost use Rattle.zed_terminal.specs.Typing.{inputs_left, typed};

use crate::input::{DeviceFailed, Input, Inputs};
use crate::typing::{Reading, typed};

/// So many bytes that come to nothing are a failure.
const BYTES: u32 = 1_048_576;

/// A source of bytes, which come one after the other.
pub trait Bytes: Drop {
    /// The bytes that are left; or that these aren't told.
    ghost bytes_left: { Self → Option (List ℕ) };

    /// How many bytes came, up to the greatest `u64`.
    ghost bytes_came: { Self → ℕ };

    /// How many calls of `byte` failed, up to the same.
    ghost byte_failures: { Self → ℕ };

    /// The next byte, or None where no more come. Where that fails, no byte is taken.
    fn byte(&mut self) -> Result<Option<u8>, DeviceFailed>
        ensures ok { IfOk result (λ byte. Takes byte (bytes_left self.old) (bytes_left self.new)) }
        ensures err { OnErr result (bytes_left self.new ≡ bytes_left self.old) }
        ensures came { Counts (is_byte result) (bytes_came self.old) (bytes_came self.new) }
        ensures failures { Counts (is_err result)
            (byte_failures self.old) (byte_failures self.new) };
}

/// What the bytes of a source come to.
#[derive(Drop)]
pub struct Typist<B> {
    bytes: B,
    reading: Reading,
    failures: u64,
}

impl<B: Bytes> Typist<B> {
    /// Nothing was read yet.
    pub fn new(bytes: B) -> Typist<B>
        ensures bytes { result.bytes ≡ bytes }
        ensures reading { result.reading ≡ Reading.Between }
        ensures failures { result.failures ≡ 0 }
    {
        Typist {
            bytes,
            reading: Reading::Between,
            failures: 0,
        }
    }

    /// Takes a byte; what it completes, if it does.
    fn take(&mut self, byte: u8) -> Option<Input>
        ensures input { result ≡ (typed self.old.reading byte).input }
        ensures reading { self.new.reading ≡ (typed self.old.reading byte).reading }
        ensures bytes { self.new.bytes ≡ self.old.bytes }
        ensures failures { self.new.failures ≡ self.old.failures }
    {
        let stroke = typed(self.reading, byte);
        self.reading = stroke.reading;
        stroke.input
    }

    /// What the next bytes come to. It fails where the source of bytes does, or where so many bytes
    /// come to nothing.
    #[tactic(auto, using(crate::proofs::Keys::comes, crate::proofs::Keys::goes_on, crate::proofs::Keys::none_comes))]
    fn next_input(&mut self) -> Result<Option<Input>, DeviceFailed>
        ensures ok { IfOk result (λ input. Takes input
            (inputs_left self.old.reading (B.bytes_left self.old.bytes))
            (inputs_left self.new.reading (B.bytes_left self.new.bytes))) }
        ensures err { OnErr result (inputs_left self.new.reading (B.bytes_left self.new.bytes)
            ≡ inputs_left self.old.reading (B.bytes_left self.old.bytes)) }
        ensures cause { OnErr result (TypingFails
            (B.bytes_came self.old.bytes) (B.bytes_came self.new.bytes)
            (B.byte_failures self.old.bytes) (B.byte_failures self.new.bytes)) }
        ensures calm { OnOk result
            (B.byte_failures self.new.bytes ≡ B.byte_failures self.old.bytes) }
        ensures failures { self.new.failures ≡ self.old.failures }
    {
        for _ in 0..BYTES {
            if let Reading::Over = self.reading {
                return Ok(None);
            }
            let Some(byte) = self.bytes.byte()? else {
                return Ok(None);
            };
            if let Some(input) = self.take(byte) {
                return Ok(Some(input));
            }
        }
        Err(DeviceFailed)
    }
}

impl<B: Bytes> Inputs for Typist<B> {
    ghost left = { λ t. inputs_left t.reading (B.bytes_left t.bytes) };

    ghost input_failures = { λ t. t.failures };

    ghost inputs_foretell = { λ _. None };

    fn next(&mut self) -> Result<Option<Input>, DeviceFailed>
        ensures ok { IfOk result (λ input. Takes input
            (inputs_left self.old.reading (B.bytes_left self.old.bytes))
            (inputs_left self.new.reading (B.bytes_left self.new.bytes))) }
        ensures err { OnErr result (inputs_left self.new.reading (B.bytes_left self.new.bytes)
            ≡ inputs_left self.old.reading (B.bytes_left self.old.bytes)) }
        ensures failures { Counts (is_err result) self.old.failures self.new.failures }
        ensures foretold { Foretold (is_err result) None None }
        ensures cause { OnErr result (TypingFails
            (B.bytes_came self.old.bytes) (B.bytes_came self.new.bytes)
            (B.byte_failures self.old.bytes) (B.byte_failures self.new.bytes)) }
        ensures calm { OnOk result
            (B.byte_failures self.new.bytes ≡ B.byte_failures self.old.bytes) }
    {
        match self.next_input() {
            Ok(input) => Ok(input),
            Err(error) => {
                self.failures = self.failures.saturating_add(1);
                Err(error)
            }
        }
    }

    fn failures(&self) -> u64 {
        self.failures
    }
}
