//! A link: a trait for whoever hands one in.
ghost use Rattle.std.specs.Prelude.{◌≡◌, ◌≢◌, ◌≤◌, ◌||◌, ℕ, Bool, true, false, [], length, take, Option, Ok, IfOk, OnErr, is_err};
ghost use Rattle.zed_host.specs.Counting.{Counts};
ghost use Rattle.zed_link.specs.Counting.{Counted, takes_none};
ghost use Rattle.zed_link.specs.Ends.{LinkEnds, Changed, FailedBehind, HandedOver, KeepsPace, Took, TookFront, AtItsEnd};
ghost use Rattle.zed_link.specs.Writing.{CountsWrite};
ghost use Rattle.zed_link.specs.declared.writes.Writes.{Writes};

/// A call of a link failed.
#[derive(Clone, Copy, PartialEq, Eq)]
pub struct LinkFailed;

/// A two-way stream of bytes.
pub trait Link: Drop {
    /// The bytes that are left to read, those that it took, and what it promises of its reads; or
    /// none, if it promises nothing of these.
    ghost ends: { Self → Option LinkEnds };

    /// How many reads were made.
    ghost reads: { Self → ℕ };

    /// How many writes were made.
    ghost writes: { Self → Writes };

    /// How many calls failed.
    ghost failed: { Self → ℕ };

    /// How many writes of some bytes took none of them.
    ghost stalls: { Self → ℕ };

    /// Whether it never refuses bytes: no write fails, and each takes some of its bytes, if it has
    /// any.
    ghost accepts: { Self → Bool };

    /// Puts the next bytes at the front of `into`, and answers how many, at the pace that it
    /// promises, if it does. If `into` has room, 0 is the end of input. A read that fails hands
    /// over nothing and loses nothing. A link that can't promise that has no `ends`.
    fn read(&mut self, into: &mut [u8]) -> Result<usize, LinkFailed>
        ensures within { IfOk result (λ n. n ≤ length into.old) }
        ensures ok { IfOk result (λ n.
            Changed (HandedOver (take n into.new)) (ends self.old) (ends self.new)) }
        ensures end { result ≡ Ok 0 → into.old ≢ [] → AtItsEnd (ends self.old) }
        ensures pace { IfOk result (λ n. KeepsPace n (length into.old) (ends self.old)) }
        ensures half { OnErr result (Changed (FailedBehind []) (ends self.old) (ends self.new)) }
        ensures reads { Counted 1 (reads self.old) (reads self.new) }
        ensures writes { writes self.new ≡ writes self.old }
        ensures failures { Counts (is_err result) (failed self.old) (failed self.new) }
        ensures stalls { stalls self.new ≡ stalls self.old }
        ensures accepts { accepts self.new ≡ accepts self.old };

    /// Takes bytes from the front of these, and answers how many. A write that fails may have taken a front of them.
    fn write(&mut self, bytes: &[u8]) -> Result<usize, LinkFailed>
        ensures within { IfOk result (λ n. n ≤ length bytes.now) }
        ensures ok { IfOk result (λ n.
            Changed (Took (take n bytes.now)) (ends self.old) (ends self.new)) }
        ensures half { OnErr result (Changed (TookFront bytes.now) (ends self.old) (ends self.new)) }
        ensures reads { reads self.new ≡ reads self.old }
        ensures writes { CountsWrite bytes.now (writes self.old) (writes self.new) }
        ensures failures { Counts (is_err result) (failed self.old) (failed self.new) }
        ensures stalls { Counts (takes_none bytes.now result)
            (stalls self.old) (stalls self.new) }
        ensures accepts { accepts self.new ≡ accepts self.old }
        ensures refused { (is_err result || takes_none bytes.now result) ≡ true
            → accepts self.old ≡ false };

    /// How many calls failed, up to the greatest `u64`.
    fn failures(&self) -> u64
        ensures { result ≡ failed self.now };
}
