//! Asking for a growth of memory to be refused. Under the allocator that scripts/tests/growths loads such requests are heard; under any other
//! they do nothing.
use std::alloc::Global;

/// The size that the allocator listens to.
const MARK: usize = 3_141_592;

/// Most growths that are refused in turn.
pub const MOST: usize = 4096;

/// How a call came out of which a growth was to be refused.
#[derive(Clone, Copy)]
pub enum Turn {
    /// One was, and the call told so and left what it should.
    Refused,
    /// None was left to refuse, and it came out as with ample memory.
    Whole,
    /// Neither.
    Wrong,
}

/// Asks that the growth `nth` from here on is refused, or none where it is 0.
pub fn refuse(alloc: Global, nth: usize) {
    if nth > 0 {
        let _ = Vec::<u8>::with_capacity(alloc, MARK.saturating_add(nth));
    }
}

/// Ends what `refuse` asked for, and says whether a growth was refused.
pub fn was_refused(alloc: Global) -> bool {
    Vec::<u8>::with_capacity(alloc, MARK).is_err()
}

/// How a call came out of which this is known: whether a growth was refused, whether it came out as with ample memory, and whether it told
/// that memory lacked and left what it should.
pub fn turn_of(was_refused: bool, is_whole: bool, is_memory: bool) -> Turn {
    if was_refused && is_memory {
        Turn::Refused
    } else if !was_refused && is_whole {
        Turn::Whole
    } else {
        Turn::Wrong
    }
}
