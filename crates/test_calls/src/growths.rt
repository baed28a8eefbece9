//! Calls whose growths are refused in turn. Where scripts/tests/growths loads no allocator that hears of it, nothing is refused, and each test
//! passes in its first turn.
use std::alloc::Global;
use test_rows::{Turn, was_refused};

/// How a call came out of which this is known: whether it came out as with ample memory, and whether it answered Memory and changed
/// nothing.
pub(crate) fn turn_of(alloc: Global, is_whole: bool, is_memory: bool) -> Turn {
    test_rows::turn_of(was_refused(alloc), is_whole, is_memory)
}

/// Whether a call comes out as it should with the growth of each number refused in turn, up to the one that meets none.
macro_rules! refuse_each {
    ($nth:ident => $turn:expr) => {{
        let mut is_whole = false;
        for $nth in 1..=test_rows::MOST {
            match $turn {
                test_rows::Turn::Refused => {}
                test_rows::Turn::Whole => {
                    is_whole = true;
                    break;
                }
                test_rows::Turn::Wrong => break,
            }
        }
        is_whole
    }};
}

pub(crate) use refuse_each;
