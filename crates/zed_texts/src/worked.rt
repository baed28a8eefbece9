//! Changing one text, and how much its count of runs looked at rises.

ghost use Rattle.std.specs.Prelude.{◌≡◌, ◌≤◌, ◌<◌, ◌+◌, true, length, IfOk, OnOk, OnErr};
ghost use Rattle.zed_types.specs.declared.limits.TheConstants.{READ_BODY_LIMIT};
ghost use Rattle.zed_types.specs.Text.{run_from, put_late, kill};
ghost use Rattle.zed_code.specs.Text.{elements, has_from, StandsAfter, IsNewStamp};
ghost use Rattle.zed_texts.specs.Texts.{IsWorked};

use std::alloc::AllocError;
use zed_code::Text;
use zed_types::{ByteRange, ElemId, Stamp};

/// Puts bytes into a text. Answers how much its count of runs looked at rises.
pub(crate) fn put_into(
    text: &mut Text,
    after: Option<ElemId>,
    stamp: Stamp,
    bytes: &[u8],
) -> Result<u64, AllocError>
    requires there { StandsAfter after stamp (elements text.old) }
    requires new { IsNewStamp stamp (elements text.old) }
    requires most { length bytes.now ≤ READ_BODY_LIMIT }
    ensures ok { OnOk result (elements text.new
        ≡ put_late after stamp (run_from stamp 0 bytes.now) (elements text.old)) }
    ensures kept { OnErr result (text.new ≡ text.old) }
    ensures runs { OnOk result (IsWorked text.old text.new) }
    ensures visits { IfOk result (λ n. text.new.visits ≡ text.old.visits + n) }
    ensures memory_only_when { OnErr result (0 < length bytes.now) }
{
    let before = text.visits();
    text.insert(after, stamp, bytes)?;
    Ok(text.visits() - before)
}

/// Marks bytes of a text dead. Answers how much its count of runs looked at rises.
pub(crate) fn kill_in(text: &mut Text, range: ByteRange) -> Result<u64, AllocError>
    ensures ok { OnOk result (elements text.new ≡ kill range (elements text.old)) }
    ensures kept { OnErr result (text.new ≡ text.old) }
    ensures runs { OnOk result (IsWorked text.old text.new) }
    ensures visits { IfOk result (λ n. text.new.visits ≡ text.old.visits + n) }
    ensures memory_only_when { OnErr result ((range.first ≤ range.last)
        × (has_from range.stamp range.first (elements text.old) ≡ true)) }
{
    let before = text.visits();
    text.delete(range.stamp, range.first, range.last)?;
    Ok(text.visits() - before)
}
