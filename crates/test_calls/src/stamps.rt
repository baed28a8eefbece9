//! Stamps, and the bytes that their edits put.
ghost use Rattle.std.specs.Prelude.{◌≡◌, Some};
ghost use Rattle.zed_types.specs.Names.{byte_of as byte_at};

use zed_types::{ElemId, Stamp};

/// The stamp of a time and a replica.
macro_rules! stamp {
    ($time:literal, $replica:literal) => {
        Stamp {
            time: $time,
            replica: $replica,
        }
    };
}

pub(crate) use stamp;

/// The first byte of an edit.
pub(crate) fn first_of(stamp: Stamp) -> Option<ElemId>
    ensures { result ≡ Some (byte_at stamp 0) }
{
    Some(ElemId::new(stamp, 0))
}
