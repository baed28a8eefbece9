//! Keeping findings.
ghost use Rattle.std.specs.Prelude.{◌≡◌, ◌<◌, ◌++◌, OnErr, OnOk, length};
ghost use Rattle.zed_lint.specs.Found.{noted};

use crate::finding::{Finding, Spot, What};
use std::alloc::AllocError;

/// Appends a finding at a spot to those before it.
pub(crate) fn note(
    found: &mut Vec<Finding>,
    spot: Spot,
    what: Option<What>,
) -> Result<(), AllocError>
    ensures ok { OnOk result (found.new.items ≡ found.old.items ++ noted spot what) }
    ensures memory_only_when { OnErr result (0 < length (noted spot what)) }
{
    match what {
        Some(what) => Ok(found.push(Finding { spot, what })?),
        None => Ok(()),
    }
}
