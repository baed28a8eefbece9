//! Bytes sent over a link.
ghost use Rattle.std.specs.Prelude.{◌≡◌, ◌≢◌, ◌<◌, ◌≤◌, [], length, take, false, IfOk, IfErr, OnOk, OnErr};
ghost use Rattle.zed_link.specs.Counting.{Faulted};
ghost use Rattle.zed_link.specs.Ends.{Changed, Took, TookFront};
ghost use Rattle.zed_link.specs.Writing.{WritesAtMost};

use crate::error::LinkError;
use crate::link::{Link, LinkFailed};

/// Writes from the front of these bytes, at least one of them.
fn write_some(link: &mut dyn Link, bytes: &[u8]) -> Result<usize, LinkError>
    requires { bytes.now ≢ [] }
    ensures within { IfOk result (λ n. (0 < n) × (n ≤ length bytes.now)) }
    ensures ok { IfOk result (λ n.
        Changed (Took (take n bytes.now)) (ends link.old) (ends link.new)) }
    ensures half { OnErr result (Changed (TookFront bytes.now) (ends link.old) (ends link.new)) }
    ensures err { IfErr result (λ e. e ≡ LinkError.LinkFault) }
    ensures calm { OnOk result
        ((failed link.new ≡ failed link.old) × (stalls link.new ≡ stalls link.old)) }
    ensures faults { OnErr result
        (Faulted (failed link.old) (failed link.new) (stalls link.old) (stalls link.new)) }
    ensures reads { reads link.new ≡ reads link.old }
    ensures writes { WritesAtMost 1 (writes link.old) (writes link.new) }
    ensures accepts { accepts link.new ≡ accepts link.old }
    ensures refused { OnErr result (accepts link.old ≡ false) }
{
    match link.write(bytes) {
        Ok(0) | Err(LinkFailed) => Err(LinkError::LinkFault),
        Ok(taken) => Ok(taken),
    }
}

/// Writes all of the bytes, piece by piece as the link takes them. LinkFault if a write fails, or
/// takes no byte: then the link took a front of the bytes. No write is empty, and none follows one
/// that failed, so there are no more writes than bytes.
pub fn send(link: &mut dyn Link, bytes: &[u8]) -> Result<(), LinkError>
    ensures ok { OnOk result (Changed (Took bytes.now) (ends link.old) (ends link.new)) }
    ensures half { OnErr result (Changed (TookFront bytes.now) (ends link.old) (ends link.new)) }
    ensures err { IfErr result (λ e. e ≡ LinkError.LinkFault) }
    ensures calm { OnOk result
        ((failed link.new ≡ failed link.old) × (stalls link.new ≡ stalls link.old)) }
    ensures faults { OnErr result
        (Faulted (failed link.old) (failed link.new) (stalls link.old) (stalls link.new)) }
    ensures reads { reads link.new ≡ reads link.old }
    ensures writes { WritesAtMost (length bytes.now) (writes link.old) (writes link.new) }
    ensures accepts { accepts link.new ≡ accepts link.old }
    ensures refused { OnErr result (accepts link.old ≡ false) }
{
    let mut rest = bytes;
    while !rest.is_empty() {
        let taken = write_some(link, rest)?;
        let (_, left) = rest.split_at(taken);
        rest = left;
    }
    Ok(())
}
