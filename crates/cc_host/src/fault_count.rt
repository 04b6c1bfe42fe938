//! Counts of faults, which stay at the end of their type.
ghost use Rattle.std.specs.Prelude.{◌≡◌, ◌^◌, ◌<◌};
ghost use Rattle.cc_host.specs.Count.{count_after};

use crate::HostFault;

/// Counts the answer of a call where it is a failure.
pub(crate) fn count_failure(count: &mut u64, answer: &Result<(), HostFault>)
    ensures counted { count.new ≡ count_after answer.now count.old }
    ensures fits { count.old < 2 ^ 64 }
{
    let before = *count;
    if let Err(HostFault::Failed) = answer {
        *count = before.saturating_add(1);
    }
}
