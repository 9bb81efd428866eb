//! The attempts of each device.

ghost use Rattle.std.specs.Prelude.{◌≡◌, ◌<◌, All, IfOk, [], length};
ghost use Rattle.capture_windows.specs.Attempts.{Attempt};
ghost use Rattle.capture_windows.specs.Counted.{AreByDevice};

use crate::attempt::Attempt;
use std::alloc::{AllocError, Global};

/// The attempts of each of so many devices, in the order given. It fails only if there is no memory.
pub(crate) fn attempts_by_device(
    alloc: Global,
    attempts: &[Attempt],
    count: usize,
) -> Result<Vec<Vec<Attempt>>, AllocError>
    requires { All (λ (a : Attempt). a.request.device < count) attempts.now }
    ensures { IfOk result (λ lists. AreByDevice count attempts.now lists.items) }
{
    let mut lists = no_attempts(alloc, count)?;
    for attempt in attempts {
        lists[attempt.request.device as usize].push(*attempt)?;
    }
    Ok(lists)
}

// For each of so many devices none.
fn no_attempts(alloc: Global, count: usize) -> Result<Vec<Vec<Attempt>>, AllocError>
    ensures { IfOk result (λ lists. AreByDevice count [] lists.items) }
{
    let mut lists = Vec::with_capacity(alloc, count)?;
    for _device in 0..count {
        lists.push(Vec::new(alloc))?;
    }
    Ok(lists)
}
