//! How often each round occurs.

ghost use Rattle.std.specs.Prelude.{◌≡◌, ◌==◌, ◌<◌, ◌≤◌, ◌^◌, IfOk, All, count_by, length};
ghost use Rattle.capture.specs.Loads.{IsRow};

use std::alloc::{AllocError, Global};

/// How often each round, from 0 up to the last one, is among these. It fails only if there is no memory.
pub fn tally(alloc: Global, last: u32, rounds: &[u32]) -> Result<Vec<u32>, AllocError>
    requires within { All (λ round. round ≤ last) rounds.now }
    requires few { length rounds.now < 2 ^ 32 }
    ensures { IfOk result (λ row. IsRow (λ round. count_by (λ n. n == round) rounds.now) last row.items) }
{
    let mut row = vec![in alloc; 0; last as usize + 1]?;
    for round in rounds {
        row[*round as usize] += 1;
    }
    Ok(row)
}
