//! How many commands the rows of a history take in each round.

ghost use Rattle.std.specs.Prelude.{◌≡◌, length, IfOk};
ghost use Rattle.round_net.specs.Marks.{AreCaps};

use std::alloc::{AllocError, Global};

/// What is taken in each round of a row: as many commands as were sent if a freeze stood in the round, and else as there
/// are openings.
pub fn caps(
    alloc: Global,
    frozen: &[bool],
    sends: &[u32],
    openings: &[u32],
) -> Result<Vec<u32>, AllocError>
    requires sends { length sends.now ≡ length frozen.now }
    requires openings { length openings.now ≡ length frozen.now }
    ensures { IfOk result (λ caps. AreCaps frozen.now sends.now openings.now caps.items) }
{
    let mut caps = Vec::new(alloc);
    for at in 0..frozen.len() {
        caps.push(if frozen[at] { sends[at] } else { openings[at] })?;
    }
    Ok(caps)
}
