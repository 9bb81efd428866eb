//! A net with other caps.

use crate::net::Net;
use std::alloc::{AllocError, Global};

impl Net {
    ghost use Rattle.std.specs.Prelude.{◌≡◌, ℕ, ◌*◌, ◌<◌, ◌≤◌, All, length, slice_index, IfOk};
    ghost use Rattle.round_net.specs.declared.limits.TheConstants.{MAX_CAP};
    ghost use Rattle.round_net.specs.Instance.{rows};
    ghost use Rattle.round_net.specs.Rows.{cell, instance_of_rows, live_of_rows};
    ghost use Rattle.round_net.specs.Schedules.{load};
    ghost use Rattle.round_net.specs.Pace.{with_caps};

    /// The same net with these caps: those of the first row's rounds, then those of the second one's, and so on. No row may
    /// take fewer in a round than were sent. It fails only if there is no memory.
    pub fn with_caps(&self, alloc: Global, caps: Vec<u32>) -> Result<Net, AllocError>
        requires cells { let n = instance_of_rows self.now in length caps.items ≡ rows n * n.rounds }
        requires small { All (λ cap. cap ≤ MAX_CAP) caps.items }
        requires held { let n = instance_of_rows self.now in (row r : ℕ) → row < rows n → 1 ≤ r → r ≤ n.rounds → load n (live_of_rows self.now) row r ≤ slice_index caps.items (cell n.rounds row r) }
        ensures { IfOk result (λ net. net ≡ with_caps self.now caps.items) }
    {
        Ok(Net {
            config: self.config.copy(alloc)?,
            commands: self.commands,
            rounds: self.rounds,
            links: self.links,
            adapter_of: Vec::from_slice(alloc, &self.adapter_of)?,
            link_of: Vec::from_slice(alloc, &self.link_of)?,
            stays: Vec::from_slice(alloc, &self.stays)?,
            caps,
            max_price: self.max_price,
        })
    }
}
