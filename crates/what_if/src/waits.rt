//! Rounds in which stays wait for a device, an adapter or a link that is full or takes nothing.

ghost use Rattle.std.specs.Prelude.{◌≡◌, ◌<◌, ◌≤◌, ◌||◌};
ghost use Rattle.round_net.specs.Instance.{rows};
ghost use Rattle.round_net.specs.Rows.{cell, instance_of_rows, live_of_rows};
ghost use Rattle.round_net.specs.Schedules.{load};
ghost use Rattle.round_net.specs.LoadLists.{AreLoads};
ghost use Rattle.what_if.specs.Tries.{waiting_at, is_full, is_stopped, is_ever_full, is_ever_stopped};

use round_net::{Net, cell};

/// What stays waited for at a row.
#[derive(Clone, Copy)]
pub(crate) struct Waits {
    /// Whether one waited in a round in which the row took all that it takes, which may be nothing.
    pub(crate) full: bool,
    /// Whether one waited in a round in which the row took nothing.
    pub(crate) stopped: bool,
}

impl Waits {
    // None waited.
    const NONE: Waits = Waits {
        full: false,
        stopped: false,
    };

    // These and others.
    fn or(self, other: Waits) -> Waits
        ensures full { result.full ≡ (self.full || other.full) }
        ensures stopped { result.stopped ≡ (self.stopped || other.stopped) }
    {
        Waits {
            full: self.full || other.full,
            stopped: self.stopped || other.stopped,
        }
    }
}

/// What stays waited for at the row, by how many arrived and were sent in each of its rounds.
pub(crate) fn waits_of(net: &Net, arrived: &[u32], sent: &[u32], row: u32) -> Waits
    requires row { row < rows (instance_of_rows net.now) }
    requires arrived { let n = instance_of_rows net.now in AreLoads n n.arrival n.stays arrived.now }
    requires sent { let n = instance_of_rows net.now in AreLoads n (live_of_rows net.now) n.stays sent.now }
    ensures full { result.full ≡ is_ever_full (instance_of_rows net.now) (live_of_rows net.now) row }
    ensures stopped { result.stopped ≡ is_ever_stopped (instance_of_rows net.now) (live_of_rows net.now) row }
{
    let mut waits = Waits::NONE;
    let mut waiting = 0;
    for before in 0..net.rounds() {
        let round = before + 1;
        let at = cell(net.rounds(), row, round);
        let went = sent[at];
        waiting = waiting + arrived[at] - went;
        waits = waits.or(waits_in(net, waiting, went, row, round));
    }
    waits
}

// The same in one round, by how many wait there and how many were sent.
fn waits_in(net: &Net, waiting: u32, sent: u32, row: u32, round: u32) -> Waits
    requires row { row < rows (instance_of_rows net.now) }
    requires first { 1 ≤ round }
    requires last { round ≤ (instance_of_rows net.now).rounds }
    requires waiting { waiting ≡ waiting_at (instance_of_rows net.now) (live_of_rows net.now) row round }
    requires sent { sent ≡ load (instance_of_rows net.now) (live_of_rows net.now) row round }
    ensures full { result.full ≡ is_full (instance_of_rows net.now) (live_of_rows net.now) row round }
    ensures stopped { result.stopped ≡ is_stopped (instance_of_rows net.now) (live_of_rows net.now) row round }
{
    let cap = net.cap(row, round);
    Waits {
        full: waiting > 0 && sent == cap,
        stopped: waiting > 0 && cap == 0,
    }
}
