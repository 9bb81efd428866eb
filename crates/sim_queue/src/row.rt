//! What an adapter knows of one device, and which of two goes first.

ghost use Rattle.std.specs.Prelude.{◌≡◌, ◌+◌, ◌*◌, ◌^◌};

use cam_types::Priority;

/// What an adapter knows of one of its devices.
#[derive(Clone, Copy)]
pub struct Row {
    /// The device's number.
    pub device: u32,
    /// How many events there were up to the last send to it: 0 before any.
    pub turn: u32,
    /// The priority of its first CCB, where it is ready.
    pub priority: Option<Priority>,
}

impl Row {
    ghost use Rattle.sim_queue.specs.Turns.{goes_before, generation};

    /// Whether both devices are ready, and this one goes before the other: by priority, then the one that was
    /// sent to longer ago, one never sent to before all others, then by number.
    pub(crate) fn goes_before(&self, other: &Row) -> bool
        ensures { result ≡ goes_before self.now other.now }
    {
        match (self.priority, other.priority) {
            (Some(mine), Some(theirs)) => {
                key(mine, self.turn, self.device) < key(theirs, other.turn, other.device)
            }
            _ => false,
        }
    }

    /// The device's generation in the queue of the ready ones: of two devices of one priority, the one with the
    /// lesser goes first. No other device has the same.
    pub(crate) fn generation(&self) -> u64
        ensures { result ≡ generation self.now }
    {
        generation_of(self.turn, self.device)
    }
}

// The generation of a device last sent to at this turn.
fn generation_of(turn: u32, device: u32) -> u64
    ensures { result ≡ turn * 2 ^ 32 + device }
{
    u64::from(turn) * (1 << 32) + u64::from(device)
}

// One number for the priority of a ready device and its generation, of which the priority decides first.
fn key(priority: Priority, turn: u32, device: u32) -> u128
    ensures { result ≡ priority * 2 ^ 64 + (turn * 2 ^ 32 + device) }
{
    u128::from(priority.number()) * (1 << 64) + u128::from(generation_of(turn, device))
}
