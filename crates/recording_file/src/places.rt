//! Where a request stands in the table of room.

ghost use Rattle.std.specs.Prelude.{◌≡◌, ◌*◌, ◌<◌, ◌≤◌, true, length, IfSome};
ghost use Rattle.std.specs.Option.{option_map};
ghost use Rattle.cam_types.specs.Topology.{IsConfig};
ghost use Rattle.cam_types.specs.Questions.{names_device};
ghost use Rattle.recording_file.specs.Caps.{part_of};
ghost use Rattle.recording_file.specs.Room.{cell_of};
ghost use Rattle.recording_file.specs.Places.{AreWithin, places_of, full_at, taken_at, one_less};
ghost use Rattle.recording_file.specs.Recorded.{MAX_RECORDED_ROUNDS};

use crate::cause::RequestFault;
use crate::part::{Part, PartKind};
use crate::room::cell_of;
use cam_types::Config;

/// The places of a request's device, adapter and link in its round.
#[derive(Clone, Copy)]
pub(crate) struct Places {
    pub(crate) device: usize,
    pub(crate) adapter: usize,
    pub(crate) link: Option<usize>,
}

impl Places {
    /// The places of a device in a round.
    pub(crate) fn of(rounds: u32, config: &Config, device: u32, round: u32) -> Places
        requires device { names_device config.now device ≡ true }
        requires some { 1 ≤ round }
        requires last { round ≤ rounds }
        requires most { rounds ≤ MAX_RECORDED_ROUNDS }
        ensures places { result ≡ places_of rounds config.now device round }
        ensures within { AreWithin (44 * rounds) result }
    {
        let adapter = config.device_adapter(device).unwrap_or(0);
        let link = config.adapter_link(adapter);
        Places {
            device: cell_of(rounds, part(PartKind::Device, device), round),
            adapter: cell_of(rounds, part(PartKind::Adapter, adapter), round),
            link: link_place(rounds, link, round),
        }
    }

    /// Which of them is full, if one is.
    pub(crate) fn full(self, room: &[u32]) -> Option<RequestFault>
        requires { AreWithin (length room.now) self }
        ensures { result ≡ full_at room.now self }
    {
        if room[self.device] == 0 {
            return Some(RequestFault::DeviceFull);
        }
        if room[self.adapter] == 0 {
            return Some(RequestFault::AdapterFull);
        }
        let link = self.link?;
        if room[link] == 0 {
            Some(RequestFault::LinkFull)
        } else {
            None
        }
    }

    /// Takes one of the room of each.
    pub(crate) fn take(self, room: &mut [u32])
        requires { AreWithin (length room.old) self }
        ensures { room.new ≡ taken_at room.old self }
    {
        take_one(room, self.device);
        take_one(room, self.adapter);
        if let Some(link) = self.link {
            take_one(room, link);
        }
    }
}

fn take_one(room: &mut [u32], at: usize)
    requires { at < length room.old }
    ensures { room.new ≡ one_less room.old at }
{
    room[at] = room[at].saturating_sub(1);
}

fn part(kind: PartKind, number: u32) -> Part
    ensures { result ≡ part_of kind number }
{
    Part { kind, number }
}

fn link_place(rounds: u32, link: Option<u32>, round: u32) -> Option<usize>
    requires link { IfSome link (λ l. l < 4) }
    requires some { 1 ≤ round }
    requires last { round ≤ rounds }
    requires most { rounds ≤ MAX_RECORDED_ROUNDS }
    ensures place { result ≡ option_map (λ l. cell_of rounds (part_of PartKind.Link l) round) link }
    ensures within { IfSome result (λ at. at < 44 * rounds) }
{
    match link {
        Some(link) => Some(cell_of(rounds, part(PartKind::Link, link), round)),
        None => None,
    }
}
