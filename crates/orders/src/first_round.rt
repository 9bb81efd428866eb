//! The first round with room, by links over rounds without any that are lengthened as they are followed (union and find).

ghost use Rattle.std.specs.Prelude.{◌≡◌, ◌+◌, ◌*◌, ◌<◌, ◌≤◌, true, length};
ghost use Rattle.round_net.specs.Instance.{rows};
ghost use Rattle.round_net.specs.Rows.{instance_of_rows, live_of_rows};
ghost use Rattle.round_net.specs.Sound.{IsSound};
ghost use Rattle.orders.specs.Room.{has_room, HasNoRoom, AreSkips};

use crate::loads::has_room;
use round_net::{Net, cell};

/// The first round from its arrival on in which the stay's device has room, and one more than there are rounds if there is
/// none. `skips` has for each round of each device how many rounds may be passed over from it on, 0 at first; they grow as
/// rounds turn out to be full.
pub fn first_round(net: &Net, loads: &[u32], skips: &mut [u32], stay: u32) -> u32
    requires stay { stay < (instance_of_rows net.now).stays }
    requires cells { let n = instance_of_rows net.now in length loads.now ≡ rows n * n.rounds }
    requires skips { AreSkips (instance_of_rows net.now) loads.now skips.old }
    ensures skips { AreSkips (instance_of_rows net.now) loads.now skips.new }
    ensures later { (instance_of_rows net.now).arrival stay ≤ result }
    ensures ends { result ≤ (instance_of_rows net.now).rounds + 1 }
    ensures room { let n = instance_of_rows net.now in result ≤ n.rounds → has_room n loads.now (n.device stay) result ≡ true }
    ensures first { let n = instance_of_rows net.now in HasNoRoom n loads.now (n.device stay) (n.arrival stay) result }
    ensures sound { IsSound (instance_of_rows net.now) (live_of_rows net.now) }
{
    let rounds = net.rounds();
    let device = net.device(stay);
    let mut round = net.arrival(stay);
    while round <= rounds {
        let later = go_on(net, loads, skips, device, round);
        if later == round {
            break;
        }
        round = later;
    }
    round
}

// The round itself if the device has room in it, and else a later one at which to go on.
fn go_on(net: &Net, loads: &[u32], skips: &mut [u32], device: u32, round: u32) -> u32
    requires device { device < (instance_of_rows net.now).devices }
    requires first { 1 ≤ round }
    requires last { round ≤ (instance_of_rows net.now).rounds }
    requires cells { let n = instance_of_rows net.now in length loads.now ≡ rows n * n.rounds }
    requires skips { AreSkips (instance_of_rows net.now) loads.now skips.old }
    ensures skips { AreSkips (instance_of_rows net.now) loads.now skips.new }
    ensures later { round ≤ result }
    ensures ends { result ≤ (instance_of_rows net.now).rounds + 1 }
    ensures room { result ≡ round → has_room (instance_of_rows net.now) loads.now device round ≡ true }
    ensures full { HasNoRoom (instance_of_rows net.now) loads.now device round result }
{
    let rounds = net.rounds();
    let at = cell(rounds, device, round);
    let skip = skips[at];
    if skip == 0 {
        if has_room(net, loads, device, round) {
            return round;
        }
        skips[at] = 1;
        return round + 1;
    }
    let later = round + skip;
    if later <= rounds {
        skips[at] = skip + skips[cell(rounds, device, later)];
    }
    later
}
