//! What each row of a net sent in each round.

ghost use Rattle.std.specs.Prelude.{◌≡◌, ◌+◌, ◌<◌, ◌≤◌, ◌^◌, List, [], ◌∷◌, ◌++◌, length, slice_set, Some, slice_get, IfOk, IfSome, ℕ};
ghost use Rattle.round_net.specs.Rows.{instance_of_rows, live_of_rows};
ghost use Rattle.round_net.specs.Instance.{rows};
ghost use Rattle.round_net.specs.Sound.{IsSound};
ghost use Rattle.wait_causes.specs.Sends.{no_sends, with_send, lesser, AreSends, AreNoted, IsNew, sends_in};

use round_net::{Net, cell};
use std::alloc::{AllocError, Global};

/// What a row sent in a round.
#[derive(Clone, Copy)]
pub(crate) struct Sends {
    /// How many stays.
    pub count: u32,
    /// The least weight of these, if there is one.
    pub least: Option<u32>,
}

impl Sends {
    // Nothing.
    fn none() -> Sends
        ensures { result ≡ no_sends }
    {
        Sends {
            count: 0,
            least: None,
        }
    }

    // These and one of that weight.
    fn with(self, weight: u32) -> Sends
        requires { self.count + 1 < 2 ^ 32 }
        ensures { result ≡ with_send self weight }
    {
        Sends {
            count: self.count + 1,
            least: Some(lesser(self.least, weight)),
        }
    }
}

// The lesser of two weights, of which one may be missing.
fn lesser(least: Option<u32>, weight: u32) -> u32
    ensures { result ≡ lesser least weight }
{
    match least {
        None => weight,
        Some(least) => least.min(weight),
    }
}

/// What each row of the net sent in each round. `round_net::cell` says where in the list.
pub(crate) fn sends_of(alloc: Global, net: &Net) -> Result<Vec<Sends>, AllocError>
    ensures { IfOk result (λ sends. AreSends (instance_of_rows net.now) (live_of_rows net.now) (instance_of_rows net.now).stays sends.items) }
{
    let mut sends = vec![in alloc; Sends::none(); net.cells()]?;
    for stay in 0..net.stays() {
        add(net, &mut sends, stay);
    }
    Ok(sends)
}

/// What the row sent in the round, by such a list.
pub(crate) fn sends_at(net: &Net, sends: &[Sends], row: u32, round: u32) -> Sends
    requires row { row < rows (instance_of_rows net.now) }
    requires first { 1 ≤ round }
    requires last { round ≤ (instance_of_rows net.now).rounds }
    requires sends { AreSends (instance_of_rows net.now) (live_of_rows net.now) (instance_of_rows net.now).stays sends.now }
    ensures { result ≡ sends_in (instance_of_rows net.now) (live_of_rows net.now) (instance_of_rows net.now).stays row round }
{
    sends[cell(net.rounds(), row, round)]
}

// Adds a stay to the sends of its device, of its adapter, and of the adapter's link.
fn add(net: &Net, sends: &mut [Sends], stay: u32)
    requires stay { stay < (instance_of_rows net.now).stays }
    requires before { AreSends (instance_of_rows net.now) (live_of_rows net.now) stay sends.old }
    ensures { AreSends (instance_of_rows net.now) (live_of_rows net.now) (stay + 1) sends.new }
{
    note(net, sends, net.device(stay), stay);
    note(net, sends, net.adapter_resource(net.adapter(stay)), stay);
    match net.link(stay) {
        Some(link) => note(net, sends, net.link_resource(link), stay),
        None => {}
    }
}

// Adds a stay to the sends of a row, where it is among those of some others.
fn note(net: &Net, sends: &mut [Sends], row: u32, stay: u32)
    requires stay { stay < (instance_of_rows net.now).stays }
    requires row { row < rows (instance_of_rows net.now) }
    requires apart { (own : List ℕ) × AreNoted (instance_of_rows net.now) (live_of_rows net.now) stay own sends.old × IsNew own row }
    ensures noted { (own : List ℕ) → IsNew own row → AreNoted (instance_of_rows net.now) (live_of_rows net.now) stay own sends.old → AreNoted (instance_of_rows net.now) (live_of_rows net.now) stay (own ++ row ∷ []) sends.new }
    ensures sound { IsSound (instance_of_rows net.now) (live_of_rows net.now) }
{
    let at = cell(net.rounds(), row, net.live(stay));
    put(sends, at, net.weight(stay));
}

// Adds one of that weight to the sends at a place.
fn put(sends: &mut [Sends], at: usize, weight: u32)
    requires within { at < length sends.old }
    requires few { IfSome (slice_get sends.old at) (λ s. s.count + 1 < 2 ^ 32) }
    ensures { (s : Sends) → slice_get sends.old at ≡ Some s → sends.new ≡ slice_set sends.old at (with_send s weight) }
{
    sends[at] = sends[at].with(weight);
}
