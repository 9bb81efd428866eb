//! Plans of a large net by repair of the order by weight, and by levels of time. Proved: a plan that is answered is best, since its
//! prices are checked.

ghost use Rattle.std.specs.Prelude.{◌≡◌, length, slice_index, IfOk, OnOk};
ghost use Rattle.std.specs.Option.{IfSome};
ghost use Rattle.cost_plan.specs.Words.{instance_of_rows, ProvesBest, pricing_of_rows, IsPricingFor};
ghost use Rattle.cost_plan.specs.ResourcePrices.{IsAtMost};

use crate::best_plan::BestPlan;
use crate::lists::plan_of_lists;
use crate::plan_progress::PlanProgress;
use crate::units::{above, caps_of};
use large_plans::{Budget, Done, Guess, Network, NetworkStay, Progress};
use round_net::Net;
use std::alloc::{AllocError, Global};

// How many nodes the searches of a plan may take, and how many more for each stay and each path that they find. So a plan whose paths
// are long is given up soon.
const NODES: u64 = 1_000_000;

const NODES_PER_STAY: u64 = 8;

const NODES_PER_PATH: u64 = 4_000;

// How many they may take where windows end early, beside those for paths. There other planners take much longer.
const NODES_WITH_ENDS: u64 = 64_000_000;

// Passes the progress of guesses on.
#[derive(Clone, Copy)]
struct GuessProgress<'a, G> {
    progress: &'a G,
}

impl<G: PlanProgress> Progress for GuessProgress<'_, G> {
    fn level_planned(&self, done: Done) {
        self.progress.planned(done);
    }

    fn rounds_priced(&self, priced: u32, rounds: u32) {
        self.progress.mended(priced, rounds);
    }
}

/// The plan by levels, if there is one and its prices prove it best. That there is one isn't promised. The progress gets each
/// level.
pub(crate) fn plan_by_levels<G: PlanProgress>(
    alloc: Global,
    net: &Net,
    progress: &G,
) -> Result<Option<BestPlan>, AllocError>
    ensures proved { IfOk result (λ found. IfSome found (λ best. ProvesBest (instance_of_rows net.now) (slice_index best.schedule) (pricing_of_rows best.prices))) }
    ensures stays { IfOk result (λ found. IfSome found (λ best. length best.schedule ≡ (instance_of_rows net.now).stays)) }
    ensures cells { IfOk result (λ found. IfSome found (λ best. IsPricingFor (instance_of_rows net.now) best.prices)) }
    ensures small { IfOk result (λ found. IfSome found (λ best. IsAtMost (instance_of_rows net.now) (pricing_of_rows best.prices) (instance_of_rows net.now).max_price)) }
{
    let network = network_of(alloc, net)?;
    match large_plans::plan_by_levels(alloc, &network, &GuessProgress { progress })? {
        Some(guess) => plan_of_guess(alloc, net, guess),
        None => Ok(None),
    }
}

/// The plan by repair, if one is found soon enough and its prices prove it best. That there is one isn't promised. The progress gets
/// how many rounds are mended.
pub(crate) fn plan_by_repair<G: PlanProgress>(
    alloc: Global,
    net: &Net,
    progress: &G,
) -> Result<Option<BestPlan>, AllocError>
    ensures proved { IfOk result (λ found. IfSome found (λ best. ProvesBest (instance_of_rows net.now) (slice_index best.schedule) (pricing_of_rows best.prices))) }
    ensures stays { IfOk result (λ found. IfSome found (λ best. length best.schedule ≡ (instance_of_rows net.now).stays)) }
    ensures cells { IfOk result (λ found. IfSome found (λ best. IsPricingFor (instance_of_rows net.now) best.prices)) }
    ensures small { IfOk result (λ found. IfSome found (λ best. IsAtMost (instance_of_rows net.now) (pricing_of_rows best.prices) (instance_of_rows net.now).max_price)) }
{
    let (network, budget) = (network_of(alloc, net)?, budget(net));
    match large_plans::plan_by_repair(alloc, &network, budget, &GuessProgress { progress })? {
        Some(guess) => plan_of_guess(alloc, net, guess),
        None => Ok(None),
    }
}

// The plan that a guess has, if its prices prove it best.
fn plan_of_guess(alloc: Global, net: &Net, guess: Guess) -> Result<Option<BestPlan>, AllocError>
    requires { length guess.rounds.items ≡ (instance_of_rows net.now).stays }
    ensures proved { IfOk result (λ found. IfSome found (λ best. ProvesBest (instance_of_rows net.now) (slice_index best.schedule) (pricing_of_rows best.prices))) }
    ensures stays { IfOk result (λ found. IfSome found (λ best. length best.schedule ≡ (instance_of_rows net.now).stays)) }
    ensures cells { IfOk result (λ found. IfSome found (λ best. IsPricingFor (instance_of_rows net.now) best.prices)) }
    ensures small { IfOk result (λ found. IfSome found (λ best. IsAtMost (instance_of_rows net.now) (pricing_of_rows best.prices) (instance_of_rows net.now).max_price)) }
{
    let Guess { mut rounds, prices } = guess;
    count_from_one(&mut rounds);
    plan_of_lists(alloc, net, &rounds, &prices)
}

// How long it may take.
fn budget(net: &Net) -> Budget {
    Budget {
        nodes: if has_ends(net) {
            NODES_WITH_ENDS
        } else {
            NODES.saturating_add(NODES_PER_STAY.saturating_mul(u64::from(net.stays())))
        },
        nodes_per_path: NODES_PER_PATH,
    }
}

// Whether a window ends before the last round.
fn has_ends(net: &Net) -> bool {
    for stay in 0..net.stays() {
        if net.last(stay) < net.rounds() {
            return true;
        }
    }
    false
}

// Rounds that are counted from 0, counted as those of a net.
fn count_from_one(rounds: &mut [u32])
    ensures { length rounds.new ≡ length rounds.old }
{
    for round in rounds.iter_mut() {
        *round = round.saturating_add(1);
    }
}

// A unit for each resource of the net, and its stays.
fn network_of(alloc: Global, net: &Net) -> Result<Network, AllocError>
    ensures { IfOk result (λ network. length network.stays.items ≡ (instance_of_rows net.now).stays) }
{
    let mut network = Network::new(alloc, net.rounds());
    add_units(alloc, net, &mut network)?;
    add_stays(net, &mut network)?;
    Ok(network)
}

fn add_units(alloc: Global, net: &Net, network: &mut Network) -> Result<(), AllocError>
    ensures { OnOk result (network.new.stays.items ≡ network.old.stays.items) }
{
    for resource in 0..net.rows() {
        let caps = caps_of(alloc, net, resource)?;
        network.add_unit(above(net, resource), &caps)?;
    }
    Ok(())
}

fn add_stays(net: &Net, network: &mut Network) -> Result<(), AllocError>
    requires { length network.old.stays.items ≡ 0 }
    ensures { OnOk result (length network.new.stays.items ≡ (instance_of_rows net.now).stays) }
{
    for stay in 0..net.stays() {
        network.add_stay(NetworkStay {
            unit: net.device(stay),
            weight: net.weight(stay),
            arrival: net.arrival(stay) - 1,
            last: net.last(stay).saturating_sub(1),
        })?;
    }
    Ok(())
}
