//! A net as the search for a guess takes it. What a guess says is looked at before it is used: proved is only how many stays,
//! resources and rounds there are.

ghost use Rattle.std.specs.Prelude.{◌≡◌, ◌+◌, ◌<◌, length, IfOk};
ghost use Rattle.cost_plan.specs.Words.{rows, instance_of_rows, live_of_rows, IsSound};
ghost use Rattle.cost_plan.specs.Parts.{before, resources_before};

use crate::cells::resource_above;
use crate::part_name::{part_of_resource, part_of_stay};
use round_net::Net;
use shortest_paths::{Problem, Stay};
use std::alloc::{AllocError, Global};

/// What there is to plan of these stays: a resource for each device, then for each adapter, then for each link. An adapter's is
/// above those of its devices, and a link's above those of its adapters.
pub fn problem_of(alloc: Global, net: &Net, stays: Vec<Stay>) -> Result<Problem, AllocError>
    ensures rounds { IfOk result (λ problem. problem.rounds ≡ (instance_of_rows net.now).rounds) }
    ensures rows { IfOk result (λ problem. length problem.above.items ≡ rows (instance_of_rows net.now)) }
    ensures stays { IfOk result (λ problem. problem.stays.items ≡ stays.items) }
    ensures sound { IsSound (instance_of_rows net.now) (live_of_rows net.now) }
{
    Ok(Problem {
        rounds: net.rounds(),
        above: resources_above(alloc, net)?,
        caps: caps(alloc, net)?,
        stays,
    })
}

// The resource above each.
fn resources_above(alloc: Global, net: &Net) -> Result<Vec<u32>, AllocError>
    ensures { IfOk result (λ above. length above.items ≡ rows (instance_of_rows net.now)) }
{
    let mut above = Vec::new(alloc);
    for resource in 0..net.rows() {
        above.push(resource_above(net, resource))?;
    }
    Ok(above)
}

// How many stays each cell takes, and none in a round 0.
fn caps(alloc: Global, net: &Net) -> Result<Vec<u32>, AllocError> {
    let mut caps = Vec::new(alloc);
    for resource in 0..net.rows() {
        caps.push(0)?;
        add_caps(net, &mut caps, resource)?;
    }
    Ok(caps)
}

// Adds how many stays the cells of a resource take.
fn add_caps(net: &Net, caps: &mut Vec<u32>, resource: u32) -> Result<(), AllocError>
    requires { resource < rows (instance_of_rows net.now) }
{
    for round in 1..net.rounds() + 1 {
        caps.push(net.cap(resource, round))?;
    }
    Ok(())
}

/// All stays.
pub fn all_stays(alloc: Global, net: &Net) -> Result<Vec<Stay>, AllocError>
    ensures len { IfOk result (λ stays. length stays.items ≡ (instance_of_rows net.now).stays) }
    ensures sound { IsSound (instance_of_rows net.now) (live_of_rows net.now) }
{
    let mut stays = Vec::new(alloc);
    for stay in 0..net.stays() {
        stays.push(stay_of(net, stay))?;
    }
    Ok(stays)
}

/// What there is to plan of a part alone: a resource for each of its resources, in order.
pub fn problem_of_part(alloc: Global, net: &Net, part: u32) -> Result<Problem, AllocError>
    ensures rounds { IfOk result (λ problem. problem.rounds ≡ (instance_of_rows net.now).rounds) }
    ensures rows { let net = instance_of_rows net.now in IfOk result (λ problem. length problem.above.items ≡ resources_before net part (rows net)) }
    ensures stays { let net = instance_of_rows net.now in IfOk result (λ problem. length problem.stays.items ≡ before net part net.stays) }
{
    let places = places_of(alloc, net, part)?;
    let (above, caps) = own_resources(alloc, net, part, &places)?;
    let mut stays = Vec::new(alloc);
    for stay in 0..net.stays() {
        if part_of_stay(net, stay) == part {
            stays.push(Stay {
                resource: places[net.device(stay) as usize],
                ..stay_of(net, stay)
            })?;
        }
    }
    Ok(Problem {
        rounds: net.rounds(),
        above,
        caps,
        stays,
    })
}

// Of each resource how many before it are the part's, which is its place if it is so too. The last place, the root's, is past all.
fn places_of(alloc: Global, net: &Net, part: u32) -> Result<Vec<u32>, AllocError>
    ensures { IfOk result (λ places. length places.items ≡ rows (instance_of_rows net.now) + 1) }
{
    let mut places = Vec::with_capacity(alloc, net.rows() as usize + 1)?;
    let mut next = 0u32;
    for resource in 0..net.rows() {
        places.push(next)?;
        if part_of_resource(net, resource) == part {
            next = next.saturating_add(1);
        }
    }
    places.push(next)?;
    Ok(places)
}

// The place above each resource of the part, and how many stays their cells take.
fn own_resources(
    alloc: Global,
    net: &Net,
    part: u32,
    places: &[u32],
) -> Result<(Vec<u32>, Vec<u32>), AllocError>
    requires { length places.now ≡ rows (instance_of_rows net.now) + 1 }
    ensures { let net = instance_of_rows net.now in IfOk result (λ made. length made.0.items ≡ resources_before net part (rows net)) }
{
    let (mut above, mut caps) = (Vec::new(alloc), Vec::new(alloc));
    for resource in 0..net.rows() {
        if part_of_resource(net, resource) == part {
            above.push(places[resource_above(net, resource) as usize])?;
            caps.push(0)?;
            add_caps(net, &mut caps, resource)?;
        }
    }
    Ok((above, caps))
}

// A stay.
fn stay_of(net: &Net, stay: u32) -> Stay
    requires { stay < (instance_of_rows net.now).stays }
{
    Stay {
        resource: net.device(stay),
        arrival: net.arrival(stay),
        last: net.last(stay),
        weight: net.weight(stay),
    }
}
