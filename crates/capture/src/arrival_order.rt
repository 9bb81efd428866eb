//! The order of requests by arrival.

ghost use Rattle.std.specs.Prelude.{◌≡◌, ◌<◌, ◌%◌, IfOk, length, map};
ghost use Rattle.std.specs.List.{AllByRecursion};
ghost use Rattle.std.specs.List.Sorted.{IsNonDecreasingBy};
ghost use Rattle.capture.specs.Keys.{AreInOrder, keys_from, request_at};
ghost use Rattle.capture.specs.Timed.{arrival_of, by_arrival};

use crate::started::are_by_arrival;
use crate::timed_request::TimedRequest;
use std::alloc::{AllocError, Global};
use std::collections::BinaryHeap;

// A key is an arrival times this, and a place.
const PLACES: u128 = 18446744073709551616;

/// Requests in the order of their arrivals; those of one arrival stay in the order given. It fails only if there is no memory.
pub fn in_arrival_order(
    alloc: Global,
    requests: Vec<TimedRequest>,
) -> Result<Vec<TimedRequest>, AllocError>
    ensures items { IfOk result (λ sorted. sorted.items ≡ by_arrival requests.items) }
    ensures sorted { IfOk result (λ sorted. IsNonDecreasingBy arrival_of sorted.items) }
    ensures count { IfOk result (λ sorted. length sorted.items ≡ length requests.items) }
{
    if are_by_arrival(&requests) {
        return Ok(requests);
    }
    let keys = keys_in_order(alloc, &requests)?;
    at_places(alloc, &requests, &keys)
}

// The keys of all requests, in order: by arrival, and of one arrival by place.
fn keys_in_order(alloc: Global, requests: &[TimedRequest]) -> Result<Vec<u128>, AllocError>
    ensures { IfOk result (λ keys. AreInOrder requests.now keys.items) }
{
    let keys = arrival_keys(alloc, requests)?;
    Ok(BinaryHeap::from(keys).into_sorted_vec())
}

// The key of each request, in the order given.
fn arrival_keys(alloc: Global, requests: &[TimedRequest]) -> Result<Vec<u128>, AllocError>
    ensures { IfOk result (λ keys. keys.items ≡ keys_from 0 requests.now) }
{
    let mut keys = Vec::with_capacity(alloc, requests.len())?;
    for (place, request) in requests.iter().enumerate() {
        keys.push(request.arrival as u128 * PLACES + place as u128)?;
    }
    Ok(keys)
}

// The requests at the places of keys.
fn at_places(
    alloc: Global,
    requests: &[TimedRequest],
    keys: &[u128],
) -> Result<Vec<TimedRequest>, AllocError>
    requires { AllByRecursion (λ key. key % 18446744073709551616 < length requests.now) keys.now }
    ensures { IfOk result (λ found. found.items ≡ map (request_at requests.now) keys.now) }
{
    let mut found = Vec::with_capacity(alloc, keys.len())?;
    for key in keys {
        found.push(requests[(*key % PLACES) as usize])?;
    }
    Ok(found)
}
