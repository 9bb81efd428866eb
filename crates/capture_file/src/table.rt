//! Attempts by their ids, and those that haven't ended by their places.

ghost use Rattle.std.specs.Prelude.{◌≡◌, ◌<◌, [], ◌∷◌, ◌++◌, ◌||◌, ◌&&◌, not, Some, None, true, IfSome, OnOk, OnErr};
ghost use Rattle.std.specs.List.{AllByRecursion};
ghost use Rattle.std.specs.BTreeMap.{keys, values};
ghost use Rattle.std.specs.BTreeSet.{contains};
ghost use Rattle.capture_file.specs.declared.attempt.Attempt.{Attempt};
ghost use Rattle.capture_file.specs.declared.spot.Spot.{Spot};
ghost use Rattle.capture_file.specs.Attempts.{IsRising, ids, with_id, put, without, waits_at, is_early_at, first_waiting, newest_at, first_early};
ghost use Rattle.capture_file.specs.Events.{retagged, tagged};
ghost use Rattle.capture_file.specs.Spots.{spot_of, spot_cmp, is_at_spot, first_at, last_at, later_of, AreApart};

use crate::attempt::{Arrival, Attempt, Place, Sent, Tag};
use crate::by_id::ById;
use crate::spot::{Lane, Queue, Spot, spot_of};
use std::alloc::{AllocError, Global};
use std::collections::{BTreeMap, BTreeSet};
use std::marker::Model;

/// Attempts in the order in which they came. A call takes a time that grows as the logarithm of their number.
#[derive(Drop)]
pub(crate) struct Table {
    by_id: ById,
    spots: BTreeSet<Spot>,
}

impl Model for Table {
    ghost use Rattle.std.specs.Prelude.{List};
    ghost use Rattle.capture_file.specs.declared.attempt.Attempt.{Attempt};
    ghost use Rattle.capture_file.specs.Tables.{IsTable};

    ghost Value = { List Attempt };

    ghost view = { λ a. a.by_id };

    ghost invariant = { λ a. IsTable a.by_id a.spots };
}

impl Table {
    /// None.
    pub(crate) fn new(alloc: Global) -> Table
        ensures { result ≡ [] }
    {
        Table {
            by_id: ById::new(alloc),
            spots: BTreeSet::new(alloc),
        }
    }

    /// All, by their ids.
    pub(crate) fn all(&self) -> &BTreeMap<u64, Attempt>
        ensures values { values result.now ≡ self.now }
        ensures keys { keys result.now ≡ ids self.now }
    {
        self.by_id.all()
    }

    /// That of an id.
    pub(crate) fn get(&self, id: u64) -> Option<Attempt>
        ensures found { result ≡ with_id id self.now }
        ensures rising { IsRising self.now }
    {
        self.by_id.get(id)
    }

    /// The one that waited longest at a place.
    pub(crate) fn first_waiting(&self, place: Place) -> Option<Attempt>
        ensures first { result ≡ first_waiting place self.now }
        ensures at { IfSome result (λ a. with_id a.id self.now ≡ Some a) }
        ensures passes { IfSome result (λ a. waits_at place a ≡ true) }
    {
        self.first_at(Queue::waiting(place), 0)
    }

    /// The newest in flight at a place that fits: of that kind and size, or one whose arrival wasn't seen.
    pub(crate) fn newest_at(&self, place: Place, sent: Sent) -> Option<Attempt>
        ensures newest { result ≡ newest_at place sent self.now }
        ensures at { IfSome result (λ a. with_id a.id self.now ≡ Some a) }
    {
        let seen = self.last_at(Queue::flying(place, sent).lane, sent.size);
        let early = self.last_at(Queue::early(place).lane, 0);
        later_of(seen, early)
    }

    /// The one that was started longest ago at a place, of those in flight whose arrival wasn't seen, but not before a time.
    pub(crate) fn first_early(&self, place: Place, from: u64) -> Option<Attempt>
        ensures first { result ≡ first_early place from self.now }
        ensures at { IfSome result (λ a. with_id a.id self.now ≡ Some a) }
        ensures passes { IfSome result (λ a. is_early_at place from a ≡ true) }
    {
        self.first_at(Queue::early(place), from)
    }

    // The first one in a queue that wasn't started before a time.
    fn first_at(&self, queue: Queue, from: u64) -> Option<Attempt>
        ensures first { result ≡ first_at queue from self.now }
        ensures rising { IsRising self.now }
    {
        let start = Spot {
            queue,
            start: from,
            id: 0,
        };
        let spot = self.spots.range(start..).next()?;
        if spot.queue != queue {
            return None;
        }
        self.by_id.get(spot.id)
    }

    // The last one of a lane that has this size.
    fn last_at(&self, lane: Lane, size: u32) -> Option<Attempt>
        ensures last { result ≡ last_at (record { lane = lane; size = size }) self.now }
        ensures rising { IsRising self.now }
    {
        let size = size as u64;
        let first = Spot {
            queue: Queue { lane, size },
            start: 0,
            id: 0,
        };
        let next = Spot {
            queue: Queue {
                lane,
                size: size + 1,
            },
            start: 0,
            id: 0,
        };
        let spot = self.spots.range(first..next).next_back()?;
        self.by_id.get(spot.id)
    }

    /// Adds one with a higher id than each other.
    pub(crate) fn push(&mut self, attempt: Attempt) -> Result<(), AllocError>
        requires { AllByRecursion (λ (a : Attempt). a.id < attempt.id) self.old }
        ensures ok { OnOk result (self.new ≡ self.old ++ attempt ∷ []) }
        ensures err { OnErr result (self.new ≡ self.old) }
    {
        self.by_id.push(attempt)?;
        if let Err(error) = add_spot(&mut self.spots, &attempt) {
            self.by_id.remove(attempt.id);
            return Err(error);
        }
        Ok(())
    }

    /// Puts an attempt in the place of the one with its id, which was elsewhere.
    pub(crate) fn replace(&mut self, before: Attempt, attempt: Attempt) -> Result<(), AllocError>
        requires before { with_id attempt.id self.old ≡ Some before }
        requires apart { AreApart before attempt }
        ensures ok { OnOk result (self.new ≡ put attempt self.old) }
        ensures err { OnErr result (self.new ≡ self.old) }
    {
        add_spot(&mut self.spots, &attempt)?;
        remove_spot(&mut self.spots, &before);
        self.by_id.put(attempt);
        Ok(())
    }

    /// Puts an attempt that has ended in the place of the one with its id.
    pub(crate) fn end(&mut self, before: Attempt, attempt: Attempt)
        requires before { with_id attempt.id self.old ≡ Some before }
        requires ended { spot_of attempt ≡ None }
        ensures { self.new ≡ put attempt self.old }
    {
        remove_spot(&mut self.spots, &before);
        self.by_id.put(attempt);
    }

    /// Gives the one with an id this tag, if there is one and its arrival is known.
    pub(crate) fn retag(&mut self, id: u64, tag: Tag)
        ensures { self.new ≡ retagged tag self.old (with_id id self.old) }
    {
        let Some(before) = self.by_id.get(id) else {
            return;
        };
        let arrival = tagged(tag, before.arrival);
        self.by_id.put(Attempt { arrival, ..before });
    }

    /// Takes out the one with an id, if there is one.
    pub(crate) fn remove(&mut self, id: u64)
        ensures { self.new ≡ without id self.old }
    {
        let Some(attempt) = self.by_id.get(id) else {
            return;
        };
        remove_spot(&mut self.spots, &attempt);
        self.by_id.remove(id);
    }
}

// Of the lasts of two queues the one that was started last; of equal ones the one that came last.
fn later_of(one: Option<Attempt>, other: Option<Attempt>) -> Option<Attempt>
    ensures { result ≡ later_of one other }
{
    let (Some(first), Some(second)) = (one, other) else {
        return one.or(other);
    };
    let key = (first.state.start(), first.id);
    if key < (second.state.start(), second.id) {
        other
    } else {
        one
    }
}

// An arrival with this tag.
fn tagged(tag: Tag, arrival: Option<Arrival>) -> Option<Arrival>
    ensures { result ≡ tagged tag arrival }
{
    let Arrival { time, .. } = arrival?;
    Some(Arrival { time, tag })
}

// Adds where an attempt is.
fn add_spot(spots: &mut BTreeSet<Spot>, attempt: &Attempt) -> Result<(), AllocError>
    ensures ok { OnOk result ((q : Spot) → contains spot_cmp spots.new q ≡ (is_at_spot (spot_of attempt.now) q || contains spot_cmp spots.old q)) }
    ensures err { OnErr result ((q : Spot) → contains spot_cmp spots.new q ≡ contains spot_cmp spots.old q) }
{
    if let Some(spot) = spot_of(attempt) {
        spots.insert(spot)?;
    }
    Ok(())
}

// Removes where an attempt is.
fn remove_spot(spots: &mut BTreeSet<Spot>, attempt: &Attempt)
    ensures { (q : Spot) → contains spot_cmp spots.new q ≡ (not (is_at_spot (spot_of attempt.now) q) && contains spot_cmp spots.old q) }
{
    if let Some(spot) = spot_of(attempt) {
        spots.remove(&spot);
    }
}
