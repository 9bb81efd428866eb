//! The requests of block devices, and what each event makes of them.

ghost use Rattle.std.specs.Prelude.{◌≡◌, ◌-◌, [], Some, None, true, false, IfSome, IfOk, OnOk, OnErr};
ghost use Rattle.std.specs.BTreeMap.{keys, values};
ghost use Rattle.capture_file.specs.declared.attempt.Attempt.{Attempt};
ghost use Rattle.capture_file.specs.States.{is_waiting};
ghost use Rattle.capture_file.specs.Attempts.{IsRising, ids, with_id, is_same_place, is_early_at, first_waiting};
ghost use Rattle.capture_file.specs.Events.{AreBelow, add, added, after_arrival, arrival_of, started_before, waiting_behind, with_next, after_merge_back, after_merge_front, behind_of, after_start, started, after_issue, issued, after_put_back, put_back, after_completion, ending_of, after_tagging, after_forgetting};

use crate::attempt::{Arrival, Attempt, NOTHING, Place, Sent, State, Tag};
use crate::table::Table;
use std::alloc::{AllocError, Global};
use std::collections::BTreeMap;
use std::marker::Model;

/// What an arrival is of.
#[derive(Clone, Copy)]
pub enum Came {
    /// A new attempt, which waits.
    New(u64),
    /// The attempt of this id, whose start came before.
    Started(u64),
}

/// What a completion is of.
#[derive(Clone, Copy)]
pub enum Ending {
    /// An attempt that was in flight, as it is now.
    Completed(Attempt),
    /// One that waited, and is gone: it ended without a start.
    NeverStarted(Attempt),
    /// None that is known.
    Unknown,
}

/// The requests of block devices, attempt by attempt. Events come in the order of their times, and each speaks of a place: a
/// device and a first sector. A start is of the one that waited longest there, and a completion of the newest in flight there that
/// has its kind and size, since an older one may have lost its own. A call takes a time that grows as the logarithm of the number of attempts.
#[derive(Drop)]
pub struct Requests {
    skew: u64,
    next: u64,
    table: Table,
}

impl Model for Requests {
    ghost use Rattle.capture_file.specs.Events.{Known, AreBelow};

    ghost Value = { Known };

    ghost view = { λ a. record { skew = a.skew; next = a.next; attempts = a.table } };

    ghost invariant = { λ a. AreBelow a.next a.table };
}

impl Requests {
    /// No requests. An arrival may come after the start by so many nanoseconds, where the clocks of processors differ. With 0
    /// none does.
    pub fn new(alloc: Global, skew: u64) -> Requests
        ensures { result ≡ record { skew = skew; next = 0; attempts = [] } }
    {
        Requests {
            skew,
            next: 0,
            table: Table::new(alloc),
        }
    }

    /// All attempts, in the order in which they came, by their ids.
    pub fn attempts(&self) -> &BTreeMap<u64, Attempt>
        ensures values { values result.now ≡ self.now.attempts }
        ensures keys { keys result.now ≡ ids self.now.attempts }
    {
        self.table.all()
    }

    /// The attempt of an id. Attempts stand in the order of their ids, and the next one has a higher id than each.
    pub fn get(&self, id: u64) -> Option<Attempt>
        ensures found { result ≡ with_id id self.now.attempts }
        ensures rising { IsRising self.now.attempts }
        ensures below { AreBelow self.now.next self.now.attempts }
    {
        self.table.get(id)
    }

    /// A request arrives. If one is in flight at its place whose arrival wasn't seen, and which was started at most the skew
    /// before, then it is that one: it arrived when it was started.
    ///
    /// # Errors
    ///
    /// `AllocError` if no memory is left, or no id.
    pub fn arrive(&mut self, place: Place, time: u64, tag: Tag) -> Result<Came, AllocError>
        ensures answer { IfOk result (λ came. came ≡ arrival_of place time self.old) }
        ensures ok { OnOk result (self.new ≡ after_arrival place time tag self.old) }
        ensures err { OnErr result (self.new ≡ self.old) }
    {
        if let Some(early) = self.started_before(place, time) {
            let time = early.state.start();
            let arrival = Some(Arrival { time, tag });
            self.table.replace(early, Attempt { arrival, ..early })?;
            return Ok(Came::Started(early.id));
        }
        let arrival = Some(Arrival { time, tag });
        let attempt = self.add(place, NOTHING, arrival, State::Waiting)?;
        Ok(Came::New(attempt.id))
    }

    /// The one that waited longest at the place became a part of another: it is gone. Answers which one it was.
    pub fn merge_back(&mut self, place: Place) -> Option<Attempt>
        ensures answer { result ≡ first_waiting place self.old.attempts }
        ensures new { self.new ≡ after_merge_back place self.old }
    {
        let merged = self.table.first_waiting(place)?;
        self.table.remove(merged.id);
        Some(merged)
    }

    /// The one that waited longest at the place became the front of the one that waited longest at the place where its own
    /// sectors end: it is gone, and that one begins at the place from now on. Answers how that one is now. If none waits behind,
    /// or behind is the place itself, nothing changes.
    ///
    /// # Errors
    ///
    /// `AllocError` if no memory is left.
    pub fn merge_front(
        &mut self,
        place: Place,
        behind: Option<Place>,
    ) -> Result<Option<Attempt>, AllocError>
        ensures answer { IfOk result (λ front. front ≡ behind_of place behind self.old) }
        ensures ok { OnOk result (self.new ≡ after_merge_front place behind self.old) }
        ensures err { OnErr result (self.new ≡ self.old) }
    {
        let Some(before) = self.behind(place, behind) else {
            return Ok(None);
        };
        let joined = Attempt { place, ..before };
        let merged = self.table.first_waiting(place);
        self.table.replace(before, joined)?;
        if let Some(merged) = merged {
            self.table.remove(merged.id);
        }
        Ok(Some(joined))
    }

    /// The one that waited longest at the place is started. If none waits there, one whose arrival wasn't seen is. Answers how it is
    /// now.
    ///
    /// # Errors
    ///
    /// `AllocError` if no memory is left, or no id.
    pub fn start(&mut self, place: Place, sent: Sent, time: u64) -> Result<Attempt, AllocError>
        ensures answer { IfOk result (λ answer. answer ≡ started place sent time self.old) }
        ensures ok { OnOk result (self.new ≡ after_start place sent time self.old) }
        ensures err { OnErr result (self.new ≡ self.old) }
    {
        let state = State::InFlight { start: time };
        let Some(before) = self.table.first_waiting(place) else {
            return self.add(place, sent, None, state);
        };
        let attempt = Attempt {
            sent,
            state,
            ..before
        };
        self.table.replace(before, attempt)?;
        Ok(attempt)
    }

    /// The block layer issues what nobody queued, such as a flush: it arrives when it is issued. Answers how it is now.
    ///
    /// # Errors
    ///
    /// `AllocError` if no memory is left, or no id.
    pub fn issue(
        &mut self,
        place: Place,
        sent: Sent,
        time: u64,
        tag: Tag,
    ) -> Result<Attempt, AllocError>
        ensures answer { IfOk result (λ answer. answer ≡ issued place sent time tag self.old) }
        ensures ok { OnOk result (self.new ≡ after_issue place sent time tag self.old) }
        ensures err { OnErr result (self.new ≡ self.old) }
    {
        let state = State::InFlight { start: time };
        self.add(place, sent, Some(Arrival { time, tag }), state)
    }

    /// The newest in flight at the place that has this kind and size is put back; if its arrival wasn't seen, neither is asked. Its
    /// next attempt arrives then, with the same tag, unless its own arrival wasn't seen, or it has no sector. Answers how it is now.
    ///
    /// # Errors
    ///
    /// `AllocError` if no memory is left, or no id.
    pub fn put_back(
        &mut self,
        place: Place,
        sent: Sent,
        time: u64,
    ) -> Result<Option<Attempt>, AllocError>
        ensures answer { IfOk result (λ answer. answer ≡ put_back place sent time self.old) }
        ensures ok { OnOk result (self.new ≡ after_put_back place sent time self.old) }
        ensures err { OnErr result (self.new ≡ self.old) }
    {
        let Some(before) = self.table.newest_at(place, sent) else {
            return Ok(None);
        };
        self.add_next(&before, time)?;
        let start = before.state.start();
        let state = State::PutBack { start, end: time };
        let attempt = Attempt { state, ..before };
        self.table.end(before, attempt);
        Ok(Some(attempt))
    }

    /// The newest in flight at the place that has this kind and size is completed; if its arrival wasn't seen, neither is asked. If
    /// there is none, the one that waited longest there is gone: it ended without a start.
    pub fn complete(&mut self, place: Place, sent: Sent, time: u64) -> Ending
        ensures answer { result ≡ ending_of place sent time self.old }
        ensures new { self.new ≡ after_completion place sent time self.old }
    {
        let Some(before) = self.table.newest_at(place, sent) else {
            return match self.merge_back(place) {
                Some(gone) => Ending::NeverStarted(gone),
                None => Ending::Unknown,
            };
        };
        let start = before.state.start();
        let state = State::Completed { start, end: time };
        let attempt = Attempt { state, ..before };
        self.table.end(before, attempt);
        Ending::Completed(attempt)
    }

    /// Says this of the attempt of an id from now on, if there is one and its arrival is known. Its next attempt, if it is put back,
    /// has the same tag.
    pub fn retag(&mut self, id: u64, tag: Tag)
        ensures { self.new ≡ after_tagging id tag self.old }
    {
        self.table.retag(id, tag);
    }

    /// Leaves out the attempt of an id, if there is one: no event is of it any more.
    pub fn forget(&mut self, id: u64)
        ensures { self.new ≡ after_forgetting id self.old }
    {
        self.table.remove(id);
    }

    // The one of which an arrival is, though its start came before.
    fn started_before(&self, place: Place, time: u64) -> Option<Attempt>
        ensures first { result ≡ started_before place time self.now }
        ensures at { IfSome result (λ a. with_id a.id self.now.attempts ≡ Some a) }
        ensures passes { IfSome result (λ a. is_early_at place (time - self.now.skew) a ≡ true) }
    {
        if self.skew == 0 {
            return None;
        }
        self.table
            .first_early(place, time.saturating_sub(self.skew))
    }

    // The one that waited longest behind a place, which is another place.
    fn behind(&self, place: Place, behind: Option<Place>) -> Option<Attempt>
        ensures first { result ≡ waiting_behind place behind self.now }
        ensures at { IfSome result (λ a. with_id a.id self.now.attempts ≡ Some a) }
        ensures elsewhere { IfSome result (λ (a : Attempt). is_same_place a.place place ≡ false) }
        ensures waits { IfSome result (λ (a : Attempt). is_waiting a.state ≡ true) }
    {
        let behind = behind?;
        if behind == place {
            return None;
        }
        self.table.first_waiting(behind)
    }

    // Adds the attempt that comes after one that is put back then, if the arrival of that one is known, and it has a sector.
    fn add_next(&mut self, before: &Attempt, time: u64) -> Result<(), AllocError>
        ensures ok { OnOk result (self.new ≡ with_next before.now.place time before.now.arrival self.old) }
        ensures err { OnErr result (self.new ≡ self.old) }
    {
        if let Some(Arrival { tag, .. }) = before.arrival {
            if before.place.sector.is_some() {
                let arrival = Some(Arrival { time, tag });
                self.add(before.place, NOTHING, arrival, State::Waiting)?;
            }
        }
        Ok(())
    }

    // Adds an attempt, and answers it.
    fn add(
        &mut self,
        place: Place,
        sent: Sent,
        arrival: Option<Arrival>,
        state: State,
    ) -> Result<Attempt, AllocError>
        ensures answer { IfOk result (λ attempt. attempt ≡ added place sent arrival state self.old) }
        ensures ok { OnOk result (self.new ≡ add place sent arrival state self.old) }
        ensures err { OnErr result (self.new ≡ self.old) }
    {
        let Some(next) = self.next.checked_add(1) else {
            return Err(AllocError);
        };
        let attempt = Attempt {
            id: self.next,
            place,
            sent,
            arrival,
            state,
        };
        self.table.push(attempt)?;
        self.next = next;
        Ok(attempt)
    }
}
