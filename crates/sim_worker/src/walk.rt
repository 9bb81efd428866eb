//! How far a driver is, event by event.

ghost use Rattle.std.specs.Prelude.{◌≡◌, ◌≢◌, ◌+◌, ◌++◌, ◌&&◌, ◌||◌, [], ◌∷◌, List, true, false, length, slice_get, Some, IfSome, IfNone};
ghost use Rattle.sim_worker.specs.Words.{round, Event, Scenario, is_rising, Receipt, refused};
ghost use Rattle.trace_file.specs.declared.step.Step.TheVariants as steps;
ghost use Rattle.sim_worker.specs.Logs.{FollowsRows, IsDriverLog, LetsRest, StandsAt, is_of_rules};
ghost use Rattle.sim_worker.specs.Walks.{IsBehindPauses, IsOf, IsOn, IsSettled, IsWalk};

use crate::same::are_same;
use event_rules::{Event, Refusal};
use trace_file::Step;
use xpt_lock::Receipt;
use xpt_state::Xpt;

/// How far a driver is after some of a run's events.
#[derive(Clone, Copy)]
pub(crate) struct Walk {
    /// The row at which it stands.
    pub(crate) row: usize,
    /// How many receipts of its log are after it.
    pub(crate) made: usize,
    /// Whether the event of its row was refused in this round.
    pub(crate) refused: bool,
}

impl Walk {
    /// A driver that has done nothing.
    pub(crate) const START: Walk = Walk {
        row: 0,
        made: 0,
        refused: false,
    };

    /// After the pauses that stand next and are over, and marked where the event of the row there is refused now.
    pub(crate) fn settled(self, xpt: &Xpt, rows: &[Step]) -> Walk
        ensures { (s : Scenario) (log : List Receipt) → IsOf s xpt.now → IsWalk s rows.now log xpt.now.events self → IsSettled s rows.now log xpt.now.events result }
    {
        let row = behind_pauses(rows, self.row, xpt.round());
        let now = is_refused(xpt, rows, row);
        Walk {
            row,
            made: self.made,
            refused: is_marked(row == self.row, self.refused, now),
        }
    }

    /// Whether the driver rests in this round.
    pub(crate) fn rests(&self, xpt: &Xpt, rows: &[Step]) -> bool
        ensures yes { result ≡ true → (s : Scenario) (log : List Receipt) → IsSettled s rows.now log xpt.now.events self.now → LetsRest s log xpt.now.events (slice_get rows.now self.now.row) }
        ensures no { result ≡ false → (s : Scenario) (log : List Receipt) → IsSettled s rows.now log xpt.now.events self.now → ¬ LetsRest s log xpt.now.events (slice_get rows.now self.now.row) }
    {
        match rows.get(self.row) {
            None => true,
            Some(Step::Pause(round)) => xpt.round() < *round,
            Some(Step::Act(_)) => self.refused,
        }
    }

    /// After the event that the transport takes next. None if the event is of the driver's log and isn't that of its row, or
    /// opens a round though the driver doesn't rest.
    pub(crate) fn behind(
        self,
        xpt: &Xpt,
        rows: &[Step],
        log: &[Receipt],
        event: &Event,
    ) -> Option<Walk>
        ensures fits { (s : Scenario) → IsOf s xpt.now → is_rising log.now ≡ true → IsOn s rows.now log.now xpt.now.events self → IfSome result (λ w. IsOn s rows.now log.now (xpt.now.events ++ event.now ∷ []) w) }
        ensures none { IfNone result ((s : Scenario) → IsOf s xpt.now → is_rising log.now ≡ true → IsOn s rows.now log.now xpt.now.events self → ¬ IsDriverLog s rows.now log.now (xpt.now.events ++ event.now ∷ [])) }
    {
        let here = self.settled(xpt, rows);
        if event.is_tick() && !here.rests(xpt, rows) {
            return None;
        }
        here.with(xpt.events().len(), rows, log, event)
    }

    // With the event of this place.
    fn with(self, place: usize, rows: &[Step], log: &[Receipt], event: &Event) -> Option<Walk>
        ensures fits { (s : Scenario) (before : List Event) → place ≡ length before → is_rising log.now ≡ true → IsSettled s rows.now log.now before self → FollowsRows rows.now log.now before →
            IfSome result (λ w. IsWalk s rows.now log.now (before ++ event.now ∷ []) w × FollowsRows rows.now log.now (before ++ event.now ∷ [])) }
        ensures none { IfNone result ((s : Scenario) (before : List Event) → place ≡ length before → IsSettled s rows.now log.now before self → ¬ FollowsRows rows.now log.now (before ++ event.now ∷ [])) }
    {
        let Some((due, made)) = event_at(log, self.made, place) else {
            return Some(Walk {
                row: self.row,
                made: self.made,
                refused: self.refused && !event.is_tick(),
            });
        };
        Some(Walk {
            row: behind_call(rows, self.row, &due)?,
            made,
            refused: false,
        })
    }
}

// Whether a driver is marked, that stands at the same row and was or that is refused now.
fn is_marked(same_row: bool, refused: bool, now: bool) -> bool
    ensures { result ≡ ((same_row && refused) || now) }
{
    (same_row && refused) || now
}

// The event of the log's receipt of this number, and the next number, if it is of this place.
fn event_at(log: &[Receipt], number: usize, place: usize) -> Option<(Event, usize)>
    ensures some { IfSome result (λ found. (r : Receipt) × (slice_get log.now number ≡ Some r) × (r.at ≡ place) × (r.event ≡ found.0) × (found.1 ≡ number + 1)) }
    ensures none { IfNone result ((r : Receipt) → slice_get log.now number ≡ Some r → r.at ≢ place) }
{
    let receipt = log.get(number)?;
    if receipt.at as usize != place {
        return None;
    }
    Some((receipt.event, number + 1))
}

// The row after this one, if this one calls for the event.
fn behind_call(rows: &[Step], row: usize, event: &Event) -> Option<usize>
    ensures some { IfSome result (λ next. (slice_get rows.now row ≡ Some (steps.Act event.now)) × (next ≡ row + 1)) }
    ensures none { IfNone result (slice_get rows.now row ≢ Some (steps.Act event.now)) }
{
    match rows.get(row) {
        Some(Step::Act(due)) if are_same(due, event) => Some(row + 1),
        _ => None,
    }
}

// After the pauses that stand from a row on and are over.
fn behind_pauses(rows: &[Step], from: usize, now: u32) -> usize
    ensures stands { (events : List Event) → StandsAt rows.now events now from → StandsAt rows.now events now result }
    ensures behind { IsBehindPauses rows.now now result }
    ensures same { IsBehindPauses rows.now now from → result ≡ from }
{
    let mut row = from;
    while let Some(Step::Pause(round)) = rows.get(row) {
        if now < *round {
            break;
        }
        row += 1;
    }
    row
}

// Whether the rules refuse the row's event now.
fn is_refused(xpt: &Xpt, rows: &[Step], row: usize) -> bool
    ensures { (event : Event) → slice_get rows.now row ≡ Some (steps.Act event) → result ≡ is_of_rules (refused xpt.now event) }
{
    match rows.get(row) {
        Some(Step::Act(event)) => is_of_rules(&xpt.refusal(event)),
        _ => false,
    }
}

// Whether there is a refusal, and it isn't that the history is full.
fn is_of_rules(refusal: &Option<Refusal>) -> bool
    ensures { result ≡ is_of_rules refusal.now }
{
    match refusal {
        None | Some(Refusal::HistoryFull(_)) => false,
        Some(_) => true,
    }
}
