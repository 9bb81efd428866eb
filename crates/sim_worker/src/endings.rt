//! How a run ended, by its events.

ghost use Rattle.std.specs.Prelude.{◌≡◌, ◌<◌, ◌↔◌, ℕ, List, IfSome, IfNone, IsTrue, is_some, length, true, false};
ghost use Rattle.std.specs.List.{list_all};
ghost use Rattle.xpt_lock.specs.declared.seat.SeatName.TheVariants as names;
ghost use Rattle.sim_worker.specs.Endings.{Ending, IsQuiet};
ghost use Rattle.sim_worker.specs.LiveRuns.{EachDriver, IsAllDone, IsLastRound, IsLiveEnding, rows};
ghost use Rattle.sim_worker.specs.Logs.{HasDoneAll, Rests, act, acts};
ghost use Rattle.sim_worker.specs.Runs.{is_over};
ghost use Rattle.sim_worker.specs.Walks.{AreOn, ArePlaced, AreWalked, IsOf, IsOn, IsThrough};
ghost use Rattle.sim_worker.specs.Words.{Event, round};

use crate::ending::Ending;
use crate::log::SeatLog;
use crate::run_replay::{may_tick, rows, walk_at};
use crate::walk::Walk;
use trace_file::{Script, Step};
use xpt_lock::SeatName;
use xpt_state::Xpt;

/// How the run ended that has come this far. None if it isn't over by its script.
pub(crate) fn ending(script: &Script, logs: &[SeatLog], walks: &[Walk], xpt: &Xpt) -> Option<Ending>
    requires same { length walks.now ≡ length logs.now }
    requires of { IsOf script.now xpt.now }
    requires on { AreOn script.now logs.now xpt.now.events walks.now }
    requires placed { ArePlaced logs.now xpt.now.events }
    ensures some { IfSome result (IsLiveEnding script.now xpt.now.events logs.now) }
    ensures none { IfNone result ((stated : Ending) → ¬ IsLiveEnding script.now xpt.now.events logs.now stated) }
{
    if is_all_done(script, logs, xpt) {
        return Some(Ending::Drained);
    }
    let look = xpt.look();
    let limits = script.limits();
    if look.length == limits.events() {
        return Some(Ending::HistoryFull);
    }
    if is_last_round(script, logs, walks, xpt) {
        return Some(Ending::RoundsFull);
    }
    None
}

// Whether the rounds are as many as may be, and one more would open now, with room for its event.
fn is_last_round(script: &Script, logs: &[SeatLog], walks: &[Walk], xpt: &Xpt) -> bool
    requires same { length walks.now ≡ length logs.now }
    requires of { IsOf script.now xpt.now }
    requires on { AreOn script.now logs.now xpt.now.events walks.now }
    ensures yes { result ≡ true → IsLastRound script.now xpt.now.events logs.now }
    ensures no { result ≡ false → ¬ IsLastRound script.now xpt.now.events logs.now }
{
    // They are legal by the script's limits.
    let _events = xpt.events();
    if !has_room(script, xpt) {
        return false;
    }
    if xpt.round() != script.limits().rounds() {
        return false;
    }
    if !may_tick(xpt) {
        return false;
    }
    are_resting(script, logs, walks, xpt)
}

// Whether fewer events happened than may.
fn has_room(script: &Script, xpt: &Xpt) -> bool
    ensures { IsTrue result ↔ (length xpt.now.events < script.now.limits.events) }
{
    xpt.look().length < script.limits().events()
}

// Whether each driver has done its rows, and nothing is left.
fn is_all_done(script: &Script, logs: &[SeatLog], xpt: &Xpt) -> bool
    ensures done { result ≡ true → AreWalked script.now logs.now xpt.now.events → ArePlaced logs.now xpt.now.events → IsAllDone script.now xpt.now.events logs.now }
    ensures left { result ≡ false → IsAllDone script.now xpt.now.events logs.now → ⊥ }
{
    is_quiet(xpt) && are_done(script, logs, xpt.round())
}

// Whether no stay waits and no CCB is in flight or waits for a decision.
fn is_quiet(xpt: &Xpt) -> bool
    ensures quiet { result ≡ true → IsQuiet xpt.now.events }
    ensures left { result ≡ false → IsQuiet xpt.now.events → ⊥ }
{
    let look = xpt.look();
    let left = look.waiting as u64 + look.in_flight as u64 + look.cases as u64;
    left == 0
}

// Whether each driver has done all of its rows by this round.
fn are_done(script: &Script, logs: &[SeatLog], now: u32) -> bool
    ensures done { result ≡ true → (events : List Event) → now ≡ round events → AreWalked script.now logs.now events → ArePlaced logs.now events → EachDriver (λ d h. HasDoneAll (rows script.now d) h.receipts events) logs.now }
    ensures left { result ≡ false → (events : List Event) → now ≡ round events → EachDriver (λ d h. HasDoneAll (rows script.now d) h.receipts events) logs.now → ⊥ }
{
    for i in 0..logs.len() {
        if !is_done(script, &logs[i], now) {
            return false;
        }
    }
    true
}

// Whether the log's actor, if it is a driver, has made as many calls as its rows ask for, and each pause is over by this round.
fn is_done(script: &Script, log: &SeatLog, now: u32) -> bool
    ensures done { result ≡ true → (d : ℕ) → log.now.name ≡ names.Driver d → IsThrough (rows script.now d) (length log.now.receipts) now }
    ensures left { result ≡ false → (d : ℕ) × (log.now.name ≡ names.Driver d) × (IsThrough (rows script.now d) (length log.now.receipts) now → ⊥) }
{
    match log.name {
        SeatName::Driver(driver) => is_through(rows(script, driver), log.receipts.len(), now),
        _ => true,
    }
}

// Whether the rows ask for that many calls, and each pause is over by this round.
fn is_through(rows: &[Step], calls: usize, now: u32) -> bool
    ensures done { result ≡ true → IsThrough rows.now calls now }
    ensures left { result ≡ false → IsThrough rows.now calls now → ⊥ }
{
    calls == call_count(rows) && are_over(rows, now)
}

// How many calls the rows ask for.
fn call_count(rows: &[Step]) -> usize
    ensures { result ≡ length (acts rows.now) }
{
    let mut count = 0;
    for row in rows {
        if !is_call(row) {
            continue;
        }
        count += 1;
    }
    count
}

fn is_call(row: &Step) -> bool
    ensures { result ≡ is_some (act row.now) }
{
    match row {
        Step::Act(_) => true,
        Step::Pause(_) => false,
    }
}

// Whether each pause is over by this round.
fn are_over(rows: &[Step], now: u32) -> bool
    ensures { result ≡ list_all (is_over now) rows.now }
{
    for row in rows {
        if !is_over(row, now) {
            return false;
        }
    }
    true
}

// Whether the row's pause, if it is one, is over by this round.
fn is_over(row: &Step, now: u32) -> bool
    ensures { result ≡ is_over now row.now }
{
    match row {
        Step::Pause(round) => *round <= now,
        Step::Act(_) => true,
    }
}

fn are_resting(script: &Script, logs: &[SeatLog], walks: &[Walk], xpt: &Xpt) -> bool
    requires same { length walks.now ≡ length logs.now }
    ensures yes { result ≡ true → IsOf script.now xpt.now → AreOn script.now logs.now xpt.now.events walks.now → EachDriver (λ d h. Rests script.now (rows script.now d) h.receipts xpt.now.events) logs.now }
    ensures no { result ≡ false → IsOf script.now xpt.now → AreOn script.now logs.now xpt.now.events walks.now → ¬ EachDriver (λ d h. Rests script.now (rows script.now d) h.receipts xpt.now.events) logs.now }
{
    for i in 0..logs.len() {
        if !is_resting(script, &logs[i], walk_at(walks, i), xpt) {
            return false;
        }
    }
    true
}

// Whether the log's actor, if it is a driver, rests in this round.
fn is_resting(script: &Script, log: &SeatLog, walk: Walk, xpt: &Xpt) -> bool
    ensures yes { result ≡ true → (d : ℕ) → log.now.name ≡ names.Driver d → IsOf script.now xpt.now → IsOn script.now (rows script.now d) log.now.receipts xpt.now.events walk → Rests script.now (rows script.now d) log.now.receipts xpt.now.events }
    ensures no { result ≡ false → (d : ℕ) × (log.now.name ≡ names.Driver d) × (IsOf script.now xpt.now → IsOn script.now (rows script.now d) log.now.receipts xpt.now.events walk → ¬ Rests script.now (rows script.now d) log.now.receipts xpt.now.events) }
{
    match log.name {
        SeatName::Driver(driver) => {
            let rows = rows(script, driver);
            walk.settled(xpt, rows).rests(xpt, rows)
        }
        _ => true,
    }
}
