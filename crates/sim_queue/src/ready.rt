//! The ready devices in a `Camq`, in the order in which they take turns.
ghost use Rattle.std.specs.Prelude.{◌≡◌, ℕ, ◌<◌, ◌≤◌, true, Some, IsTrue, Contains, option_map, count_by, length, slice_get, slice_index_or, slice_set};
ghost use Rattle.sim_queue.specs.Adapter.{new_row};
ghost use Rattle.sim_queue.specs.Turns.{is_ready, goes_before, entry_of, IsInTurn};

use crate::row::Row;
use cam_types::Priority;
use camq_heap::Camq;

/// Gives the device of the row at place `at` this priority among the ready ones, or takes it out of them. The
/// rows are still as before.
pub(crate) fn change_ready(
    ready: &mut Camq<u32>,
    rows: &[Row],
    at: usize,
    priority: Option<Priority>,
)
    requires in_range { at < length rows.now }
    requires in_turn { IsInTurn rows.now ready.old }
    ensures { IsInTurn (slice_set rows.now at (record (slice_index_or rows.now at (new_row 0)) { priority = priority })) ready.new }
{
    let row = rows[at];
    if row.priority == priority {
        return;
    }
    match (row.priority, priority) {
        (None, None) => {}
        (None, Some(now)) => ready.insert_reserved(now, row.generation(), row.device),
        (Some(_), None) => {
            let place = place_in_turn(ready, rows, &row);
            ready.remove_at(place);
        }
        (Some(_), Some(now)) => {
            let place = place_in_turn(ready, rows, &row);
            ready.change_priority(place, now);
        }
    }
}

/// Takes the first device out, that of the row at place `at`, and puts it in again as last sent to at this turn.
pub(crate) fn requeue_first(ready: &mut Camq<u32>, rows: &[Row], at: usize, turn: u32)
    requires in_range { at < length rows.now }
    requires in_turn { IsInTurn rows.now ready.old }
    requires ready { is_ready (slice_index_or rows.now at (new_row 0)) ≡ true }
    requires first { slice_get ready.old.entries 0 ≡ Some (entry_of (slice_index_or rows.now at (new_row 0))) }
    requires turn { turn ≤ 65535 }
    ensures { IsInTurn (slice_set rows.now at (record (slice_index_or rows.now at (new_row 0)) { turn = turn })) ready.new }
{
    let row = rows[at];
    let sent = Row { turn, ..row };
    if let Some(first) = ready.remove_first() {
        ready.insert_reserved(first.priority, sent.generation(), sent.device);
    }
}

// The place of a ready device among the ready ones: how many of them go before it. Most changes are of the first, to which a
// command was just sent, and need no count.
fn place_in_turn(ready: &Camq<u32>, rows: &[Row], row: &Row) -> usize
    requires in_turn { IsInTurn rows.now ready.now }
    requires there { Contains rows.now row.now }
    requires ready { is_ready row.now ≡ true }
    ensures { result ≡ count_by (λ r. goes_before r row.now) rows.now }
{
    if is_first(ready, row.device) {
        return 0;
    }
    count_before(rows, row)
}

// Whether the first of the ready ones is this device.
fn is_first(ready: &Camq<u32>, device: u32) -> bool
    ensures { IsTrue result → option_map (λ e. e.item) (slice_get ready.now.entries 0) ≡ Some device }
{
    match ready.first() {
        Some(first) => first.item == device,
        None => false,
    }
}

// How many ready devices go before this one. It adds the answers up, since a branch on each could not be foreseen.
fn count_before(rows: &[Row], row: &Row) -> usize
    ensures { result ≡ count_by (λ r. goes_before r row.now) rows.now }
{
    let mut before = 0;
    for other in rows {
        before += usize::from(other.goes_before(row));
    }
    before
}
