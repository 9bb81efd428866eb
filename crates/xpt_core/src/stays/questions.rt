//! What there is to ask of a transport's stays.

ghost use Rattle.std.specs.Prelude.{◌≡◌, ◌≤◌, length, find, slice_get, sum_by, None, Some, if◌then◌else◌};
ghost use Rattle.std.specs.Option.{option_map};
ghost use Rattle.std.specs.List.{list_any};
ghost use Rattle.cam_types.specs.declared.limits.TheConstants.{MAX_STAYS};
ghost use Rattle.xpt_core.specs.StayRecord.{is_unsent, waiting_cost};

use crate::state::State;
use crate::stays::stay_record::StayRecord;
use cam_types::Config;
use event_rules::Stay;

impl State {
    ghost use Rattle.event_rules.specs.Stays.{has_queued, unsent};
    ghost use Rattle.event_rules.specs.Live.{live_cost};
    ghost use Rattle.xpt_core.specs.Latest.{latest_stay};
    ghost use Rattle.xpt_core.specs.Records.{record_of, records};

    /// All stays with their sends, in creation order.
    pub fn records(&self) -> &[StayRecord]
        ensures { result.now ≡ records self.now.events }
    {
        &self.stays.records
    }

    /// The latest stay of the CCB, if it was submitted.
    pub fn latest(&self, ccb: u32) -> Option<StayRecord>
        ensures { result ≡ option_map (record_of self.now.events) (latest_stay self.now.events ccb) }
    {
        let stay = place(&self.stays.latest, ccb)?;
        Some(self.stays.records[stay as usize])
    }

    /// Whether a stay of the CCB is queued: it has arrived and is without a send.
    pub fn has_queued(&self, ccb: u32) -> bool
        ensures { result ≡ has_queued self.now.events ccb }
    {
        match self.latest(ccb) {
            Some(record) => record.is_queued(self.queues.devices().round()),
            None => false,
        }
    }

    /// The first stay in creation order that has no send. It takes time that grows with the number of stays.
    pub fn unsent(&self) -> Option<Stay>
        ensures { result ≡ unsent self.now.events }
    {
        let record = first_unsent(&self.stays.records)?;
        Some(Stay {
            ccb: record.stay.ccb,
            attempt: record.stay.attempt,
        })
    }

    /// The cost of the live schedule, in weighted rounds: what each stay's waiting from its arrival to the round of its
    /// send cost. None if a stay has no send. It takes time that grows with the number of stays.
    pub fn live_cost(&self) -> Option<u64>
        ensures { result ≡ live_cost self.now.config self.now.events }
    {
        live_sum(self.queues.devices().config(), &self.stays.records)
    }
}

// What stands at a CCB's place.
fn place(latest: &[u32], ccb: u32) -> Option<u32>
    ensures { result ≡ slice_get latest.now ccb }
{
    latest.get(ccb as usize).copied()
}

// The first of them without a send.
fn first_unsent(records: &[StayRecord]) -> Option<StayRecord>
    ensures { result ≡ find is_unsent records.now }
{
    records.iter().copied().find(|record| record.sent.is_none())
}

// What the waiting of all stays cost, if each of them was sent.
fn live_sum(config: &Config, records: &[StayRecord]) -> Option<u64>
    requires { length records.now ≤ MAX_STAYS }
    ensures { result ≡ (if list_any is_unsent records.now then None else Some (sum_by (waiting_cost config.now) records.now)) }
{
    let mut total = 0;
    for record in records {
        let waited = record.sent?.saturating_sub(record.stay.arrival);
        total += u64::from(config.weight(record.stay.priority)) * u64::from(waited);
    }
    Some(total)
}
