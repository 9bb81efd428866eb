//! Where the stays of a history or a recording waited, and why.

use crate::cause_runs::CauseRuns;
use crate::counting::count_waits;
use crate::explained_stay::ExplainedStay;
use crate::first_waits::{FirstWaits, first_waits};
use crate::freeze::Freeze;
use crate::freeze_list::freezes_of;
use crate::kind::InputKind;
use crate::known::Known;
use crate::limit::{LatencyLimit, LimitCounts, limit_counts};
use crate::listing::list_stays;
use crate::origin::Origin;
use crate::part::{Part, part_of};
use crate::recorded::RecordedRounds;
use crate::requests::list_requests;
use crate::sends::sends_of;
use crate::table::{Grouping, Row, table_of};
use crate::wait::{Wait, waits_in};
use cam_event::History;
use cam_types::Config;
use recording_file::{Name, Recording, Span};
use round_net::{Net, RoundTable, Schedule, WaitCause};
use std::alloc::{AllocError, Global};
use std::marker::Model;

/// Where the stays of a history or a recording waited, and why, beside other schedules.
pub struct Explanation {
    origin: Origin,
    runs: CauseRuns,
    stays: Vec<ExplainedStay>,
}

// By hand, so that to its owners an explanation that ends is one call and not each of its fields.
impl Drop for Explanation {
    fn drop(self) {
        let Explanation {
            origin: _,
            runs: _,
            stays: _,
        } = self;
    }
}

impl Model for Explanation {
    ghost use Rattle.std.specs.Prelude.{map};
    ghost use Rattle.wait_causes.specs.declared.explained_stay.ExplainedStay.{ExplainedStay as Listed};
    ghost use Rattle.wait_causes.specs.Explained.{Explained};
    ghost use Rattle.wait_causes.specs.FirstWaits.{AreRunsOf};
    ghost use Rattle.wait_causes.specs.Sound.{IsExplained};
    ghost use Rattle.wait_causes.specs.Stays.{paces};

    ghost Value = { Explained };

    ghost view = { λ x. record { origin = x.origin; pace = paces x.stays.items; best = map (λ (s : Listed). s.best) x.stays.items } };

    ghost invariant = { λ x. IsExplained x.origin (paces x.stays.items) (map (λ (s : Listed). s.best) x.stays.items) x.stays.items × AreRunsOf x.origin x.runs };
}

impl Explanation {
    ghost use Rattle.std.specs.Prelude.{◌≡◌, ◌+◌, ◌<◌, ◌≤◌, [], length, slice_get, Some, IfOk};
    ghost use Rattle.round_net.specs.Nets.{net_of};
    ghost use Rattle.round_net.specs.RecordedNets.{net_of_recording};
    ghost use Rattle.round_net.specs.Rows.{instance_of_rows};
    ghost use Rattle.wait_causes.specs.Origins.{IsLiveCost, instance_in, cause_of, config_in, names_in, unit_in, known_of};
    ghost use Rattle.wait_causes.specs.Counting.{AreWithin};
    ghost use Rattle.wait_causes.specs.Words.{MAX_NET_STAYS};
    ghost use Rattle.wait_causes.specs.Stays.{explained};
    ghost use Rattle.wait_causes.specs.Parts.{part_of, all_costs, full_costs, all_behind_costs, kind_of};
    ghost use Rattle.wait_causes.specs.Tables.{table_of};
    ghost use Rattle.wait_causes.specs.Freezes.{freezes_in};
    ghost use Rattle.wait_causes.specs.Limits.{limit_counts};
    ghost use Rattle.wait_causes.specs.Waits.{AreWaitsOf};
    ghost use Rattle.wait_causes.specs.FirstWaits.{AreFirstWaitsOf};
    ghost use Rattle.wait_causes.specs.declared.explained_stay.ExplainedStay.{ExplainedStay as Listed};

    /// Explains the history of this table of rounds beside a best schedule of its net.
    pub fn of(
        alloc: Global,
        history: &History,
        table: RoundTable,
        net: &Net,
        best: &Schedule,
    ) -> Result<Explanation, AllocError>
        requires table { table ≡ history.now }
        requires net { net.now ≡ net_of history.now.config history.now.events }
        requires stays { length best.now ≡ (instance_of_rows net.now).stays }
        ensures { IfOk result (λ x. x ≡ record { origin = Origin.Trace history.now; pace = []; best = best.now }) }
    {
        let _events = history.events();
        let _rounds = net.rounds();
        let sends = sends_of(alloc, net)?;
        let listed = list_stays(alloc, &table, history.stays(), best)?;
        let origin = Origin::Trace(table);
        let stays = count_waits(alloc, &origin, net, &sends, &listed)?;
        let runs = CauseRuns::of(alloc, &origin, net.devices(), net.rounds())?;
        Ok(Explanation {
            origin,
            runs,
            stays,
        })
    }

    /// Explains the recording of this net beside two schedules: a best one of the net at the recorded pace, and a best one of the
    /// net.
    pub fn of_recording(
        alloc: Global,
        recording: Recording,
        net: &Net,
        pace: &Schedule,
        best: &Schedule,
    ) -> Result<Explanation, AllocError>
        requires net { net.now ≡ net_of_recording recording }
        requires pace { length pace.now ≡ (instance_of_rows net.now).stays }
        requires stays { length best.now ≡ (instance_of_rows net.now).stays }
        ensures { IfOk result (λ x. x ≡ record { origin = Origin.Recording recording; pace = pace.now; best = best.now }) }
    {
        let _rounds = net.rounds();
        let sends = sends_of(alloc, net)?;
        let listed = list_requests(alloc, &recording, pace, best)?;
        let rounds = RecordedRounds::of(alloc, recording, net, &sends)?;
        let origin = Origin::Recording(rounds);
        let stays = count_waits(alloc, &origin, net, &sends, &listed)?;
        let runs = CauseRuns::of(alloc, &origin, net.devices(), net.rounds())?;
        Ok(Explanation {
            origin,
            runs,
            stays,
        })
    }

    /// What kind of input is explained.
    pub fn kind(&self) -> InputKind
        ensures { result ≡ kind_of self.now.origin }
    {
        match self.origin {
            Origin::Trace(_) => InputKind::Trace,
            Origin::Recording(_) => InputKind::Recording,
        }
    }

    /// What people call the drivers, devices, adapters and links, by rising kind and number; a trace has no names.
    pub fn names(&self) -> &[Name]
        ensures { result.now ≡ names_in self.now.origin }
    {
        self.origin.names()
    }

    /// How long a round is; none of a trace, or of a recording that doesn't say it.
    pub fn unit(&self) -> Option<Span>
        ensures { result ≡ unit_in self.now.origin }
    {
        self.origin.unit()
    }

    /// What the input says of its stays beside where they were sent.
    pub fn known(&self) -> Known
        ensures { result ≡ known_of self.now.origin }
    {
        self.origin.known()
    }

    /// The adapters, devices, links and weights.
    pub fn config(&self) -> &Config
        ensures { result.now ≡ config_in self.now.origin }
    {
        self.origin.config()
    }

    /// How many devices there are.
    pub fn devices(&self) -> u32
        ensures { result ≡ (instance_in self.now.origin).devices }
    {
        self.runs.count
    }

    /// How many rounds there are.
    pub fn rounds(&self) -> u32
        ensures { result ≡ (instance_in self.now.origin).rounds }
    {
        self.runs.rounds
    }

    /// Why the stays of the device waited in the round, the first of which is 1.
    pub fn cause(&self, device: u32, round: u32) -> WaitCause
        requires device { device < (instance_in self.now.origin).devices }
        requires first { 1 ≤ round }
        requires last { round ≤ (instance_in self.now.origin).rounds }
        ensures { result ≡ cause_of self.now.origin device round }
    {
        self.origin.cause(device, round)
    }

    /// All stays, in creation order; of a recording the requests, in the order of its text.
    pub fn stays(&self) -> &[ExplainedStay]
        ensures stays { result.now ≡ explained self.now.origin self.now.pace self.now.best }
        ensures within { AreWithin (instance_in self.now.origin) result.now }
        ensures few { length result.now ≤ MAX_NET_STAYS }
    {
        &self.stays
    }

    /// The waits of the stay at this place of `stays`, in order; none if no stay is there.
    pub fn waits(&self, alloc: Global, place: usize) -> Result<Vec<Wait>, AllocError>
        ensures waits { (s : Listed) → slice_get (explained self.now.origin self.now.pace self.now.best) place ≡ Some s → IfOk result (λ waits. AreWaitsOf self.now.origin s waits.items) }
        ensures none { length (explained self.now.origin self.now.pace self.now.best) ≤ place → IfOk result (λ waits. waits.items ≡ []) }
    {
        let Some(kept) = self.stays.get(place) else {
            return Ok(Vec::new(alloc));
        };
        waits_in(alloc, &self.origin, kept.device, kept.arrival, kept.live)
    }

    /// The first waits of the stay at this place of `stays`, at most so many; none if no stay is there. These take as long to
    /// find as there are of them, however long the stay waited.
    pub fn first_waits(
        &self,
        alloc: Global,
        place: usize,
        most: usize,
    ) -> Result<FirstWaits, AllocError>
        ensures waits { (s : Listed) → slice_get (explained self.now.origin self.now.pace self.now.best) place ≡ Some s → IfOk result (AreFirstWaitsOf self.now.origin s most) }
        ensures none { length (explained self.now.origin self.now.pace self.now.best) ≤ place → IfOk result (λ w. w.listed.items ≡ []) }
    {
        let Some(kept) = self.stays.get(place) else {
            return Ok(FirstWaits::none(alloc));
        };
        first_waits(
            alloc,
            &self.origin,
            &self.runs.devices[kept.device as usize],
            kept.device,
            kept.arrival,
            kept.live,
            most,
        )
    }

    /// What all stays waited, and what that cost: the costs by cause add up to `live`, which is the cost of the live
    /// schedule. What it cost to wait behind others adds up to what full devices, adapters and links cost.
    pub fn whole(&self, alloc: Global) -> Result<Part, AllocError>
        ensures part { IfOk result (λ part. part ≡ part_of (known_of self.now.origin) (explained self.now.origin self.now.pace self.now.best)) }
        ensures add_up { IfOk result (λ part. all_costs part.costs ≡ part.live) }
        ensures behind { IfOk result (λ part. all_behind_costs part.behind ≡ full_costs part.costs) }
        ensures live { IfOk result (λ part. IsLiveCost self.now.origin part.live) }
    {
        part_of(alloc, self.origin.known(), &self.stays)
    }

    /// A row for each adapter, device, driver or run level that has a stay, by number.
    pub fn table(&self, alloc: Global, by: Grouping) -> Result<Vec<Row>, AllocError>
        ensures { IfOk result (λ rows. rows.items ≡ table_of (known_of self.now.origin) by (explained self.now.origin self.now.pace self.now.best)) }
    {
        table_of(alloc, self.origin.known(), &self.stays, by)
    }

    /// How a limit of latency was kept: how many took longer, and how many of these would have been in time by order alone,
    /// with idle slots used too, or not even so. In another schedule the service of a stay is as long as it was.
    pub fn limit_counts(
        &self,
        alloc: Global,
        limit: &LatencyLimit,
    ) -> Result<LimitCounts, AllocError>
        requires { limit.now.thousandths ≤ 1000 }
        ensures counts { IfOk result (λ counts. counts ≡ limit_counts limit.now (explained self.now.origin self.now.pace self.now.best)) }
        ensures add_up { IfOk result (λ counts. counts.over ≡ counts.by_order + counts.by_slots + counts.device) }
    {
        limit_counts(alloc, &self.stays, limit)
    }

    /// The freezes of a history: those by errors, then those by callers, then those of adapters, each by number and then by
    /// first round. A recording has none: it doesn't say who stopped what.
    pub fn freezes(&self, alloc: Global) -> Result<Vec<Freeze>, AllocError>
        ensures { IfOk result (λ rows. rows.items ≡ freezes_in self.now.origin (explained self.now.origin self.now.pace self.now.best)) }
    {
        match &self.origin {
            Origin::Trace(table) => freezes_of(alloc, table, &self.stays),
            Origin::Recording(_) => Ok(Vec::new(alloc)),
        }
    }
}
