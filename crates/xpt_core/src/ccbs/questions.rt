//! What there is to ask of a transport's CCBs.

ghost use Rattle.std.specs.Prelude.{◌≡◌, slice_get};

use crate::ccbs::ccb::Ccb;
use crate::state::State;
use sense_class::Class;

impl State {
    ghost use Rattle.std.specs.Prelude.{◌≡◌, None, ◌&&◌, if◌then◌else◌, count_by, slice_get, IsTrue, IfSome};
    ghost use Rattle.std.specs.Option.{option_copied};
    ghost use Rattle.event_rules.specs.Laws.{last_class};
    ghost use Rattle.event_rules.specs.Counts.{ccbs, alive, is_in_flight, is_recovering, wants_requeue, wants_finish};
    ghost use Rattle.xpt_core.specs.Ccbs.{is_alive, alive_ccb};
    ghost use Rattle.xpt_core.specs.Cases.{cases};

    /// What is known of the CCB of this number, where it was submitted and hasn't ended.
    pub fn ccb(&self, ccb: u32) -> Option<&Ccb>
        ensures { option_copied result ≡ alive_ccb self.now.events ccb }
    {
        self.ccbs.rows.get(ccb)
    }

    /// Whether the CCB of this number is in flight.
    pub fn is_in_flight(&self, ccb: u32) -> bool
        ensures { result ≡ is_in_flight self.now.events ccb }
    {
        match self.ccbs.rows.get(ccb) {
            Some(row) => row.in_flight,
            None => false,
        }
    }

    /// Whether the CCB of this number waits for a decision on its error.
    pub fn is_recovering(&self, ccb: u32) -> bool
        ensures { result ≡ is_recovering self.now.events ccb }
    {
        match self.ccbs.rows.get(ccb) {
            Some(row) => row.recovering,
            None => false,
        }
    }

    /// The class of the last result of the CCB of this number, where it is alive and has one.
    pub fn class(&self, ccb: u32) -> Option<Class>
        ensures { result ≡ (if is_alive self.now.events ccb then last_class self.now.events ccb else None) }
    {
        match self.ccbs.rows.get(ccb) {
            Some(row) => row.class(),
            None => None,
        }
    }

    /// Whether the CCB of this number is alive, and its last result asks for a requeue.
    pub fn wants_requeue(&self, ccb: u32) -> bool
        ensures { result ≡ (is_alive self.now.events ccb && wants_requeue self.now.events ccb) }
    {
        match self.class(ccb) {
            Some(class) => class.asks_requeue(),
            None => false,
        }
    }

    /// Whether the CCB of this number is alive, and its last result asks for a finish.
    pub fn wants_finish(&self, ccb: u32) -> bool
        ensures { result ≡ (is_alive self.now.events ccb && wants_finish self.now.events ccb) }
    {
        match self.class(ccb) {
            Some(class) => class.asks_finish(),
            None => false,
        }
    }

    /// How many CCBs are alive.
    pub fn alive(&self) -> u32
        ensures { result ≡ alive self.now.events }
    {
        self.ccbs.rows.alive()
    }

    /// How many CCBs are in flight.
    pub fn in_flight_count(&self) -> u32
        ensures { result ≡ count_by (is_in_flight self.now.events) (ccbs self.now.events) }
    {
        self.ccbs.rows.in_flight()
    }

    /// How many CCBs wait for a decision.
    pub fn case_count(&self) -> u32
        ensures { result ≡ count_by (is_recovering self.now.events) (ccbs self.now.events) }
    {
        self.ccbs.cases.len() as u32
    }

    /// Of the CCBs that wait for a decision, the one that completed with this many before it.
    pub fn nth_case(&self, number: usize) -> Option<u32>
        ensures same { result ≡ slice_get (cases self.now.events) number }
        ensures recovering { IfSome result (λ ccb. IsTrue (is_recovering self.now.events ccb)) }
    {
        case_at(&self.ccbs.cases, number)
    }
}

fn case_at(cases: &[u32], number: usize) -> Option<u32>
    ensures { result ≡ slice_get cases.now number }
{
    cases.get(number).copied()
}
