//! What is counted of all devices together.

use event_rules::Event;

/// What is counted of all devices together.
#[derive(Clone, Copy)]
pub(crate) struct Counts {
    /// The round, the first of which is 1.
    pub(crate) round: u32,
    /// How many stays began.
    pub(crate) stays: u32,
    /// How many of them are without a send.
    pub(crate) waiting: u32,
    /// How many CCBs are in flight.
    pub(crate) in_flight: u32,
}

impl Counts {
    ghost use Rattle.std.specs.Prelude.{◌≡◌, []};
    ghost use Rattle.xpt_core.specs.Counted.{counts_of, counted, CanCount, AreFew};

    /// Before any event.
    #[tactic(auto, unfolding(crate::specs::Counted::counts_of, event_rules::specs::Counts::round, event_rules::specs::Stays::stays_begun, event_rules::specs::Stays::waiting, event_rules::specs::Counts::submissions))]
    pub(crate) fn none() -> Counts
        ensures { result ≡ counts_of [] }
    {
        Counts {
            round: 1,
            stays: 0,
            waiting: 0,
            in_flight: 0,
        }
    }

    /// After one event more.
    pub(crate) fn behind(self, event: &Event) -> Counts
        requires found { CanCount event.now self }
        requires few { AreFew self }
        ensures { result ≡ counted event.now self }
    {
        match *event {
            Event::Submit { .. } | Event::Requeue { .. } => Counts {
                stays: self.stays + 1,
                waiting: self.waiting + 1,
                ..self
            },
            Event::Send { .. } => Counts {
                waiting: self.waiting - 1,
                in_flight: self.in_flight + 1,
                ..self
            },
            Event::Done { .. } => Counts {
                in_flight: self.in_flight - 1,
                ..self
            },
            Event::Tick => Counts {
                round: self.round + 1,
                ..self
            },
            _ => self,
        }
    }
}
