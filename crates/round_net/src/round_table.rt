//! What each round of a history let each row do, and what held where it ended.

use crate::cap_rows::caps;
use crate::cause::WaitCause;
use crate::freeze_kind::FreezeKind;
use crate::resource_state::resource_count;
use crate::round_ends::RoundEnds;
use crate::walk::walk;
use cam_event::History;
use event_rules::Rules;
use std::alloc::{AllocError, Global};
use std::marker::Model;
use xpt_core::Queues;

/// What was found in one pass over the places of a history: in each round and row whether a freeze held, how many commands
/// it takes, and how many sends used an opening of it; and what held where each round ended.
///
/// A net's caps, the causes of waiting and the freezes are read from it. Devices and adapters are numbered from 0, rounds
/// from 1.
pub struct RoundTable {
    end: Queues,
    frozen: Vec<bool>,
    openings: Vec<u32>,
    sends: Vec<u32>,
    ends: RoundEnds,
}

// By hand, so that to its owners a table that ends is one call and not each of its fields.
impl Drop for RoundTable {
    fn drop(self) {
        let RoundTable {
            end: _,
            frozen: _,
            openings: _,
            sends: _,
            ends: _,
        } = self;
    }
}

impl Model for RoundTable {
    ghost use Rattle.event_rules.specs.Past.{Past};
    ghost use Rattle.round_net.specs.RoundTables.{IsRoundTable};

    ghost Value = { Past };

    ghost view = { λ t. record { config = t.end.config; events = t.end.events } };

    ghost invariant = { λ t. IsRoundTable t.end t.frozen.items t.openings.items t.sends.items t.ends };
}

impl RoundTable {
    ghost use Rattle.std.specs.Prelude.{◌≡◌, IfOk};
    ghost use Rattle.event_rules.specs.Counts.{round};
    ghost use Rattle.event_rules.specs.Legal.{history_rules};
    ghost use Rattle.round_net.specs.Caps.{resource_count, cap};
    ghost use Rattle.round_net.specs.Ends.{cause_in, flag_in};
    ghost use Rattle.round_net.specs.Nets.{table};

    /// That of the history.
    pub fn of(alloc: Global, history: &History) -> Result<RoundTable, AllocError>
        ensures { IfOk result (λ t. t ≡ history.now) }
    {
        let config = history.config();
        let rounds = history.round();
        let cells = resource_count(config) as usize * rounds as usize;
        let mut frozen = vec![in alloc; false; cells]?;
        let mut openings = vec![in alloc; 0; cells]?;
        let mut sends = vec![in alloc; 0; cells]?;
        let mut ends = RoundEnds::none(alloc);
        let end = walk(
            Queues::open(alloc, config.copy(alloc)?, Rules::of_history())?,
            history.events(),
            rounds,
            &mut frozen,
            &mut openings,
            &mut sends,
            &mut ends,
        )?;
        Ok(RoundTable {
            end,
            frozen,
            openings,
            sends,
            ends,
        })
    }

    /// The queues after all events.
    pub fn end(&self) -> &Queues
        ensures { result.now ≡ record { config = self.now.config; rules = history_rules; events = self.now.events } }
    {
        &self.end
    }

    /// What held up the device where the round ended; `NotAsked` for a round that didn't end.
    #[tactic(auto, using(crate::proofs::EndLemmas::place_fits))]
    pub fn cause(&self, device: u32, round: u32) -> WaitCause
        ensures { result ≡ cause_in self.now.config self.now.events device round }
    {
        let devices = self.end.devices().config().devices().len();
        let place = round.saturating_sub(1) as usize * devices + device as usize;
        self.ends
            .causes
            .get(place)
            .copied()
            .unwrap_or(WaitCause::NotAsked)
    }

    /// Whether the device or the adapter had a freeze of this kind when the round ended; not in a round that didn't end.
    #[tactic(auto, using(crate::proofs::EndLemmas::place_fits))]
    pub fn is_frozen(&self, kind: FreezeKind, number: u32, round: u32) -> bool
        ensures { result ≡ flag_in kind self.now.config self.now.events number round }
    {
        let numbers = kind.numbers(self.end.devices().config());
        let place = round.saturating_sub(1) as usize * numbers as usize + number as usize;
        self.ends.flags(kind).get(place).copied().unwrap_or(false)
    }

    // How many commands each row takes in each round.
    pub(crate) fn caps(&self, alloc: Global) -> Result<Vec<u32>, AllocError>
        ensures { IfOk result (λ caps. caps.items ≡ table (resource_count self.now.config) (round self.now.events) (cap self.now.config self.now.events)) }
    {
        caps(alloc, &self.frozen, &self.sends, &self.openings)
    }
}
