//! What held where each round of a history ended.

ghost use Rattle.std.specs.Prelude.{◌≡◌, ◌++◌, [], ◌∷◌, length, map, IfOk};
ghost use Rattle.std.specs.List.{range_with_len};
ghost use Rattle.cam_types.specs.Topology.{Topology};
ghost use Rattle.round_net.specs.Ends.{cause_at, numbers, is_frozen_at, flags_of, AreEnds};

use crate::cause::{WaitCause, cause_at};
use crate::freeze_kind::FreezeKind;
use event_rules::Event;
use std::alloc::{AllocError, Global};
use xpt_core::Queues;

/// What held where each round ended, one round after the other.
#[derive(Drop)]
pub struct RoundEnds {
    /// What held up each device.
    pub causes: Vec<WaitCause>,
    /// Which devices errors had frozen.
    pub errors: Vec<bool>,
    /// Which devices callers had frozen.
    pub callers: Vec<bool>,
    /// Which adapters callers had frozen.
    pub adapters: Vec<bool>,
}

impl RoundEnds {
    /// Those before any event.
    pub fn none(alloc: Global) -> RoundEnds
        ensures { (c : Topology) → AreEnds c [] result }
    {
        RoundEnds {
            causes: Vec::new(alloc),
            errors: Vec::new(alloc),
            callers: Vec::new(alloc),
            adapters: Vec::new(alloc),
        }
    }

    /// Which devices or adapters had a freeze of this kind.
    pub fn flags(&self, kind: FreezeKind) -> &[bool]
        ensures { result.now ≡ flags_of kind self.now }
    {
        match kind {
            FreezeKind::Error => &self.errors,
            FreezeKind::Caller => &self.callers,
            FreezeKind::Adapter => &self.adapters,
        }
    }

    /// Those after the event, which comes next in this replay.
    pub fn push(&mut self, replay: &Queues, event: &Event) -> Result<(), AllocError>
        requires { AreEnds replay.now.config replay.now.events self.old }
        ensures { IfOk result (λ _. AreEnds replay.now.config (replay.now.events ++ event.now ∷ []) self.new) }
    {
        if !event.is_tick() {
            return Ok(());
        }
        push_causes(replay, &mut self.causes)?;
        push_flags(replay, FreezeKind::Error, &mut self.errors)?;
        push_flags(replay, FreezeKind::Caller, &mut self.callers)?;
        push_flags(replay, FreezeKind::Adapter, &mut self.adapters)?;
        Ok(())
    }
}

// Puts what holds up each device at this place after the others.
fn push_causes(replay: &Queues, causes: &mut Vec<WaitCause>) -> Result<(), AllocError>
    ensures { IfOk result (λ _. causes.new.items ≡ causes.old.items ++ map (cause_at replay.now.config replay.now.events) (range_with_len 0 (length replay.now.config.devices))) }
{
    for device in 0..replay.devices().config().devices().len() as u32 {
        causes.push(cause_at(replay, device))?;
    }
    Ok(())
}

// Puts which devices or adapters are frozen at this place after the others.
fn push_flags(replay: &Queues, kind: FreezeKind, flags: &mut Vec<bool>) -> Result<(), AllocError>
    ensures { IfOk result (λ _. flags.new.items ≡ flags.old.items ++ map (is_frozen_at kind replay.now.events) (range_with_len 0 (numbers kind replay.now.config))) }
{
    for number in 0..kind.numbers(replay.devices().config()) {
        flags.push(kind.holds(replay, number))?;
    }
    Ok(())
}
