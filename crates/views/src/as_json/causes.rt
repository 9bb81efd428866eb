//! Weighted rounds by cause.

use crate::as_json::members::put_member;
use crate::compare::cost_of;
use crate::compared::Compared;
use cam_types::Config;
use serde::Serializer;
use wait_causes::{CauseCosts, WaitCause};
use wording::shift;

// All causes: first those that only a trace tells, then those that only a recording tells.
const CAUSES: [WaitCause; 10] = [
    WaitCause::Error,
    WaitCause::Caller,
    WaitCause::AdapterFrozen,
    WaitCause::DeviceStopped,
    WaitCause::AdapterStopped,
    WaitCause::LinkStopped,
    WaitCause::DeviceFull,
    WaitCause::AdapterFull,
    WaitCause::LinkFull,
    WaitCause::NotAsked,
];

/// The key of a cause.
pub(crate) fn key_of(cause: WaitCause) -> &'static str {
    match cause {
        WaitCause::Error => "error",
        WaitCause::Caller => "caller",
        WaitCause::AdapterFrozen => "adapter_frozen",
        WaitCause::DeviceStopped => "device_stopped",
        WaitCause::AdapterStopped => "adapter_stopped",
        WaitCause::LinkStopped => "link_stopped",
        WaitCause::DeviceFull => "device_full",
        WaitCause::AdapterFull => "adapter_full",
        WaitCause::LinkFull => "link_full",
        WaitCause::NotAsked => "not_asked",
    }
}

/// Writes the cost of a cause as a member of the object that is open, if the configuration lets it hold.
pub(crate) fn put_cause<S: Serializer>(
    out: &mut S,
    config: &Config,
    cause: WaitCause,
    cost: u64,
) -> Result<(), S::Error> {
    if cause.can_hold(config) {
        put_member(out, key_of(cause), &cost)?;
    }
    Ok(())
}

/// Writes an object of what each cause cost as a member of the object that is open.
pub(crate) fn put_causes<S: Serializer>(
    out: &mut S,
    input: Compared<'_>,
    costs: &CauseCosts,
) -> Result<(), S::Error> {
    out.key("causes")?;
    out.begin_map(None)?;
    for (cause, cost) in &costs.by_cause(input.explanation.kind()) {
        put_cause(out, input.net.config(), *cause, *cost)?;
    }
    out.end_map()
}

/// Writes an object of what each cause cost after a change more than before it as a member of the object that is open: 0 of those
/// that an input doesn't tell.
pub(crate) fn put_cause_shifts<S: Serializer>(
    out: &mut S,
    before: &CauseCosts,
    after: &CauseCosts,
) -> Result<(), S::Error> {
    out.key("causes")?;
    out.begin_map(Some(CAUSES.len()))?;
    for cause in &CAUSES {
        let difference = shift(cost_of(before, *cause), cost_of(after, *cause));
        put_member(out, key_of(*cause), &difference)?;
    }
    out.end_map()
}
