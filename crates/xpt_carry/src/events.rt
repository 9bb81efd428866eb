//! The events that a fresh transport takes.

ghost use Rattle.std.specs.Prelude.{◌≡◌, ◌<◌, [], ◌∷◌, ◌++◌, length, filter_map, option_to_list, IfOk, OnOk};
ghost use Rattle.cam_types.specs.Questions.{device_openings, devices};
ghost use Rattle.event_rules.specs.declared.event.Event.TheVariants.{Tick};
ghost use Rattle.xpt_core.specs.Device.{next_openings};
ghost use Rattle.xpt_core.specs.Known.{adapters};
ghost use Rattle.xpt_carry.specs.Carry.{adjust_of, device_freeze, adapter_freeze, carried, carrying};

use crate::submits::add_submits;
use cam_types::Config;
use event_rules::{Event, Passage};
use std::alloc::{AllocError, Global};
use xpt_core::State;

/// The events that a fresh transport takes, where these are the stays that are carried over, in order.
pub(crate) fn events_of(
    alloc: Global,
    state: &State,
    stays: &[Passage],
) -> Result<Vec<Event>, AllocError>
    requires { stays.now ≡ carried state.now.events }
    ensures { IfOk result (λ events. events.items ≡ carrying state.now.config state.now.events) }
{
    let _events = state.events();
    let mut events = Vec::new(alloc);
    add_openings(&mut events, state)?;
    add_device_freezes(&mut events, state)?;
    add_adapter_freezes(&mut events, state)?;
    add_submits(&mut events, state, stays)?;
    Ok(events)
}

/// Adds the event, if there is one.
pub(crate) fn add(events: &mut Vec<Event>, event: Option<Event>) -> Result<(), AllocError>
    ensures { OnOk result (events.new.items ≡ events.old.items ++ option_to_list event) }
{
    if let Some(event) = event {
        events.push(event)?;
    }
    Ok(())
}

// Adds what gives each device its openings, and a tick, after which they hold.
fn add_openings(events: &mut Vec<Event>, state: &State) -> Result<(), AllocError>
    ensures { OnOk result (events.new.items ≡ events.old.items ++ filter_map (adjust_of state.now.config state.now.events) (devices state.now.config) ++ Tick ∷ []) }
{
    add_adjusts(events, state)?;
    events.push(Event::Tick)?;
    Ok(())
}

fn add_adjusts(events: &mut Vec<Event>, state: &State) -> Result<(), AllocError>
    ensures { OnOk result (events.new.items ≡ events.old.items ++ filter_map (adjust_of state.now.config state.now.events) (devices state.now.config)) }
{
    for device in 0..device_count(state.config()) {
        add(events, adjust_of(state, device))?;
    }
    Ok(())
}

fn add_device_freezes(events: &mut Vec<Event>, state: &State) -> Result<(), AllocError>
    ensures { OnOk result (events.new.items ≡ events.old.items ++ filter_map (device_freeze state.now.events) (devices state.now.config)) }
{
    for device in 0..device_count(state.config()) {
        add(events, device_freeze(state, device))?;
    }
    Ok(())
}

fn add_adapter_freezes(events: &mut Vec<Event>, state: &State) -> Result<(), AllocError>
    ensures { OnOk result (events.new.items ≡ events.old.items ++ filter_map (adapter_freeze state.now.events) (adapters state.now.config)) }
{
    for adapter in 0..adapter_count(state.config()) {
        add(events, adapter_freeze(state, adapter))?;
    }
    Ok(())
}

fn device_count(config: &Config) -> u32
    ensures { result ≡ length config.now.devices }
{
    config.devices().len() as u32
}

fn adapter_count(config: &Config) -> u32
    ensures { result ≡ length config.now.adapters }
{
    config.adapters().len() as u32
}

// What gives the device its openings, if they aren't those of the configuration.
#[tactic(auto, unfolding(crate::specs::Carry::adjust_of))]
fn adjust_of(state: &State, device: u32) -> Option<Event>
    requires { device < length state.now.config.devices }
    ensures { result ≡ adjust_of state.now.config state.now.events device }
{
    let openings = next_openings(state, device);
    if openings == configured_openings(state.config(), device) {
        None
    } else {
        Some(Event::Adjust { device, openings })
    }
}

// The device's openings of the next round.
#[tactic(auto, unfolding(xpt_core::specs::Device::device_state))]
fn next_openings(state: &State, device: u32) -> u32
    requires { device < length state.now.config.devices }
    ensures { result ≡ next_openings state.now.config state.now.events device }
{
    state.devices().queue(device).next_openings()
}

fn configured_openings(config: &Config, device: u32) -> u32
    requires { device < length config.now.devices }
    ensures { result ≡ device_openings config.now device }
{
    match config.devices().get(device as usize) {
        Some(device) => device.openings,
        None => 0,
    }
}

// What makes the callers' freezes of the device, if there are some.
#[tactic(auto, unfolding(crate::specs::Carry::device_freeze))]
fn device_freeze(state: &State, device: u32) -> Option<Event>
    requires { device < length state.now.config.devices }
    ensures { result ≡ device_freeze state.now.events device }
{
    let count = state.devices().caller_count(device);
    if count == 0 {
        None
    } else {
        Some(Event::FreezeDev { device, count })
    }
}

// The same of the adapter.
#[tactic(auto, unfolding(crate::specs::Carry::adapter_freeze))]
fn adapter_freeze(state: &State, sim: u32) -> Option<Event>
    requires { sim < length state.now.config.adapters }
    ensures { result ≡ adapter_freeze state.now.events sim }
{
    let count = state.queues().callers(sim);
    if count == 0 {
        None
    } else {
        Some(Event::FreezeSim { sim, count })
    }
}
