//! The text of a report: its first seven lines, its stays and its prices.

ghost use Rattle.std.specs.Prelude.{◌≡◌, ◌+◌, ◌-◌, ◌*◌, ◌<◌, ◌≤◌, ◌++◌, length, slice_index, codes, OnOk, IfOk};
ghost use Rattle.report_text.specs.Words.{address_of, spelled, rows, instance_of_rows, live_of_rows, pricing_of_rows, IsPricingFor, IsSound};
ghost use Rattle.report_text.specs.Report.{summary_text, texts_below, stay_start, stay_line, shared_text, row_text, row_line, price_lines, plan_text};

use crate::text::{push_line, push_name, push_number};
use cam_path::CamPath;
use cam_types::Device;
use round_net::{Net, Prices, Schedule};
use std::alloc::AllocError;

/// Puts the report's first seven lines after the text: the counts of the net, and in weighted rounds what its live schedule
/// cost, what a best one costs and by how much the live one is above it. It fails only if there is no memory.
#[tactic(auto, unfolding(crate::specs::Report::summary_text))]
pub fn push_summary(
    text: &mut Vec<u8>,
    net: &Net,
    live: u64,
    best: u64,
    excess: u64,
) -> Result<(), AllocError>
    ensures text { OnOk result (text.new.items ≡ text.old.items ++ summary_text net.now live best excess) }
    ensures short { OnOk result (length text.new.items ≤ length text.old.items + 350) }
{
    push_line(text, b"camaudit", 1)?;
    push_line(text, b"commands", u64::from(net.commands()))?;
    push_line(text, b"stays", u64::from(net.stays()))?;
    push_line(text, b"rounds", u64::from(net.rounds()))?;
    push_line(text, b"live", live)?;
    push_line(text, b"best", best)?;
    push_line(text, b"excess", excess)?;
    Ok(())
}

/// Puts the rest of the report after the text: the stays, the prices that aren't 0, and the last line. No line has more than
/// 64 bytes. It fails only if there is no memory.
#[tactic(auto, unfolding(crate::specs::Report::plan_text))]
pub fn push_plan(
    text: &mut Vec<u8>,
    net: &Net,
    schedule: &Schedule,
    prices: &Prices,
) -> Result<(), AllocError>
    requires schedule { length schedule.now ≡ (instance_of_rows net.now).stays }
    requires prices { IsPricingFor (instance_of_rows net.now) prices.now }
    ensures text { OnOk result (text.new.items ≡ text.old.items ++ plan_text net.now (slice_index schedule.now) (pricing_of_rows prices.now)) }
    ensures short { OnOk result (length text.new.items ≤ length text.old.items + (64 * (instance_of_rows net.now).stays + 64 * (instance_of_rows net.now).rounds * rows (instance_of_rows net.now) + 4)) }
{
    push_stays(text, net, schedule)?;
    push_prices(text, net, prices)?;
    text.extend_from_slice(b"end\n")
}

#[tactic(auto, using(crate::proofs::ReportLemmas::no_text, crate::proofs::ReportLemmas::next_text))]
fn push_stays(text: &mut Vec<u8>, net: &Net, schedule: &Schedule) -> Result<(), AllocError>
    requires { length schedule.now ≡ (instance_of_rows net.now).stays }
    ensures text { OnOk result (text.new.items ≡ text.old.items ++ texts_below (instance_of_rows net.now).stays (stay_line net.now (slice_index schedule.now))) }
    ensures short { OnOk result (length text.new.items ≤ length text.old.items + 64 * (instance_of_rows net.now).stays) }
{
    for stay in 0..net.stays() {
        push_stay(text, net, schedule, stay)?;
    }
    Ok(())
}

#[tactic(auto, unfolding(crate::specs::Report::stay_line))]
fn push_stay(
    text: &mut Vec<u8>,
    net: &Net,
    schedule: &Schedule,
    stay: u32,
) -> Result<(), AllocError>
    requires schedule { length schedule.now ≡ (instance_of_rows net.now).stays }
    requires stay { stay < (instance_of_rows net.now).stays }
    requires sound { IsSound (instance_of_rows net.now) (live_of_rows net.now) }
    ensures text { OnOk result (text.new.items ≡ text.old.items ++ stay_line net.now (slice_index schedule.now) stay) }
    ensures short { OnOk result (length text.new.items ≤ length text.old.items + 64) }
{
    push_stay_start(text, net, stay)?;
    push_number(text, u64::from(schedule.round(stay)))?;
    push_number(text, u64::from(net.weight(stay)))?;
    text.extend_from_slice(b"\n")?;
    Ok(())
}

// Puts a stay's line up to the round that is best for it after the text.
#[tactic(auto, unfolding(crate::specs::Report::name_text))]
pub(crate) fn push_stay_start(text: &mut Vec<u8>, net: &Net, stay: u32) -> Result<(), AllocError>
    requires stay { stay < (instance_of_rows net.now).stays }
    requires sound { IsSound (instance_of_rows net.now) (live_of_rows net.now) }
    ensures text { OnOk result (text.new.items ≡ text.old.items ++ stay_start net.now stay) }
    ensures short { OnOk result (length text.new.items ≤ length text.old.items + 38) }
{
    text.extend_from_slice(b"stay")?;
    push_name(text, net.stay(stay))?;
    push_number(text, u64::from(net.arrival(stay)))?;
    push_number(text, u64::from(net.live(stay)))?;
    Ok(())
}

// Puts the prices after the text, by row and round.
#[tactic(auto, using(crate::proofs::ReportLemmas::no_text, crate::proofs::ReportLemmas::next_text), unfolding(crate::specs::Report::price_lines))]
fn push_prices(text: &mut Vec<u8>, net: &Net, prices: &Prices) -> Result<(), AllocError>
    requires { IsPricingFor (instance_of_rows net.now) prices.now }
    ensures text { OnOk result (text.new.items ≡ text.old.items ++ price_lines net.now (pricing_of_rows prices.now)) }
    ensures short { OnOk result (length text.new.items ≤ length text.old.items + 64 * (instance_of_rows net.now).rounds * rows (instance_of_rows net.now)) }
{
    let devices = net.config().devices();
    for row in 0..net.rows() {
        push_rounds(text, devices, net, prices, row)?;
    }
    Ok(())
}

// Puts the prices of a row after the text.
#[tactic(auto, using(crate::proofs::ReportLemmas::no_text, crate::proofs::ReportLemmas::next_text))]
fn push_rounds(
    text: &mut Vec<u8>,
    devices: &[Device],
    net: &Net,
    prices: &Prices,
    row: u32,
) -> Result<(), AllocError>
    requires prices { IsPricingFor (instance_of_rows net.now) prices.now }
    requires row { row < rows (instance_of_rows net.now) }
    ensures text { OnOk result (text.new.items ≡ text.old.items ++ texts_below (instance_of_rows net.now).rounds (λ r. row_line devices.now (instance_of_rows net.now).adapters (pricing_of_rows prices.now) row (r + 1))) }
    ensures short { OnOk result (length text.new.items ≤ length text.old.items + 64 * (instance_of_rows net.now).rounds) }
{
    for round in 0..net.rounds() {
        push_price(text, devices, net.adapters(), prices, row, round + 1)?;
    }
    Ok(())
}

// Puts the line of a price after the text, if it isn't 0.
#[tactic(auto, unfolding(crate::specs::Report::row_line))]
fn push_price(
    text: &mut Vec<u8>,
    devices: &[Device],
    adapters: u32,
    prices: &Prices,
    row: u32,
    round: u32,
) -> Result<(), AllocError>
    requires row { row < prices.now.devices + prices.now.adapters + prices.now.links }
    requires first { 1 ≤ round }
    requires last { round ≤ prices.now.rounds }
    ensures text { OnOk result (text.new.items ≡ text.old.items ++ row_line devices.now adapters (pricing_of_rows prices.now) row round) }
    ensures short { OnOk result (length text.new.items ≤ length text.old.items + 64) }
{
    let price = prices.price(row, round);
    if price == 0 {
        return Ok(());
    }
    push_row(text, devices, adapters, row)?;
    push_number(text, u64::from(round))?;
    push_number(text, price)?;
    text.extend_from_slice(b"\n")?;
    Ok(())
}

// Puts whose opening a row's is after the text: a device's by its path, and after all devices an adapter's or a link's.
#[tactic(auto, unfolding(crate::specs::Report::row_text))]
pub(crate) fn push_row(
    text: &mut Vec<u8>,
    devices: &[Device],
    adapters: u32,
    row: u32,
) -> Result<(), AllocError>
    ensures text { OnOk result (text.new.items ≡ text.old.items ++ row_text devices.now adapters row) }
    ensures short { OnOk result (length text.new.items ≤ length text.old.items + 25) }
{
    match devices.get(row as usize) {
        Some(device) => {
            text.extend_from_slice(b"price dev ")?;
            push_path(text, device)
        }
        None => push_shared(
            text,
            adapters,
            (row as usize).saturating_sub(devices.len()) as u32,
        ),
    }
}

// Puts an adapter by its number after the text, or after all adapters a link by its number.
fn push_shared(text: &mut Vec<u8>, adapters: u32, number: u32) -> Result<(), AllocError>
    ensures text { OnOk result (text.new.items ≡ text.old.items ++ shared_text adapters number) }
    ensures short { OnOk result (length text.new.items ≤ length text.old.items + 21) }
{
    if number < adapters {
        text.extend_from_slice(b"price sim")?;
        push_number(text, u64::from(number))
    } else {
        text.extend_from_slice(b"price link")?;
        push_number(text, u64::from(number - adapters))
    }
}

// Puts the path of a device after the text.
fn push_path(text: &mut Vec<u8>, device: &Device) -> Result<(), AllocError>
    ensures text { OnOk result (text.new.items ≡ text.old.items ++ spelled (address_of device.now)) }
    ensures short { OnOk result (length text.new.items ≤ length text.old.items + 15) }
{
    CamPath::of(device).write(text)?;
    Ok(())
}
