//! The parts of a plan by name: the adapters on one link make a part, and an adapter on no link makes one alone. A part goes by
//! its least adapter. Proved: it is the one that the definitions name.

ghost use Rattle.std.specs.Prelude.{◌≡◌, ◌<◌, nat_lt};
ghost use Rattle.cost_plan.specs.Words.{rows, instance_of_rows};
ghost use Rattle.cost_plan.specs.Parts.{is_on, least_on, part_of, part_of_stay, part_of_resource, before};

use round_net::Net;

/// The part of an adapter.
pub fn part_of(net: &Net, adapter: u32) -> u32
    requires { adapter < (instance_of_rows net.now).adapters }
    ensures { result ≡ part_of (instance_of_rows net.now) adapter }
{
    match net.link_of(adapter) {
        Some(link) => least_on(net, link),
        None => adapter,
    }
}

/// The part of a stay.
pub fn part_of_stay(net: &Net, stay: u32) -> u32
    requires { stay < (instance_of_rows net.now).stays }
    ensures { result ≡ part_of_stay (instance_of_rows net.now) stay }
{
    part_of(net, net.adapter(stay))
}

/// The part of a resource. That of a link on which no adapter is, is no adapter's.
pub fn part_of_resource(net: &Net, resource: u32) -> u32
    requires { resource < rows (instance_of_rows net.now) }
    ensures { result ≡ part_of_resource (instance_of_rows net.now) resource }
{
    let devices = net.devices();
    if resource < devices {
        return part_of(net, net.adapter_of(resource));
    }
    let above = resource - devices;
    if above < net.adapters() {
        return part_of(net, above);
    }
    least_on(net, above - net.adapters())
}

// The least adapter on a link, and the number past all adapters where there is none.
fn least_on(net: &Net, link: u32) -> u32
    ensures { result ≡ least_on (instance_of_rows net.now) link }
{
    for adapter in 0..net.adapters() {
        if is_on(net, link, adapter) {
            return adapter;
        }
    }
    net.adapters()
}

// Whether an adapter is on a link.
fn is_on(net: &Net, link: u32, adapter: u32) -> bool
    requires { adapter < (instance_of_rows net.now).adapters }
    ensures { result ≡ is_on (instance_of_rows net.now) link adapter }
{
    match net.link_of(adapter) {
        Some(own) => own == link,
        None => false,
    }
}

/// Whether a part has a stay.
pub fn has_stay(net: &Net, part: u32) -> bool
    ensures { let net = instance_of_rows net.now in result ≡ nat_lt 0 (before net part net.stays) }
{
    for stay in 0..net.stays() {
        if part_of_stay(net, stay) == part {
            return true;
        }
    }
    false
}
