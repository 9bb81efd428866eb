//! The rows of devices, adapters and links in a range.

use crate::bars::push_bar;
use crate::lanes::lanes_of;
use crate::loads::{Loads, STRIP};
use crate::round_range::RoundRange;
use crate::scene::Scene;
use crate::shades::Shades;
use recording_file::NameKind;
use std::alloc::AllocError;
use wording::{Page, push_numbers};

// A range as it is drawn.
#[derive(Drop)]
struct Drawn<'a> {
    range: RoundRange,
    // The places of the stays with a bar.
    places: Vec<usize>,
    loads: Loads<'a>,
}

/// Puts the rows of the links and adapters on the page, and below each adapter those of its devices that have bars.
pub(crate) fn push_rows(
    page: &mut Page,
    scene: &Scene,
    range: RoundRange,
) -> Result<(), AllocError> {
    let (net, stays) = (scene.net, scene.explanation.stays());
    let drawn = Drawn {
        range,
        places: range.places(scene.alloc, stays)?,
        loads: Loads::of(scene.alloc, net, stays, range)?,
    };
    for link in 0..net.links() {
        push_shared(
            page,
            scene,
            &drawn,
            NameKind::Link,
            link,
            net.link_resource(link),
        );
    }
    for adapter in 0..net.adapters() {
        push_adapter(page, scene, &drawn, adapter)?;
    }
    Ok(())
}

// Puts the row of an adapter on the page, and those of its devices that have bars.
fn push_adapter(
    page: &mut Page,
    scene: &Scene,
    drawn: &Drawn,
    adapter: u32,
) -> Result<(), AllocError> {
    let net = scene.net;
    push_shared(
        page,
        scene,
        drawn,
        NameKind::Adapter,
        adapter,
        net.devices().saturating_add(adapter),
    );
    for device in 0..net.devices() {
        if net.adapter_of(device) == adapter {
            push_device(page, scene, drawn, device)?;
        }
    }
    Ok(())
}

// Puts the openings of an adapter or a link on the page, which several devices share.
fn push_shared(
    page: &mut Page,
    scene: &Scene,
    drawn: &Drawn,
    kind: NameKind,
    number: u32,
    row: u32,
) {
    push_start(page, scene, drawn, "row shared", kind, number, STRIP);
    drawn.loads.push(page, row);
    page.put("</svg></div>\n");
}

// Puts the start of a row on the page: what it is of, and the start of a drawing of that height.
fn push_start(
    page: &mut Page,
    scene: &Scene,
    drawn: &Drawn,
    class: &str,
    kind: NameKind,
    number: u32,
    height: u64,
) {
    page.words(&["<div class='", class, "'><p class='label'>"]);
    scene.push_name(page, kind, number);
    page.show(format_args!(
        "</p><svg xmlns='http://www.w3.org/2000/svg' role='img' preserveAspectRatio='none' \
viewBox='0 0 {} {height}' height='{height}'><title>",
        drawn.range.rounds()
    ));
    scene.push_name(page, kind, number);
    page.put("</title>");
}

// Puts the row of a device on the page, if it has bars.
fn push_device(
    page: &mut Page,
    scene: &Scene,
    drawn: &Drawn,
    device: u32,
) -> Result<(), AllocError> {
    let lanes = lanes_of(scene, &drawn.places, device)?;
    if lanes.is_empty() {
        return Ok(());
    }
    let pitch = pitch(lanes.len());
    let height = pitch.saturating_mul(lanes.len() as u64);
    let whole = height.saturating_add(STRIP + 2);
    push_start(page, scene, drawn, "row", NameKind::Device, device, whole);
    push_count(page, &lanes);
    push_shades(page, scene, drawn, device, pitch)?;
    push_lanes(page, scene, drawn, device, &lanes)?;
    page.show(format_args!("<g transform='translate(0 {})'>", height.saturating_add(2)));
    drawn.loads.push(page, device);
    page.put("</g></svg></div>\n");
    Ok(())
}

// Says how many bars there are in these lanes.
fn push_count(page: &mut Page, lanes: &[Vec<usize>]) {
    let mut bars = 0u64;
    for lane in lanes {
        bars = bars.saturating_add(lane.len() as u64);
    }
    push_numbers(
        page,
        &[("<desc>Requests in its queue in these rounds: ", bars)],
        ", a bar each</desc>",
    );
}

// The height of each of so many lanes in pixels.
fn pitch(lanes: usize) -> u64 {
    match lanes {
        0..=40 => 14,
        41..=200 => 8,
        _ => 5,
    }
}

// Puts the shades of a device's bars on the page.
fn push_shades(
    page: &mut Page,
    scene: &Scene,
    drawn: &Drawn,
    device: u32,
    pitch: u64,
) -> Result<(), AllocError> {
    let range = drawn.range;
    let shades = Shades::of(scene, &drawn.places, device, range)?;
    page.show(format_args!(
        "<pattern id='p{}-{device}' patternUnits='userSpaceOnUse' width='{}' height='{pitch}' \
patternTransform='translate(0 -{})'><g stroke-width='{}'>",
        range.first,
        range.rounds(),
        pitch / 2,
        pitch.saturating_mul(2)
    ));
    shades.push(page, scene.explanation.kind());
    page.put("</g></pattern>\n");
    Ok(())
}

// Puts the bars of a device on the page, a lane after the other.
fn push_lanes(
    page: &mut Page,
    scene: &Scene,
    drawn: &Drawn,
    device: u32,
    lanes: &[Vec<usize>],
) -> Result<(), AllocError> {
    let pitch = pitch(lanes.len());
    page.show(format_args!(
        "<g class='b' stroke='url(#p{}-{device})' stroke-width='{}'>",
        drawn.range.first,
        pitch.saturating_sub(pitch / 4)
    ));
    let mut top = pitch / 2;
    for lane in lanes {
        page.show(format_args!("<g transform='translate(0 {top})'>"));
        for place in lane {
            push_bar(page, scene, &drawn.range, *place)?;
        }
        page.put("</g>\n");
        top = top.saturating_add(pitch);
    }
    page.put("</g>");
    Ok(())
}
