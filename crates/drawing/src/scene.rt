//! What a page is drawn from, and what drivers, devices, adapters and links are called on it.

use cam_path::path_name;
use recording_file::NameKind;
use round_net::Net;
use std::alloc::{AllocError, Global};
use wait_causes::{Explanation, Grouping, Part, Row};
use wording::{Captions, Page, items_at, places_from_greatest, push_number};

/// How many drivers have a colour of their own.
pub(crate) const COLOURS: usize = 8;

/// What is drawn.
#[derive(Drop)]
pub(crate) struct Scene<'a> {
    pub(crate) alloc: Global,
    /// The openings.
    pub(crate) net: &'a Net,
    /// The stays, and why they waited.
    pub(crate) explanation: &'a Explanation,
    /// What all stays waited.
    pub(crate) whole: Part,
    /// What the stays of each driver waited, the costliest first.
    pub(crate) drivers: Vec<Row>,
    /// Whether all bars are drawn.
    pub(crate) has_all: bool,
    captions: Captions<'a>,
    // The paths of the devices.
    paths: Vec<String>,
}

impl<'a> Scene<'a> {
    /// That of what is explained.
    pub(crate) fn of(
        alloc: Global,
        net: &'a Net,
        explanation: &'a Explanation,
        has_all: bool,
    ) -> Result<Scene<'a>, AllocError> {
        let mut paths = Vec::new(alloc);
        for device in 0..net.devices() {
            paths.push(path_name(alloc, net.config(), device)?)?;
        }
        Ok(Scene {
            alloc,
            net,
            explanation,
            whole: explanation.whole(alloc)?,
            drivers: parts_by_cost(alloc, explanation, Grouping::Driver)?,
            has_all,
            captions: Captions::of(net.config(), explanation),
            paths,
        })
    }

    /// The place of the driver among those that cost most; 8 of all others.
    pub(crate) fn rank(&self, driver: u8) -> usize {
        for (rank, row) in self.drivers.iter().take(COLOURS).enumerate() {
            if row.number == u32::from(driver) {
                return rank;
            }
        }
        COLOURS
    }

    /// Puts what is of this kind and number on the page: its name and after it in brackets its number, or that alone.
    pub(crate) fn push_name(&self, page: &mut Page, kind: NameKind, number: u32) {
        match self.captions.name(kind, number) {
            None => self.push_number(page, kind, number),
            Some(name) => {
                page.escaped(name);
                page.put(" (");
                self.push_number(page, kind, number);
                page.put(")");
            }
        }
    }

    // Puts the kind and the number on the page, of a device its path.
    fn push_number(&self, page: &mut Page, kind: NameKind, number: u32) {
        page.put(match kind {
            NameKind::Driver => "driver ",
            NameKind::Device => "device ",
            NameKind::Adapter => "adapter ",
            NameKind::Link => "link ",
        });
        match self.paths.get(number as usize) {
            Some(path) if kind == NameKind::Device => page.put(path),
            _ => push_number(page, u64::from(number)),
        }
    }

    /// Puts the adapter, device, driver or run level of this number on the page.
    pub(crate) fn push_part(&self, page: &mut Page, by: Grouping, number: u32) {
        match by {
            Grouping::Adapter => self.push_name(page, NameKind::Adapter, number),
            Grouping::Device => self.push_name(page, NameKind::Device, number),
            Grouping::Driver => self.push_name(page, NameKind::Driver, number),
            Grouping::Level => page.show(format_args!("class {number}")),
        }
    }
}

/// What the stays of each part waited, the costliest first; of equal ones that of the smaller number.
pub(crate) fn parts_by_cost(
    alloc: Global,
    explanation: &Explanation,
    by: Grouping,
) -> Result<Vec<Row>, AllocError> {
    let rows = explanation.table(alloc, by)?;
    let mut costs = Vec::with_capacity(alloc, rows.len())?;
    for row in &rows {
        costs.push(row.part.live)?;
    }
    items_at(alloc, &rows, &places_from_greatest(alloc, &costs)?)
}
