//! The tables of parts and freezes.

use crate::scene::{Scene, parts_by_cost};
use crate::words::freeze_words;
use recording_file::NameKind;
use std::alloc::AllocError;
use wait_causes::{Freeze, FreezeKind, Grouping, Part, Row};
use wording::{
    ByWeight, Page, WaitRanks, level_waits, places_from_greatest, push_number, push_numbers,
    push_signed,
};

// The columns of how long stays waited.
const WAITS: &str =
    "<th scope='col'>stays</th><th scope='col'>waited</th><th scope='col'>p50</th><th scope='col'>p90</th>\
<th scope='col'>p99</th><th scope='col'>p99.9</th><th scope='col'>max</th><th scope='col'>live</th><th scope='col'>best</th>\
<th scope='col'>excess</th></tr></thead><tbody>\n";

// The last columns of what that cost.
const BEHIND: &str = "<th scope='col'>behind less urgent</th><th scope='col'>behind equal</th>\
<th scope='col'>behind more urgent</th></tr></thead><tbody>\n";

// What the numbers don't say.
const CAUTION: &str =
    "<p>Waited, p50 and so on are rounds; costs are rounds times the weight of the request's priority. \
A cause's cost is no saving: without that cause the requests may wait for another one. A part's excess is what it cost less what it \
costs in the one best schedule that was found; another best schedule may share it out otherwise. Only the excess of the whole could \
have been saved.</p>\n";

// What stands above the waits by three schedules.
const LEVEL_WAITS: &str = "<section><h2>By other orders</h2>\n\
<table class='wide' id='orders'><caption>Waits by class, in rounds: as recorded, by weight as they come, and in the best schedule\
</caption><thead><tr><th scope='col'>class (run level)</th>\
<th scope='col'>recorded p50</th><th scope='col'>p99</th><th scope='col'>p99.9</th>\
<th scope='col'>by weight p50</th><th scope='col'>p99</th><th scope='col'>p99.9</th>\
<th scope='col'>best p50</th><th scope='col'>p99</th><th scope='col'>p99.9</th></tr></thead><tbody>\n";

// What stands above the freezes.
const FREEZES: &str = "<section><h2>Freezes</h2>\n\
<table class='narrow' id='freezes'><caption>The freezes that cost most, at most 100</caption><thead><tr>\
<th scope='col'>of</th><th scope='col'>kind</th><th scope='col'>first</th><th scope='col'>last</th>\
<th scope='col'>cost</th></tr></thead><tbody>\n";

// How many freezes are listed.
const LISTED: usize = 100;

/// Puts the tables by device, adapter, driver and class on the page: how long the stays of each part waited, and what each
/// part cost, by cause and by what full rows sent.
pub(crate) fn push_tables(page: &mut Page, scene: &Scene) -> Result<(), AllocError> {
    page.words(&["<section id='tables'><h2>Parts</h2>\n", CAUTION]);
    for (by, id, name) in &[
        (Grouping::Device, "devices", "device"),
        (Grouping::Adapter, "adapters", "adapter"),
        (Grouping::Driver, "drivers", "driver"),
        (Grouping::Level, "levels", "class (run level)"),
    ] {
        push_pair(page, scene, *by, id, name)?;
    }
    page.put("</section>\n");
    Ok(())
}

// Puts the two tables of these parts on the page.
fn push_pair(
    page: &mut Page,
    scene: &Scene,
    by: Grouping,
    id: &str,
    name: &str,
) -> Result<(), AllocError> {
    let rows = parts_by_cost(scene.alloc, scene.explanation, by)?;
    page.words(&[
        "<table class='wide waits' id='",
        id,
        "'><caption>By ",
        name,
        ": how long</caption><thead><tr><th scope='col'>",
        name,
        "</th>",
        WAITS,
    ]);
    push_waits(page, scene, by, &rows);
    page.words(&[
        "<table class='wide costs' id='",
        id,
        "-costs'><caption>By ",
        name,
        ": live cost by cause</caption><thead><tr><th scope='col'>",
        name,
        "</th>",
    ]);
    push_costs(page, scene, by, &rows);
    Ok(())
}

// Puts how long the stays of each part waited on the page, and the end of the table.
fn push_waits(page: &mut Page, scene: &Scene, by: Grouping, rows: &[Row]) {
    for row in rows {
        let part = &row.part;
        push_head(page, scene, by, row.number);
        push_cells(
            page,
            &[
                u64::from(part.stays),
                part.waited,
                u64::from(part.p50),
                u64::from(part.p90),
                u64::from(part.p99),
                u64::from(part.p999),
                u64::from(part.max),
                part.live,
                part.best,
            ],
        );
        page.put("<td>");
        push_signed(page, part.excess());
        page.put("</td></tr>\n");
    }
    page.put("</tbody></table>\n");
}

// Puts the head of a row on the page.
fn push_head(page: &mut Page, scene: &Scene, by: Grouping, number: u32) {
    page.put("<tr><th scope='row'>");
    scene.push_part(page, by, number);
    page.put("</th>");
}

// Puts each of these numbers on the page, as a cell.
fn push_cells(page: &mut Page, cells: &[u64]) {
    for cell in cells {
        push_numbers(page, &[("<td>", *cell)], "</td>");
    }
}

// Puts the other heads of columns on the page, what each part cost, and the end of the table.
fn push_costs(page: &mut Page, scene: &Scene, by: Grouping, rows: &[Row]) {
    for cause in &scene.explanation.kind().causes() {
        if cause.can_hold(scene.net.config()) {
            page.words(&["<th scope='col'>", cause.name(), "</th>"]);
        }
    }
    page.put(BEHIND);
    for row in rows {
        push_head(page, scene, by, row.number);
        push_part_costs(page, scene, &row.part);
        page.put("</tr>\n");
    }
    page.put("</tbody></table>\n");
}

// Puts what a part cost on the page, by cause and by what full rows sent.
fn push_part_costs(page: &mut Page, scene: &Scene, part: &Part) {
    for (cause, cost) in &part.costs.by_cause(scene.explanation.kind()) {
        if cause.can_hold(scene.net.config()) {
            push_cells(page, &[*cost]);
        }
    }
    let behind = &part.behind;
    push_cells(
        page,
        &[behind.less_urgent, behind.equal, behind.more_urgent],
    );
}

/// Puts the percentiles of the waits of each run level on the page: as recorded, by the order by weight, and in the best schedule.
pub(crate) fn push_level_waits(
    page: &mut Page,
    scene: &Scene,
    by_weight: Option<&ByWeight>,
) -> Result<(), AllocError> {
    page.put(LEVEL_WAITS);
    for level in &level_waits(scene.alloc, scene.explanation, by_weight)? {
        push_head(page, scene, Grouping::Level, level.level);
        push_ranks(page, Some(level.recorded));
        push_ranks(page, level.by_weight);
        push_ranks(page, Some(level.best));
        page.put("</tr>\n");
    }
    page.put("</tbody></table></section>\n");
    Ok(())
}

// Puts percentiles on the page, or that there are none.
fn push_ranks(page: &mut Page, ranks: Option<WaitRanks>) {
    match ranks {
        Some(WaitRanks { p50, p99, p999 }) => push_cells(
            page,
            &[u64::from(p50), u64::from(p99), u64::from(p999)],
        ),
        None => page.put("<td>-</td><td>-</td><td>-</td>"),
    }
}

/// Puts the table of the costliest freezes on the page, if there are some.
pub(crate) fn push_freezes(page: &mut Page, scene: &Scene) -> Result<(), AllocError> {
    let freezes = scene.explanation.freezes(scene.alloc)?;
    if freezes.is_empty() {
        return Ok(());
    }
    let mut costs = Vec::with_capacity(scene.alloc, freezes.len())?;
    for freeze in &freezes {
        costs.push(freeze.cost)?;
    }
    let places = places_from_greatest(scene.alloc, &costs)?;
    page.put(FREEZES);
    for place in places.iter().take(LISTED) {
        if let Some(freeze) = freezes.get(*place) {
            push_freeze(page, scene, freeze);
        }
    }
    page.put("</tbody></table></section>\n");
    Ok(())
}

// Puts the row of a freeze on the page.
fn push_freeze(page: &mut Page, scene: &Scene, freeze: &Freeze) {
    let kind = match freeze.kind {
        FreezeKind::Adapter => NameKind::Adapter,
        FreezeKind::Error | FreezeKind::Caller => NameKind::Device,
    };
    page.put("<tr><th scope='row'>");
    scene.push_name(page, kind, freeze.number);
    page.words(&["</th><td>", freeze_words(freeze.kind), "</td>"]);
    push_cells(
        page,
        &[u64::from(freeze.first), u64::from(freeze.last), freeze.cost],
    );
    page.put("</tr>\n");
}
