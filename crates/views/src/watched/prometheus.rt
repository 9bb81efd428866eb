//! Sums over windows in Prometheus' text format.

use crate::watched::sums::{Place, Sums};
use crate::watched::window::Window;
use std::alloc::{AllocError, Global};
use wording::{Page, nanoseconds};

/// A text for a collector of text files: counters of requests, of waited seconds, and of weighted seconds as they were waited, in the best
/// schedule at the recorded pace and in the best schedule, by device, driver and run level; of weighted seconds that could have been
/// avoided, by order and by idle slots; of windows and of lines that were left out.
pub fn exposition(alloc: Global, window: Window<'_>, sums: &Sums) -> Result<String, AllocError> {
    let mut text = ExpositionText {
        page: Page::new(alloc),
        window,
    };
    text.head("camxpt_requests_total", "Requests that were started.");
    for (place, costs) in sums.places() {
        text.begin("camxpt_requests_total");
        text.place(place);
        text.number(costs.requests);
    }
    text.head("camxpt_waited_seconds_total", "How long requests waited.");
    for (place, costs) in sums.places() {
        text.begin("camxpt_waited_seconds_total");
        text.place(place);
        text.seconds(costs.waited);
    }
    text.head(
        "camxpt_cost_seconds_total",
        "Weighted seconds of waiting: recorded, in the best schedule at the recorded pace, in the best schedule.",
    );
    for (place, costs) in sums.places() {
        for (schedule, cost) in [
            ("recorded", costs.live),
            ("pace", costs.pace),
            ("best", costs.best),
        ] {
            text.begin("camxpt_cost_seconds_total");
            text.place(place);
            text.label("schedule", schedule);
            text.seconds(cost);
        }
    }
    let whole = sums.whole();
    text.head(
        "camxpt_avoidable_seconds_total",
        "Weighted seconds of waiting that could have been avoided.",
    );
    for (how, cost) in [
        ("order", whole.by_order()),
        ("idle_slots", whole.by_idle_slots()),
    ] {
        text.begin("camxpt_avoidable_seconds_total");
        text.label("by", how);
        text.seconds(cost);
    }
    for (name, what, number) in [
        (
            "camxpt_windows_total",
            "Windows that are over.",
            window.number,
        ),
        (
            "camxpt_refused_lines_total",
            "Lines that were left out.",
            window.refused,
        ),
    ] {
        text.head(name, what);
        text.begin(name);
        text.number(number);
    }
    text.page.finish()
}

// The text as it is made.
#[derive(Drop)]
struct ExpositionText<'a> {
    page: Page,
    window: Window<'a>,
}

impl ExpositionText<'_> {
    // What a counter counts.
    fn head(&mut self, name: &str, what: &str) {
        self.page.words(&["# HELP ", name, " ", what, "\n# TYPE ", name, " counter\n"]);
    }

    // A counter's name and its first label. There is always one, so that the others can follow a comma.
    fn begin(&mut self, name: &str) {
        self.page.words(&[name, "{source=\"camxpt\""]);
        if let Some(host) = self.window.host {
            self.label("host", host);
        }
    }

    fn place(&mut self, place: &Place) {
        self.label("device", &place.device);
        self.label("driver", &place.driver);
        self.page.show(format_args!(",level=\"{}\"", place.level));
    }

    // A label, in whose value backslashes, quotes and ends of lines are escaped.
    fn label(&mut self, name: &str, value: &str) {
        self.page.words(&[",", name, "=\""]);
        for letter in value.chars() {
            match letter {
                '\\' => self.page.put("\\\\"),
                '"' => self.page.put("\\\""),
                '\n' => self.page.put("\\n"),
                letter => self.page.show(letter),
            }
        }
        self.page.put("\"");
    }

    fn number(&mut self, number: u64) {
        self.page.show(format_args!("}} {number}\n"));
    }

    // So many rounds as seconds, with nine digits after the point.
    fn seconds(&mut self, rounds: u64) {
        let all = u128::from(nanoseconds(self.window.round)).saturating_mul(u128::from(rounds));
        let (whole, rest) = (all / 1_000_000_000, all % 1_000_000_000);
        self.page.show(format_args!("}} {whole}.{rest:09}\n"));
    }
}
