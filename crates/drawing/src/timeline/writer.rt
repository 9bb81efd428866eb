//! Events of the format, one after another.

use recording_file::Span;
use std::alloc::{AllocError, Global};
use wording::{Page, is_hidden, nanoseconds};

// How many nanoseconds a round is drawn whose length isn't known: a millisecond.
const UNKNOWN: u64 = 1_000_000;

/// The events that were written so far.
#[derive(Drop)]
pub(crate) struct EventWriter {
    pub(crate) alloc: Global,
    page: Page,
    // How many nanoseconds a round has.
    round: u64,
    has_events: bool,
}

/// Where an event stands: a process, which is a device or an adapter, and one of its rows.
#[derive(Clone, Copy, PartialEq, Eq)]
pub(crate) struct Track {
    pub(crate) process: u32,
    pub(crate) row: u32,
}

impl EventWriter {
    /// A document of the input of this name that has no event so far. A round has this length, or a millisecond if it isn't
    /// known.
    pub(crate) fn new(
        alloc: Global,
        name: &str,
        unit: Option<Span>,
    ) -> Result<EventWriter, AllocError> {
        let round = match unit {
            Some(span) => nanoseconds(span),
            None => UNKNOWN,
        };
        let name = quoted(alloc, name)?;
        let mut page = Page::new(alloc);
        page.show(format_args!(
            "{{\"displayTimeUnit\":\"ms\",\"otherData\":{{\"input\":{name},\"round_ns\":{round}}},\"traceEvents\":["
        ));
        Ok(EventWriter {
            alloc,
            page,
            round,
            has_events: false,
        })
    }

    /// The document.
    pub(crate) fn finish(self) -> Result<String, AllocError> {
        let EventWriter { page: mut page, .. } = self;
        page.put("]}");
        page.finish()
    }

    // Begins an event of this kind and name on a track.
    fn begin(&mut self, kind: &str, track: Track, name: &str) -> Result<(), AllocError> {
        let before = if self.has_events { "," } else { "" };
        let name = quoted(self.alloc, name)?;
        self.has_events = true;
        self.page.show(format_args!(
            "{before}\n{{\"ph\":\"{kind}\",\"pid\":{},\"tid\":{},\"name\":{name}",
            track.process, track.row
        ));
        Ok(())
    }

    // Ends an event with numbers that a viewer shows of it, if there are some.
    fn end(&mut self, numbers: &[(&str, u64)]) {
        let mut before = ",\"args\":{";
        for (key, number) in numbers {
            self.page.show(format_args!("{before}\"{key}\":{number}"));
            before = ",";
        }
        self.page.put(if numbers.is_empty() { "}" } else { "}}" });
    }

    // Puts how long so many rounds are, in microseconds.
    fn put_time(&mut self, key: &str, rounds: u64) {
        let all = u128::from(self.round).saturating_mul(u128::from(rounds));
        self.page.show(format_args!(",\"{key}\":{}", all / 1_000));
        if all % 1_000 > 0 {
            self.page.show(format_args!(".{:03}", all % 1_000));
        }
    }

    /// Names a process, and says where it stands among the others.
    pub(crate) fn process(&mut self, process: u32, name: &str) -> Result<(), AllocError> {
        let track = Track { process, row: 0 };
        self.caption(track, "process_name", name)?;
        self.begin("M", track, "process_sort_index")?;
        self.end(&[("sort_index", u64::from(process))]);
        Ok(())
    }

    /// Names a row of a process.
    pub(crate) fn row(&mut self, track: Track, name: &str) -> Result<(), AllocError> {
        self.caption(track, "thread_name", name)
    }

    // Puts an event that gives a process or a row its name.
    fn caption(&mut self, track: Track, event: &str, name: &str) -> Result<(), AllocError> {
        self.begin("M", track, event)?;
        let name = quoted(self.alloc, name)?;
        self.page
            .show(format_args!(",\"args\":{{\"name\":{name}}}}}"));
        Ok(())
    }

    /// Puts a slice from the beginning of a round to the end of another.
    pub(crate) fn slice(
        &mut self,
        track: Track,
        name: &str,
        (first, last): (u32, u32),
        numbers: &[(&str, u64)],
    ) -> Result<(), AllocError> {
        self.begin("X", track, name)?;
        self.put_time("ts", u64::from(first.saturating_sub(1)));
        self.put_time(
            "dur",
            u64::from(last.saturating_sub(first)).saturating_add(1),
        );
        self.end(numbers);
        Ok(())
    }

    /// Says what these numbers are from the beginning of a round on.
    pub(crate) fn counter(
        &mut self,
        process: u32,
        name: &str,
        round: u32,
        numbers: &[(&str, u64)],
    ) -> Result<(), AllocError> {
        self.begin("C", Track { process, row: 0 }, name)?;
        self.put_time("ts", u64::from(round.saturating_sub(1)));
        self.end(numbers);
        Ok(())
    }
}

// The words as a string of JSON, whose hidden characters are all escaped: a terminal may obey them, also those that JSON allows.
fn quoted(alloc: Global, words: &str) -> Result<String, AllocError> {
    let Ok(text) = serde_json::to_string(alloc, &words) else {
        return Err(AllocError);
    };
    if is_plain(&text) {
        return Ok(text);
    }
    let mut quoted = String::new(alloc);
    for letter in text.chars() {
        if is_hidden(letter) {
            for unit in letter.encode_utf16(&mut [0; 2]) {
                write!(quoted, "\\u{unit:04x}")?;
            }
        } else {
            quoted.push(letter)?;
        }
    }
    Ok(quoted)
}

// Whether a text has no byte from U+007F on.
fn is_plain(text: &str) -> bool {
    for byte in text.as_bytes() {
        if *byte >= 0x7f {
            return false;
        }
    }
    true
}
