//! The members with which the objects on a trace or a recording begin.

use crate::as_json::members::{begin_list, put_member, put_members, put_object};
use crate::compared::Compared;
use cam_types::Config;
use recording_file::Span;
use round_net::Net;
use serde::Serializer;
use wording::nanoseconds;

/// Writes members of the object that is open: what a trace or a recording is called, the counts of its net, the table of weights
/// unless that is the standard one, and how many nanoseconds a round has, if that is known and to be told.
pub(crate) fn put_counts<S: Serializer>(
    out: &mut S,
    name: &str,
    net: &Net,
    unit: Option<Span>,
) -> Result<(), S::Error> {
    put_member(out, "trace", &name)?;
    put_members(
        out,
        &[
            ("commands", net.commands()),
            ("stays", net.stays()),
            ("rounds", net.rounds()),
        ],
    )?;
    put_weights(out, net.config())?;
    match unit {
        Some(unit) => put_member(out, "round_ns", &nanoseconds(unit)),
        None => Ok(()),
    }
}

/// The same of an input, with how long a round is, if that is known.
pub(crate) fn put_input<S: Serializer>(out: &mut S, input: Compared<'_>) -> Result<(), S::Error> {
    put_counts(out, input.name, input.net, input.explanation.unit())
}

// Writes what a round of waiting costs, unless that is the standard: by each row after the priorities of the row before, up to
// the last of its own.
fn put_weights<S: Serializer>(out: &mut S, config: &Config) -> Result<(), S::Error> {
    if config.has_standard_weights() {
        return Ok(());
    }
    begin_list(out, "weights", config.weights().len())?;
    for row in config.weights() {
        put_object(out, &[("last", row.last), ("weight", row.weight)])?;
    }
    out.end_seq()
}
