//! The object of a proof.

ghost use Rattle.std.specs.Prelude.{◌≡◌, string_bytes, IfOk};
ghost use Rattle.json.specs.Lex.{tokens};
ghost use Rattle.json.specs.Print.{print};

use crate::as_json::line::line;
use crate::as_json::members::put_object;
use serde::{Described, Serialize, Serializer};
use std::alloc::{AllocError, Global};

// A trace, a report on it, and what was found.
#[derive(Drop)]
struct Proved<'a> {
    trace: &'a str,
    report: &'a str,
    finding: &'a str,
}

impl Described for Proved<'_> {}

impl Serialize for Proved<'_> {
    fn serialize<S: Serializer>(&self, out: &mut S) -> Result<(), S::Error> {
        put_object(
            out,
            &[
                ("trace", self.trace),
                ("report", self.report),
                ("finding", self.finding),
            ],
        )
    }
}

/// A line without its line feed: what was found of the report on the trace, which is `proved`, or why it isn't. Any texts may
/// be the names.
pub fn prove_json(
    alloc: Global,
    trace: &str,
    report: &str,
    finding: &str,
) -> Result<String, AllocError>
    ensures { IfOk result (λ s. string_bytes s ≡ print (tokens (string_bytes s))) }
{
    let proved = Proved {
        trace,
        report,
        finding,
    };
    line(alloc, &proved)
}
