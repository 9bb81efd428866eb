//! The object of a check.

ghost use Rattle.std.specs.Prelude.{◌≡◌, string_bytes, IfOk};
ghost use Rattle.json.specs.Lex.{tokens};
ghost use Rattle.json.specs.Print.{print};

use crate::as_json::counts::put_counts;
use crate::as_json::line::line;
use crate::as_json::members::put_member;
use round_net::{Net, live_cost};
use serde::{Described, Serialize, Serializer};
use std::alloc::{AllocError, Global};

#[derive(Drop)]
struct Checked<'a> {
    trace: &'a str,
    net: &'a Net,
}

impl Described for Checked<'_> {}

impl Serialize for Checked<'_> {
    fn serialize<S: Serializer>(&self, out: &mut S) -> Result<(), S::Error> {
        out.begin_map(None)?;
        put_counts(out, self.trace, self.net, None)?;
        put_member(out, "live", &live_cost(self.net))?;
        out.end_map()
    }
}

/// A line without its line feed: how many commands, stays and rounds the net has, and what its waiting cost in weighted
/// rounds. Any text may be the name.
pub fn check_json(alloc: Global, trace: &str, net: &Net) -> Result<String, AllocError>
    ensures { IfOk result (λ s. string_bytes s ≡ print (tokens (string_bytes s))) }
{
    line(alloc, &Checked { trace, net })
}
