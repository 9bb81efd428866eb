//! The freezes of an explanation.

use crate::as_json::members::{Value, begin_list, put_object};
use serde::Serializer;
use wait_causes::{Freeze, FreezeKind};

/// Writes the freezes as a member of the object that is open: of devices by errors, then by callers, then those of adapters.
pub(crate) fn put_freezes<S: Serializer>(out: &mut S, freezes: &[Freeze]) -> Result<(), S::Error> {
    begin_list(out, "freezes", freezes.len())?;
    for freeze in freezes {
        put_freeze(out, freeze)?;
    }
    out.end_seq()
}

// Writes what was frozen, by whom, in which rounds, and what that cost.
fn put_freeze<S: Serializer>(out: &mut S, freeze: &Freeze) -> Result<(), S::Error> {
    let (frozen, kind) = match freeze.kind {
        FreezeKind::Error => ("device", "error"),
        FreezeKind::Caller => ("device", "caller"),
        FreezeKind::Adapter => ("adapter", "caller"),
    };
    put_object(
        out,
        &[
            (frozen, Value::Number(u64::from(freeze.number))),
            ("kind", Value::Text(kind)),
            ("first", Value::Number(u64::from(freeze.first))),
            ("last", Value::Number(u64::from(freeze.last))),
            ("cost", Value::Number(freeze.cost)),
        ],
    )
}
