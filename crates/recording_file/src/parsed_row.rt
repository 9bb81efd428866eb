//! What a recording's record says, by its word and its fields.

use crate::cap::Cap;
use crate::name::Name;
use crate::request::Request;
use crate::span::Span;
use cam_types::{Adapter, WeightRow};
use record_text::DeviceRow;

/// What a record of a recording says after the header.
#[derive(Drop)]
pub(crate) enum ParsedRow {
    Unit(Span),
    Rounds(u32),
    Weight(WeightRow),
    Link(u32),
    Sim(Adapter),
    Dev(DeviceRow),
    Name(Name),
    Cap(Cap),
    Request(Request),
}
