//! How a recording begins.

use crate::span::Span;

/// What stands before a recording's configuration.
#[derive(Clone, Copy)]
pub(crate) struct Start {
    pub(crate) completions: bool,
    pub(crate) unit: Option<Span>,
    pub(crate) rounds: u32,
}
