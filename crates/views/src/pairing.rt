//! How the rows of a table are paired.

/// How the rows of a table are paired.
#[derive(Clone, Copy)]
pub(crate) struct Pairing {
    /// By `name` or by `number`.
    pub(crate) by: &'static str,
    /// Which input has no such names, `before` or `after`, if the other one has some and names were asked for.
    pub(crate) unnamed: Option<&'static str>,
    /// Whether they are paired by name, and one of the inputs has a name twice.
    pub(crate) namesakes: bool,
}
