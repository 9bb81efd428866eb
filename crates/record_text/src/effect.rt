//! What a byte ends.

/// What a byte of a text ends.
#[derive(Clone, Copy)]
pub(crate) enum Effect {
    /// Neither a field nor a record.
    Nothing,
    /// A field that isn't the last of its record.
    Field,
    /// A record, with its last field.
    Record,
}
