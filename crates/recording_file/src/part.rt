//! The devices, adapters and links of a configuration: what has openings.

/// What kind of thing a cap is for. They stand in this order in a recording.
#[derive(Clone, Copy, Debug, PartialEq, Eq)]
pub enum PartKind {
    Device,
    Adapter,
    Link,
}

/// A device, an adapter or a link, by its number from 0 on.
#[derive(Clone, Copy, Debug, PartialEq, Eq)]
pub struct Part {
    pub kind: PartKind,
    pub number: u32,
}
