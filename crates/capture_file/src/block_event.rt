//! What an event of a block device says.

/// What an event says of a request.
#[derive(Clone, Copy)]
pub enum Action {
    /// It arrived.
    Arrives,
    /// It became the end of a request that waits.
    JoinsEnd,
    /// It became the front of a request that waits.
    JoinsFront,
    /// It was started.
    Starts,
    /// It was put back, and will be started again.
    Returns,
    /// It was completed.
    Completes,
}

/// The sectors of a request.
#[derive(Clone, Copy)]
pub enum Extent {
    /// From the first number on as many as the second says.
    Sectors(u64, u64),
    /// None: a flush, a command, or the end of a write's flush, which names the first sector of the write.
    None(Option<u64>),
}

/// An event of a request.
#[derive(Clone, Copy)]
pub struct RequestEvent<'a> {
    pub device: &'a [u8],
    pub action: Action,
    pub flags: &'a [u8],
    pub extent: Extent,
    /// The name of the process, and its id.
    pub process: &'a [u8],
    pub pid: &'a [u8],
    /// The priority of its I/O class, if it has one and the input says so.
    pub priority: Option<u32>,
}

/// An event: its time, and what it says of a request, if it does.
#[derive(Clone, Copy)]
pub struct Event<'a> {
    pub time: u64,
    pub request: Option<RequestEvent<'a>>,
}

/// The letter of an operation, by the letters of an event: the first one, but after an `F` that says that a flush comes first.
pub fn kind_of(flags: &[u8]) -> u8 {
    match flags {
        [b'F', kind @ (b'R' | b'W' | b'D'), ..] => *kind,
        [kind, ..] => *kind,
        [] => 0,
    }
}
