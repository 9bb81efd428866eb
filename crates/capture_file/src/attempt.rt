//! The attempts of requests. Times are nanoseconds.

ghost use Rattle.std.specs.Prelude.{◌≡◌};
ghost use Rattle.capture_file.specs.States.{start_of};

/// Where a request is: its device and its first sector. A flush has none, and neither has a command.
#[derive(Clone, Copy, PartialEq, Eq, PartialOrd, Ord)]
pub struct Place {
    pub device: u32,
    pub sector: Option<u64>,
}

/// What a start or a completion says of a request beside its place.
#[derive(Clone, Copy, PartialEq, Eq)]
pub struct Sent {
    /// The letter of its operation: `R`, `W`, `D`, `F` or another.
    pub kind: u8,
    /// In sectors.
    pub size: u32,
}

/// What is said of one that waits.
pub(crate) const NOTHING: Sent = Sent { kind: 0, size: 0 };

/// What a caller says of a request when it arrives, and reads again later.
#[derive(Clone, Copy)]
pub struct Tag {
    pub driver: u8,
    pub priority: u32,
}

/// When a request arrived, and what was said of it then.
#[derive(Clone, Copy)]
pub struct Arrival {
    pub time: u64,
    pub tag: Tag,
}

/// What has become of an attempt.
#[derive(Clone, Copy)]
pub enum State {
    /// It waits to be started.
    Waiting,
    /// It was started, and hasn't ended.
    InFlight { start: u64 },
    /// It was started, and then completed.
    Completed { start: u64, end: u64 },
    /// It was started, and then put back.
    PutBack { start: u64, end: u64 },
}

impl State {
    /// When it was started. 0 if it waits.
    pub(crate) fn start(self) -> u64
        ensures { result ≡ start_of self }
    {
        match self {
            State::Waiting => 0,
            State::InFlight { start }
            | State::Completed { start, .. }
            | State::PutBack { start, .. } => start,
        }
    }
}

/// One attempt of a request, from its arrival to its end. One that is put back has a next attempt.
#[derive(Clone, Copy)]
pub struct Attempt {
    /// Its number. Attempts that come later have higher ones, and none has that of another.
    pub id: u64,
    pub place: Place,
    /// As its start says; zeroes while it waits.
    pub sent: Sent,
    /// None if it wasn't seen.
    pub arrival: Option<Arrival>,
    pub state: State,
}
