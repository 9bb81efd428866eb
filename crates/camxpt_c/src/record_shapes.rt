//! What a recording has, as structs of C's.

ghost use Rattle.std.specs.Prelude.{◌≡◌, ◌≤◌, IfSome};
ghost use Rattle.recording_file.specs.declared.span.Span.{Span};
ghost use Rattle.camxpt_c.specs.RecordShapes.{time_of, span_of, kind_of, cap_of, last_of, done_of, request_of, any_done};

use recording_file::{Cap, Part, PartKind, Request, Span, TimeUnit};

/// The units of time.
pub const NANOSECONDS: u32 = 0;

pub const MICROSECONDS: u32 = 1;

pub const MILLISECONDS: u32 = 2;

pub const SECONDS: u32 = 3;

/// What a cap is for.
pub const CAP_DEVICE: u32 = 0;

pub const CAP_ADAPTER: u32 = 1;

pub const CAP_LINK: u32 = 2;

/// Stands for the recording's last round where a request's last round is due.
pub const NO_LAST: u32 = 0;

/// Stands for the round of a request's completion where that isn't known.
pub const NO_DONE: u32 = 0;

/// How long a round is: that many of a unit of time. If the count is 0, it isn't known, and the unit has to be one all the same.
#[repr(C)]
#[derive(Clone, Copy)]
pub struct CamxptSpan {
    pub count: u32,
    pub unit: u32,
}

/// A cap: in rounds first to last the device, adapter or link of this number takes at most that many requests.
#[repr(C)]
#[derive(Clone, Copy)]
pub struct CamxptCap {
    pub kind: u32,
    pub number: u32,
    pub first: u32,
    pub last: u32,
    pub most: u32,
}

/// A request that was started: its last round is the last one in which it could have been. If it is known when it was
/// completed, that is a round from its start on.
#[repr(C)]
#[derive(Clone, Copy)]
pub struct CamxptRequest {
    pub device: u32,
    pub priority: u32,
    pub arrival: u32,
    pub last: u32,
    pub start: u32,
    pub driver: u8,
    pub done: u32,
}

/// A window of a recorder's: when its first round begins and its last one is over, how many requests were started in it, what these waited
/// before it in weighted rounds, its rounds, and the bytes of its recording. Which of them are given begins at `offset`.
#[repr(C)]
#[derive(Clone, Copy)]
pub struct CamxptWindow {
    pub number: u64,
    pub from_ns: u64,
    pub until_ns: u64,
    pub requests: u64,
    pub carried: u64,
    pub rounds: u32,
    pub size: usize,
    pub offset: usize,
}

/// How long a round is, if that is known.
pub(crate) fn span_of(shape: CamxptSpan) -> Option<Span>
    ensures value { result ≡ span_of shape }
    ensures some { IfSome result (λ (s : Span). 1 ≤ s.count) }
{
    if shape.count == 0 {
        return None;
    }
    Some(Span {
        count: shape.count,
        unit: time_of(shape.unit),
    })
}

fn time_of(unit: u32) -> TimeUnit
    ensures { result ≡ time_of unit }
{
    match unit {
        NANOSECONDS => TimeUnit::Nanosecond,
        MICROSECONDS => TimeUnit::Microsecond,
        MILLISECONDS => TimeUnit::Millisecond,
        _ => TimeUnit::Second,
    }
}

/// The cap that the struct says, where its kind is one.
pub(crate) fn cap_of(shape: CamxptCap) -> Cap
    ensures { result ≡ cap_of shape }
{
    Cap {
        part: Part {
            kind: kind_of(shape.kind),
            number: shape.number,
        },
        first: shape.first,
        last: shape.last,
        most: shape.most,
    }
}

fn kind_of(kind: u32) -> PartKind
    ensures { result ≡ kind_of kind }
{
    match kind {
        CAP_DEVICE => PartKind::Device,
        CAP_ADAPTER => PartKind::Adapter,
        _ => PartKind::Link,
    }
}

/// The request that the struct says.
pub(crate) fn request_of(shape: CamxptRequest) -> Request
    ensures { result ≡ request_of shape }
{
    Request {
        driver: shape.driver,
        device: shape.device,
        priority: shape.priority,
        arrival: shape.arrival,
        last: last_of(shape.last),
        sent: shape.start,
        done: done_of(shape.done),
    }
}

fn last_of(last: u32) -> Option<u32>
    ensures { result ≡ last_of last }
{
    if last == NO_LAST { None } else { Some(last) }
}

fn done_of(done: u32) -> Option<u32>
    ensures { result ≡ done_of done }
{
    if done == NO_DONE { None } else { Some(done) }
}

/// Whether one of these requests says when it was completed.
pub(crate) fn any_done(shapes: &[CamxptRequest]) -> bool
    ensures { result ≡ any_done shapes.now }
{
    shapes.iter().any(|shape| shape.done != NO_DONE)
}
