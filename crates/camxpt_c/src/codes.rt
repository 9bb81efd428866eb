//! The numbers that the functions answer.

ghost use Rattle.std.specs.Prelude.{◌≡◌};
ghost use Rattle.camxpt_c.specs.Codes.{code_of, idle_code, fault_code, class_code, cause_code, note_code};

use cam_types::ConfigFault;
use event_rules::Refusal;
use recorder::NoteFault;
use recording_file::RequestFault;
use sense_class::{Class, Why};
use xpt_state::Idle;

/// It was done.
pub const OK: i32 = 0;
/// The handle is closed.
pub const E_CLOSED: i32 = -1;
/// The handle is open already.
pub const E_OPEN: i32 = -2;
/// There is no memory.
pub const E_MEMORY: i32 = -3;
/// A limit is out of its range.
pub const E_LIMIT: i32 = -4;
/// The buffer is too small.
pub const E_SPACE: i32 = -5;
// -6 and -7, of null pointers and of copied handles, are answered by the header's own functions.
/// No event is of this kind.
pub const E_KIND: i32 = -8;
/// No unit of time is of this number.
pub const E_UNIT: i32 = -9;
/// There are no rounds, or more than a recording has.
pub const E_ROUNDS: i32 = -10;
/// There are more requests than a recording has.
pub const E_REQUESTS: i32 = -11;
/// A cap can't be one of the recording.
pub const E_CAP: i32 = -12;
/// A request was completed before it was started.
pub const E_DONE: i32 = -13;
// -14, of a window that wasn't written, is answered by the header's own functions.
/// There is no recording of a window.
pub const E_WINDOW: i32 = -15;
/// There is none.
pub const NONE: i32 = 36;
/// CCBs wait for a decision.
pub const UNDECIDED: i32 = 37;

/// The number of a refusal: 1 to 25, in the order of the list.
pub fn code_of(why: Refusal) -> i32
    ensures { result ≡ code_of why }
{
    match why {
        Refusal::HistoryFull(_) => 1,
        Refusal::NoDevice => 2,
        Refusal::NoAdapter => 3,
        Refusal::NoLane => 4,
        Refusal::NoCcb => 5,
        Refusal::BadPriority => 6,
        Refusal::BadRetries => 7,
        Refusal::BadCount => 8,
        Refusal::BadOpenings => 9,
        Refusal::BadStatus => 10,
        Refusal::CcbFull => 11,
        Refusal::StaysFull => 12,
        Refusal::NotQueued => 13,
        Refusal::WrongLane => 14,
        Refusal::DeviceFrozen => 15,
        Refusal::AdapterFrozen => 16,
        Refusal::NoOpening => 17,
        Refusal::NotHead => 18,
        Refusal::NotInFlight => 19,
        Refusal::NotRecovering => 20,
        Refusal::WrongDecision => 21,
        Refusal::FreezeOverflow => 22,
        Refusal::ReleaseTooMany => 23,
        Refusal::InFlight => 24,
        Refusal::RoundsFull => 25,
    }
}

/// The number of the cause why a lane is idle: 32 to 35.
pub fn idle_code(why: Idle) -> i32
    ensures { result ≡ idle_code why }
{
    match why {
        Idle::Empty => 32,
        Idle::AdapterFrozen => 33,
        Idle::AdapterBusy => 34,
        Idle::DevicesHeld => 35,
    }
}

/// The number of a rule that a configuration breaks: 48 to 55.
pub fn fault_code(fault: ConfigFault) -> i32
    ensures { result ≡ fault_code fault }
{
    match fault {
        ConfigFault::NoAdapters => 48,
        ConfigFault::TooMany => 49,
        ConfigFault::BadOpenings => 50,
        ConfigFault::NoAdapter => 51,
        ConfigFault::BadAddress => 52,
        ConfigFault::DoubleDevice => 53,
        ConfigFault::BadWeight => 54,
        ConfigFault::NoLink => 55,
    }
}

/// The number of the cause why a request can't be one of a recording: 64 to 71.
pub fn cause_code(cause: RequestFault) -> i32
    ensures { result ≡ cause_code cause }
{
    match cause {
        RequestFault::NoDevice => 64,
        RequestFault::BadPriority => 65,
        RequestFault::BadWindow => 66,
        RequestFault::Early => 67,
        RequestFault::Late => 68,
        RequestFault::DeviceFull => 69,
        RequestFault::AdapterFull => 70,
        RequestFault::LinkFull => 71,
    }
}

/// The number of the cause why a note isn't taken: 80 to 90.
pub fn note_code(fault: NoteFault) -> i32
    ensures { result ≡ note_code fault }
{
    match fault {
        NoteFault::NoDevice => 80,
        NoteFault::NoDriver => 81,
        NoteFault::NoPriority => 82,
        NoteFault::TimeFalls => 83,
        NoteFault::AlreadyOpen => 84,
        NoteFault::Full => 85,
        NoteFault::NotOpen => 86,
        NoteFault::AlreadyStarted => 87,
        NoteFault::NotStarted => 88,
        NoteFault::StartBeforeArrival => 89,
        NoteFault::DoneBeforeStart => 90,
    }
}

/// The number of the class of a result: 0 to 5.
pub fn class_code(class: Class) -> u32
    ensures { result ≡ class_code class }
{
    match class {
        Class::Complete => 0,
        Class::FreeRequeue => 1,
        Class::CountedRequeue => 2,
        Class::Fail(Why::Recovered) => 3,
        Class::Fail(Why::Spent) => 4,
        Class::Fail(Why::Other) => 5,
    }
}
