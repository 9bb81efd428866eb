//! Why the words of an import are refused.

use std::fmt;

/// What a word of the command line has to be, or what contradicts another one.
#[derive(Clone, Copy, Debug)]
pub enum WordFault {
    OneInput,
    Unit,
    From,
    Round,
    Window,
    Priority,
    DriverBy,
    Cgroup,
    Jobs,
    Pick,
    Host,
    HostTwice,
    Adapter,
    Time,
    Driver,
    DriverTwice,
    Rated,
    RatedTwice,
    Depth,
    DepthTwice,
    Logs,
    Ended,
    Tolerance,
    Keep,
}

impl fmt::Display for WordFault {
    fn fmt<W: fmt::Write>(&self, f: &mut fmt::Formatter<W>) -> fmt::Result {
        f.write_str(match self {
            WordFault::OneInput => "only one FILE can be standard input",
            WordFault::Unit => "--unit takes ns, us, ms or s",
            WordFault::From => "--from takes blkparse, tracepoints, biosnoop, fio or csv",
            WordFault::Round =>
                "--round takes a number from 1 to 4294967295 and ns, us, ms or s, as 10ms",
            WordFault::Window =>
                "--window takes a number from 1 to 4294967295 and ns, us, ms or s, as 10s",
            WordFault::Priority => "--priority takes by-class, by-direction or flat",
            WordFault::DriverBy => "--driver-by takes comm, pid or cgroup",
            WordFault::Cgroup => {
                "only a table of CSV has control groups, in a column cgroup: leave out --driver-by cgroup"
            }
            WordFault::Jobs => "fio's logs know jobs alone: leave out --driver-by",
            WordFault::Pick => "--device takes NAME or PATTERN=NAME",
            WordFault::Host =>
                "--host takes DEVICE=ADAPTER:OPENINGS, an adapter from 0 to 7 and 1 to 255 openings",
            WordFault::HostTwice => "--host names a device twice",
            WordFault::Adapter => "--host gives an adapter two numbers of openings",
            WordFault::Time => "--from-time and --to-time take seconds below 18446744073, as 1.5",
            WordFault::Driver => "--driver takes NAME=PRIORITY, a priority from 0 to 1279",
            WordFault::DriverTwice => "--driver names a driver twice",
            WordFault::Rated => "--rated takes DEVICE=OPENINGS, 1 to 255",
            WordFault::RatedTwice => "--rated names a device twice",
            WordFault::Depth => "--depth takes DEVICE=SLOTS, 1 to 65535",
            WordFault::DepthTwice => "--depth names a device twice",
            WordFault::Logs =>
                "fio's logs come job by job, and windows are cut while a capture is read: leave out --window",
            WordFault::Ended => {
                "biosnoop prints a request when it has ended, and windows are cut while a capture is read: leave out --window"
            }
            WordFault::Tolerance => "--lenient and --strict contradict each other",
            WordFault::Keep => "--keep-costliest goes with --keep DIR",
        })
    }
}
