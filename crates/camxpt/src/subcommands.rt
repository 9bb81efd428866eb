//! The subcommands, their arguments and the help.

use crate::schedule_run::{BEST, BY_WEIGHT, FIRST_COME};
use crate::word::NamedArgument;
use crate::word::NamedArgument::{
    Flag, NeededNumber, NeededOneOf, NeededText, NeededWord, Number, OneOf, ShellName, SmallNumber,
    Text, Texts, Word, Words,
};
use clap::Command;
use std::alloc::{AllocError, Global};

/// The word for pairing drivers and devices by numbers.
pub(crate) const BY_NUMBER: &str = "number";

const PAIRED_BY: &[&str] = &["name", BY_NUMBER];

const ORDERS: &[&str] = &[FIRST_COME, BY_WEIGHT, BEST];

const JSON: NamedArgument = Flag("json", "Prints one line of JSON");

/// What each subcommand takes after its own options.
pub(crate) const VERBOSE: NamedArgument = Flag(
    "verbose",
    "Says after a fault where it stands and what stands there, or why a file failed",
);

const REQUIRE_DRAINED: NamedArgument = Flag(
    "require-drained",
    "Ends with status 7 if the run ended before all was done",
);

const ALL_WAITS: NamedArgument = Flag(
    "all-waits",
    "Lists all waits of each stay, and not just the first 64, in JSON and timelines",
);

const TRACE: NamedArgument = Word(
    "TRACE",
    "The recorded trace; standard input if it is left out or -",
);

// A trace or a recording.
const EITHER: NamedArgument = Word(
    "TRACE",
    "The trace or recording; standard input if it is left out or -",
);

const SCRIPT: NamedArgument = NeededWord(
    "SCRIPT",
    "What the drivers do and the lanes answer; - is standard input",
);

const FROM: NamedArgument = NeededText(
    "from",
    "KIND",
    "What the files are: blkparse, tracepoints (of perf script, trace-cmd report or the kernel), biosnoop, fio or csv",
);

const ROUND: NamedArgument = Text(
    "round",
    "TIME",
    "How long a round is, as 10ms; if it is left out, the mean time between starts of the busiest device, but at most half of the mean wait",
);

const WINDOW: NamedArgument = Text(
    "window",
    "TIME",
    "How long a window is, as 10s; if it is left out, import makes one recording of all, and watch takes 10s",
);

const UNIT: NamedArgument = Text(
    "unit",
    "UNIT",
    "The unit of times in CSV: ns, us, ms or s; s if it is left out",
);

const PRIORITY: NamedArgument = Text(
    "priority",
    "HOW",
    "Where priorities come from: by-class, by-direction or flat; by-class if it is left out",
);

const DRIVER: NamedArgument = Texts(
    "driver",
    "NAME=PRIORITY",
    "The priority of all requests of a process or job",
);

const DRIVER_BY: NamedArgument = Text(
    "driver-by",
    "WHAT",
    "What a driver is: a comm (the name of a process), a pid, or a cgroup in CSV; the name that the input has if it is left out",
);

const DEVICE: NamedArgument = Texts(
    "device",
    "PICK",
    "A device to take, as 8,0, 8:0, sda or /dev/sda, or PATTERN=NAME for all that match, as one; * stands for any characters; all if it is left out",
);

const HOST: NamedArgument = Texts(
    "host",
    "NAME=ADAPTER:OPENINGS",
    "The adapter of a device, from 0 to 7, and how many requests that adapter takes in a round; what its devices take together if it is left out",
);

const RATED: NamedArgument = Texts(
    "rated",
    "NAME=OPENINGS",
    "How many requests a device takes in a round, where it isn't measured",
);

const DEPTH: NamedArgument = Texts(
    "depth",
    "NAME=SLOTS",
    "How many requests a device can have in flight; as many as it had at most if it is left out. With fewer those end early that have no slot",
);

const FROM_TIME: NamedArgument = Text(
    "from-time",
    "SECONDS",
    "Leaves out what arrives before this time of the capture",
);

const TO_TIME: NamedArgument = Text(
    "to-time",
    "SECONDS",
    "Leaves out what arrives at this time of the capture or later",
);

const STRICT: NamedArgument = Flag(
    "strict",
    "Refuses the first line that isn't of its form, where import leaves out one in a thousand, and watch all",
);

const UNSORTED: NamedArgument = Flag(
    "unsorted",
    "Reads all of the files first, in whatever order of time their lines are",
);

/// A subcommand.
pub(crate) struct Subcommand {
    /// Its name.
    pub(crate) name: &'static str,
    about: &'static str,
    example: &'static str,
    /// Its arguments, but for [`VERBOSE`].
    pub(crate) words: &'static [NamedArgument],
}

// The subcommands that say what an input has, in the order of the help.
const VIEWS: [Subcommand; 8] = [
    Subcommand {
        name: "check",
        about: "Tests a trace or a recording and prints its counts and what its waiting cost",
        example: "Example: camxpt check examples/frozen-device.csv",
        words: &[JSON, EITHER],
    },
    Subcommand {
        name: "audit",
        about: "Prints the live schedule of a trace or a recording, a best schedule, the excess, and prices that prove the best one",
        example: "Example: camxpt audit examples/frozen-device.csv",
        words: &[
            Flag(
                "summary",
                "Prints the first seven lines of the report alone",
            ),
            JSON,
            EITHER,
        ],
    },
    Subcommand {
        name: "explain",
        about: "Says where the commands of a trace or the requests of a recording waited, and why",
        example: "Example: camxpt explain examples/frozen-device.csv",
        words: &[
            Number(
                "top",
                "Lists at most so many stays, and as many freezes; 10 if it is left out",
            ),
            ALL_WAITS,
            Texts(
                "slo",
                "LIMIT",
                "A limit of latency: driver:NAME, level:N or all, and then :pN=TIME, as all:p99=5ms",
            ),
            Flag(
                "blame",
                "Says who was in the way of whom, by drivers and by run levels",
            ),
            Flag(
                "no-stays",
                "Leaves the list of stays out of the JSON, which then has some kilobytes",
            ),
            Flag(
                "rounds",
                "Counts the waits of a recording in rounds, also where it says how long a round is",
            ),
            JSON,
            EITHER,
        ],
    },
    Subcommand {
        name: "whatif",
        about: "Says what the waiting would have cost by orders that know nothing of the future, and with more openings",
        example: "Example: camxpt whatif examples/two-classes.csv --device 0=+1",
        words: &[
            Texts(
                "device",
                "DEVICE=CHANGE",
                "A device by its name or number, and how many openings it has a round: +N more, xN times as many, =N at least N; several by commas make one row, adapter:N and link:N among them",
            ),
            Texts("adapter", "ADAPTER=CHANGE", "The same of an adapter"),
            Texts("link", "LINK=CHANGE", "The same of a link"),
            Texts(
                "never-stopped",
                "DEVICE",
                "A device, adapter:N or link:N that takes its openings in each round in which it took nothing",
            ),
            Number(
                "top",
                "Without these options, lists at most so many of the changes that are tried; 10 if it is left out",
            ),
            JSON,
            EITHER,
        ],
    },
    Subcommand {
        name: "compare",
        about: "Puts two traces or recordings side by side: what the waiting cost before a change and after it, for whom, and why",
        example: "Example: camxpt compare examples/one-opening.csv examples/four-openings.csv",
        words: &[
            OneOf(
                "by",
                "HOW",
                PAIRED_BY,
                "Pairs drivers and devices by name, where both inputs have names, or by number; by name if it is left out",
            ),
            JSON,
            NeededWord(
                "BEFORE",
                "The trace or recording before a change; - is standard input",
            ),
            NeededWord(
                "AFTER",
                "The one after it; - is standard input, unless BEFORE is",
            ),
        ],
    },
    Subcommand {
        name: "draw",
        about: "Draws where the commands of a trace or the requests of a recording waited, as a page for a browser",
        example: "Example: camxpt draw examples/frozen-device.csv > page.html",
        words: &[
            Text(
                "rounds",
                "A-B",
                "Draws the bars of the rounds from A to B alone",
            ),
            EITHER,
        ],
    },
    Subcommand {
        name: "timeline",
        about: "Prints a trace or a recording as a timeline in Chrome's trace-event format, for Perfetto or chrome://tracing",
        example: "Example: camxpt timeline examples/frozen-device.csv > timeline.json",
        words: &[ALL_WAITS, EITHER],
    },
    Subcommand {
        name: "prove",
        about: "Says whether the prices of a report prove that its schedule is a best one, whoever made it",
        example: "Example: camxpt prove examples/frozen-device.csv examples/frozen-device.report",
        words: &[
            JSON,
            NeededWord("TRACE", "The trace or recording; - is standard input"),
            NeededWord(
                "REPORT",
                "A report on it, by audit or by anyone else; - is standard input, unless TRACE is",
            ),
        ],
    },
];

// Those that run scripts or make an input of another one.
const MAKERS: [Subcommand; 7] = [
    Subcommand {
        name: "sim",
        about: "Runs a script on one thread and prints the trace, and on standard error how the run ended",
        example: "Example: camxpt sim examples/script-timeout-requeued.csv 1",
        words: &[
            REQUIRE_DRAINED,
            SCRIPT,
            NeededNumber(
                "SEED",
                "Picks whose turn it is: the same seed gives the same trace",
            ),
        ],
    },
    Subcommand {
        name: "run",
        about: "Runs a script with a thread for each actor and prints the trace, and on standard error how the run ended",
        example: "Example: camxpt run examples/script-timeout-requeued.csv",
        words: &[REQUIRE_DRAINED, SCRIPT],
    },
    Subcommand {
        name: "sweep",
        about: "Runs a script with several numbers of openings, in all combinations, and prints what the waiting cost in each",
        example: "Example: camxpt sweep examples/script-sweep.csv --openings 0:1,2,4,8 --seeds 5",
        words: &[
            Texts(
                "openings",
                "DEVICE:N,N",
                "The numbers of openings that are tried of a device, which goes by its number from 0 on",
            ),
            Texts("adapter", "ADAPTER:N,N", "The same of an adapter"),
            SmallNumber(
                "seeds",
                "Runs each setting by the seeds from 1 to N; 1 if it is left out",
            ),
            JSON,
            SCRIPT,
        ],
    },
    Subcommand {
        name: "migrate",
        about: "Prints a trace of any version in version 3, which has a table of weights and links",
        example: "Example: camxpt migrate examples/frozen-device.csv",
        words: &[TRACE],
    },
    Subcommand {
        name: "record",
        about: "Prints the recording of a trace: its requests with their windows, and what each device, adapter and link took",
        example: "Example: camxpt record examples/frozen-device.csv",
        words: &[TRACE],
    },
    Subcommand {
        name: "schedule",
        about: "Prints the recording of a trace or a recording as another order would have started its requests",
        example: "Example: camxpt schedule --order by-weight examples/two-classes.csv",
        words: &[
            NeededOneOf(
                "order",
                "ORDER",
                ORDERS,
                "Who came first goes first, the heaviest goes first, or a best schedule, which knows what comes",
            ),
            EITHER,
        ],
    },
    Subcommand {
        name: "script",
        about: "Prints the script of what the drivers of a trace or a recording asked for, to be run again under other settings",
        example: "Example: camxpt script examples/frozen-device.csv",
        words: &[EITHER],
    },
];

// Those that read captures, and completions, which stand last.
const LAST: [Subcommand; 3] = [
    Subcommand {
        name: "import",
        about: "Prints the recording of a capture by blktrace, perf, trace-cmd, biosnoop or fio, or of a CSV file with named columns",
        example: "Example: camxpt import --from blkparse --round 10ms examples/mixed.blkparse > recording.csv",
        words: &[
            FROM,
            ROUND,
            UNIT,
            PRIORITY,
            DRIVER,
            DRIVER_BY,
            DEVICE,
            HOST,
            RATED,
            DEPTH,
            FROM_TIME,
            TO_TIME,
            WINDOW,
            Text(
                "out",
                "DIR",
                "The folder to which a recording of each window is written; this one if it is left out",
            ),
            UNSORTED,
            Flag(
                "lenient",
                "Counts lines that are refused and leaves them out, however many there are",
            ),
            STRICT,
            Words("FILE", "The files of the capture; - is standard input"),
        ],
    },
    Subcommand {
        name: "watch",
        about: "Prints what waiting cost in each window of a running capture, or of a long one, and how much of it could have been avoided",
        example: "Example: camxpt watch --from blkparse --window 1s examples/mixed.blkparse",
        words: &[
            FROM,
            WINDOW,
            ROUND,
            UNIT,
            PRIORITY,
            DRIVER,
            DRIVER_BY,
            DEVICE,
            HOST,
            RATED,
            DEPTH,
            FROM_TIME,
            TO_TIME,
            Text(
                "host-name",
                "NAME",
                "The name of the host, for the JSON and for Prometheus",
            ),
            Text(
                "prometheus",
                "FILE",
                "Writes the sums so far to the file after each window, in Prometheus' text format",
            ),
            Text(
                "keep",
                "DIR",
                "Writes the recording of each window to the folder",
            ),
            Number(
                "keep-costliest",
                "Keeps the recordings of the costliest N windows alone",
            ),
            UNSORTED,
            STRICT,
            JSON,
            Words("FILE", "The files of the capture; - is standard input"),
        ],
    },
    Subcommand {
        name: "completions",
        about: "Prints the script by which a shell completes these words",
        example: "Example: camxpt completions bash",
        words: &[ShellName("SHELL", "bash, zsh or fish")],
    },
];

/// All subcommands, in the order of the help.
pub(crate) fn subcommands() -> [&'static [Subcommand]; 3] {
    [views(), makers(), last()]
}

// (a table of all of them in one takes much longer to prove)
fn views() -> &'static [Subcommand] {
    &VIEWS
}

fn makers() -> &'static [Subcommand] {
    &MAKERS
}

fn last() -> &'static [Subcommand] {
    &LAST
}

/// The words that the program takes.
pub fn command<'a>(alloc: Global) -> Result<Command<'a>, AllocError> {
    let mut command = Command::new(alloc, "camxpt")
        .version("0.6.6")
        .about(
            "Audits traces of a CAM transport and recordings of any scheduler, and runs scripts that record traces. With no arguments it prints the summary of the audit of the trace or recording on standard input.",
        )
        .after_help(
            "Exit status: 0 done, 1 not proved, 2 refused words, 3 refused input, 4 a file, read or write that failed, 5 no memory, 6 no thread, or threads that did what the script doesn't allow, 7 a run that didn't drain, with --require-drained",
        );
    for group in subcommands() {
        command = with_group(alloc, command, group)?;
    }
    Ok(command)
}

fn with_group<'a>(
    alloc: Global,
    command: Command<'a>,
    group: &[Subcommand],
) -> Result<Command<'a>, AllocError> {
    let mut command = command;
    for subcommand in group {
        command = command.subcommand(subcommand.command(alloc)?)?;
    }
    Ok(command)
}

impl Subcommand {
    fn command<'a>(&self, alloc: Global) -> Result<Command<'a>, AllocError> {
        let mut command = Command::new(alloc, self.name)
            .about(self.about)
            .after_help(self.example);
        for word in self.words {
            command = command.arg(word.arg(alloc))?;
        }
        command.arg(VERBOSE.arg(alloc))
    }
}
