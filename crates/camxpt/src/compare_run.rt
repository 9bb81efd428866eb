//! Puts two traces or recordings side by side.

use crate::failure::Failure;
use crate::note::{capture_note, note_on, tell_note, tell_of, title};
use crate::output::{closed, print, standard_output};
use crate::progress::{CountedReader, ProgressLine};
use crate::source::{Argument, Source, open_both};
use crate::subcommands::BY_NUMBER;
use crate::trace_run::explanation_of;
use cam_types::Watched;
use clap::ArgMatches;
use round_net::Net;
use std::alloc::{AllocError, Global};
use std::io::Read;
use std::process::ExitCode;
use std::thread::Threads;
use views::{Compared, PairBy, compare_json, compare_page};
use wait_causes::Explanation;

/// Prints what the waiting cost in the input before a change and in the one after it, as one line of JSON if that is asked
/// for. Drivers and devices are paired by name or by number, as the words ask.
pub fn compare<T: Threads + Sync>(
    rt: &HostRuntime,
    threads: &T,
    words: &ArgMatches<'_>,
    on_terminal: bool,
) -> Result<ExitCode, Failure> {
    let mut files = open_both(rt, words, Argument::Before, Argument::After)?;
    let line = ProgressLine::new(rt, on_terminal);
    let (was, is) = (
        explained(threads, rt.alloc(), &line, &mut files.first),
        explained(threads, rt.alloc(), &line, &mut files.second),
    );
    line.clear();
    match (&was, &is) {
        (Err(failure), _) => Ok(tell_all(rt, failure, &files.first)),
        (_, Err(failure)) => Ok(tell_all(rt, failure, &files.second)),
        (Ok(was), Ok(is)) => {
            let sides = (side(files.first.name, was), side(files.second.name, is));
            let text = text_of(rt.alloc(), words, sides.0, sides.1)?;
            print(&mut standard_output(rt), &text)?;
            Ok(ExitCode::SUCCESS)
        }
    }
}

// Reads an input to its end, and explains it beside a best schedule.
fn explained<T: Threads + Sync, D: Read>(
    threads: &T,
    alloc: Global,
    line: &ProgressLine<'_>,
    input: &mut Source<'_, D>,
) -> Result<(Net, Explanation), Failure> {
    let mut counted = Watched::new(CountedReader::new(input, line));
    explanation_of(threads, alloc, line, &mut counted)
}

fn side<'a>(name: &'a str, explained: &'a (Net, Explanation)) -> Compared<'a> {
    Compared {
        name: title(name),
        net: &explained.0,
        explanation: &explained.1,
    }
}

// The comparison as a page, or as one line of JSON.
fn text_of(
    alloc: Global,
    words: &ArgMatches<'_>,
    before: Compared<'_>,
    after: Compared<'_>,
) -> Result<String, AllocError> {
    let by = match words.get_str("by") {
        Some(word) if word == BY_NUMBER => PairBy::Number,
        _ => PairBy::Name,
    };
    if words.get_flag("json") {
        closed(compare_json(alloc, by, before, after))
    } else {
        compare_page(alloc, by, before, after)
    }
}

// Says why there is no comparison, with the name of the file that it is of, and after that line what helps to find the fault,
// if that is asked for.
fn tell_all<D>(rt: &HostRuntime, failure: &Failure, input: &Source<'_, D>) -> ExitCode {
    tell_of(rt, input.name, failure);
    tell_note(rt, capture_note(rt.alloc(), failure, input));
    tell_note(rt, note_on(rt.alloc(), failure, input));
    failure.exit_code()
}
