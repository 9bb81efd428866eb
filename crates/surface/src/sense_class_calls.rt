//! The calls of `sense_class`: sense data, and the classes of results.

use crate::tell::{begin, end, tell};
use anyhow::Result;
use cam_types::{Outcome, SenseBytes};
use sense_class::{Class, Sense, Why, classify, read_sense};

const SENSE: [u8; 4] = [0x72, 0x06, 0x29, 0x00];

/// Makes each call once, and prints a line of what they answer.
pub fn call_sense_class(rt: &HostRuntime) -> Result<()> {
    begin(rt, "sense_class")?;
    let bytes: &[u8] = &SENSE;
    let sense: Option<Sense> = read_sense(bytes);
    if let Some(sense) = sense {
        let codes: [u8; 3] = [sense.key, sense.asc, sense.ascq];
        tell(
            rt,
            "deferred, codes",
            &[
                sense.deferred as u64,
                codes[0] as u64,
                codes[1] as u64,
                codes[2] as u64,
            ],
        )?;
    }
    call_classify(rt, bytes)?;
    end(rt)
}

fn call_classify(rt: &HostRuntime, bytes: &[u8]) -> Result<()> {
    let outcome = Outcome {
        status: 0x0c,
        scsi: 0x02,
        sense: SenseBytes::first(bytes),
    };
    let class: Class = classify(&outcome, 0u32, 4u32);
    let spent: Class = classify(&outcome, 4u32, 4u32);
    tell(rt, "classes", &[number_of(class), number_of(spent)])
}

// The number of a class, in the order of their names.
fn number_of(class: Class) -> u64 {
    match class {
        Class::Complete => 1,
        Class::FreeRequeue => 2,
        Class::CountedRequeue => 3,
        Class::Fail(Why::Recovered) => 4,
        Class::Fail(Why::Spent) => 5,
        Class::Fail(Why::Other) => 6,
    }
}
