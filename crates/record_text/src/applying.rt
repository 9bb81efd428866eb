//! Takes the records of a text in order, up to the first fault.

ghost use Rattle.std.specs.Prelude.{◌≡◌, ◌≢◌, ◌<◌, length, Err, IfOk};
ghost use Rattle.record_text.specs.Steps.{taken};
ghost use Rattle.record_text.specs.Text.{records_in};

use crate::parser::Parser;
use csv::ReaderBuilder;
use std::alloc::Global;

/// Takes the records of a text of less than 2 GiB one after the other, from 1 on: the parser after the last, or the first fault.
pub fn take_records<S: Parser>(alloc: Global, text: &[u8], first: S) -> Result<S, S::Fault>
    requires bounded { length text.now < 2147483648 }
    requires sound { S.is_sound first }
    ensures value { result ≢ Err S.refused → result ≡ taken S.step 1 first (records_in text.now) }
    ensures sound { IfOk result (λ s. S.is_sound s) }
{
    let reader = ReaderBuilder::new()
        .has_headers(false)
        .flexible(true)
        .from_reader(alloc, text);
    let mut parser = first;
    let mut number = 1;
    for row in reader.into_byte_records() {
        // A record of any length is one, and a slice has no error of its own.
        let Ok(row) = row else {
            return Err(S::out_of_memory());
        };
        parser = parser.take(alloc, number, &row)?;
        number += 1;
    }
    Ok(parser)
}
