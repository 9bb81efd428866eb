//! Writes a row of eight fields.

ghost use Rattle.std.specs.Prelude.{◌≡◌, ◌∷◌, [], decimal, map, OnOk};
ghost use Rattle.record_text.specs.ConfigRows.{padded};
ghost use Rattle.record_text.specs.Writing.{IsBetween, Wrote};

use csv::Writer;
use itoa::Buffer;
use std::alloc::AllocError;

/// Writes a record of these fields. Records of one length, into memory, have no error but want of it.
pub fn write_row(writer: &mut Writer<Vec<u8>>, fields: &[&[u8]]) -> Result<(), AllocError>
    requires { IsBetween writer.old }
    ensures { OnOk result (Wrote writer.old writer.new (map (λ f. f.now) fields.now ∷ [])) }
{
    let Ok(()) = writer.write_fields(fields) else {
        return Err(AllocError);
    };
    Ok(())
}

/// Writes a record of a word alone.
pub fn write_word(writer: &mut Writer<Vec<u8>>, word: &[u8]) -> Result<(), AllocError>
    requires { IsBetween writer.old }
    ensures { OnOk result (Wrote writer.old writer.new (padded (word.now ∷ []) ∷ [])) }
{
    write_row(writer, &[word, b"", b"", b"", b"", b"", b"", b""])
}

/// Writes a record of a word and a number.
pub fn write_one(writer: &mut Writer<Vec<u8>>, word: &[u8], number: u32) -> Result<(), AllocError>
    requires { IsBetween writer.old }
    ensures { OnOk result (Wrote writer.old writer.new (padded (word.now ∷ decimal number ∷ []) ∷ [])) }
{
    let mut digits = Buffer::new();
    let number = digits.format(number).as_bytes();
    write_row(writer, &[word, number, b"", b"", b"", b"", b"", b""])
}

/// Writes a record of a word and two numbers.
pub fn write_two(
    writer: &mut Writer<Vec<u8>>,
    word: &[u8],
    first: u32,
    second: u32,
) -> Result<(), AllocError>
    requires { IsBetween writer.old }
    ensures { OnOk result (Wrote writer.old writer.new (padded (word.now ∷ decimal first ∷ decimal second ∷ []) ∷ [])) }
{
    let mut one = Buffer::new();
    let mut other = Buffer::new();
    let first = one.format(first).as_bytes();
    let second = other.format(second).as_bytes();
    write_row(writer, &[word, first, second, b"", b"", b"", b"", b""])
}

/// Writes a record of a word and three numbers.
pub fn write_three(
    writer: &mut Writer<Vec<u8>>,
    word: &[u8],
    first: u32,
    second: u32,
    third: u32,
) -> Result<(), AllocError>
    requires { IsBetween writer.old }
    ensures { OnOk result (Wrote writer.old writer.new (padded (word.now ∷ decimal first ∷ decimal second ∷ decimal third ∷ []) ∷ [])) }
{
    let mut one = Buffer::new();
    let mut two = Buffer::new();
    let mut three = Buffer::new();
    let first = one.format(first).as_bytes();
    let second = two.format(second).as_bytes();
    let third = three.format(third).as_bytes();
    write_row(writer, &[word, first, second, third, b"", b"", b"", b""])
}
