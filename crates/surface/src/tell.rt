//! Lines of what calls answered.

use anyhow::Result;

/// Prints the words, the numbers after them, and a semicolon.
pub(crate) fn tell(rt: &HostRuntime, words: &str, numbers: &[u64]) -> Result<()> {
    print!(rt; " {words}")?;
    for number in numbers {
        print!(rt; " {number}")?;
    }
    print!(rt; ";")?;
    Ok(())
}

/// Prints the crate's name.
pub(crate) fn begin(rt: &HostRuntime, name: &str) -> Result<()> {
    print!(rt; "{name}:")?;
    Ok(())
}

/// Ends the line.
pub(crate) fn end(rt: &HostRuntime) -> Result<()> {
    println!(rt; "")?;
    Ok(())
}

/// The number, or 999 where there is none.
pub(crate) fn known(number: Option<u32>) -> u64 {
    match number {
        Some(number) => number as u64,
        None => 999,
    }
}
