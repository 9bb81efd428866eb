//! Lines of a word and up to six numbers.

/// The word of a line and the numbers after it, where those that are left out are 0.
#[derive(Clone, Copy)]
pub struct Words<'a> {
    pub word: &'a str,
    pub numbers: [u32; 6],
}

/// The word and the numbers of a line.
pub fn read_line(line: &str) -> Option<Words<'_>> {
    let mut words = line.split_whitespace();
    let word = words.next()?;
    let mut numbers = [0; 6];
    for number in numbers.iter_mut() {
        if let Some(word) = words.next() {
            *number = read_number(word)?;
        }
    }
    Some(Words { word, numbers })
}

// A number in decimal, or in hexadecimal after 0x.
fn read_number(word: &str) -> Option<u32> {
    match word.strip_prefix("0x") {
        Some(digits) => u32::from_str_radix(digits, 16).ok(),
        None => word.parse().ok(),
    }
}
