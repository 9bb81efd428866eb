//! Quotes in a line of CSV.

// Where a place in a line is.
#[derive(Clone, Copy)]
enum Place {
    /// At the beginning of a field.
    Front,
    /// In a field without quotes, where a quote is a character like others.
    Plain,
    /// In a quoted field.
    Quoted,
    /// After a quote in a quoted field: its end, or the first of two that stand for one.
    Closed,
}

/// Whether each quoted field of a line ends where the field does (RFC 4180).
pub fn are_quotes_whole(line: &[u8]) -> bool {
    let mut place = Place::Front;
    for byte in line {
        match after(place, *byte) {
            None => return false,
            Some(next) => place = next,
        }
    }
    place != Place::Quoted
}

// Where the place after a character is. None if a field goes on after its quotes.
fn after(place: Place, byte: u8) -> Option<Place> {
    match (place, byte) {
        (Place::Front, b'"') | (Place::Closed, b'"') => Some(Place::Quoted),
        (Place::Quoted, b'"') => Some(Place::Closed),
        (Place::Quoted, _) => Some(Place::Quoted),
        (_, b',') => Some(Place::Front),
        (Place::Closed, _) => None,
        (Place::Front | Place::Plain, _) => Some(Place::Plain),
    }
}
