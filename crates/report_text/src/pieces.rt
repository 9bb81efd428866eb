//! The pieces of a line: words and numbers.

ghost use Rattle.std.specs.Prelude.{◌≡◌, ℕ, List, ◌≤◌, ◌++◌, Some, IfSome, MatchOption, decimal};

use cam_types::read_number;

/// What stands after a piece with which a text begins.
pub(crate) fn after<'a>(text: &'a [u8], piece: &[u8]) -> Option<&'a [u8]>
    ensures spelled { IfSome result (λ rest. text.now ≡ piece.now ++ rest.now) }
    ensures read { (rest : List ℕ) → text.now ≡ piece.now ++ rest → MatchOption result ⊥ (λ r. r.now ≡ rest) }
{
    if text.starts_with(piece) {
        Some(&text[piece.len()..])
    } else {
        None
    }
}

/// What stands before a piece with which a text ends.
pub(crate) fn before<'a>(text: &'a [u8], piece: &[u8]) -> Option<&'a [u8]>
    ensures spelled { IfSome result (λ rest. text.now ≡ rest.now ++ piece.now) }
    ensures read { (rest : List ℕ) → text.now ≡ rest ++ piece.now → MatchOption result ⊥ (λ r. r.now ≡ rest) }
{
    if text.ends_with(piece) {
        Some(&text[..text.len() - piece.len()])
    } else {
        None
    }
}

/// The number, at most `most`, that stands alone between two pieces of a line.
pub(crate) fn number_between(line: &[u8], front: &[u8], back: &[u8], most: u64) -> Option<u64>
    ensures spelled { IfSome result (λ n. (n ≤ most) × (line.now ≡ front.now ++ (decimal n ++ back.now))) }
    ensures read { (n : ℕ) → n ≤ most → line.now ≡ front.now ++ (decimal n ++ back.now) → result ≡ Some n }
{
    let rest = after(line, front)?;
    let digits = before(rest, back)?;
    read_number(digits, most)
}
