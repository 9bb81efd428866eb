//! Reads decimal numbers.

ghost use Rattle.std.specs.Prelude.{◌≡◌, ℕ, ◌^◌, ◌≤◌, Some, true, IfSome, MatchOption, IsTrue, decimal};
ghost use Rattle.std.specs.Char.{is_ascii_digit};
ghost use Rattle.std.specs.List.{list_all};
ghost use Rattle.std.specs.Str.Parse.{digits_value};
ghost use Rattle.cam_types.specs.Number.{has_leading_zero, is_decimal, number_of};

/// The number that a text spells: decimal digits without a zero before another digit, at most `most`.
pub fn read_number(text: &[u8], most: u64) -> Option<u64>
    ensures value { result ≡ number_of most text.now }
    ensures within { IfSome result (λ n. n ≤ most) }
    // What is read is spelled so, and what is spelled so is read.
    ensures spelled { IfSome result (λ n. text.now ≡ decimal n) }
    ensures read { (n : ℕ) → n ≤ most → text.now ≡ decimal n → result ≡ Some n }
{
    number_of(text, most)
}

#[tactic(auto, unfolding(crate::specs::Number::number_of))]
fn number_of(text: &[u8], most: u64) -> Option<u64>
    ensures value { result ≡ number_of most text.now }
    ensures within { IfSome result (λ n. n ≤ most) }
{
    if !is_decimal(text) {
        return None;
    }
    let number = value_of_digits(text)?;
    (number <= most).then_some(number)
}

fn is_decimal(text: &[u8]) -> bool
    ensures { result ≡ is_decimal text.now }
{
    !text.is_empty() && !has_leading_zero(text) && are_digits(text)
}

fn has_leading_zero(text: &[u8]) -> bool
    ensures { result ≡ has_leading_zero text.now }
{
    text.len() > 1 && text[0] == b'0'
}

fn are_digits(text: &[u8]) -> bool
    ensures { result ≡ list_all is_ascii_digit text.now }
{
    text.iter().all(|byte| byte.is_ascii_digit())
}

// The number that the digits spell, where it is below 2^64.
#[tactic(auto, using(crate::proofs::NumberLemmas::value_more))]
fn value_of_digits(text: &[u8]) -> Option<u64>
    requires { IsTrue (is_decimal text.now) }
    ensures { MatchOption result (2 ^ 64 ≤ digits_value 10 text.now) (λ n. n ≡ digits_value 10 text.now) }
{
    let mut number: u64 = 0;
    for byte in text {
        let digit = u64::from(*byte - b'0');
        if number > (u64::MAX - digit) / 10 {
            return None;
        }
        number = 10 * number + digit;
    }
    Some(number)
}
