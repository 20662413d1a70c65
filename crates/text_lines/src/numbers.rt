//! Numbers in decimal digits.

ghost use Rattle.std.specs.Prelude.{◌≡◌, ◌<◌, ◌≤◌, ◌^◌, length, IfSome};
ghost use Rattle.text_lines.specs.Numbers.{digits_value_of, number_of};

/// A number of so many digits fits 64 bits, signed or not, and so does the sum of nine such.
const MOST_DIGITS: usize = 18;

#[tactic(auto, using(crate::proofs::lemmas::NumberLemmas::no_digits, crate::proofs::lemmas::NumberLemmas::too_many, crate::proofs::lemmas::NumberLemmas::few_digits))]
/// The number that a field spells in 1 to 18 decimal digits, leading zeros included, or `None`.
pub fn number(field: &[u8]) -> Option<u64>
    ensures value { result ≡ number_of field.now }
    ensures small { IfSome result (λ n. n < 10 ^ 18) }
{
    if field.is_empty() {
        return None;
    }
    if field.len() > MOST_DIGITS {
        return None;
    }
    digits_value(field)
}

/// What digits spell, or `None` where another sign is among them.
fn digits_value(field: &[u8]) -> Option<u64>
    requires { length field.now ≤ 18 }
    ensures value { result ≡ digits_value_of field.now }
    ensures small { IfSome result (λ n. n < 10 ^ 18) }
{
    let mut value = 0;
    for byte in field {
        if !byte.is_ascii_digit() {
            return None;
        }
        value = 10 * value + u64::from(*byte - b'0');
    }
    Some(value)
}
