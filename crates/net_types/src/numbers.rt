//! Decimal numbers in a text.

ghost use Rattle.std.specs.Prelude.{◌≡◌, ◌^◌, ◌<◌, ◌-◌, min};
ghost use Rattle.std.specs.List.{list_all};
ghost use Rattle.net_types.specs.Numerals.{is_digit, is_numeral, number_in, value};

/// The greatest number that `read_number` tells from those above it.
const CAP: u64 = 1 << 60;

/// The number of a text that is a decimal number without a sign or a leading zero and from `low` to
/// `high`, both counted. Else none.
pub fn read_number(text: &[u8], low: u64, high: u64) -> Option<u64>
    requires { high < 2 ^ 60 }
    ensures { result ≡ number_in low high text.now }
{
    let number = capped_value(text);
    if is_numeral(text) && low <= number && number <= high {
        Some(number)
    } else {
        None
    }
}

fn is_digit(byte: u8) -> bool
    ensures { result ≡ is_digit byte }
{
    48 <= byte && byte <= 57
}

fn is_numeral(text: &[u8]) -> bool
    ensures { result ≡ is_numeral text.now }
{
    match text {
        [] => false,
        [digit] => is_digit(*digit),
        [first, ..] => *first != b'0' && are_digits(text),
    }
}

fn are_digits(text: &[u8]) -> bool
    ensures { result ≡ list_all is_digit text.now }
{
    text.iter().all(|byte| is_digit(*byte))
}

// The digits' value, or CAP where it is greater.
fn capped_value(digits: &[u8]) -> u64
    ensures { result ≡ min (value digits.now) (2 ^ 60) }
{
    let mut number = 0;
    for digit in digits {
        number = (number * 10 + place_value(*digit)).min(CAP);
    }
    number
}

fn place_value(digit: u8) -> u64
    ensures { result ≡ digit - 48 }
{
    u64::from(digit.saturating_sub(b'0'))
}
