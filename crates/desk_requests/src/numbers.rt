//! Decimal numbers of a head.

ghost use Rattle.std.specs.Prelude.{◌≡◌, ◌^◌, ◌-◌, min};
ghost use Rattle.std.specs.List.{list_all};
ghost use Rattle.net_types.specs.Numerals.{is_digit, is_numeral, value};
ghost use Rattle.desk_requests.specs.Numbers.{number_of, is_length};

// The least number that is told from none above it: 2^64.
const CAP: u128 = 1 << 64;

/// The number of a review in a text: decimal, without a leading zero, and below 2^64. Else none.
pub fn number_of(text: &[u8]) -> Option<u64>
    ensures { result ≡ number_of text.now }
{
    let number = capped_value(text);
    if is_numeral(text) && number < CAP {
        Some(number as u64)
    } else {
        None
    }
}

/// Whether a text is one or more digits alone.
pub fn is_length(text: &[u8]) -> bool
    ensures { result ≡ is_length text.now }
{
    match text {
        [] => false,
        [_, ..] => are_digits(text),
    }
}

/// The value of digits, or 2^64 where it is greater.
pub fn capped_value(digits: &[u8]) -> u128
    ensures { result ≡ min (value digits.now) (2 ^ 64) }
{
    let mut number = 0;
    for digit in digits {
        number = (number * 10 + place_value(*digit)).min(CAP);
    }
    number
}

fn place_value(digit: u8) -> u128
    ensures { result ≡ digit - 48 }
{
    u128::from(digit.saturating_sub(b'0'))
}

fn is_digit(byte: u8) -> bool
    ensures { result ≡ is_digit byte }
{
    48 <= byte && byte <= 57
}

fn are_digits(text: &[u8]) -> bool
    ensures { result ≡ list_all is_digit text.now }
{
    text.iter().all(|byte| is_digit(*byte))
}

fn is_numeral(text: &[u8]) -> bool
    ensures { result ≡ is_numeral text.now }
{
    match text {
        [] => false,
        [digit] => is_digit(*digit),
        [first, ..] => *first != b'0' && are_digits(text),
    }
}
