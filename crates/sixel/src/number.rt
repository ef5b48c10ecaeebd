//! Numbers in decimal digits.

ghost use Rattle.std.specs.Prelude.{◌≡◌, ◌≤◌, IfSome};
ghost use Rattle.sixel.specs.Number.{number_of, number_within, with_digit};

/// The number of this range that decimal digits spell, with no sign before them.
pub fn number_within(digits: &str, least: usize, most: usize) -> Option<usize>
    ensures number { result ≡ number_within least most digits.now }
    ensures least { IfSome result (λ n. least ≤ n) }
    ensures most { IfSome result (λ n. n ≤ most) }
{
    let number = number(digits.as_bytes())?;
    if least <= number && number <= most {
        Some(number)
    } else {
        None
    }
}

/// The number that decimal digits spell, if it fits its type.
pub fn number(digits: &[u8]) -> Option<usize>
    ensures { result ≡ number_of digits.now }
{
    if digits.is_empty() {
        return None;
    }
    let mut number: usize = 0;
    'digits: for byte in digits {
        number = with_digit(number, *byte)?;
    }
    Some(number)
}

/// Appends a decimal digit to a number.
fn with_digit(number: usize, byte: u8) -> Option<usize>
    ensures { result ≡ with_digit number byte }
{
    if !byte.is_ascii_digit() {
        return None;
    }
    let digit = usize::from(byte - b'0');
    if number > (usize::MAX - digit) / 10 {
        return None;
    }
    Some(10 * number + digit)
}
