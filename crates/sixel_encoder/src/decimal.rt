//! Numbers in decimal.

ghost use Rattle.std.specs.Prelude.{◌≡◌, ◌++◌, OnOk, decimal, string_bytes};

use std::alloc::AllocError;

/// Appends a number in decimal.
pub fn push_number(text: &mut String, number: usize) -> Result<(), AllocError>
    ensures { OnOk result (string_bytes text.new ≡ string_bytes text.old ++ decimal number) }
{
    if number >= 10 {
        push_number(text, number / 10)?;
    }
    text.push(char::from(b'0' + (number % 10) as u8))
}
