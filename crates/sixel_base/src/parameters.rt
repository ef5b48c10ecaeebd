//! The numeric parameters of one command, read a byte at a time.
//!
//! Their text is not stored.

ghost use Rattle.std.specs.Prelude.{◌≡◌, ℕ, ◌+◌, ◌*◌, ◌<◌, ◌≤◌, min};
ghost use Rattle.std.specs.Prelude.{List, [], ◌∷◌, ◌++◌, length, slice_index, take};
ghost use Rattle.sixel_base.specs.Limits.{parameter_limit};
ghost use Rattle.sixel_base.specs.inside.Parameters.{AreRead, IsDigit, IsParameterByte, Keeps};

use std::marker::Model;

/// How many fields keep their values; no command of the format uses more.
pub const KEPT_FIELDS: usize = 5;

/// The byte between two fields.
pub const SEPARATOR: u8 = b';';

/// The greatest value of a field, which stands for any greater one.
const MAX_VALUE: u64 = 2_147_483_647;

/// A value that any digit can be added to; no command needs more.
const ENOUGH: u32 = 100_000_000;

/// The fields of a text of digits and semicolons.
///
/// The first five are stored. The text is split at each semicolon. An empty field is 0, and any
/// other field the lesser of its decimal value and `MAX_VALUE`. A text of no bytes has no field.
#[derive(Clone, Copy)]
pub struct Parameters {
    values: [u32; KEPT_FIELDS],
    count: usize,
}

impl Model for Parameters {
    ghost use Rattle.std.specs.Prelude.{◌≤◌};
    ghost use Rattle.sixel_base.specs.inside.Parameters.{Parameters as View};

    ghost Value = { View };

    ghost view = { λ p. record { values = p.values; count = p.count } };

    ghost inverse = { λ p. record { values = p.values; count = p.count } };

    ghost invariant = { λ p. p.count ≤ 6 };
}

/// The digits at the front of bytes, as parameters, and their number.
#[derive(Clone, Copy)]
pub struct Digits {
    pub parameters: Parameters,
    pub len: usize,
}

impl Digits {
    /// The digits that the bytes begin with, without those after the ninth that counts.
    #[inline(always)]
    pub fn at_front(bytes: &[u8]) -> Self
        ensures within { result.len ≤ length bytes.now }
        ensures digits { (k : ℕ) → k < result.len → IsDigit (slice_index bytes.now k) }
        ensures kept { Keeps result.parameters (take result.len bytes.now) }
    {
        let mut value: u32 = 0;
        let mut len = 0;
        if bytes.len() >= 3 {
            (value, len) = with_digit_at(bytes, 0, value, len);
            (value, len) = with_digit_at(bytes, 1, value, len);
            (value, len) = with_digit_at(bytes, 2, value, len);
        }
        'digits: while len < bytes.len() && value < ENOUGH && bytes[len].is_ascii_digit() {
            value = 10 * value + u32::from(bytes[len] - b'0');
            len += 1;
        }
        Self {
            parameters: Parameters {
                values: [value, 0, 0, 0, 0],
                count: len.min(1),
            },
            len,
        }
    }
}

/// Adds the byte at `at` to the digits at the front, if it is the next digit.
///
/// It returns their value and their number.
///
/// Both are chosen without a branch: few numbers are as long as the one before.
#[inline(always)]
fn with_digit_at(bytes: &[u8], at: usize, value: u32, len: usize) -> (u32, usize)
    requires inside { at < length bytes.now }
    requires room { value < 100000000 }
    ensures few { result.0 ≤ 10 * value + 9 }
    ensures read { AreRead bytes.now value len → AreRead bytes.now result.0 result.1 }
{
    let digit = u32::from(bytes[at].wrapping_sub(b'0'));
    let longer = 10 * value + digit;
    if len == at && digit < 10 {
        (longer, at + 1)
    } else {
        (value, len)
    }
}

impl Parameters {
    /// The parameters of a text of no bytes: no field.
    pub fn new() -> Self
        ensures { Keeps result [] }
    {
        Self {
            values: [0; KEPT_FIELDS],
            count: 0,
        }
    }

    /// How many fields the text has, where six stands for any more than five.
    pub fn len(&self) -> usize
        ensures value { result ≡ self.now.count }
        ensures limit { result ≤ 6 }
    {
        self.count
    }

    /// Returns the value of field `k`, counted from 0, or 0 if there is no such field.
    pub fn get(&self, k: usize) -> u32
        requires { k < KEPT_FIELDS }
        ensures { result ≡ slice_index self.now.values k }
    {
        self.values[k]
    }

    /// Adds a digit or a semicolon at the end of the text.
    #[inline(always)]
    pub fn push(&mut self, byte: u8)
        requires { IsParameterByte byte }
        ensures { (text : List ℕ) → Keeps self.old text → Keeps self.new (text ++ byte ∷ []) }
    {
        match byte {
            SEPARATOR => self.push_separator(),
            _ => self.push_digit(byte),
        }
    }

    /// Adds a digit, from `b'0'` to `b'9'`, at the end of the text.
    #[inline(always)]
    pub fn push_digit(&mut self, byte: u8)
        requires { IsDigit byte }
        ensures { (text : List ℕ) → Keeps self.old text → Keeps self.new (text ++ byte ∷ []) }
    {
        let last = self.count.saturating_sub(1);
        if last < KEPT_FIELDS {
            self.values[last] = with_digit(self.values[last], byte - b'0');
        }
        self.count = self.count.max(1);
    }

    /// Adds a semicolon at the end of the text.
    pub fn push_separator(&mut self)
        ensures { (text : List ℕ) → Keeps self.old text → Keeps self.new (text ++ SEPARATOR ∷ []) }
    {
        self.count = (self.count.max(1) + 1).min(KEPT_FIELDS + 1);
    }
}

// The value of a field that goes on with this digit.
fn with_digit(value: u32, digit: u8) -> u32
    requires { digit < 10 }
    ensures { result ≡ min (value * 10 + digit) parameter_limit }
{
    (u64::from(value) * 10 + u64::from(digit)).min(MAX_VALUE) as u32
}
