//! The classes of the bytes of a DCS sequence, by DEC's C0 and C1 controls.
//!
//! Each class tests for printable bytes first, because nearly all bytes of a payload are printable.

ghost use Rattle.std.specs.Prelude.{◌≡◌, ◌⊎◌, IsTrue, false};
ghost use Rattle.sixel_base.specs.Bytes.{is_ignored as ignored, is_terminator as terminator};
ghost use Rattle.sixel_base.specs.Bytes.{is_parameter as parameter};
ghost use Rattle.sixel_base.specs.inside.Parameters.{IsDigit};

/// Whether the byte is an ignored control: C0 or DEL, but no terminator.
pub fn is_ignored(byte: u8) -> bool
    ensures { result ≡ ignored byte }
{
    !matches!(byte, 0x20..=0x7e) && matches!(byte, 0x00..=0x17 | 0x19 | 0x1c..=0x1f | 0x7f)
}

/// Whether the byte ends a payload: CAN, SUB, ESC, or a C1 control.
pub fn is_terminator(byte: u8) -> bool
    ensures { result ≡ terminator byte }
{
    !matches!(byte, 0x20..=0x7e) && matches!(byte, 0x18 | 0x1a | 0x1b | 0x80..=0x9f)
}

/// Whether the byte is a digit or a semicolon.
pub fn is_parameter(byte: u8) -> bool
    ensures class { result ≡ parameter byte }
    ensures bytes { IsTrue result → IsDigit byte ⊎ (byte ≡ 59) }
{
    matches!(byte, b'0'..=b'9' | b';')
}

/// Whether the byte opens a command that mostly has one number: `!` or `#`.
#[inline(always)]
pub fn is_numbered(byte: u8) -> bool
    ensures bytes { IsTrue result → (byte ≡ 33) ⊎ (byte ≡ 35) }
    ensures others { result ≡ false → (byte ≡ 33 → ⊥) × (byte ≡ 35 → ⊥) }
{
    matches!(byte, b'!' | b'#')
}
