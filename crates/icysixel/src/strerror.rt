//! The call that describes a result code in English.

ghost use Rattle.std.specs.Prelude.{◌≡◌, ◌+◌, ◌<◌, ◌≤◌, ◌∷◌, ◌++◌, length, drop};
ghost use Rattle.icysixel.specs.Descriptions.{description};

use icy_sixel::error;

/// Writes the description of a code and a zero to the buffer.
///
/// It writes only a zero if both do not fit. It returns the length of the description.
#[unsafe(no_mangle)]
pub extern "C" fn icysixel_strerror(code: u32, buf: &mut [u8]) -> usize
    ensures length { result ≡ length (description code) }
    ensures text { result < length buf.old
        → buf.new ≡ description code ++ (0 ∷ drop (result + 1) buf.old) }
    ensures empty { 0 < length buf.old → length buf.old ≤ result
        → buf.new ≡ 0 ∷ drop 1 buf.old }
{
    write_text(description(code).as_bytes(), buf)
}

/// Writes a text and a zero to the buffer, or only a zero if both do not fit.
///
/// It returns the length of the text.
fn write_text(text: &[u8], buf: &mut [u8]) -> usize
    ensures length { result ≡ length text.now }
    ensures text { result < length buf.old
        → buf.new ≡ text.now ++ (0 ∷ drop (result + 1) buf.old) }
    ensures empty { 0 < length buf.old → length buf.old ≤ result
        → buf.new ≡ 0 ∷ drop 1 buf.old }
{
    if text.len() < buf.len() {
        buf[..text.len()].copy_from_slice(text);
        buf[text.len()] = 0;
    } else if !buf.is_empty() {
        buf[0] = 0;
    }
    text.len()
}

/// The description of a code.
fn description(code: u32) -> &'static str
    ensures { result.now ≡ description code }
{
    match code {
        0 => "success",
        1 => "the handle is empty",
        2 => "no image is open",
        3 => "the image has no size yet",
        4 => "no image is stored",
        5 => "the option is unknown",
        6 => "the buffer is too small",
        7 => error::SHORT_STRIDE,
        8 => "out of memory",
        9 => "integer overflow",
        10 => "invalid dimensions",
        11 => "buffer size mismatch",
        12 => "no SIXEL data found (missing DCS introducer)",
        13 => error::MALFORMED,
        14 => error::TOO_LARGE,
        15 => error::BAD_HEADER,
        16 => error::MISSING_COMMAND,
        17 => error::INCOMPLETE,
        20 => error::COLOR_COUNT,
        21 => error::INDEX_RANGE,
        22 => error::ROWS_NOT_FINAL,
        23 => error::ROWS_RELEASED,
        _ => "unknown code",
    }
}
