//! The header of an image: its sizes, and how its samples are stored.

ghost use Rattle.std.specs.Prelude.{◌≡◌, ◌<◌, ◌≤◌, IfOk, MatchResult, Ok, Err, Some};
ghost use Rattle.sixel.specs.netpbm.{Fields.{IsHeader, checked}, Header.{header_of, pnm_header}};

use crate::netpbm::error::NetpbmError;
use crate::netpbm::pam::read_pam;
use crate::netpbm::words::{skip_gap, split_word};
use crate::number::number;

/// The sizes of an image, and how its samples are stored.
#[derive(Clone, Copy)]
pub struct Header {
    /// Pixels in a row.
    pub width: usize,
    /// Rows.
    pub height: usize,
    /// Samples of a pixel.
    pub depth: usize,
    /// The greatest sample.
    pub maxval: usize,
}

/// The header that the bytes begin with, and the bytes after it.
pub fn read_header(bytes: &[u8]) -> Result<(Header, &[u8]), NetpbmError>
    ensures read { MatchResult result (λ read. header_of bytes.now ≡ Ok (read.0, read.1.now))
        (λ error. header_of bytes.now ≡ Err error) }
    ensures header { IfOk result (λ read. IsHeader read.0) }
{
    if bytes.starts_with(b"P7") {
        read_pam(&bytes[2..])
    } else if bytes.starts_with(b"P6") {
        read_pnm(&bytes[2..], 3)
    } else if bytes.starts_with(b"P5") {
        read_pnm(&bytes[2..], 1)
    } else {
        Err(NetpbmError::Magic)
    }
}

/// Reads the header of a PPM or a PGM file after its magic number.
///
/// It returns the bytes after the header too.
fn read_pnm(bytes: &[u8], depth: usize) -> Result<(Header, &[u8]), NetpbmError>
    requires { depth ≤ 4 }
    ensures read { MatchResult result
        (λ read. pnm_header depth bytes.now ≡ Ok (read.0, read.1.now))
        (λ error. pnm_header depth bytes.now ≡ Err error) }
    ensures header { IfOk result (λ read. IsHeader read.0) }
{
    let (width, rest) = split_word(skip_gap(bytes));
    let (height, rest) = split_word(skip_gap(rest));
    let (maxval, rest) = split_word(skip_gap(rest));
    let header = check(number(width), number(height), Some(depth), number(maxval))?;
    Ok((header, rest.split_at(1.min(rest.len())).1))
}

/// The header of these fields, if each is there and in range.
pub fn check(
    width: Option<usize>,
    height: Option<usize>,
    depth: Option<usize>,
    maxval: Option<usize>,
) -> Result<Header, NetpbmError>
    ensures checked { result ≡ checked width height depth maxval }
{
    match (width, height, depth, maxval) {
        (Some(width), Some(height), Some(depth), Some(maxval))
            if width > 0 && height > 0 && maxval > 0 && maxval < 65536 && depth > 0 => {
            Ok(Header {
                width,
                height,
                depth,
                maxval,
            })
        }
        _ => Err(NetpbmError::Header),
    }
}
