//! The header of a PAM file: lines of a field's name and its value.

ghost use Rattle.std.specs.Prelude.{◌≡◌, [], IfOk, MatchResult, MatchOption, Ok, Err, None, Some};
ghost use Rattle.sixel.specs.netpbm.Fields.{IsHeader};
ghost use Rattle.sixel.specs.netpbm.Pam.{first, is_end, pam_header, read_lines, tuple_depth};
ghost use Rattle.sixel.specs.netpbm.Pam.{header_of_fields, no_fields, with_field, with_line};

use crate::netpbm::error::NetpbmError;
use crate::netpbm::header::{Header, check};
use crate::netpbm::words::{skip_blanks, split_word};
use crate::number::number;

/// The fields that were read.
#[derive(Clone, Copy)]
pub struct Fields {
    /// Pixels in a row.
    pub width: Option<usize>,
    /// Rows.
    pub height: Option<usize>,
    /// Samples of a pixel.
    pub depth: Option<usize>,
    /// The greatest sample.
    pub maxval: Option<usize>,
    /// The samples of a pixel of the tuple type, or 0 if it is unknown.
    pub tuple_depth: Option<usize>,
}

/// The header after its magic number, and the bytes after it.
pub fn read_pam(bytes: &[u8]) -> Result<(Header, &[u8]), NetpbmError>
    ensures read { MatchResult result (λ read. pam_header bytes.now ≡ Ok (read.0, read.1.now))
        (λ error. pam_header bytes.now ≡ Err error) }
    ensures header { IfOk result (λ read. IsHeader read.0) }
{
    let Some((fields, raster)) = read_fields(bytes) else {
        return Err(NetpbmError::Header);
    };
    Ok((fields.header()?, raster))
}

/// The fields of the lines before that of `ENDHDR`, and the bytes after it.
fn read_fields(bytes: &[u8]) -> Option<(Fields, &[u8])>
    ensures { MatchOption result (read_lines no_fields [] bytes.now ≡ None)
        (λ read. read_lines no_fields [] bytes.now ≡ Some (read.0, read.1.now)) }
{
    let mut fields = Fields::none();
    let mut start = 0;
    'bytes: for (index, byte) in bytes.iter().enumerate() {
        if *byte == b'\n' {
            let line = &bytes[start..index];
            if is_end(line) {
                return Some((fields, &bytes[index + 1..]));
            }
            fields = fields.with_line(line)?;
            start = index + 1;
        }
    }
    None
}

impl Fields {
    /// No fields.
    fn none() -> Self
        ensures { result ≡ no_fields }
    {
        Self {
            width: None,
            height: None,
            depth: None,
            maxval: None,
            tuple_depth: None,
        }
    }

    /// The fields with that of a line, if it is one.
    fn with_line(self, line: &[u8]) -> Option<Self>
        ensures { result ≡ with_line self line.now }
    {
        let (name, rest) = split_word(skip_blanks(line));
        let (value, rest) = split_word(skip_blanks(rest));
        if name.is_empty() || name.starts_with(b"#") {
            return Some(self);
        }
        if !skip_blanks(rest).is_empty() {
            return None;
        }
        self.with_field(name, value)
    }

    /// The fields with that of this name, if it was not there before.
    fn with_field(self, name: &[u8], value: &[u8]) -> Option<Self>
        ensures { result ≡ with_field self name.now value.now }
    {
        let mut fields = self;
        if name == b"WIDTH".as_slice() {
            fields.width = Some(first(self.width, number(value))?);
        } else if name == b"HEIGHT".as_slice() {
            fields.height = Some(first(self.height, number(value))?);
        } else if name == b"DEPTH".as_slice() {
            fields.depth = Some(first(self.depth, number(value))?);
        } else if name == b"MAXVAL".as_slice() {
            fields.maxval = Some(first(self.maxval, number(value))?);
        } else if name == b"TUPLTYPE".as_slice() {
            fields.tuple_depth = Some(first(self.tuple_depth, Some(tuple_depth(value)))?);
        } else {
            return None;
        }
        Some(fields)
    }

    /// The header of these fields.
    fn header(self) -> Result<Header, NetpbmError>
        ensures value { result ≡ header_of_fields self }
        ensures header { IfOk result IsHeader }
    {
        let header = check(self.width, self.height, self.depth, self.maxval)?;
        if header.depth > 4 || self.tuple_depth.is_some_and(|depth| depth != header.depth) {
            return Err(NetpbmError::TupleType);
        }
        Ok(header)
    }
}

/// The value of a field that was not there before.
fn first(earlier: Option<usize>, value: Option<usize>) -> Option<usize>
    ensures { result ≡ first earlier value }
{
    match earlier {
        Some(_) => None,
        None => value,
    }
}

/// Whether a line is the last one of the header.
fn is_end(line: &[u8]) -> bool
    ensures { result ≡ is_end line.now }
{
    split_word(skip_blanks(line)).0 == b"ENDHDR".as_slice()
}

/// The samples of a pixel of this tuple type, or 0 if it is unknown.
fn tuple_depth(name: &[u8]) -> usize
    ensures { result ≡ tuple_depth name.now }
{
    if name == b"RGB_ALPHA".as_slice() {
        4
    } else if name == b"RGB".as_slice() {
        3
    } else if name == b"GRAYSCALE_ALPHA".as_slice() || name == b"BLACKANDWHITE_ALPHA".as_slice() {
        2
    } else if name == b"GRAYSCALE".as_slice() || name == b"BLACKANDWHITE".as_slice() {
        1
    } else {
        0
    }
}
