//! The words of a header.

ghost use Rattle.std.specs.Prelude.{◌≡◌};
ghost use Rattle.sixel.specs.netpbm.Words.{after_blanks, after_gap, after_word, blank, line_end};
ghost use Rattle.sixel.specs.netpbm.Words.{word_of};

/// Whether the byte is a blank: a space, a tab, a line feed or a carriage return.
pub fn is_blank(byte: u8) -> bool
    ensures { result ≡ blank byte }
{
    matches!(byte, b' ' | b'\t' | b'\n' | b'\r')
}

/// Whether the byte ends a comment: a line feed or a carriage return.
fn is_line_end(byte: u8) -> bool
    ensures { result ≡ line_end byte }
{
    matches!(byte, b'\n' | b'\r')
}

/// The bytes from the first on that is no blank.
pub fn skip_blanks(bytes: &[u8]) -> &[u8]
    ensures { result.now ≡ after_blanks bytes.now }
{
    'blanks: for (index, byte) in bytes.iter().enumerate() {
        if !is_blank(*byte) {
            return &bytes[index..];
        }
    }
    &[]
}

/// The bytes after blanks and comments.
///
/// A comment begins with `#`, where a blank may be, and ends with its line.
pub fn skip_gap(bytes: &[u8]) -> &[u8]
    ensures { result.now ≡ after_gap bytes.now }
{
    let mut in_comment = false;
    'gap: for (index, byte) in bytes.iter().enumerate() {
        if in_comment {
            in_comment = !is_line_end(*byte);
        } else if *byte == b'#' {
            in_comment = true;
        } else if !is_blank(*byte) {
            return &bytes[index..];
        }
    }
    &[]
}

/// Splits off the bytes before the first blank.
pub fn split_word(bytes: &[u8]) -> (&[u8], &[u8])
    ensures word { result.0.now ≡ word_of bytes.now }
    ensures rest { result.1.now ≡ after_word bytes.now }
{
    'word: for (index, byte) in bytes.iter().enumerate() {
        if is_blank(*byte) {
            return bytes.split_at(index);
        }
    }
    (bytes, &[])
}
