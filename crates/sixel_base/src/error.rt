//! The errors of the encoder and of the decoder.

ghost use Rattle.std.specs.Prelude.{◌≡◌};
ghost use Rattle.sixel_base.specs.declared.error.SixelError.TheVariants.{OutOfMemory};
ghost use Rattle.sixel_base.specs.Fault.{IsFault, Malformed, TooLarge, MissingCommand, BadHeader};
ghost use Rattle.sixel_base.specs.Fault.{StreamFailed, DcsStreamFailed, Incomplete, is_fault};
ghost use Rattle.sixel_base.specs.CallFault.{IsCallFault, ColorCount, IndexRange};
ghost use Rattle.sixel_base.specs.CallFault.{RowsNotFinal, RowsReleased, ShortStride};

use std::alloc::{AllocError, AllocFailed};
use thiserror::Error;

/// The text of data that break the grammar or a limit of one command.
pub const MALFORMED: &str = "malformed SIXEL data";
/// The text of an image whose area is above the limit.
pub const TOO_LARGE: &str = "image dimensions too large";
/// The text of a DCS sequence that ends in its header.
pub const MISSING_COMMAND: &str = "missing SIXEL DCS command";
/// The text of a header with a byte that has no place in it.
pub const BAD_HEADER: &str = "invalid SIXEL DCS header";
/// The text of a payload session after an error.
pub const STREAM_FAILED: &str = "stream decoder has failed";
/// The text of a DCS session after an error.
pub const DCS_STREAM_FAILED: &str = "DCS stream decoder has failed";
/// The text of a DCS sequence that has not ended.
pub const INCOMPLETE: &str = "incomplete SIXEL DCS sequence";
/// The text of a palette without colors, or with more than there are registers.
pub const COLOR_COUNT: &str = "number of colors is not 1 to 256";
/// The text of a palette index that no color of the palette has.
pub const INDEX_RANGE: &str = "palette index out of range";
/// The text of rows that are not final: bytes to come can change or add them.
pub const ROWS_NOT_FINAL: &str = "rows are not final";
/// The text of rows that were released, so that no memory has them.
pub const ROWS_RELEASED: &str = "rows were released";
/// The text of a stride that is shorter than a row of the caller's memory.
pub const SHORT_STRIDE: &str = "stride is shorter than a row";

/// The result of a call that can fail.
pub type Result<T> = std::result::Result<T, SixelError>;

/// Returns what is invalid, for an error with this text: SIXEL data, or an argument of a call.
fn subject(text: &str) -> &'static str {
    match text {
        COLOR_COUNT | INDEX_RANGE | ROWS_NOT_FINAL | ROWS_RELEASED | SHORT_STRIDE => {
            "invalid argument"
        }
        _ => "invalid SIXEL data",
    }
}

/// Why a call failed.
#[derive(Debug, PartialEq, Eq, Drop, Error)]
pub enum SixelError {
    /// A size is zero, or above the limits of the format.
    #[error("invalid dimensions: {width}x{height}")]
    InvalidDimensions { width: usize, height: usize },
    /// The pixels have another number of bytes than the sizes require.
    #[error("buffer size mismatch: expected {expected} bytes, got {actual}")]
    BufferSizeMismatch { expected: usize, actual: usize },
    /// The data, a palette or rows are invalid, for this reason.
    #[error("{}: {}", subject(.0), .0)]
    InvalidData(&'static str),
    /// The data have no DCS introducer.
    #[error("no SIXEL data found (missing DCS introducer)")]
    NoSixelData,
    /// A size does not fit its type.
    #[error("integer overflow")]
    IntegerOverflow,
    /// An allocation failed.
    #[error("out of memory")]
    OutOfMemory,
}

impl SixelError {
    /// Whether the data are wrong. An allocation that failed is no fault of the data.
    pub fn is_fault(&self) -> bool
        ensures { result ≡ is_fault self.now }
    {
        !matches!(self, SixelError::OutOfMemory)
    }

    /// The error of data that break the grammar or a limit of one command.
    pub fn malformed() -> SixelError
        ensures { IsFault result Malformed }
    {
        SixelError::InvalidData(MALFORMED)
    }

    /// The error of an image whose area is above the limit.
    pub fn too_large() -> SixelError
        ensures { IsFault result TooLarge }
    {
        SixelError::InvalidData(TOO_LARGE)
    }

    /// The error of a payload session after an earlier error.
    pub fn stream_failed() -> SixelError
        ensures { IsFault result StreamFailed }
    {
        SixelError::InvalidData(STREAM_FAILED)
    }

    /// The error of a DCS session after an earlier error.
    pub fn dcs_stream_failed() -> SixelError
        ensures { IsFault result DcsStreamFailed }
    {
        SixelError::InvalidData(DCS_STREAM_FAILED)
    }

    /// The error of a header with a byte that has no place in it.
    pub fn bad_header() -> SixelError
        ensures { IsFault result BadHeader }
    {
        SixelError::InvalidData(BAD_HEADER)
    }

    /// The error of a DCS sequence that ends in its header.
    pub fn missing_command() -> SixelError
        ensures { IsFault result MissingCommand }
    {
        SixelError::InvalidData(MISSING_COMMAND)
    }

    /// The error of a DCS sequence that is finished before it has ended.
    pub fn incomplete() -> SixelError
        ensures { IsFault result Incomplete }
    {
        SixelError::InvalidData(INCOMPLETE)
    }

    /// The error of a palette without colors, or with more than 256.
    pub fn color_count() -> SixelError
        ensures { IsCallFault result ColorCount }
    {
        SixelError::InvalidData(COLOR_COUNT)
    }

    /// The error of a palette index that no color of the palette has.
    pub fn index_range() -> SixelError
        ensures { IsCallFault result IndexRange }
    {
        SixelError::InvalidData(INDEX_RANGE)
    }

    /// The error of rows that are not final.
    pub fn rows_not_final() -> SixelError
        ensures { IsCallFault result RowsNotFinal }
    {
        SixelError::InvalidData(ROWS_NOT_FINAL)
    }

    /// The error of rows that were released.
    pub fn rows_released() -> SixelError
        ensures { IsCallFault result RowsReleased }
    {
        SixelError::InvalidData(ROWS_RELEASED)
    }

    /// The error of a stride that is shorter than a row.
    pub fn short_stride() -> SixelError
        ensures { IsCallFault result ShortStride }
    {
        SixelError::InvalidData(SHORT_STRIDE)
    }
}

impl From<AllocError> for SixelError {
    ghost from_gives = { λ _ e. e ≡ OutOfMemory };

    fn from(_error: AllocError) -> SixelError {
        SixelError::OutOfMemory
    }
}

impl<T: Drop> From<AllocFailed<T>> for SixelError {
    ghost from_gives = { λ _ e. e ≡ OutOfMemory };

    fn from(_error: AllocFailed<T>) -> SixelError {
        SixelError::OutOfMemory
    }
}
