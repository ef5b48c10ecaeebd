//! The numbers that C receives: result codes and statuses of a feed.

ghost use Rattle.std.specs.Prelude.{◌≡◌, ◌≢◌};
ghost use Rattle.sixel_base.specs.{CallFault.{CallFault, IsCallFault}, Fault.{Fault, IsFault}};
ghost use Rattle.icysixel.specs.Code.{IsCallCode, IsCodeOf, fault_code, status_code, status_byte};

use icy_sixel::script::Status;
use icy_sixel::{SixelDcsFeedStatus, SixelError, SixelFeedStatus, error};

/// What a call returns to C: success, or why it failed.
#[derive(Clone, Copy)]
pub enum Code {
    /// The call succeeded.
    Success = 0,
    /// The handle is empty.
    NoHandle = 1,
    /// No image is open.
    NoSession = 2,
    /// The open image has no size yet.
    NoSize = 3,
    /// No image is stored.
    NoImage = 4,
    /// A number is none that the header names.
    BadOption = 5,
    /// A buffer is too small.
    BufferTooSmall = 6,
    /// The stride is shorter than a row.
    BadStride = 7,
    /// An allocation failed.
    OutOfMemory = 8,
    /// A size does not fit its type.
    Overflow = 9,
    /// A size is zero, or above the limits of the format.
    BadDimensions = 10,
    /// There are too few pixels, or the last one is incomplete.
    BufferMismatch = 11,
    /// The data have no introducer.
    NoSixelData = 12,
    /// A command breaks the grammar or a limit.
    Malformed = 13,
    /// The image has more pixels than the limit.
    TooLarge = 14,
    /// The header has an invalid byte.
    BadHeader = 15,
    /// The DCS sequence ends in its header.
    MissingCommand = 16,
    /// The DCS sequence has not ended.
    Incomplete = 17,
    /// The number of colors is not 1 to 256.
    ColorCount = 20,
    /// A palette index is past the palette.
    IndexRange = 21,
    /// Rows of the open image are not final.
    RowsNotFinal = 22,
    /// Rows of the open image were released.
    RowsReleased = 23,
}

/// What C does after a feed: `icysixel_status` of the header.
#[derive(Clone, Copy)]
pub enum FeedStatus {
    /// It feeds the next chunk.
    More = 0,
    /// The image has ended.
    Complete = 1,
    /// CAN or SUB ended the image early.
    Cancelled = 2,
    /// Another control ended the image early.
    Interrupted = 3,
    /// The image needs more data, and rows of it have become final.
    Rows = 4,
}

/// The code of an error.
pub fn code_of(error: &SixelError) -> u32
    ensures fault { (fault : Fault) → IsFault error.now fault → result ≡ fault_code fault }
    ensures code { IsCodeOf result error.now }
    ensures call { (fault : CallFault) → IsCallFault error.now fault → IsCallCode result fault }
    ensures memory { error.now ≡ SixelError.OutOfMemory → result ≡ 8 }
    ensures refused { result ≢ 0 }
{
    match error {
        SixelError::OutOfMemory => Code::OutOfMemory as u32,
        SixelError::NoSixelData => Code::NoSixelData as u32,
        SixelError::IntegerOverflow => Code::Overflow as u32,
        SixelError::InvalidDimensions { .. } => Code::BadDimensions as u32,
        SixelError::BufferSizeMismatch { .. } => Code::BufferMismatch as u32,
        SixelError::InvalidData(error::TOO_LARGE) => Code::TooLarge as u32,
        SixelError::InvalidData(error::BAD_HEADER) => Code::BadHeader as u32,
        SixelError::InvalidData(error::MISSING_COMMAND) => Code::MissingCommand as u32,
        SixelError::InvalidData(error::INCOMPLETE) => Code::Incomplete as u32,
        SixelError::InvalidData(error::STREAM_FAILED) => Code::NoSession as u32,
        SixelError::InvalidData(error::DCS_STREAM_FAILED) => Code::NoSession as u32,
        SixelError::InvalidData(error::COLOR_COUNT) => Code::ColorCount as u32,
        SixelError::InvalidData(error::INDEX_RANGE) => Code::IndexRange as u32,
        SixelError::InvalidData(error::ROWS_NOT_FINAL) => Code::RowsNotFinal as u32,
        SixelError::InvalidData(error::ROWS_RELEASED) => Code::RowsReleased as u32,
        SixelError::InvalidData(error::SHORT_STRIDE) => Code::BadStride as u32,
        SixelError::InvalidData(_) => Code::Malformed as u32,
    }
}

/// The number of a status.
pub fn status_code(status: Status) -> u32
    ensures { result ≡ status_code status }
{
    match status {
        Status::Payload(SixelFeedStatus::NeedMoreData) => FeedStatus::More as u32,
        Status::Payload(SixelFeedStatus::Terminated(_)) => FeedStatus::Complete as u32,
        Status::Dcs(SixelDcsFeedStatus::NeedMoreData) => FeedStatus::More as u32,
        Status::Dcs(SixelDcsFeedStatus::Complete) => FeedStatus::Complete as u32,
        Status::Dcs(SixelDcsFeedStatus::Cancelled(_)) => FeedStatus::Cancelled as u32,
        Status::Dcs(SixelDcsFeedStatus::Interrupted(_)) => FeedStatus::Interrupted as u32,
    }
}

/// The control byte that ended an image early, or 0.
pub fn status_byte(status: Status) -> u8
    ensures { result ≡ status_byte status }
{
    match status {
        Status::Payload(SixelFeedStatus::NeedMoreData) => 0,
        Status::Payload(SixelFeedStatus::Terminated(byte)) => byte,
        Status::Dcs(SixelDcsFeedStatus::NeedMoreData) => 0,
        Status::Dcs(SixelDcsFeedStatus::Complete) => 0,
        Status::Dcs(SixelDcsFeedStatus::Cancelled(byte)) => byte,
        Status::Dcs(SixelDcsFeedStatus::Interrupted(byte)) => byte,
    }
}
