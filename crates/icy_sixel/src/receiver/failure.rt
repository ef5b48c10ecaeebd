//! The error of an image that was rejected, without its text.

ghost use Rattle.std.specs.Prelude.{◌≢◌, Bool, Option, Some};
ghost use Rattle.sixel_base.specs.Fault.{Fault, Faults, MissingCommand};
ghost use Rattle.sixel_decoder.specs.FinishedImages.{IsStored};
ghost use Rattle.icy_sixel.specs.inside.Receiving.{IsFirst, fault_of};

use crate::receiver::FailedFeed;
use sixel_base::{SixelError, error};
use sixel_decoder::FailedRead;

/// Why the open image was rejected.
///
/// It has no reference, because the borrow checker covers no raw pointer to a type with one.
#[derive(Clone, Copy)]
pub(super) enum Failure {
    Malformed,
    TooLarge,
    BadHeader,
    StreamFailed,
    DcsStreamFailed,
    Incomplete,
    NoIntroducer,
    Overflow,
    OutOfMemory,
}

impl Failure {
    /// Returns the kind of an error.
    fn of(error: &SixelError) -> Failure
        ensures { (may : Bool) (found : Option Fault) → found ≢ Some MissingCommand
            → Faults error.now may found → IsStored (Some (fault_of result)) error.now }
    {
        match error {
            SixelError::InvalidData(error::TOO_LARGE) => Failure::TooLarge,
            SixelError::InvalidData(error::BAD_HEADER) => Failure::BadHeader,
            SixelError::InvalidData(error::STREAM_FAILED) => Failure::StreamFailed,
            SixelError::InvalidData(error::DCS_STREAM_FAILED) => Failure::DcsStreamFailed,
            SixelError::InvalidData(error::INCOMPLETE) => Failure::Incomplete,
            SixelError::InvalidData(_) => Failure::Malformed,
            SixelError::NoSixelData => Failure::NoIntroducer,
            SixelError::IntegerOverflow => Failure::Overflow,
            _ => Failure::OutOfMemory,
        }
    }

    /// Returns the error again.
    pub(super) fn error(self) -> SixelError
        ensures { IsStored (Some (fault_of self)) result }
    {
        match self {
            Failure::Malformed => SixelError::malformed(),
            Failure::TooLarge => SixelError::too_large(),
            Failure::BadHeader => SixelError::bad_header(),
            Failure::StreamFailed => SixelError::stream_failed(),
            Failure::DcsStreamFailed => SixelError::dcs_stream_failed(),
            Failure::Incomplete => SixelError::incomplete(),
            Failure::NoIntroducer => SixelError::NoSixelData,
            Failure::Overflow => SixelError::IntegerOverflow,
            Failure::OutOfMemory => SixelError::OutOfMemory,
        }
    }
}

/// Returns a failed feed with the error of the first one, and stores that error.
#[cold]
#[inline(never)]
pub(super) fn first_failed(failure: &mut Option<Failure>, failed: FailedRead) -> FailedFeed
    ensures { IsFirst failure.old failure.new failed result }
{
    let FailedRead { fed, error } = failed;
    match *failure {
        Some(first) => FailedFeed {
            consumed: fed.consumed,
            status: fed.status,
            error: first.error(),
        },
        None => {
            *failure = Some(Failure::of(&error));
            FailedFeed {
                consumed: fed.consumed,
                status: fed.status,
                error,
            }
        }
    }
}
