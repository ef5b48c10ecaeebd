//! What a feed of an open image reports, whatever its form.

ghost use Rattle.std.specs.Prelude.{◌≡◌};
ghost use Rattle.sixel_decoder.specs.FedImages.{has_ended, of_payload_fed, of_sequence_fed};

use sixel_base::SixelError;
use sixel_base::status::{
    SixelDcsFeedResult, SixelDcsFeedStatus, SixelFeedResult, SixelFeedStatus,
};

/// The last status of a session.
#[derive(Clone, Copy, Debug, PartialEq, Eq)]
pub enum Status {
    /// The status of a payload.
    Payload(SixelFeedStatus),
    /// The status of a DCS sequence.
    Dcs(SixelDcsFeedStatus),
}

impl Status {
    /// Whether the image has ended, and no later byte belongs to it.
    pub fn has_ended(self) -> bool
        ensures { result ≡ has_ended self }
    {
        match self {
            Self::Payload(status) => status.terminator().is_some(),
            Self::Dcs(status) => status.has_ended(),
        }
    }
}

/// What a feed of a receiver did.
#[derive(Clone, Copy, Debug, PartialEq, Eq)]
pub struct Received {
    /// How many bytes of the chunk belong to the image.
    pub consumed: usize,
    /// What the caller does next, as a session of that form returns it.
    pub status: Status,
}

impl Received {
    /// Converts the result of feeding a payload.
    pub fn of_payload(fed: SixelFeedResult) -> Received
        ensures { result ≡ of_payload_fed fed }
    {
        Received {
            consumed: fed.consumed,
            status: Status::Payload(fed.status),
        }
    }

    /// Converts the result of feeding a DCS sequence.
    pub fn of_sequence(fed: SixelDcsFeedResult) -> Received
        ensures { result ≡ of_sequence_fed fed }
    {
        Received {
            consumed: fed.consumed,
            status: Status::Dcs(fed.status),
        }
    }
}

/// Why a feed of a reader failed, and what it did all the same.
#[derive(Drop)]
pub struct FailedRead {
    /// Which bytes of the chunk belong to the image, and whether it has ended.
    pub fed: Received,
    /// The error.
    pub error: SixelError,
}

impl From<FailedRead> for SixelError {
    ghost from_gives = { λ failed error. error ≡ failed.error };

    fn from(failed: FailedRead) -> SixelError {
        failed.error
    }
}
