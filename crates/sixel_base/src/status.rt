//! Whether a payload or a DCS sequence has ended.

ghost use Rattle.std.specs.Prelude.{◌≡◌};
ghost use Rattle.sixel_base.specs.{Dcs.has_ended, Status.status_of};

/// Whether a payload has ended, as far as it was fed.
#[derive(Clone, Copy, Debug, PartialEq, Eq)]
pub enum SixelFeedStatus {
    /// Every byte was consumed: feed the next ones, or finish.
    NeedMoreData,
    /// The payload ended at this terminator, which is left to the caller: finish.
    Terminated(u8),
}

impl SixelFeedStatus {
    /// The terminator at which the payload ended.
    pub fn terminator(self) -> Option<u8>
        ensures { self ≡ status_of result }
    {
        match self {
            Self::NeedMoreData => None,
            Self::Terminated(byte) => Some(byte),
        }
    }
}

/// What a feed of a payload session did.
#[derive(Clone, Copy, Debug, PartialEq, Eq)]
pub struct SixelFeedResult {
    /// How many bytes of the chunk belong to the payload.
    pub consumed: usize,
    /// What the caller does next.
    pub status: SixelFeedStatus,
}

/// Whether a DCS sequence has ended, as far as it was fed.
#[derive(Clone, Copy, Debug, PartialEq, Eq)]
pub enum SixelDcsFeedStatus {
    /// Every byte was consumed: feed the next ones.
    NeedMoreData,
    /// The string terminator was consumed: finish.
    Complete,
    /// CAN or SUB, this byte, cancelled the sequence and was consumed: finish or abort.
    Cancelled(u8),
    /// Another control, this byte, interrupted the sequence: finish or abort.
    ///
    /// A C1 control is left to the caller. An ESC before another byte than `\` was consumed, and
    /// that byte is left to the caller.
    Interrupted(u8),
}

impl SixelDcsFeedStatus {
    /// Whether the DCS sequence has ended, and no later byte belongs to it.
    pub fn has_ended(self) -> bool
        ensures { result ≡ has_ended self }
    {
        !matches!(self, Self::NeedMoreData)
    }
}

/// What a feed of a DCS session did.
#[derive(Clone, Copy, Debug, PartialEq, Eq)]
pub struct SixelDcsFeedResult {
    /// How many bytes of the chunk belong to the DCS sequence.
    pub consumed: usize,
    /// What the caller does next.
    pub status: SixelDcsFeedStatus,
}
