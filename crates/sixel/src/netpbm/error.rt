//! The errors of reading an image.

ghost use Rattle.std.specs.Prelude.{◌≡◌};
ghost use Rattle.sixel.specs.declared.netpbm.error.NetpbmError.TheVariants.{OutOfMemory};

use std::alloc::AllocError;
use thiserror::Error;

/// Why an image is not read.
#[derive(Debug, PartialEq, Eq, Drop, Error)]
pub enum NetpbmError {
    /// The bytes do not begin as a PAM, a PPM or a PGM file.
    #[error("no PAM, PPM or PGM data found")]
    Magic,
    /// A field of the header is missing, repeated, unknown or out of range.
    #[error("malformed netpbm header")]
    Header,
    /// The depth is above 4, or the tuple type is unknown or has another depth.
    #[error("unsupported PAM tuple type")]
    TupleType,
    /// There are fewer pixels than the header states.
    #[error("incomplete netpbm image")]
    Incomplete,
    /// An allocation failed.
    #[error("out of memory")]
    OutOfMemory,
}

impl From<AllocError> for NetpbmError {
    ghost from_gives = { λ _ error. error ≡ OutOfMemory };

    fn from(_error: AllocError) -> NetpbmError {
        NetpbmError::OutOfMemory
    }
}
