//! The errors that stop the program.

ghost use Rattle.std.specs.Prelude.{◌≡◌};
ghost use Rattle.sixel_base.specs.declared.error.SixelError.TheVariants.{OutOfMemory};
ghost use Rattle.sixel.specs.declared.fault.Fault.TheVariants.{Sixel};
ghost use Rattle.sixel.specs.declared.fault.PictureFault.TheVariants.{Netpbm, Shared};

use crate::netpbm::NetpbmError;
use icy_sixel::SixelError;
use std::alloc::AllocError;
use thiserror::Error;

/// Why a program stops.
#[derive(Debug, Drop, Error)]
pub enum Fault {
    /// The data are rejected, or an allocation fails.
    #[error("{0}")]
    Sixel(SixelError),
    /// The input or the arguments can't be read.
    #[error("input fault")]
    Input,
    /// The output can't be written.
    #[error("output fault")]
    Output,
}

impl From<SixelError> for Fault {
    ghost from_gives = { λ error fault. fault ≡ Sixel error };

    fn from(error: SixelError) -> Fault {
        Fault::Sixel(error)
    }
}

impl From<AllocError> for Fault {
    ghost from_gives = { λ _ fault. fault ≡ Sixel OutOfMemory };

    fn from(_error: AllocError) -> Fault {
        Fault::Sixel(SixelError::OutOfMemory)
    }
}

/// Why work on an image in netpbm's formats stops.
#[derive(Debug, Drop, Error)]
pub enum PictureFault {
    /// An error of SIXEL data, of the input or of the output.
    #[error("{0}")]
    Shared(Fault),
    /// The input or the palette file is not an image in netpbm's formats.
    #[error("{0}")]
    Netpbm(NetpbmError),
}

impl From<Fault> for PictureFault {
    ghost from_gives = { λ fault error. error ≡ Shared fault };

    fn from(fault: Fault) -> PictureFault {
        PictureFault::Shared(fault)
    }
}

impl From<SixelError> for PictureFault {
    ghost from_gives = { λ error fault. fault ≡ Shared (Sixel error) };

    fn from(error: SixelError) -> PictureFault {
        PictureFault::Shared(Fault::Sixel(error))
    }
}

impl From<NetpbmError> for PictureFault {
    ghost from_gives = { λ error fault. fault ≡ Netpbm error };

    fn from(error: NetpbmError) -> PictureFault {
        PictureFault::Netpbm(error)
    }
}
