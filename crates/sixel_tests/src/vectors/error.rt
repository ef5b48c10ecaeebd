//! The errors of vectors.

use icy_sixel::SixelError;
use std::alloc::AllocError;
use std::array::TryFromSliceError;
use std::num::ParseIntError;
use thiserror::Error;

/// What a check returns.
pub type Result<T> = std::result::Result<T, VectorError>;

/// Why a vector fails.
#[derive(Debug, Drop, Error)]
pub enum VectorError {
    /// A check fails, or the line is not written as `data/README.md` says.
    #[error("{0}")]
    Check(&'static str),
    /// A call fails.
    #[error("{0}")]
    Sixel(#[from] SixelError),
    /// A number is malformed.
    #[error("{0}")]
    Number(#[from] ParseIntError),
    /// There are more or fewer columns.
    #[error("{0}")]
    Columns(#[from] TryFromSliceError),
    /// An allocation fails.
    #[error("{0}")]
    Memory(#[from(alloc)] AllocError),
}

/// Fails with a text unless the condition holds.
pub fn ensure(holds: bool, failure: &'static str) -> Result<()> {
    if holds {
        Ok(())
    } else {
        Err(VectorError::Check(failure))
    }
}
