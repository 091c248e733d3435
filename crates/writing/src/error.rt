ghost use Rattle.std.specs.Prelude.{◌≡◌};
ghost use Rattle.writing.specs.declared.error.WriteError.TheVariants.{OutOfMemory, TooLong};

use std::alloc::{AllocError, AllocFailed};
use std::num::TryFromIntError;
use thiserror::Error;

/// Why a record is not written.
#[derive(Clone, Copy, PartialEq, Eq, Debug, Error)]
pub enum WriteError {
    /// Its body is longer than 65,535 bytes.
    #[error("a record is longer than 65,535 bytes")]
    TooLong,
    /// There is no memory for it.
    #[error("out of memory")]
    OutOfMemory,
}

/// Of a length that does not fit two bytes.
impl From<TryFromIntError> for WriteError {
    ghost from_gives = { λ _ e. e ≡ TooLong };

    fn from(_error: TryFromIntError) -> Self {
        Self::TooLong
    }
}

impl From<AllocError> for WriteError {
    ghost from_gives = { λ _ e. e ≡ OutOfMemory };

    fn from(_error: AllocError) -> Self {
        Self::OutOfMemory
    }
}

impl<T: Drop> From<AllocFailed<T>> for WriteError {
    ghost from_gives = { λ _ e. e ≡ OutOfMemory };

    fn from(_failed: AllocFailed<T>) -> Self {
        Self::OutOfMemory
    }
}
