//! Why numbers are not those of targets.
ghost use Rattle.std.specs.Prelude.{◌≡◌};
ghost use Rattle.proof_shape.specs.declared.fault.ShapeFault.TheVariants.{NoMemory};

use std::alloc::{AllocError, AllocFailed};
use thiserror::Error;

/// Why a list of numbers, by position or by fixed position, names no targets. The first number is the least index at which it goes wrong.
#[derive(Clone, Copy, Debug, PartialEq, Eq, Error)]
pub enum ShapeFault {
    /// The number at this index is that of no place of the forest.
    #[error("target {0} is outside the forest")]
    Outside(u32),
    /// The number at the first index was at the second one already.
    #[error("target {0} repeats target {1}")]
    Repeated(u32, u32),
    /// The place at the first index stands above or beneath that at the second one, which comes before it. There may be
    /// several such; this is the first.
    #[error("target {0} stands above or beneath target {1}")]
    Beneath(u32, u32),
    /// There was no memory.
    #[error("out of memory")]
    NoMemory,
}

impl From<AllocError> for ShapeFault {
    ghost from_gives = { λ _ e. e ≡ NoMemory };

    fn from(_e: AllocError) -> ShapeFault {
        ShapeFault::NoMemory
    }
}

impl<T: Drop> From<AllocFailed<T>> for ShapeFault {
    ghost from_gives = { λ _ e. e ≡ NoMemory };

    fn from(_e: AllocFailed<T>) -> ShapeFault {
        ShapeFault::NoMemory
    }
}
