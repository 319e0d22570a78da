//! Why a block was not made.
use std::alloc::{AllocError, AllocFailed};
use uo_base::NoMemory as OutOfMemory;

/// Why `block_behind` made no block.
#[derive(Clone, Copy, Debug, PartialEq, Eq)]
pub enum SampleFault {
    /// The block has 2^32 bytes or more.
    TooLong,
    /// Two different places that are paired in the merkle tree hold equal hashes, as where a transaction stands there twice.
    Repeated,
    /// There was no memory.
    NoMemory,
}

impl From<OutOfMemory> for SampleFault {
    fn from(_: OutOfMemory) -> SampleFault {
        SampleFault::NoMemory
    }
}

impl From<AllocError> for SampleFault {
    fn from(_: AllocError) -> SampleFault {
        SampleFault::NoMemory
    }
}

impl<T: Drop> From<AllocFailed<T>> for SampleFault {
    fn from(_: AllocFailed<T>) -> SampleFault {
        SampleFault::NoMemory
    }
}
