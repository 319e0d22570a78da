//! Why no mark was made.
ghost use Rattle.std.specs.Prelude.{◌≡◌};
ghost use Rattle.cache_update.specs.declared.fault.BeginFault.TheVariants.{NoMemory as NoMemoryFault};

use std::alloc::AllocError;
use uo_base::NoMemory;

/// Why `begin` made no mark.
#[derive(Clone, Copy, Debug, PartialEq, Eq)]
pub enum BeginFault {
    /// The cache is none of the forest over the targets' entries: that lacks a number or a place of it, or one kept entry stands
    /// where another does, or above it.
    Elsewhere,
    /// There was no memory.
    NoMemory,
}

impl From<AllocError> for BeginFault {
    ghost from_gives = { λ _ e. e ≡ NoMemoryFault };

    fn from(_e: AllocError) -> BeginFault {
        BeginFault::NoMemory
    }
}

impl From<NoMemory> for BeginFault {
    ghost from_gives = { λ _ e. e ≡ NoMemoryFault };

    fn from(_e: NoMemory) -> BeginFault {
        BeginFault::NoMemory
    }
}
