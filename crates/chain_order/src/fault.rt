//! Why there is no path.
ghost use Rattle.std.specs.Prelude.{◌≡◌};

use std::alloc::{AllocError, AllocFailed};
use uo_digest::Digest;

/// Why no path to a block is answered.
#[derive(Clone, Copy, Debug, PartialEq, Eq)]
pub enum PathFault {
    /// No arrival has the hash of the tip.
    NoTip,
    /// Going back from the tip, this hash is named and has not arrived.
    Missing { hash: Digest },
    /// Going back from the tip, the arrival of this hash is met for the second time.
    Loop { hash: Digest },
    /// There was no memory.
    NoMemory,
}

impl From<AllocError> for PathFault {
    ghost use Rattle.chain_order.specs.declared.fault.PathFault.TheVariants.{NoMemory};

    ghost from_gives = { λ _ fault. fault ≡ NoMemory };

    fn from(_: AllocError) -> Self {
        PathFault::NoMemory
    }
}

impl<T: Drop> From<AllocFailed<T>> for PathFault {
    ghost use Rattle.chain_order.specs.declared.fault.PathFault.TheVariants.{NoMemory};

    ghost from_gives = { λ _ fault. fault ≡ NoMemory };

    fn from(_: AllocFailed<T>) -> Self {
        PathFault::NoMemory
    }
}
