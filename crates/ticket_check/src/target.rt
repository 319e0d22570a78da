//! What a ticket's proof is made of.
ghost use Rattle.std.specs.Prelude.{◌≡◌, ◌<◌, ◌^◌, IfOk};
ghost use Rattle.ticket_check.specs.Alone.{target_at as target_at_of};

use proof_shape::{ShapeFault, Targets};
use std::alloc::Global;
use uo_base::NoMemory;
use uo_digest::{Digest, Digests};

/// The place of the forest over `n` entries with this fixed position, as the one target. `None` where there is none.
pub(crate) fn target_at(alloc: Global, n: u64, number: u64) -> Result<Option<Targets>, NoMemory>
    requires { n < 2 ^ 40 }
    ensures { IfOk result (λ targets. targets ≡ target_at_of n number) }
{
    match Targets::new_fixed(alloc, n, &[number]) {
        Ok(targets) => Ok(Some(targets)),
        Err(ShapeFault::Outside(_)) => Ok(None),
        Err(ShapeFault::NoMemory) => Err(NoMemory),
        // One place repeats none, and does not stand beneath itself.
        Err(ShapeFault::Repeated(..)) => unreachable!(),
        Err(ShapeFault::Beneath(..)) => unreachable!(),
    }
}

/// The hashes, each in its turn.
pub(crate) fn copies_of(alloc: Global, hashes: &Digests<'_>) -> Result<Vec<Digest>, NoMemory>
    ensures { IfOk result (λ copies. copies.items ≡ hashes.now) }
{
    let mut copies = Vec::with_capacity(alloc, hashes.len())?;
    for i in 0..hashes.len() {
        copies.push(hashes.get(i))?;
    }
    Ok(copies)
}
