//! Reading a block no further than its place in the chain asks for.
ghost use Rattle.std.specs.Prelude.{◌<◌, ◌^◌, length, IfOk};
ghost use Rattle.node_rules.specs.Arriving.{IsArrival};

use crate::arrival::Arrival;
use block_codec::{BlockFault, read_bare};
use std::alloc::Global;
use uo_base::NoMemory;
use uo_digest::Digest;

/// What bytes are beside the tip of a chain. The first rule is that a block names the tip: where it does not, none of its
/// transactions is hashed.
pub fn receive<'a>(alloc: Global, tip: Digest, bytes: &'a [u8]) -> Result<Arrival<'a>, NoMemory>
    requires { length bytes.now < 2 ^ 32 }
    ensures { IfOk result (λ arrival. IsArrival tip bytes.now arrival) }
{
    match read_bare(alloc, bytes) {
        Ok(block) => {
            if block.prev() == tip {
                Ok(Arrival::Linked(block.with_ids(alloc)?))
            } else {
                Ok(Arrival::Unlinked(block.hash()))
            }
        }
        Err(BlockFault::NotABlock) => Ok(Arrival::NoBlock),
        Err(BlockFault::NoMemory) => Err(NoMemory),
    }
}
