//! What is told of a rollback.
ghost use Rattle.std.specs.Prelude.{◌≡◌};
ghost use Rattle.node_rules.specs.Machine.{gone_to, height_of};

use block_rules::{Chain, Verdict};

// The height of the newest of so many blocks.
fn newest_height(blocks: u32) -> Option<u32>
    ensures { result ≡ height_of blocks }
{
    blocks.checked_sub(1)
}

/// What is told of a rollback by so many blocks, which came to this chain.
pub fn rolled_back(count: u32, chain: Chain) -> Verdict
    ensures { result ≡ gone_to count chain }
{
    Verdict::RolledBack {
        count,
        height: newest_height(chain.blocks),
        hash: chain.tip,
        leaves: chain.leaves,
    }
}
