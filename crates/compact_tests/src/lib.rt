//! Tests of the compact node, and the blocks that they and those of the bridge and the relay are made of.
//!
//! They stand in a crate of their own, so that the node is not proved a second time for them.
#![tactic(auto)]

ghost use Rattle.std.specs.Prelude.{◌≡◌};

mod blocks;
#[cfg(test)]
mod tests;

pub use blocks::{FULL, NONE, Sketch, block_paying};

/// The entries behind the block of this height, where each block but the first adds one.
pub fn entries_at(height: u32) -> u64
    ensures { result ≡ height }
{
    u64::from(height)
}
