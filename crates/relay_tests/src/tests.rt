//! Followers beside a bridge that goes from one branch to another.
mod branches;
mod rounds;

use block_samples::Sample;
use compact_tests::block_paying;
use leaf_cache::Watch;
use relay_core::{Act, Outcome, World};
use std::alloc::Global;
use std::sync::ledger::Ledger;
use std::test::Fail;
use tx_codec::OutView;
use uo_base::{Event, Limits, Net};
use uo_digest::{Digest, Sha512t256, Steps};

type Relay = World<Sha512t256>;

/// A world with so many followers who watch nothing.
fn world(alloc: Global, followers: u32) -> Result<Relay, Fail> {
    let mut watches = Vec::new(alloc);
    for _ in 0..followers {
        watches.push(Watch::empty(alloc))?;
    }
    if watches.len() >= 1 << 32 {
        return Err("few followers".into());
    }
    Ok(World::new(alloc, Net::Main, Limits::standard(), watches)?)
}

/// The block of this height behind the one with this hash, whose coinbase pays so much.
fn build(alloc: Global, prev: Digest, height: u32, pays: u64) -> Result<Sample, Fail> {
    let output = OutView {
        amount: pays,
        script: b"\x51",
    };
    Ok(block_paying(alloc, prev, height, output, &[])?)
}

/// What comes of the bridge's taking a block.
fn give<L: Ledger>(
    world: &mut Relay,
    block: &Sample,
    steps: &mut Steps<L>,
) -> Result<Outcome, Fail> {
    let block = block.text.as_slice();
    if block.len() > 4_000_000 {
        return Err("a short block".into());
    }
    let event = Event::Block {
        block,
        message: None,
    };
    Ok(world.step(Act::Bridge(event), steps)?)
}
