//! Three followers whose replies all come twice, in reversed order.
ghost use Rattle.std.specs.Prelude.{◌≡◌, ◌<◌, ◌^◌};

use super::{Relay, build, give, world};
use crate::number_in;
use compact_tests::{FULL, NONE};
use relay_core::{Act, Outcome};
use std::alloc::Global;
use std::marker::Brand;
use std::process::Abort;
use std::sync::ledger::{Blank, Ledger};
use std::test::Fail;
use uo_base::Event;
use uo_digest::{Digest, Steps};

/// The blocks that the bridge takes, by their heights and what their coinbases pay. Between these two lists it goes back by two.
const FIRST: [(u32, u64); 3] = [(0, FULL), (1, FULL), (2, FULL)];

const LATER: [(u32, u64); 3] = [(1, FULL - 1), (2, FULL), (3, FULL)];

/// Each follower asks, the bridge answers, and then the replies come. Tells whether each moved its follower the first time, and not again.
fn round<L: Ledger>(world: &mut Relay, number: u64, steps: &mut Steps<L>) -> Result<bool, Fail>
    requires { number < 2 ^ 16 }
{
    for follower in 0..3 {
        world.step(Act::Ask { follower }, steps)?;
    }
    for follower in 0..3 {
        let ask = number_in(number, follower);
        world.step(Act::Serve { ask }, steps)?;
    }
    for turn in 0..6 {
        let follower = 2 - turn / 2;
        let reply = number_in(number, follower);
        let outcome = world.step(Act::Deliver { follower, reply }, steps)?;
        let is_first = turn % 2 == 0;
        if is_first != matches!(outcome, Outcome::Moved { .. }) {
            return Ok(false);
        }
    }
    Ok(true)
}

/// The bridge takes the block of this height behind the one with this hash, whose hash is answered.
fn grow<L: Ledger>(
    alloc: Global,
    world: &mut Relay,
    prev: Digest,
    height: u32,
    pays: u64,
    steps: &mut Steps<L>,
) -> Result<Digest, Fail> {
    let block = build(alloc, prev, height, pays)?;
    give(world, &block, steps)?;
    Ok(block.hash)
}

/// The bridge takes these blocks one by one, with a round behind each. Answers the hash of the last.
fn grow_all<L: Ledger>(
    rt: &impl Abort,
    alloc: Global,
    world: &mut Relay,
    prev: Digest,
    blocks: &[(u32, u64)],
    first: u64,
    steps: &mut Steps<L>,
) -> Result<Digest, Fail>
    requires { first < 2 ^ 8 }
{
    let mut hash = prev;
    for i in 0..blocks.len().min(3) {
        let (height, pays) = blocks[i];
        hash = grow(alloc, world, hash, height, pays, steps)?;
        assert!(rt; round(world, first + i as u64, steps)?);
    }
    Ok(hash)
}

fn check<L: Ledger>(rt: &impl Abort, alloc: Global, blank: Blank) -> Result<(), Fail>
    requires name { blank.name ≡ L.name }
    requires parts { blank.parts ≡ L.parts }
    requires some { 0 < blank.parts }
{
    let mut steps = Steps::<L>::new(blank);
    let mut world = world(alloc, 3)?;
    let first = grow_all(rt, alloc, &mut world, NONE, &FIRST[..1], 0, &mut steps)?;
    grow_all(rt, alloc, &mut world, first, &FIRST[1..], 1, &mut steps)?;
    world.step(Act::Bridge(Event::Rollback { count: 2 }), &mut steps)?;
    assert!(rt; round(&mut world, 3, &mut steps)?);
    let last = grow_all(rt, alloc, &mut world, first, &LATER, 4, &mut steps)?;
    assert!(rt; world.followers() == 3);
    for follower in 0..3 {
        assert!(rt; world.serial(follower) == 6);
        assert!(rt; world.node(follower).chain().tip == last);
    }
    Ok(())
}

#[test]
fn twice_and_reversed(rt: HostRuntime) -> Result<(), Fail> {
    let alloc = rt.alloc();
    check::<Brand>(&rt, alloc, Blank::new(1))
}
