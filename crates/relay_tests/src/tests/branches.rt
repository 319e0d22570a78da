//! One follower, act by act: a block more, a block off the chain, and a block of the other branch.
ghost use Rattle.std.specs.Prelude.{◌≡◌, ◌<◌};

use super::{Relay, build, give, world};
use block_rules::Verdict;
use block_samples::Sample;
use compact_tests::{FULL, NONE};
use relay_core::{Act, Kind, Outcome};
use std::alloc::Global;
use std::marker::Brand;
use std::process::Abort;
use std::sync::ledger::{Blank, Ledger};
use std::test::Fail;
use uo_base::Event;
use uo_digest::Steps;

/// What is done.
#[derive(Clone, Copy)]
enum Step {
    /// The bridge takes the first block, the second, or the other one of the second's height.
    Block(usize),
    Rollback,
    Ask,
    Serve(u64),
    Deliver(u64),
}

/// What comes of it. Whether the bridge does what is asked for is all that is said of it here.
#[derive(Clone, Copy)]
enum Told {
    Made,
    Asked(u64),
    Next(u64, u64),
    Same(u64),
    Back(u64, u32),
    Moved(u64),
    Stale,
    Unknown,
}

/// The acts, and what comes of each.
const ACTS: [(Step, Told); 22] = [
    (Step::Serve(0), Told::Unknown),
    (Step::Block(0), Told::Made),
    (Step::Block(1), Told::Made),
    (Step::Ask, Told::Asked(0)),
    (Step::Serve(0), Told::Next(0, 1)),
    (Step::Deliver(0), Told::Moved(1)),
    (Step::Deliver(0), Told::Stale),
    (Step::Ask, Told::Asked(1)),
    (Step::Serve(1), Told::Next(1, 2)),
    (Step::Deliver(1), Told::Moved(2)),
    (Step::Rollback, Told::Made),
    (Step::Block(2), Told::Made),
    (Step::Ask, Told::Asked(2)),
    (Step::Serve(2), Told::Back(2, 1)),
    (Step::Deliver(2), Told::Moved(1)),
    (Step::Ask, Told::Asked(3)),
    (Step::Serve(3), Told::Next(3, 3)),
    (Step::Deliver(3), Told::Moved(3)),
    (Step::Serve(0), Told::Next(4, 1)),
    (Step::Deliver(4), Told::Stale),
    (Step::Ask, Told::Asked(4)),
    (Step::Serve(4), Told::Same(5)),
];

fn replied(reply: u64, kind: Kind) -> Option<Outcome> {
    Some(Outcome::Replied { reply, kind })
}

/// The outcome that is told, if it is no verdict.
fn outcome_of(told: Told) -> Option<Outcome> {
    match told {
        Told::Made => None,
        Told::Asked(ask) => Some(Outcome::Asked { ask }),
        Told::Next(reply, serial) => replied(reply, Kind::Next { serial }),
        Told::Same(reply) => replied(reply, Kind::Same),
        Told::Back(reply, count) => replied(reply, Kind::Back { count }),
        Told::Moved(serial) => Some(Outcome::Moved { serial }),
        Told::Stale => Some(Outcome::Stale),
        Told::Unknown => Some(Outcome::Unknown),
    }
}

/// The outcome is what is told of it.
fn is_told(outcome: Outcome, told: Told) -> bool {
    match outcome_of(told) {
        Some(other) => outcome == other,
        None => matches!(
            outcome,
            Outcome::Judged(Verdict::Accepted { .. } | Verdict::RolledBack { .. })
        ),
    }
}

fn act<L: Ledger>(
    world: &mut Relay,
    blocks: &[Sample],
    step: Step,
    steps: &mut Steps<L>,
) -> Result<Outcome, Fail> {
    let act = match step {
        Step::Block(i) => {
            let Some(block) = blocks.get(i) else {
                return Err("a block".into());
            };
            return give(world, block, steps);
        }
        Step::Rollback => Act::Bridge(Event::Rollback { count: 1 }),
        Step::Ask => Act::Ask { follower: 0 },
        Step::Serve(ask) => Act::Serve { ask },
        Step::Deliver(reply) => Act::Deliver { follower: 0, reply },
    };
    Ok(world.step(act, steps)?)
}

/// Two blocks, and another one in place of the second.
fn blocks(alloc: Global) -> Result<Vec<Sample>, Fail> {
    let first = build(alloc, NONE, 0, FULL)?;
    let hash = first.hash;
    let mut blocks = Vec::new(alloc);
    blocks.push(first)?;
    blocks.push(build(alloc, hash, 1, FULL)?)?;
    blocks.push(build(alloc, hash, 1, FULL - 1)?)?;
    Ok(blocks)
}

fn check<L: Ledger>(rt: &impl Abort, alloc: Global, blank: Blank) -> Result<(), Fail>
    requires name { blank.name ≡ L.name }
    requires parts { blank.parts ≡ L.parts }
    requires some { 0 < blank.parts }
{
    let mut steps = Steps::<L>::new(blank);
    let blocks = blocks(alloc)?;
    let mut world = world(alloc, 1)?;
    for (step, told) in ACTS {
        let outcome = act(&mut world, &blocks, step, &mut steps)?;
        assert!(rt; is_told(outcome, told));
    }
    assert!(rt; world.followers() == 1);
    assert!(rt; world.serial(0) == 3);
    assert!(rt; world.node(0).chain() == world.bridge().chain());
    Ok(())
}

#[test]
fn from_branch_to_branch(rt: HostRuntime) -> Result<(), Fail> {
    let alloc = rt.alloc();
    check::<Brand>(&rt, alloc, Blank::new(1))
}
