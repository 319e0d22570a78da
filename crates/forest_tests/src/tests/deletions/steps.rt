//! Proofs that take few steps.
ghost use Rattle.std.specs.Prelude.{◌≡◌, ◌+◌, ◌*◌, ◌<◌, ◌≤◌, ◌^◌, length};
ghost use Rattle.forest_place.specs.Position.{rows};

use crate::digest;
use forest_roots::Roots;
use proof_shape::Targets;
use proof_verify::{Scratch, check_and_delete};
use std::alloc::Global;
use std::marker::Brand;
use std::process::Abort;
use std::sync::ledger::{Blank, Ledger};
use uo_digest::{Digest, Steps, XorFold};

// Accepts a proof, in at most two steps for each target and row.
fn accept<L: Ledger>(
    rt: &impl Abort,
    alloc: Global,
    mut roots: Roots<XorFold>,
    positions: &[u64],
    leaves: &[Digest],
    hashes: &[Digest],
    steps: &mut Steps<L>,
)
    requires { roots.leaves < 2 ^ 40 }
    ensures { steps.new ≤ steps.old + 2 * (length positions.now * rows roots.leaves) }
{
    assert!(rt; positions.len() < 1 << 32);
    let Ok(targets) = Targets::new(alloc, roots.leaves(), positions) else {
        panic!(rt; "no targets")
    };
    let mut scratch = Scratch::new(alloc);
    let Ok(()) = scratch.reserve(&targets) else {
        panic!(rt; "no memory")
    };
    assert!(rt; leaves.len() == targets.len() as usize);
    let accepted = check_and_delete(
        &mut roots,
        &targets,
        leaves,
        hashes,
        &mut scratch,
        steps,
    ).is_ok();
    assert!(rt; accepted);
}

fn spend_one_of_four<L: Ledger>(rt: &impl Abort, alloc: Global, steps: &mut Steps<L>)
    ensures { steps.new ≤ steps.old + 4 }
{
    let mut roots = Roots::of(4);
    roots.put_root(2, Some(digest(15)));
    accept(
        rt,
        alloc,
        roots,
        &[1],
        &[digest(2)],
        &[digest(1), digest(12)],
        steps,
    );
}

fn spend_two_of_eight<L: Ledger>(rt: &impl Abort, alloc: Global, steps: &mut Steps<L>)
    ensures { steps.new ≤ steps.old + 12 }
{
    let mut roots = Roots::of(8);
    roots.put_root(3, Some(digest(255)));
    let leaves = [digest(4), digest(8)];
    let hashes = [digest(3), digest(240)];
    accept(rt, alloc, roots, &[2, 3], &leaves, &hashes, steps);
}

fn check_steps<L: Ledger>(rt: &impl Abort, alloc: Global, blank: Blank)
    requires name { blank.name ≡ L.name }
    requires parts { blank.parts ≡ L.parts }
    requires some { 0 < blank.parts }
{
    let mut steps = Steps::<L>::new(blank);
    spend_one_of_four(rt, alloc, &mut steps);
    spend_two_of_eight(rt, alloc, &mut steps);
}

#[test]
fn few_steps(rt: HostRuntime) {
    check_steps::<Brand>(&rt, rt.alloc(), Blank::new(1));
}
