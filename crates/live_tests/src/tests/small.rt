//! All lists of two changes, of all forests of up to seven entries of which any are spent.
ghost use Rattle.std.specs.Prelude.{◌≡◌, ◌<◌};

use super::beside::{Both, Pick, add, check, cut, turn, turn_each};
use live_forest::Forest;
use std::alloc::{AllocError, Global};
use std::marker::Brand;
use std::process::Abort;
use std::sync::ledger::{Blank, Ledger};
use std::test::Fail;
use uo_base::NoMemory;
use uo_digest::{Sha512t256, Steps};

// The forest of a number, whose highest bit tells how many entries there are, and each bit below whether one is spent.
fn start<L: Ledger>(
    rt: &impl Abort,
    alloc: Global,
    forest: u64,
    steps: &mut Steps<L>,
) -> Result<Both, NoMemory> {
    let mut both = Both {
        forest: Forest::<Sha512t256>::new(alloc),
        entries: Vec::new(alloc),
        held: Vec::new(alloc),
    };
    both.forest.reserve(9)?;
    for number in 1..8u64 {
        if forest >> number > 0 {
            add(rt, &mut both, steps)?;
        }
    }
    let spent = Pick {
        period: 64,
        bits: forest,
    };
    turn_each(&mut both, 0, 7, spent, steps);
    Ok(both)
}

// Makes the change of a number, if it may be made.
fn change<L: Ledger>(
    rt: &impl Abort,
    both: &mut Both,
    number: u64,
    steps: &mut Steps<L>,
) -> Result<(), AllocError> {
    let leaves = both.forest.leaves();
    match number {
        0..=7 => turn(both, number, steps),
        8..=10 => cut(both, leaves.saturating_sub(number - 7), steps),
        _ => add(rt, both, steps)?,
    }
    Ok(())
}

// A list of two changes, whose digits to base 12 tell what they are.
fn check_list<L: Ledger>(
    rt: &impl Abort,
    alloc: Global,
    forest: u64,
    list: u64,
    steps: &mut Steps<L>,
) -> Result<(), NoMemory> {
    let mut both = start(rt, alloc, forest, steps)?;
    change(rt, &mut both, list % 12, steps)?;
    change(rt, &mut both, list / 12, steps)?;
    check(rt, alloc, &both, steps)?;
    Ok(())
}

fn check_all<L: Ledger>(rt: &impl Abort, alloc: Global, blank: Blank) -> Result<(), NoMemory>
    requires name { blank.name ≡ L.name }
    requires parts { blank.parts ≡ L.parts }
    requires some { 0 < blank.parts }
{
    let mut steps = Steps::<L>::new(blank);
    for number in 144..256 * 144 {
        check_list(rt, alloc, number / 144, number % 144, &mut steps)?;
    }
    Ok(())
}

#[test]
fn changes_few_entries(rt: HostRuntime) -> Result<(), Fail> {
    check_all::<Brand>(&rt, rt.alloc(), Blank::new(1))?;
    Ok(())
}
