//! Some hundred entries on several pages, of which some are let go.
ghost use Rattle.std.specs.Prelude.{◌≡◌, ◌<◌};

use super::beside::{Both, Pick, add, add_all, check, cut, forget_each, spend_all, turn_each};
use live_forest::Forest;
use std::alloc::{AllocError, Global};
use std::marker::Brand;
use std::process::Abort;
use std::sync::ledger::{Blank, Ledger};
use std::test::Fail;
use uo_base::NoMemory;
use uo_digest::{Sha512t256, Steps};

#[derive(Clone, Copy)]
enum Change {
    AddAll,
    AddEach,
    SpendAll,
    TurnEach,
    Forget,
    Cut,
}

use Change::{AddAll, AddEach, Cut, Forget, SpendAll, TurnEach};

/// Changes of each such entry from a number on and before another that is a multiple of a third one.
const CHANGES: [(Change, u64, u64, u64); 17] = [
    (AddAll, 0, 150, 1),
    (SpendAll, 0, 150, 3),
    // Of each six, the first is let go and the fourth comes back.
    (Forget, 0, 150, 6),
    (TurnEach, 0, 150, 3),
    (AddEach, 150, 260, 1),
    (TurnEach, 100, 260, 2),
    (Forget, 128, 256, 4),
    // A page of which nothing is left, beside one with a single entry.
    (SpendAll, 128, 256, 1),
    (SpendAll, 1, 128, 1),
    (Forget, 3, 256, 1),
    (AddAll, 260, 300, 1),
    // What is spent and was not let go comes back.
    (TurnEach, 0, 256, 1),
    (TurnEach, 256, 260, 2),
    // Added entries are taken back, and others come in their place.
    (Cut, 261, 300, 1),
    (AddAll, 261, 280, 1),
    (TurnEach, 0, 280, 7),
    (SpendAll, 256, 280, 1),
];

fn add_each<L: Ledger>(
    rt: &impl Abort,
    both: &mut Both,
    from: u64,
    to: u64,
    steps: &mut Steps<L>,
) -> Result<(), AllocError> {
    for _ in from..to {
        add(rt, both, steps)?;
    }
    Ok(())
}

fn make_change<L: Ledger>(
    rt: &impl Abort,
    alloc: Global,
    both: &mut Both,
    row: &(Change, u64, u64, u64),
    steps: &mut Steps<L>,
) -> Result<(), AllocError> {
    let (change, from, to, step) = *row;
    let pick = Pick {
        period: step,
        bits: 1,
    };
    match change {
        AddAll => add_all(rt, alloc, both, from, to, steps)?,
        AddEach => add_each(rt, both, from, to, steps)?,
        SpendAll => spend_all(rt, alloc, both, from, to, pick, steps)?,
        TurnEach => turn_each(both, from, to, pick, steps),
        Forget => forget_each(rt, both, from, to, pick),
        Cut => cut(both, from, steps),
    }
    Ok(())
}

fn check_changes<L: Ledger>(rt: &impl Abort, alloc: Global, blank: Blank) -> Result<(), NoMemory>
    requires name { blank.name ≡ L.name }
    requires parts { blank.parts ≡ L.parts }
    requires some { 0 < blank.parts }
{
    let mut steps = Steps::<L>::new(blank);
    let mut both = Both {
        forest: Forest::<Sha512t256>::new(alloc),
        entries: Vec::new(alloc),
        held: Vec::new(alloc),
    };
    both.forest.reserve(300)?;
    for row in &CHANGES {
        make_change(rt, alloc, &mut both, row, &mut steps)?;
        check(rt, alloc, &both, &mut steps)?;
    }
    Ok(())
}

#[test]
fn changes_on_pages(rt: HostRuntime) -> Result<(), Fail> {
    check_changes::<Brand>(&rt, rt.alloc(), Blank::new(1))?;
    Ok(())
}
