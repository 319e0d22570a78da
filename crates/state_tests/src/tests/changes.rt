//! States of which one byte was changed.
ghost use Rattle.std.specs.Prelude.{◌≡◌, ◌<◌};

use super::two_kept;
use crate::most_entries;
use state_text::{StateFault, read_state};
use std::alloc::Global;
use std::marker::Brand;
use std::process::Abort;
use std::sync::ledger::{Blank, Ledger};
use std::test::Fail;
use uo_digest::{Steps, XorFold};

/// What comes of a changed state.
#[derive(Clone, Copy, PartialEq, Eq)]
enum Outcome {
    Read,
    NotAState,
    OtherVersion,
}

/// A byte, what it becomes, and what comes of it.
struct Change {
    at: usize,
    new: u8,
    outcome: Outcome,
}

const CHANGES: [Change; 18] = [
    // another magic, other versions
    Change {
        at: 3,
        new: b'P',
        outcome: Outcome::NotAState,
    },
    Change {
        at: 4,
        new: 9,
        outcome: Outcome::OtherVersion,
    },
    Change {
        at: 4,
        new: 3,
        outcome: Outcome::OtherVersion,
    },
    // the network: none, and regtest
    Change {
        at: 5,
        new: 2,
        outcome: Outcome::NotAState,
    },
    Change {
        at: 5,
        new: 1,
        outcome: Outcome::Read,
    },
    // fewer blocks than levels
    Change {
        at: 6,
        new: 2,
        outcome: Outcome::NotAState,
    },
    // a script of no bytes, and one that no entry has
    Change {
        at: 11,
        new: 0,
        outcome: Outcome::NotAState,
    },
    Change {
        at: 12,
        new: 0x52,
        outcome: Outcome::NotAState,
    },
    // no level
    Change {
        at: 13,
        new: 0,
        outcome: Outcome::NotAState,
    },
    // another newest block
    Change {
        at: 14,
        new: 0,
        outcome: Outcome::Read,
    },
    // the mark of a root, and the root
    Change {
        at: 54,
        new: 2,
        outcome: Outcome::NotAState,
    },
    Change {
        at: 55,
        new: 1,
        outcome: Outcome::NotAState,
    },
    // a number of no entry, one that is there twice, two equal places
    Change {
        at: 186,
        new: 2,
        outcome: Outcome::NotAState,
    },
    Change {
        at: 186,
        new: 0,
        outcome: Outcome::NotAState,
    },
    Change {
        at: 194,
        new: 0,
        outcome: Outcome::NotAState,
    },
    // an amount
    Change {
        at: 176,
        new: 1,
        outcome: Outcome::NotAState,
    },
    // an older level with more entries
    Change {
        at: 317,
        new: 3,
        outcome: Outcome::NotAState,
    },
    // the start with a newest block
    Change {
        at: 500,
        new: 1,
        outcome: Outcome::NotAState,
    },
];

fn outcome_of<L: Ledger>(
    rt: &impl Abort,
    alloc: Global,
    text: &[u8],
    steps: &mut Steps<L>,
) -> Outcome {
    match read_state::<XorFold, L>(alloc, text, most_entries(), steps) {
        Ok(_) => Outcome::Read,
        Err(StateFault::NotAState) => Outcome::NotAState,
        Err(StateFault::Version(version)) if text.get(4) == Some(&version) => Outcome::OtherVersion,
        Err(_) => panic!(rt; "a version that is not there, or no memory"),
    }
}

// The text of this version: all places are in row 0, where both have the same numbers.
fn check_changes<L: Ledger>(
    rt: &impl Abort,
    alloc: Global,
    version: u8,
    blank: Blank,
) -> Result<(), Fail>
    requires name { blank.name ≡ L.name }
    requires parts { blank.parts ≡ L.parts }
    requires some { 0 < blank.parts }
{
    let mut steps = Steps::<L>::new(blank);
    let mut text = two_kept(alloc)?;
    assert!(rt; text.len() > 4);
    text[4] = version;
    for change in &CHANGES {
        assert!(rt; change.at < text.len());
        let was = text[change.at];
        text[change.at] = change.new;
        assert!(rt;
            outcome_of(rt, alloc, &text, &mut steps) == change.outcome,
            "byte {}",
            change.at
        );
        text[change.at] = was;
    }
    text.push(0)?;
    assert!(rt; outcome_of(rt, alloc, &text, &mut steps) == Outcome::NotAState);
    Ok(())
}

#[test]
fn bytes_changed(rt: HostRuntime) -> Result<(), Fail> {
    for version in [1, 2] {
        check_changes::<Brand>(&rt, rt.alloc(), version, Blank::new(1))?;
    }
    Ok(())
}
