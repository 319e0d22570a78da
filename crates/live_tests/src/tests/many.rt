//! A million entries.
ghost use Rattle.std.specs.Prelude.{◌≡◌, ◌<◌, replicate, refl};

use crate::leaf;
use forest_place::Place;
use live_forest::Forest;
use std::alloc::Global;
use std::marker::Brand;
use std::process::Abort;
use std::sync::ledger::{Blank, Ledger};
use std::test::Fail;
use uo_base::NoMemory;
use uo_digest::{Digest, Digester, Steps};

const ENTRIES: u64 = 1 << 20;

// Where all of them have their root.
const ROOT: Place = Place { row: 20, off: 0 };

/// A digester that only answers: what is tried is where entries stand.
struct Still;

impl Digester for Still {
    ghost digest_of = { λ text. record { 0 = replicate 32 0 } };

    fn digest<L: Ledger>(_text: &[u8], steps: &mut Steps<L>) -> Digest {
        steps.tick();
        Digest([0; 32])
    }

    type Front = ();

    ghost holds = { λ front text. Unit {0} };

    fn front(_text: &[u8]) -> () {}

    fn digest_behind<L: Ledger>(_front: &(), _rest: &[u8], steps: &mut Steps<L>) -> Digest {
        steps.tick();
        Digest([0; 32])
    }

    ghost has_32_bytes = { λ text. refl };
}

// The i-th entry in an order that scatters them.
fn scattered(i: u64) -> u64 {
    i.wrapping_mul(0x5851_f42d_4c95_7f2d) % ENTRIES
}

fn add_all<L: Ledger>(rt: &impl Abort, forest: &mut Forest<Still>, steps: &mut Steps<L>) {
    for number in 0..ENTRIES {
        assert!(rt; 0 < forest.spare() && forest.leaves() < ENTRIES);
        assert!(rt; forest.add(leaf(number), steps) == number);
    }
}

// Looks each entry up and spends it. The last one stands at the root.
fn remove_all<L: Ledger>(rt: &impl Abort, forest: &mut Forest<Still>, steps: &mut Steps<L>) {
    for i in 0..ENTRIES {
        let number = scattered(i);
        assert!(rt; forest.live(number));
        let place = forest.place(number);
        assert!(rt; forest.number_at(place) == Some(number));
        assert!(rt; forest.digest_at(place) == Some(leaf(number)));
        assert!(rt; (place == ROOT) == (i == ENTRIES - 1));
        forest.remove(number, steps);
    }
}

fn restore_all<L: Ledger>(rt: &impl Abort, forest: &mut Forest<Still>, steps: &mut Steps<L>) {
    for i in 0..ENTRIES {
        let number = scattered(i);
        assert!(rt; number < forest.leaves() && !forest.live(number) && forest.held(number));
        forest.restore(number, leaf(number), steps);
    }
}

fn check_many<L: Ledger>(rt: &impl Abort, alloc: Global, blank: Blank) -> Result<(), NoMemory>
    requires name { blank.name ≡ L.name }
    requires parts { blank.parts ≡ L.parts }
    requires some { 0 < blank.parts }
{
    let mut steps = Steps::<L>::new(blank);
    let mut forest = Forest::<Still>::new(alloc);
    forest.reserve(ENTRIES)?;
    add_all(rt, &mut forest, &mut steps);
    remove_all(rt, &mut forest, &mut steps);
    assert!(rt; forest.root(20) == Some(None));
    restore_all(rt, &mut forest, &mut steps);
    assert!(rt; forest.number_at(Place { row: 0, off: 77 }) == Some(77));
    Ok(())
}

#[test]
fn changes_a_million(rt: HostRuntime) -> Result<(), Fail> {
    check_many::<Brand>(&rt, rt.alloc(), Blank::new(1))?;
    Ok(())
}
