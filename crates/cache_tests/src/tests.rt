//! Two blocks by the exclusive or of the leaves beneath a node, worked out by hand: four additions of which the second is
//! watched, then a deletion of the first.
ghost use Rattle.std.specs.Prelude.{◌≡◌, ◌+◌, ◌<◌, ◌^◌, true, length, is_some, if◌then◌else◌};
ghost use Rattle.cache_update.specs.Marks.{Fits};

mod plain;
mod small;

use crate::output;
use cache_update::{Mark, after_add, after_delete, begin, between, step_back, undo};
use forest_place::Place;
use forest_roots::Roots;
use leaf_cache::{Cache, Parts, Watch};
use leaf_record::Record;
use proof_shape::Targets;
use proof_verify::{Scratch, check_and_delete};
use std::alloc::Global;
use std::marker::Brand;
use std::process::Abort;
use std::sync::ledger::{Blank, Ledger};
use uo_digest::{Digest, Steps, XorFold};

// A digest of one byte, 32 times.
fn digest(byte: u8) -> Digest {
    Digest([byte; 32])
}

// Adds an entry to the forest and to the cache.
fn add<L: Ledger>(
    cache: &mut Cache<XorFold>,
    mark: &mut Mark,
    roots: &mut Roots<XorFold>,
    byte: u8,
    leaf: Option<Record>,
    steps: &mut Steps<L>,
)
    requires fits { Fits mark.old cache.old.parts }
    requires left { 0 < mark.old.adds }
    requires watched { is_some leaf ≡ true → 0 < mark.old.watched }
    requires count { roots.old.leaves ≡ mark.old.leaves }
    requires few { roots.old.leaves + 1 < 2 ^ 40 }
    ensures fits { Fits mark.new cache.new.parts }
    ensures adds { mark.new.adds + 1 ≡ mark.old.adds }
    ensures watched { mark.new.watched + (if is_some leaf then 1 else 0) ≡ mark.old.watched }
    ensures leaves { mark.new.leaves ≡ mark.old.leaves + 1 }
    ensures count { roots.new.leaves ≡ mark.new.leaves }
{
    let n = roots.leaves();
    let joins = roots.add(digest(byte), steps);
    after_add(cache, mark, n, digest(byte), &joins, leaf);
}

// The cache holds these digests, at a row and an offset each, and keeps one entry at this place.
fn assert_holds(rt: &impl Abort, cache: &Cache<XorFold>, held: &[(u8, u64, u8)], place: Place) {
    assert_eq!(rt; cache.seen().held.len(), held.len());
    for (row, off, byte) in held {
        let at = Place {
            row: *row,
            off: *off,
        };
        assert!(rt; cache.known(at) == Some(digest(*byte)));
    }
    assert_eq!(rt; cache.kept().len(), 1);
    for entry in cache.kept() {
        assert_eq!(rt; entry.number, 1);
        assert!(rt; entry.place == place);
    }
}

const GROWN: [(u8, u64, u8); 5] = [(0, 0, 1), (0, 1, 2), (1, 0, 3), (1, 1, 12), (2, 0, 15)];

const SPENT: [(u8, u64, u8); 3] = [(1, 0, 2), (1, 1, 12), (2, 0, 14)];

// Four additions, the second one watched.
fn grow<L: Ledger>(
    rt: &impl Abort,
    alloc: Global,
    cache: &mut Cache<XorFold>,
    roots: &mut Roots<XorFold>,
    steps: &mut Steps<L>,
) -> Mark
    requires { roots.old.leaves ≡ 0 }
    ensures fits { Fits result cache.new.parts }
    ensures count { roots.new.leaves ≡ 4 }
{
    let Ok(none) = Targets::new(alloc, 0, &[]) else {
        panic!(rt; "no targets")
    };
    let Ok(mut mark) = begin(alloc, cache, &none, 4, 1) else {
        panic!(rt; "no memory")
    };
    add(cache, &mut mark, roots, 1, None, steps);
    add(cache, &mut mark, roots, 2, Some(output(alloc, 50)), steps);
    add(cache, &mut mark, roots, 4, None, steps);
    add(cache, &mut mark, roots, 8, None, steps);
    mark
}

// Spends the first of four entries.
fn spend<L: Ledger>(
    rt: &impl Abort,
    alloc: Global,
    cache: &mut Cache<XorFold>,
    roots: &mut Roots<XorFold>,
    steps: &mut Steps<L>,
) -> Mark
    requires { roots.old.leaves ≡ 4 }
    ensures { Fits result cache.new.parts }
{
    let Ok(targets) = Targets::new(alloc, 4, &[0]) else {
        panic!(rt; "no targets")
    };
    let Ok(mut mark) = begin(alloc, cache, &targets, 0, 0) else {
        panic!(rt; "no memory")
    };
    let mut scratch = Scratch::new(alloc);
    let Ok(()) = scratch.reserve(&targets) else {
        panic!(rt; "no memory")
    };
    let leaves = [digest(1)];
    assert!(rt; leaves.len() == targets.len() as usize);
    let hashes = [digest(2), digest(12)];
    let Ok(changes) = check_and_delete(roots, &targets, &leaves, &hashes, &mut scratch, steps)
    else {
        panic!(rt; "refused")
    };
    after_delete(cache, &mut mark, &targets, &changes);
    mark.shrink();
    mark
}

// Goes to these lists, by a mark between the cache's and them.
fn leap(rt: &impl Abort, alloc: Global, cache: &mut Cache<XorFold>, older: &Parts) {
    let Ok(newer) = cache.seen().copy(alloc) else {
        panic!(rt; "no memory")
    };
    let Ok(mark) = between(alloc, cache, &newer, older) else {
        panic!(rt; "no memory")
    };
    undo(cache, mark);
}

// The lists before a mark's block, and how many digests they hold.
fn held_before(rt: &impl Abort, alloc: Global, cache: &Cache<XorFold>, mark: &Mark) -> usize
    requires { Fits mark.now cache.now.parts }
{
    let Ok(mut parts) = cache.seen().copy(alloc) else {
        panic!(rt; "no memory")
    };
    assert!(rt; step_back(alloc, &mut parts, mark).is_ok());
    assert_eq!(rt; parts.kept.len(), 1);
    parts.held.len()
}

fn check_blocks<L: Ledger>(rt: &impl Abort, alloc: Global, blank: Blank)
    requires name { blank.name ≡ L.name }
    requires parts { blank.parts ≡ L.parts }
    requires some { 0 < blank.parts }
{
    let mut steps = Steps::<L>::new(blank);
    let mut roots = Roots::<XorFold>::new();
    let mut cache = Cache::<XorFold>::new(alloc, Watch::empty(alloc));
    let first = grow(rt, alloc, &mut cache, &mut roots, &mut steps);
    assert_holds(rt, &cache, &GROWN, Place { row: 0, off: 1 });
    let second = spend(rt, alloc, &mut cache, &mut roots, &mut steps);
    assert_holds(rt, &cache, &SPENT, Place { row: 1, off: 0 });
    let Ok(spent) = cache.seen().copy(alloc) else {
        panic!(rt; "no memory")
    };
    assert_eq!(rt; held_before(rt, alloc, &cache, &second), GROWN.len());
    undo(&mut cache, second);
    assert_holds(rt, &cache, &GROWN, Place { row: 0, off: 1 });
    leap(rt, alloc, &mut cache, &spent);
    assert_holds(rt, &cache, &SPENT, Place { row: 1, off: 0 });
    drop(first);
}

#[test]
fn follows_a_block(rt: HostRuntime) {
    check_blocks::<Brand>(&rt, rt.alloc(), Blank::new(1));
}
