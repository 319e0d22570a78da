//! All blocks of deletions and up to two additions over all lists of up to seven entries, each spent, live, or live and
//! watched: the cache beside one that is made of the plain list, there and back again. A test has the lists of which the first
//! entry is one such, so that each ends within its minute on a busy machine.
ghost use Rattle.std.specs.Prelude.{◌≡◌, ◌+◌, ◌<◌, ◌≤◌};
ghost use Rattle.cache_update.specs.Marks.{Fits};

use super::plain::{Plain, digest_at, is_known, part_at};
use crate::output;
use cache_update::{Mark, after_add, after_delete, begin, undo};
use forest_place::{Place, position};
use forest_roots::Roots;
use leaf_cache::{Cache, Watch};
use proof_shape::Targets;
use proof_verify::{Scratch, check_and_delete};
use std::alloc::{AllocError, Global};
use std::marker::Brand;
use std::process::Abort;
use std::sync::ledger::{Blank, Ledger};
use uo_digest::{Digest, Digester, Sha512t256, Steps, XorFold};

// What an entry of a list is, by a digit of the list's number.
const SPENT: u32 = 0;

const LIVE: u32 = 1;

const WATCHED: u32 = 2;

// What a cache has to keep and hold.
#[derive(Drop)]
struct Told {
    kept: Vec<(u64, Place, Digest)>,
    held: Vec<(Place, Digest)>,
}

// A proof of spent entries.
#[derive(Drop)]
struct Shown {
    positions: Vec<u64>,
    leaves: Vec<Digest>,
    hashes: Vec<Digest>,
}

// The digest of the leaf with this number.
fn leaf_of(number: usize) -> Digest {
    let mut bytes = [0; 32];
    bytes[number % 31] = 1;
    bytes[31] = 77;
    Digest(bytes)
}

// The list after a block: bit i of `spent` says whether entry i is spent.
fn after(alloc: Global, plain: &Plain, spent: u32, added: &[bool]) -> Result<Plain, AllocError> {
    let mut entries = left_of(alloc, &plain.entries, spent)?;
    let mut kept = left_of(alloc, &plain.kept, spent)?;
    for is_watched in added {
        let leaf = Some(leaf_of(entries.len()));
        entries.push(leaf)?;
        kept.push(if *is_watched { leaf } else { None })?;
    }
    Ok(Plain { entries, kept })
}

fn left_of(
    alloc: Global,
    entries: &[Option<Digest>],
    spent: u32,
) -> Result<Vec<Option<Digest>>, AllocError> {
    let mut left = Vec::new(alloc);
    let mut rest = spent;
    for entry in entries {
        left.push(if rest % 2 == 1 { None } else { *entry })?;
        rest /= 2;
    }
    Ok(left)
}

// Whether only live entries are spent.
fn can_spend(plain: &Plain, spent: u32) -> bool {
    let mut rest = spent;
    for entry in plain.entries.iter() {
        if rest % 2 == 1 && entry.is_none() {
            return false;
        }
        rest /= 2;
    }
    true
}

// Notes what is known at a place, and the entry that is kept there.
fn note<D: Digester, L: Ledger>(
    rt: &impl Abort,
    plain: &Plain,
    told: &mut Told,
    at: Place,
    steps: &mut Steps<L>,
) -> Result<(), AllocError> {
    if !is_known(rt, plain, at) {
        return Ok(());
    }
    let Some(digest) = digest_at::<D, L>(rt, &plain.entries, at, steps) else {
        panic!(rt; "nothing stands at {at:?}")
    };
    told.held.push((at, digest))?;
    if let Some((0, i)) = part_at(rt, &plain.entries, at) {
        if plain.kept.get(i as usize).copied().flatten().is_some() {
            told.kept.push((i, at, digest))?;
        }
    }
    Ok(())
}

// What a cache of the list keeps and holds.
fn told_of<D: Digester, L: Ledger>(
    rt: &impl Abort,
    alloc: Global,
    plain: &Plain,
    steps: &mut Steps<L>,
) -> Result<Told, AllocError> {
    let n = plain.entries.len() as u64;
    let mut told = Told {
        kept: Vec::new(alloc),
        held: Vec::new(alloc),
    };
    for row in 0..4 {
        for off in 0..n >> row {
            note::<D, L>(rt, plain, &mut told, Place { row, off }, steps)?;
        }
    }
    Ok(told)
}

fn assert_is<D>(rt: &impl Abort, cache: &Cache<D>, told: &Told) {
    assert_eq!(rt; cache.seen().held.len(), told.held.len());
    for (at, digest) in told.held.iter() {
        assert!(rt; cache.known(*at) == Some(*digest));
    }
    assert_eq!(rt; cache.kept().len(), told.kept.len());
    for (number, at, digest) in told.kept.iter() {
        let Some(entry) = cache.kept().iter().find(|entry| entry.number == *number) else {
            panic!(rt; "entry {number} is not kept")
        };
        assert!(rt; entry.place == *at && entry.digest == *digest);
        assert_eq!(rt; entry.leaf.amount, *number);
    }
}

// The place of an entry.
fn place_of_entry(rt: &impl Abort, entries: &[Option<Digest>], i: u64) -> Place {
    let n = entries.len() as u64;
    for row in 0..4 {
        for off in 0..n >> row {
            let at = Place { row, off };
            if part_at(rt, entries, at) == Some((0, i)) {
                return at;
            }
        }
    }
    panic!(rt; "entry {i} stands nowhere")
}

// The targets of a proof, with no hashes yet.
fn targets_of(
    rt: &impl Abort,
    alloc: Global,
    plain: &Plain,
    spent: u32,
) -> Result<Shown, AllocError> {
    let n = plain.entries.len() as u64;
    let mut shown = Shown {
        positions: Vec::new(alloc),
        leaves: Vec::new(alloc),
        hashes: Vec::new(alloc),
    };
    let mut rest = spent;
    for i in 0..n {
        if rest % 2 == 1 {
            let at = place_of_entry(rt, &plain.entries, i);
            assert!(rt; n < 1 << 40 && at.row < 40 && at.off < n >> at.row);
            shown.positions.push(position(at, n))?;
            shown.leaves.push(leaf_of(i as usize))?;
        }
        rest /= 2;
    }
    Ok(shown)
}

// The hashes of a proof.
fn show_hashes<D: Digester, L: Ledger>(
    rt: &impl Abort,
    plain: &Plain,
    targets: &Targets,
    shown: &mut Shown,
    steps: &mut Steps<L>,
) -> Result<(), AllocError> {
    for at in targets.needed() {
        let Some(hash) = digest_at::<D, L>(rt, &plain.entries, *at, steps) else {
            panic!(rt; "nothing stands at {at:?}")
        };
        shown.hashes.push(hash)?;
    }
    Ok(())
}

// The deletion of a block, which goes on with this many additions.
fn spend<D: Digester, L: Ledger>(
    rt: &impl Abort,
    alloc: Global,
    cache: &mut Cache<D>,
    roots: &mut Roots<D>,
    plain: &Plain,
    spent: u32,
    adds: u64,
    steps: &mut Steps<L>,
) -> Mark
    ensures fits { Fits result cache.new.parts }
    ensures left { result.adds ≡ adds }
    ensures watched { result.watched ≡ adds }
    ensures count { result.leaves ≡ roots.new.leaves }
{
    let Ok(mut shown) = targets_of(rt, alloc, plain, spent) else {
        panic!(rt; "no memory")
    };
    let positions = shown.positions.as_slice();
    assert!(rt; positions.len() < 1 << 32);
    let Ok(targets) = Targets::new(alloc, roots.leaves(), positions) else {
        panic!(rt; "no targets")
    };
    assert!(rt; show_hashes::<D, L>(rt, plain, &targets, &mut shown, steps).is_ok());
    let Ok(mut mark) = begin(alloc, cache, &targets, adds, adds) else {
        panic!(rt; "no mark")
    };
    let mut scratch = Scratch::new(alloc);
    let Ok(()) = scratch.reserve(&targets) else {
        panic!(rt; "no memory")
    };
    let leaves = shown.leaves.as_slice();
    assert!(rt; leaves.len() == targets.len() as usize);
    let Ok(changes) = check_and_delete(roots, &targets, leaves, &shown.hashes, &mut scratch, steps)
    else {
        panic!(rt; "refused")
    };
    after_delete(cache, &mut mark, &targets, &changes);
    mark
}

// An addition to the forest and to the cache.
fn add<D: Digester, L: Ledger>(
    rt: &impl Abort,
    alloc: Global,
    cache: &mut Cache<D>,
    mark: &mut Mark,
    roots: &mut Roots<D>,
    is_watched: bool,
    steps: &mut Steps<L>,
)
    requires fits { Fits mark.old cache.old.parts }
    requires left { 0 < mark.old.adds }
    requires watched { 0 < mark.old.watched }
    requires count { mark.old.leaves ≡ roots.old.leaves }
    ensures fits { Fits mark.new cache.new.parts }
    ensures left { mark.new.adds + 1 ≡ mark.old.adds }
    ensures watched { mark.old.watched ≤ mark.new.watched + 1 }
    ensures count { mark.new.leaves ≡ roots.new.leaves }
{
    let n = roots.leaves();
    assert!(rt; n < 16);
    let digest = leaf_of(n as usize);
    let joins = roots.add(digest, steps);
    let leaf = if is_watched {
        Some(output(alloc, n))
    } else {
        None
    };
    after_add(cache, mark, n, digest, &joins, leaf);
}

// A block: its deletion, and up to two additions.
fn block<D: Digester, L: Ledger>(
    rt: &impl Abort,
    alloc: Global,
    cache: &mut Cache<D>,
    roots: &mut Roots<D>,
    plain: &Plain,
    spent: u32,
    added: &[bool],
    steps: &mut Steps<L>,
) -> Mark
    ensures fits { Fits result cache.new.parts }
{
    let adds = added.len() as u64;
    let mut mark = spend(rt, alloc, cache, roots, plain, spent, adds, steps);
    match added {
        [] => mark,
        [one] => {
            add(rt, alloc, cache, &mut mark, roots, *one, steps);
            mark
        }
        [one, two, ..] => {
            add(rt, alloc, cache, &mut mark, roots, *one, steps);
            add(rt, alloc, cache, &mut mark, roots, *two, steps);
            mark
        }
    }
}

// A block there and back again, from a cache of the list.
fn there_and_back<D: Digester, L: Ledger>(
    rt: &impl Abort,
    alloc: Global,
    cache: &mut Cache<D>,
    roots: &mut Roots<D>,
    plain: &Plain,
    told: &Told,
    spent: u32,
    added: &[bool],
    steps: &mut Steps<L>,
) -> Result<(), AllocError> {
    let next = after(alloc, plain, spent, added)?;
    let then = told_of::<D, L>(rt, alloc, &next, steps)?;
    let old = roots.copy();
    let mut mark = block(rt, alloc, cache, roots, plain, spent, added, steps);
    mark.shrink();
    assert_is(rt, cache, &then);
    undo(cache, mark);
    assert_is(rt, cache, told);
    *roots = old;
    Ok(())
}

const ADDED: [&[bool]; 7] = [
    &[],
    &[false],
    &[true],
    &[false, false],
    &[false, true],
    &[true, false],
    &[true, true],
];

// All blocks that spend these entries.
fn check_spent<D: Digester, L: Ledger>(
    rt: &impl Abort,
    alloc: Global,
    cache: &mut Cache<D>,
    roots: &mut Roots<D>,
    plain: &Plain,
    told: &Told,
    spent: u32,
    steps: &mut Steps<L>,
) {
    for added in ADDED {
        assert!(rt;
            there_and_back(rt, alloc, cache, roots, plain, told, spent, added, steps).is_ok(),
            "no memory"
        );
    }
}

// A list of some entries, by the digits to base 3: spent, live, or live and watched. It comes from blocks of one addition, of
// which those to be spent are watched, and one that spends these.
fn grow<D: Digester, L: Ledger>(
    rt: &impl Abort,
    alloc: Global,
    cache: &mut Cache<D>,
    roots: &mut Roots<D>,
    n: usize,
    number: u32,
    steps: &mut Steps<L>,
) -> Result<Plain, AllocError> {
    let mut plain = Plain {
        entries: Vec::new(alloc),
        kept: Vec::new(alloc),
    };
    let mut rest = number;
    let mut spent: u32 = 0;
    for i in 0..n {
        let added = [rest % 3 != 1];
        let mark = block(rt, alloc, cache, roots, &plain, 0, &added, steps);
        drop(mark);
        plain = after(alloc, &plain, 0, &added)?;
        if rest % 3 == 0 {
            assert!(rt; i < 16 && spent < 1 << 16);
            spent += 1 << i;
        }
        rest /= 3;
    }
    let mark = block(rt, alloc, cache, roots, &plain, spent, &[], steps);
    drop(mark);
    after(alloc, &plain, spent, &[])
}

fn check_list<D: Digester, L: Ledger>(
    rt: &impl Abort,
    alloc: Global,
    n: usize,
    number: u32,
    steps: &mut Steps<L>,
) -> Result<(), AllocError> {
    let mut cache = Cache::<D>::new(alloc, Watch::empty(alloc));
    let mut roots = Roots::<D>::new();
    let plain = grow(rt, alloc, &mut cache, &mut roots, n, number, steps)?;
    let told = told_of::<D, L>(rt, alloc, &plain, steps)?;
    assert_is(rt, &cache, &told);
    assert!(rt; n < 16);
    for spent in 0..1 << n {
        if can_spend(&plain, spent) {
            check_spent(
                rt, alloc, &mut cache, &mut roots, &plain, &told, spent, steps,
            );
        }
    }
    Ok(())
}

// All lists of up to seven entries of which the first is such a one. The empty list is among those whose first one is spent.
fn check_all<D: Digester, L: Ledger>(rt: &impl Abort, alloc: Global, first: u32, blank: Blank)
    requires name { blank.name ≡ L.name }
    requires parts { blank.parts ≡ L.parts }
    requires some { 0 < blank.parts }
{
    let mut steps = Steps::<L>::new(blank);
    let mut lists: u32 = 1;
    for n in 0..8 {
        for number in 0..lists {
            if number % 3 == first {
                assert!(rt;
                    check_list::<D, L>(rt, alloc, n, number, &mut steps).is_ok(),
                    "no memory"
                );
            }
        }
        assert!(rt; lists < 1 << 20);
        lists *= 3;
    }
}

#[test]
fn xor_spent_first(rt: HostRuntime) {
    check_all::<XorFold, Brand>(&rt, rt.alloc(), SPENT, Blank::new(1));
}

#[test]
fn xor_live_first(rt: HostRuntime) {
    check_all::<XorFold, Brand>(&rt, rt.alloc(), LIVE, Blank::new(1));
}

#[test]
fn xor_watched_first(rt: HostRuntime) {
    check_all::<XorFold, Brand>(&rt, rt.alloc(), WATCHED, Blank::new(1));
}

#[test]
fn sha_spent_first(rt: HostRuntime) {
    check_all::<Sha512t256, Brand>(&rt, rt.alloc(), SPENT, Blank::new(1));
}

#[test]
fn sha_live_first(rt: HostRuntime) {
    check_all::<Sha512t256, Brand>(&rt, rt.alloc(), LIVE, Blank::new(1));
}

#[test]
fn sha_watched_first(rt: HostRuntime) {
    check_all::<Sha512t256, Brand>(&rt, rt.alloc(), WATCHED, Blank::new(1));
}
