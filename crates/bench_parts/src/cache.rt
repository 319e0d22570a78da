//! Blocks over a cache of watched outputs.
ghost use Rattle.std.specs.Prelude.{◌≡◌, ◌+◌, ◌^◌, ◌<◌, ◌≤◌, IfSome};
ghost use Rattle.cache_update.specs.Marks.{Fits};

use crate::names::name_of;
use crate::outputs::record_of;
use crate::stopwatch::Stopwatch;
use crate::targets::{hashes_of, targets_of};
use cache_update::{Mark, after_add, after_delete, begin, undo};
use forest_place::Naming;
use forest_roots::{Joins, Roots};
use leaf_cache::{Cache, Kept, Parts, Watch};
use leaf_record::Record;
use live_forest::Forest;
use proof_shape::Targets;
use proof_verify::{Scratch, check_and_delete};
use std::alloc::Global;
use std::io;
use std::sync::ledger::Ledger;
use std::time::{CpuClock, Duration};
use uo_digest::{Digest, Sha512t256, Steps};

const ENTRIES: u64 = 1 << 20;

const BLOCK: u64 = 1_000;

const ROUNDS: u32 = 100;

// An output with a script of 25 bytes, if its number is among the kept ones.
fn kept_output(alloc: Global, number: u64, kept: u64) -> Option<Record> {
    let every = ENTRIES / kept.max(1);
    if kept == 0 || number % every.max(1) != 0 {
        return None;
    }
    record_of(alloc, number, &[7; 25]).ok()
}

// Additions to the roots and to the cache.
fn add_all<L: Ledger>(
    alloc: Global,
    cache: &mut Cache<Sha512t256>,
    mark: &mut Mark,
    roots: &mut Roots<Sha512t256>,
    adds: u64,
    kept: u64,
    steps: &mut Steps<L>,
)
    requires fits { Fits mark.old cache.old.parts }
    requires adds { adds ≤ mark.old.adds }
    requires watched { adds ≤ mark.old.watched }
    requires count { roots.old.leaves ≡ mark.old.leaves }
    requires few { roots.old.leaves + adds < 2 ^ 40 }
    ensures { Fits mark.new cache.new.parts }
{
    let mut joins = Joins::new();
    let mut left = adds;
    while left > 0 {
        let n = roots.leaves();
        let leaf = kept_output(alloc, n, kept);
        let digest = name_of(n);
        roots.add_into(digest, &mut joins, steps);
        after_add(cache, mark, n, digest, &joins, leaf);
        left -= 1;
    }
}

// Additions of which none is watched.
fn add_unwatched<L: Ledger>(
    cache: &mut Cache<Sha512t256>,
    mark: &mut Mark,
    roots: &mut Roots<Sha512t256>,
    adds: u64,
    steps: &mut Steps<L>,
)
    requires fits { Fits mark.old cache.old.parts }
    requires adds { adds ≤ mark.old.adds }
    requires count { roots.old.leaves ≡ mark.old.leaves }
    requires few { roots.old.leaves + adds < 2 ^ 40 }
    ensures { Fits mark.new cache.new.parts }
{
    let mut joins = Joins::new();
    let mut left = adds;
    while left > 0 {
        let n = roots.leaves();
        let digest = name_of(n);
        roots.add_into(digest, &mut joins, steps);
        after_add(cache, mark, n, digest, &joins, None);
        left -= 1;
    }
}

// What spends a thousand entries.
#[derive(Drop)]
struct Proof {
    positions: Vec<u64>,
    leaves: Vec<Digest>,
    hashes: Vec<Digest>,
}

fn prove(alloc: Global, forest: &Forest<Sha512t256>) -> io::Result<Proof> {
    let mut positions = Vec::new(alloc);
    let mut leaves = Vec::new(alloc);
    let n = forest.leaves();
    for i in 0..BLOCK {
        let number = i * (ENTRIES / BLOCK) + 3;
        if forest.live(number) {
            let at = forest.place(number);
            if n < 1 << 40 && at.row < 40 && at.off < n >> at.row {
                positions.push(Naming::FixedPosition.number(at, n))?;
                leaves.push(name_of(number))?;
            }
        }
    }
    let hashes = hashes_of(alloc, forest, &positions).unwrap_or(Vec::new(alloc));
    Ok(Proof {
        positions,
        leaves,
        hashes,
    })
}

// A block without a cache.
fn bare_block<L: Ledger>(
    alloc: Global,
    roots: &mut Roots<Sha512t256>,
    proof: &Proof,
    scratch: &mut Scratch,
    steps: &mut Steps<L>,
) -> bool {
    let Some(targets) = targets_of(alloc, roots.leaves(), &proof.positions) else {
        return false;
    };
    let leaves = proof.leaves.as_slice();
    if targets.leaves() != roots.leaves()
        || scratch.reserve(&targets).is_err()
        || leaves.len() != targets.len() as usize
    {
        return false;
    }
    let hashes = proof.hashes.as_slice();
    if check_and_delete(roots, &targets, leaves, hashes, scratch, steps).is_err() {
        return false;
    }
    let mut joins = Joins::new();
    for _ in 0..BLOCK {
        let n = roots.leaves();
        if n < 1 << 39 {
            roots.add_into(name_of(n), &mut joins, steps);
        }
    }
    true
}

// The same with a cache, of which it touches nothing that is watched.
fn cached_block<L: Ledger>(
    alloc: Global,
    cache: &mut Cache<Sha512t256>,
    roots: &mut Roots<Sha512t256>,
    proof: &Proof,
    scratch: &mut Scratch,
    steps: &mut Steps<L>,
) -> Option<Mark>
    ensures { IfSome result (λ m. Fits m cache.new.parts) }
{
    let Some(targets) = targets_of(alloc, roots.leaves(), &proof.positions) else {
        return None;
    };
    let leaves = proof.leaves.as_slice();
    if targets.leaves() != roots.leaves()
        || scratch.reserve(&targets).is_err()
        || leaves.len() != targets.len() as usize
    {
        return None;
    }
    let Ok(mut mark) = begin(alloc, cache, &targets, BLOCK, 0) else {
        return None;
    };
    let hashes = proof.hashes.as_slice();
    let Ok(changes) = check_and_delete(roots, &targets, leaves, hashes, scratch, steps) else {
        return None;
    };
    after_delete(cache, &mut mark, &targets, &changes);
    let n = roots.leaves();
    if n != targets.leaves() || n >= 1 << 39 {
        return None;
    }
    add_unwatched(cache, &mut mark, roots, BLOCK, steps);
    mark.shrink();
    Some(mark)
}

// So many blocks of additions alone.
fn grow_by<L: Ledger>(
    alloc: Global,
    cache: &mut Cache<Sha512t256>,
    roots: &mut Roots<Sha512t256>,
    blocks: u64,
    kept: u64,
    steps: &mut Steps<L>,
) {
    for _ in 0..blocks {
        let n = roots.leaves();
        if n >= 1 << 39 {
            return;
        }
        let Ok(none) = Targets::new(alloc, n, &[]) else {
            return;
        };
        if let Ok(mut mark) = begin(alloc, cache, &none, 1_024, 1_024) {
            add_all(alloc, cache, &mut mark, roots, 1_024, kept, steps);
        }
    }
}

// The forest of all entries.
fn grown<L: Ledger>(alloc: Global, steps: &mut Steps<L>) -> Forest<Sha512t256> {
    let mut forest = Forest::<Sha512t256>::new(alloc);
    let _ = forest.reserve(ENTRIES);
    for i in 0..ENTRIES {
        if 0 < forest.spare() && forest.leaves() < 1 << 39 {
            let _ = forest.add(name_of(i), steps);
        }
    }
    forest
}

// How many kept entries stand elsewhere than they stood.
fn moved_between(older: &[Kept], newer: &[Kept]) -> u64 {
    let mut moved: u64 = 0;
    for entry in older {
        if let Ok(i) = newer.binary_search_by_key(&entry.number, |other| other.number) {
            if newer[i].place != entry.place {
                moved = moved.saturating_add(1);
            }
        }
    }
    moved
}

// The digests that a cache has otherwise, or not at all, and how many are at places where it has none.
fn others(cache: &Cache<Sha512t256>, parts: &Parts) -> (u64, u64) {
    let mut other: u64 = 0;
    let mut none: u64 = 0;
    for (place, digest) in parts.held.iter() {
        let known = cache.known(*place);
        if known != Some(*digest) {
            other = other.saturating_add(1);
        }
        if known.is_none() {
            none = none.saturating_add(1);
        }
    }
    (other, none)
}

// What a mark has: the digests that the block changed, and places that had none or where kept entries stood.
fn measure_mark<R: Print, L: Ledger>(
    rt: &R,
    alloc: Global,
    cache: &mut Cache<Sha512t256>,
    roots: &Roots<Sha512t256>,
    proof: &Proof,
    steps: &mut Steps<L>,
) -> io::Result<()> {
    let Ok(older) = cache.seen().copy(alloc) else {
        return println!(rt; "  no block");
    };
    let mut scratch = Scratch::new(alloc);
    let mut then = roots.copy();
    let Some(mark) = cached_block(alloc, cache, &mut then, proof, &mut scratch, steps) else {
        return println!(rt; "  no block");
    };
    let Ok(newer) = cache.seen().copy(alloc) else {
        return println!(rt; "  no block");
    };
    let (lost, _) = others(cache, &older);
    undo(cache, mark);
    let (_, gained) = others(cache, &newer);
    let moved = moved_between(&older.kept, &newer.kept);
    println!(rt;
        "  {} kept, {} digests; a mark has {lost} digests, {gained} places and {moved} of entries, {} bytes",
        older.kept.len(),
        older.held.len(),
        48 * lost.min(1 << 40) + 16 * gained.min(1 << 40) + 24 * moved.min(1 << 40)
    )
}

/// How long a block took without a cache, with one, and the way back; and whether it was accepted.
type Times = (Duration, Duration, Duration, bool);

fn time_block<R: CpuClock, L: Ledger>(
    rt: &R,
    alloc: Global,
    cache: &mut Cache<Sha512t256>,
    roots: &Roots<Sha512t256>,
    proof: &Proof,
    steps: &mut Steps<L>,
) -> io::Result<Times> {
    let mut scratch = Scratch::new(alloc);
    let mut then = roots.copy();
    let mut watch = Stopwatch::start(rt)?;
    let accepted = bare_block(alloc, &mut then, proof, &mut scratch, steps);
    let bare = watch.lap(rt)?;
    let mut scratch = Scratch::new(alloc);
    let mut then = roots.copy();
    let mut watch = Stopwatch::start(rt)?;
    let mark = cached_block(alloc, cache, &mut then, proof, &mut scratch, steps);
    let cached = watch.lap(rt)?;
    if let Some(mark) = mark {
        undo(cache, mark);
    }
    Ok((bare, cached, watch.lap(rt)?, accepted))
}

fn measure_blocks<R: CpuClock + Print, L: Ledger>(
    rt: &R,
    alloc: Global,
    cache: &mut Cache<Sha512t256>,
    roots: &Roots<Sha512t256>,
    proof: &Proof,
    steps: &mut Steps<L>,
) -> io::Result<()> {
    let mut without = Duration::ZERO;
    let mut with = Duration::ZERO;
    let mut back = Duration::ZERO;
    let mut done: u64 = 0;
    for _ in 0..ROUNDS {
        let times = time_block(rt, alloc, cache, roots, proof, steps)?;
        without = without.saturating_add(times.0);
        with = with.saturating_add(times.1);
        back = back.saturating_add(times.2);
        done = done.saturating_add(u64::from(times.3));
    }
    println!(rt;
        "{BLOCK} deletions and additions, {done} times: {} us, with a cache {} us, back {} us",
        without.as_micros(),
        with.as_micros(),
        back.as_micros()
    )
}

/// Microseconds of a block of a thousand deletions and a thousand additions over a forest of 2^20 entries, with and without a
/// cache that keeps none, a hundred and ten thousand of them, and the bytes of its mark.
pub fn measure_cache<R: CpuClock + Print + AllocGlobal, L: Ledger>(
    rt: &R,
    steps: &mut Steps<L>,
) -> io::Result<()> {
    let alloc = rt.alloc();
    for kept in [0, 100, 10_000] {
        let forest = grown(alloc, steps);
        let proof = prove(alloc, &forest)?;
        let mut cache = Cache::<Sha512t256>::new(alloc, Watch::empty(alloc));
        let mut roots = Roots::<Sha512t256>::new();
        grow_by(alloc, &mut cache, &mut roots, ENTRIES / 1_024, kept, steps);
        measure_blocks(rt, alloc, &mut cache, &roots, &proof, steps)?;
        measure_mark(rt, alloc, &mut cache, &roots, &proof, steps)?;
    }
    Ok(())
}
