//! What a block leaves of a node that watches nothing: its roots alone.
ghost use Rattle.std.specs.Prelude.{◌≡◌, ◌+◌, ◌*◌, ◌<◌, ◌≤◌, ◌^◌, [], ◌-◌, length, map, take, drop, count_ones, IfOk, OnOk};
ghost use Rattle.std.specs.Bool.{OnTrue};
ghost use Rattle.leaf_record.specs.Leaf.{leaf_text};
ghost use Rattle.leaf_cache.specs.Parted.{HasNothing, HaveSameLists};
ghost use Rattle.cache_update.specs.Marks.{Fits, kept_back, held_back};
ghost use Rattle.compact_node.specs.After.{with_leaves};

use block_rules::Spends;
use cache_update::{Mark, unchanged};
use forest_roots::Roots;
use leaf_cache::Cache;
use leaf_record::{LeafBuf, put_leaf_digests};
use std::alloc::Global;
use std::sync::ledger::Ledger;
use uo_base::NoMemory;
use uo_digest::{Digest, Digester, Steps};

/// The digests of how many new entries are held at a time, at most: enough for rows that are digested side by side, in 32 KB.
const BATCH: u64 = 1024;

/// The digests of so few new entries are held without taking memory.
const FEW: usize = 8;

// Whether no script is watched, and so nothing is kept or held.
pub(crate) fn watches_nothing<D>(cache: &Cache<D>) -> bool
    ensures { OnTrue result ((cache.now.watch ≡ []) × HasNothing cache.now.parts) }
{
    cache.watch().scripts() == 0 && cache.kept().is_empty() && cache.seen().held.is_empty()
}

// Adds the entries of new records from one on, as many as there is room for digests. How many have been added then.
fn push_some<D: Digester, L: Ledger>(
    roots: &mut Roots<D>,
    room: &mut LeafBuf<D>,
    spends: &Spends<'_>,
    from: u64,
    digests: &mut [Digest],
    steps: &mut Steps<L>,
) -> u64
    requires left { from < length spends.now.new }
    requires room { 0 < length digests.old }
    requires few { roots.old.leaves + length spends.now.new < 2 ^ 40 + from }
    ensures more { from < result }
    ensures within { result ≤ length spends.now.new }
    ensures room { length digests.new ≡ length digests.old }
    ensures roots { roots.new ≡ with_leaves D.digest_of roots.old
        (map (λ leaf. D.digest_of (leaf_text leaf)) (take (result - from) (drop from spends.now.new))) }
    ensures steps { steps.new + count_ones roots.new.leaves + 2 * from ≤ steps.old + count_ones roots.old.leaves + 2 * result }
{
    let count = (spends.new_count() - from).min(digests.len() as u64);
    let end = from + count;
    let outputs = spends.new_outputs_between(from, end);
    let digests = &mut digests[..count as usize];
    put_leaf_digests(room, &outputs, digests, steps);
    roots.push_all(digests, steps);
    end
}

// Adds the entries of all new records, in their order.
fn push_all<D: Digester, L: Ledger>(
    roots: &mut Roots<D>,
    room: &mut LeafBuf<D>,
    spends: &Spends<'_>,
    digests: &mut [Digest],
    steps: &mut Steps<L>,
)
    requires room { 0 < length digests.old }
    requires few { roots.old.leaves + length spends.now.new < 2 ^ 40 }
    ensures roots { roots.new ≡ with_leaves D.digest_of roots.old (map (λ leaf. D.digest_of (leaf_text leaf)) spends.now.new) }
    ensures steps { steps.new ≤ steps.old + 2 * length spends.now.new + 40 }
{
    let _count = roots.leaves();
    let mut from = 0;
    while from < spends.new_count() {
        from = push_some::<D, L>(roots, room, spends, from, digests, steps);
    }
}

// The same, in room that is taken here: none for a few.
fn push_in_room<D: Digester, L: Ledger>(
    alloc: Global,
    roots: &mut Roots<D>,
    room: &mut LeafBuf<D>,
    spends: &Spends<'_>,
    steps: &mut Steps<L>,
) -> Result<(), NoMemory>
    requires { roots.old.leaves + length spends.now.new < 2 ^ 40 }
    ensures roots { OnOk result (roots.new ≡ with_leaves D.digest_of roots.old (map (λ leaf. D.digest_of (leaf_text leaf)) spends.now.new)) }
    ensures steps { steps.new ≤ steps.old + 2 * length spends.now.new + 40 }
{
    let count = spends.new_count();
    if count <= FEW as u64 {
        let mut digests = [Digest([0; 32]); FEW];
        push_all(roots, room, spends, &mut digests, steps);
        return Ok(());
    }
    let mut digests = vec![in alloc; Digest([0; 32]); count.min(BATCH) as usize]?;
    push_all(roots, room, spends, &mut digests, steps);
    Ok(())
}

/// The roots behind a block, whose new records come: of these none is watched, and nothing is kept or held. The mark gives the cache
/// back. The memory is taken before the first change.
pub(crate) fn grow_unwatched<D: Digester, L: Ledger>(
    alloc: Global,
    cache: &mut Cache<D>,
    roots: &mut Roots<D>,
    room: &mut LeafBuf<D>,
    spends: &Spends<'_>,
    steps: &mut Steps<L>,
) -> Result<Mark, NoMemory>
    requires nothing { HasNothing cache.old.parts }
    requires few { roots.old.leaves + length spends.now.new < 2 ^ 40 }
    ensures roots { OnOk result (roots.new ≡ with_leaves D.digest_of roots.old (map (λ leaf. D.digest_of (leaf_text leaf)) spends.now.new)) }
    ensures lists { HaveSameLists cache.new.parts cache.old.parts }
    ensures watch { cache.new.watch ≡ cache.old.watch }
    ensures fits { IfOk result (λ mark. Fits mark cache.new.parts) }
    ensures kept_back { IfOk result (λ mark. kept_back mark cache.new.parts.kept ≡ cache.old.parts.kept) }
    ensures held_back { IfOk result (λ mark. held_back mark cache.new.parts.held ≡ cache.old.parts.held) }
    ensures kept_room { cache.old.parts.kept_room ≤ cache.new.parts.kept_room }
    ensures held_room { cache.old.parts.held_room ≤ cache.new.parts.held_room }
    ensures steps { steps.new ≤ steps.old + 2 * length spends.now.new + 40 }
{
    let mark = unchanged(alloc, cache)?;
    push_in_room(alloc, roots, room, spends, steps)?;
    Ok(mark)
}
