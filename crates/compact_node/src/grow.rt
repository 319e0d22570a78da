//! The roots and the cache behind a block.
ghost use Rattle.std.specs.Prelude.{◌≡◌, ℕ, suc, ◌+◌, ◌-◌, ◌*◌, ◌<◌, ◌≤◌, ◌^◌, List, [], ◌∷◌, ◌++◌, true, length, map, get_or, count_by, count_ones};
ghost use Rattle.std.specs.Prelude.{Some, is_some, if◌then◌else◌, IfOk, OnOk, OnErr};
ghost use Rattle.std.specs.Bool.{OnTrue, OnFalse};
ghost use Rattle.leaf_record.specs.Leaf.{Leaf, leaf_text};
ghost use Rattle.forest_roots.specs.Joined.{joins_of};
ghost use Rattle.cache_model.specs.Known.{is_watched};
ghost use Rattle.cache_model.specs.Lists.{moved_leaves, leaf_places, leaves_more};
ghost use Rattle.cache_model.specs.Steps.{held_deleted};
ghost use Rattle.leaf_cache.specs.Parted.{HaveSameLists};
ghost use Rattle.cache_update.specs.Joins.{is_empty_of, added_by};
ghost use Rattle.cache_update.specs.Marks.{Fits, WasBegun, kept_back, held_back, pairs_within};
ghost use Rattle.cache_update.specs.Refused.{IsOfForest};
ghost use Rattle.compact_node.specs.After.{with_leaf, with_leaves, kept_with_all, held_with_all};
ghost use Rattle.compact_node.specs.Judged.{watched_leaf};
ghost use Rattle.compact_node.specs.Marked.{GoesOn};
ghost use Rattle.compact_node.specs.Pending.{pending};

use crate::unwatched::{grow_unwatched, watches_nothing};
use block_rules::Spends;
use cache_update::{BeginFault, Mark, after_add, after_delete, begin};
use forest_roots::{Joins, Roots};
use leaf_cache::{Cache, Watch};
use leaf_record::{LeafBuf, Record, RecordView, leaf_digests};
use proof_shape::Targets;
use proof_verify::Changes;
use std::alloc::Global;
use std::sync::ledger::Ledger;
use uo_base::NoMemory;
use uo_digest::{Digest, Digester, Steps};

// Notes an output with its index, where it is watched.
fn note_watched(
    alloc: Global,
    leaves: &mut Vec<(u64, Record)>,
    watch: &Watch,
    i: u64,
    leaf: &RecordView<'_>,
) -> Result<(), NoMemory>
    ensures { OnOk result (leaves.new.items ≡ leaves.old.items ++ (if is_watched watch.now (Some leaf.now) then (i, leaf.now) ∷ [] else [])) }
{
    let rest = leaf.rest();
    if watch.has(rest.script) {
        leaves.push((i, leaf.to_record(alloc)?))?;
    }
    Ok(())
}

// The new outputs of a block that are watched, each with its index, the last one first. It takes memory for these alone.
fn watched_in(
    alloc: Global,
    watch: &Watch,
    spends: &Spends<'_>,
) -> Result<Vec<(u64, Record)>, NoMemory>
    ensures { IfOk result (λ leaves. leaves.items ≡ pending watch.now 0 spends.now.new) }
{
    let mut leaves = Vec::new(alloc);
    let mut i = spends.new_count();
    while i > 0 {
        i -= 1;
        note_watched(alloc, &mut leaves, watch, i, &spends.new_output(i))?;
    }
    Ok(leaves)
}

// Whether the last of these has the index.
fn is_last(left: &[(u64, Record)], i: u64) -> bool
    ensures there { OnTrue result ((0 < length left.now) × ((d : _) → (get_or left.now (length left.now - 1) d).0 ≡ i)) }
    ensures other { OnFalse result (0 < length left.now → (d : _) → (get_or left.now (length left.now - 1) d).0 ≡ i → ⊥) }
{
    left.len() > 0 && left[left.len() - 1].0 == i
}

// Takes the new output at an index, where it is watched.
fn take_watched(left: &mut Vec<(u64, Record)>, i: u64) -> Option<Record>
    ensures { (scripts : List (List ℕ)) (leaf : Leaf) (later : List Leaf) → left.old.items ≡ pending scripts i (leaf ∷ later) →
        (result ≡ watched_leaf scripts leaf) × (left.new.items ≡ pending scripts (suc i) later) }
{
    if !is_last(left, i) {
        return None;
    }
    match left.pop() {
        Some((_, leaf)) => Some(leaf),
        None => None,
    }
}

// Adds an entry, which is kept where it is watched.
fn add<D: Digester, L: Ledger>(
    cache: &mut Cache<D>,
    mark: &mut Mark,
    roots: &mut Roots<D>,
    joins: &mut Joins,
    digest: Digest,
    leaf: Option<Record>,
    steps: &mut Steps<L>,
)
    requires fits { Fits mark.old cache.old.parts }
    requires left { 0 < mark.old.adds }
    requires watched { is_some leaf ≡ true → 0 < mark.old.watched }
    requires count { mark.old.leaves ≡ roots.old.leaves }
    requires few { roots.old.leaves + 1 < 2 ^ 40 }
    ensures roots { roots.new ≡ with_leaf D.digest_of roots.old digest }
    ensures kept { cache.new.parts.kept ≡ leaves_more (is_empty_of (joins_of D.digest_of roots.old digest)) roots.old.leaves
        (length (joins_of D.digest_of roots.old digest)) leaf digest cache.old.parts.kept }
    ensures held { cache.new.parts.held
        ≡ added_by (joins_of D.digest_of roots.old digest) digest roots.old.leaves (is_some leaf) cache.old.parts.held }
    ensures watch { cache.new.watch ≡ cache.old.watch }
    ensures on { GoesOn mark.old cache.old.parts mark.new cache.new.parts }
    ensures leaves { mark.new.leaves ≡ mark.old.leaves + 1 }
    ensures adds { mark.new.adds + 1 ≡ mark.old.adds }
    ensures watched { mark.new.watched + count_by is_some (leaf ∷ []) ≡ mark.old.watched }
    ensures steps { steps.new + count_ones roots.new.leaves ≤ steps.old + 1 + count_ones roots.old.leaves }
{
    let n = roots.leaves();
    roots.add_into(digest, joins, steps);
    // That these are roots again.
    let _after = roots.leaves();
    after_add(cache, mark, n, digest, joins, leaf);
}

// Adds the block's new records, which have these digests, in their order. Of those that are watched the records are in `leaves`.
fn append<D: Digester, L: Ledger>(
    cache: &mut Cache<D>,
    mark: &mut Mark,
    roots: &mut Roots<D>,
    joins: &mut Joins,
    spends: &Spends<'_>,
    digests: &[Digest],
    leaves: Vec<(u64, Record)>,
    steps: &mut Steps<L>,
)
    requires fits { Fits mark.old cache.old.parts }
    requires digests { digests.now ≡ map (λ leaf. D.digest_of (leaf_text leaf)) spends.now.new }
    requires leaves { leaves.items ≡ pending cache.old.watch 0 spends.now.new }
    requires adds { mark.old.adds ≡ length spends.now.new }
    requires watched { mark.old.watched ≡ length leaves.items }
    requires count { mark.old.leaves ≡ roots.old.leaves }
    requires few { roots.old.leaves + length spends.now.new < 2 ^ 40 }
    ensures roots { roots.new ≡ with_leaves D.digest_of roots.old (map (λ leaf. D.digest_of (leaf_text leaf)) spends.now.new) }
    ensures kept { cache.new.parts.kept ≡ kept_with_all D.digest_of cache.old.watch roots.old spends.now.new cache.old.parts.kept }
    ensures held { cache.new.parts.held ≡ held_with_all D.digest_of cache.old.watch roots.old spends.now.new cache.old.parts.held }
    ensures watch { cache.new.watch ≡ cache.old.watch }
    ensures on { GoesOn mark.old cache.old.parts mark.new cache.new.parts }
    ensures steps { steps.new ≤ steps.old + length spends.now.new + 40 }
{
    let _count = roots.leaves();
    let mut left = leaves;
    for i in 0..spends.new_count() {
        let watched = take_watched(&mut left, i);
        let digest = digests[i as usize];
        add(cache, mark, roots, joins, digest, watched, steps);
    }
}

// A mark for the block. The cache is of the targets' forest.
fn begin_block<D>(
    alloc: Global,
    cache: &mut Cache<D>,
    targets: &Targets,
    adds: u64,
    watched: u64,
) -> Result<Mark, NoMemory>
    requires { IsOfForest targets.now.leaves cache.old.parts }
    ensures lists { HaveSameLists cache.new.parts cache.old.parts }
    ensures watch { cache.new.watch ≡ cache.old.watch }
    ensures kept_room { cache.old.parts.kept_room ≤ cache.new.parts.kept_room }
    ensures held_room { cache.old.parts.held_room ≤ cache.new.parts.held_room }
    ensures fits { IfOk result (λ m. Fits m cache.new.parts) }
    ensures begun { IfOk result (λ m. WasBegun targets.now m cache.new.parts) }
    ensures kept_back { IfOk result (λ m. kept_back m cache.new.parts.kept ≡ cache.old.parts.kept) }
    ensures held_back { IfOk result (λ m. held_back m cache.new.parts.held ≡ cache.old.parts.held) }
    ensures left { IfOk result (λ m. (m.leaves ≡ targets.now.leaves) × (m.adds ≡ adds) × (m.watched ≡ watched)) }
{
    match begin(alloc, cache, targets, adds, watched) {
        Ok(mark) => Ok(mark),
        Err(BeginFault::Elsewhere) => unreachable!(),
        Err(BeginFault::NoMemory) => Err(NoMemory),
    }
}

// The same where something may be watched.
fn grow_watched<D: Digester, L: Ledger>(
    alloc: Global,
    cache: &mut Cache<D>,
    roots: &mut Roots<D>,
    room: &mut LeafBuf<D>,
    joins: &mut Joins,
    targets: &Targets,
    changes: &Changes<'_>,
    spends: &Spends<'_>,
    steps: &mut Steps<L>,
) -> Result<Mark, NoMemory>
    requires entries { targets.now.leaves ≡ roots.old.leaves }
    requires forest { IsOfForest roots.old.leaves cache.old.parts }
    requires few { roots.old.leaves + length spends.now.new < 2 ^ 40 }
    ensures roots { OnOk result (roots.new ≡ with_leaves D.digest_of roots.old (map (λ leaf. D.digest_of (leaf_text leaf)) spends.now.new)) }
    ensures kept { OnOk result (cache.new.parts.kept ≡ kept_with_all D.digest_of cache.old.watch roots.old spends.now.new
        (moved_leaves targets.now.leaves targets.now.targets cache.old.parts.kept)) }
    ensures held { OnOk result (cache.new.parts.held ≡ held_with_all D.digest_of cache.old.watch roots.old spends.now.new
        (held_deleted targets.now.leaves targets.now.targets (pairs_within targets.now.leaves changes.now)
        (leaf_places (moved_leaves targets.now.leaves targets.now.targets cache.old.parts.kept)) cache.old.parts.held)) }
    ensures fits { IfOk result (λ mark. Fits mark cache.new.parts) }
    ensures kept_back { IfOk result (λ mark. kept_back mark cache.new.parts.kept ≡ cache.old.parts.kept) }
    ensures held_back { IfOk result (λ mark. held_back mark cache.new.parts.held ≡ cache.old.parts.held) }
    ensures stays { OnErr result (HaveSameLists cache.new.parts cache.old.parts) }
    ensures watch { cache.new.watch ≡ cache.old.watch }
    ensures kept_room { cache.old.parts.kept_room ≤ cache.new.parts.kept_room }
    ensures held_room { cache.old.parts.held_room ≤ cache.new.parts.held_room }
    ensures steps { steps.new ≤ steps.old + 2 * length spends.now.new + 40 }
{
    let outputs = spends.new_outputs();
    let digests = leaf_digests(alloc, room, &outputs, steps)?;
    let leaves = watched_in(alloc, cache.watch(), spends)?;
    let watched = leaves.len() as u64;
    let mut mark = begin_block(alloc, cache, targets, spends.new_count(), watched)?;
    after_delete(cache, &mut mark, targets, changes);
    append(
        cache, &mut mark, roots, joins, spends, &digests, leaves, steps,
    );
    mark.shrink();
    Ok(mark)
}

/// The roots, from which the targets are gone, and the cache behind a block: the targets go, with these changes, and the new
/// records come. The mark gives the cache back. All memory is taken before the first change; where there is none, the cache keeps and holds what it
/// did.
pub(crate) fn grow<D: Digester, L: Ledger>(
    alloc: Global,
    cache: &mut Cache<D>,
    roots: &mut Roots<D>,
    room: &mut LeafBuf<D>,
    joins: &mut Joins,
    targets: &Targets,
    changes: &Changes<'_>,
    spends: &Spends<'_>,
    steps: &mut Steps<L>,
) -> Result<Mark, NoMemory>
    requires entries { targets.now.leaves ≡ roots.old.leaves }
    requires forest { IsOfForest roots.old.leaves cache.old.parts }
    requires few { roots.old.leaves + length spends.now.new < 2 ^ 40 }
    ensures roots { OnOk result (roots.new ≡ with_leaves D.digest_of roots.old (map (λ leaf. D.digest_of (leaf_text leaf)) spends.now.new)) }
    ensures kept { OnOk result (cache.new.parts.kept ≡ kept_with_all D.digest_of cache.old.watch roots.old spends.now.new
        (moved_leaves targets.now.leaves targets.now.targets cache.old.parts.kept)) }
    ensures held { OnOk result (cache.new.parts.held ≡ held_with_all D.digest_of cache.old.watch roots.old spends.now.new
        (held_deleted targets.now.leaves targets.now.targets (pairs_within targets.now.leaves changes.now)
        (leaf_places (moved_leaves targets.now.leaves targets.now.targets cache.old.parts.kept)) cache.old.parts.held)) }
    ensures fits { IfOk result (λ mark. Fits mark cache.new.parts) }
    ensures kept_back { IfOk result (λ mark. kept_back mark cache.new.parts.kept ≡ cache.old.parts.kept) }
    ensures held_back { IfOk result (λ mark. held_back mark cache.new.parts.held ≡ cache.old.parts.held) }
    ensures stays { OnErr result (HaveSameLists cache.new.parts cache.old.parts) }
    ensures watch { cache.new.watch ≡ cache.old.watch }
    ensures kept_room { cache.old.parts.kept_room ≤ cache.new.parts.kept_room }
    ensures held_room { cache.old.parts.held_room ≤ cache.new.parts.held_room }
    ensures steps { steps.new ≤ steps.old + 2 * length spends.now.new + 40 }
{
    if watches_nothing(cache) {
        grow_unwatched(alloc, cache, roots, room, spends, steps)
    } else {
        grow_watched(
            alloc, cache, roots, room, joins, targets, changes, spends, steps,
        )
    }
}
