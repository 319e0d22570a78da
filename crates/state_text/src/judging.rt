//! Whether what was read is the state of a node.
ghost use Rattle.std.specs.Prelude.{◌≡◌, ℕ, ◌<◌, ◌^◌, length, map, IfOk, IfErr, MatchResult};
ghost use Rattle.std.specs.List.{AllByRecursion};
ghost use Rattle.forest_roots.specs.Stump.{root_in};
ghost use Rattle.leaf_record.specs.Leaf.{leaf_text};
ghost use Rattle.state_text.specs.Stored.{StandsWithin, LevelValue, places_of, leaves_of as leaves_in};
ghost use Rattle.state_text.specs.Fits.{AreKept, IsStoredLevel, IsNext, AreLevels, AreCounts, IsSound};
ghost use Rattle.state_text.specs.Cached.{entry_of, level_in, state_in, IsFilled};
ghost use Rattle.state_text.specs.Reading.{claims, Judges};
ghost use Rattle.state_text.specs.Ordered.{IsMadeLevel, AreMadeLevels};

use crate::entry::StoredEntry;
use crate::fault::StateFault;
use crate::level::StoredLevel;
use crate::scripts::watch_of;
use crate::spelled::{SpelledLevel, SpelledState};
use crate::state::StoredState;
use crate::targets::targets_of;
use crate::telling::told_of;
use forest_place::Place;
use leaf_cache::{Kept, Parts, Watch};
use leaf_record::{LeafBuf, Leaves, RecordView, leaf_digests};
use std::alloc::Global;
use std::sync::ledger::Ledger;
use uo_base::NoMemory;
use uo_digest::{Digest, Digester, Steps};

// Kept entries are different ones of these n, in ascending order, with watched scripts.
fn judge_kept(watch: &Watch, n: u64, kept: &[StoredEntry]) -> Result<(), StateFault>
    ensures { Judges result (AreKept watch.now n kept.now) }
{
    let mut from: u64 = 0;
    for entry in kept {
        if entry.number < from || entry.number >= n || !watch.has(&entry.leaf.script) {
            return Err(StateFault::NotAState);
        }
        from = entry.number + 1;
    }
    Ok(())
}

// The leaves of kept entries.
#[derive(Drop)]
struct KeptLeaves<'s> {
    kept: &'s [StoredEntry],
}

impl<'s> Leaves for KeptLeaves<'s> {
    ghost leaves = { λ k. leaves_in k.kept.now };

    fn count(&self) -> usize {
        self.kept.len()
    }

    fn leaf(&self, index: usize) -> RecordView<'_> {
        self.kept[index].leaf.view()
    }
}

fn leaves_of<D: Digester, L: Ledger>(
    alloc: Global,
    room: &mut LeafBuf<D>,
    kept: &[StoredEntry],
    steps: &mut Steps<L>,
) -> Result<Vec<Digest>, NoMemory>
    ensures { IfOk result (λ leaves. leaves.items ≡ map (λ leaf. D.digest_of (leaf_text leaf)) (leaves_in kept.now)) }
{
    Ok(leaf_digests(alloc, room, &KeptLeaves { kept }, steps)?)
}

fn places_in(alloc: Global, kept: &[StoredEntry]) -> Result<Vec<Place>, NoMemory>
    ensures { IfOk result (λ places. places.items ≡ places_of kept.now) }
{
    Ok(kept.iter().map(|entry| entry.place).collect(alloc)?)
}

// The entries with the digests of their leaves.
fn with_leaves(
    alloc: Global,
    entries: Vec<StoredEntry>,
    leaves: &[Digest],
) -> Result<Vec<Kept>, NoMemory>
    requires { length leaves.now ≡ length entries.items }
    ensures entries { IfOk result (λ kept. map entry_of kept.items ≡ entries.items) }
    ensures digests { IfOk result (λ kept. map (λ k. k.digest) kept.items ≡ leaves.now) }
{
    let mut kept = Vec::with_capacity(alloc, entries.len())?;
    let mut i = 0;
    for entry in entries {
        let StoredEntry {
            number,
            place,
            leaf,
        } = entry;
        kept.push(Kept {
            number,
            leaf,
            place,
            digest: leaves[i],
        })?;
        i += 1;
    }
    Ok(kept)
}

// The level with the lists of a cache, where its kept entries are watched ones and its hashes prove them.
fn judge_level<D: Digester, L: Ledger>(
    alloc: Global,
    watch: &Watch,
    level: SpelledLevel<D>,
    room: &mut LeafBuf<D>,
    steps: &mut Steps<L>,
) -> Result<StoredLevel<D>, StateFault>
    ensures { MatchResult result (λ l. IsMadeLevel D.digest_of watch.now level l) (λ e. claims e (IsStoredLevel D.digest_of watch.now level → ⊥)) }
{
    let (tip, roots, kept, hashes) = level.into_parts();
    let n = roots.leaves();
    judge_kept(watch, n, &kept)?;
    let places = places_in(alloc, &kept)?;
    let targets = targets_of(alloc, n, &places)?;
    let leaves = leaves_of::<D, L>(alloc, room, &kept, steps)?;
    let held = told_of(alloc, &roots, &targets, &leaves, &hashes, steps)?;
    let kept = with_leaves(alloc, kept, &leaves)?;
    Ok(StoredLevel {
        tip,
        roots,
        parts: Parts { kept, held },
    })
}

fn judge_levels<D: Digester, L: Ledger>(
    alloc: Global,
    watch: &Watch,
    levels: Vec<SpelledLevel<D>>,
    steps: &mut Steps<L>,
) -> Result<Vec<StoredLevel<D>>, StateFault>
    ensures { MatchResult result (λ made. AreMadeLevels D.digest_of watch.now levels.items made.items)
        (λ e. claims e (AllByRecursion (IsStoredLevel D.digest_of watch.now) levels.items → ⊥)) }
{
    let mut room = LeafBuf::new(alloc)?;
    let mut made = Vec::with_capacity(alloc, levels.len())?;
    for level in levels {
        made.push(judge_level(alloc, watch, level, &mut room, steps)?)?;
    }
    Ok(made)
}

// A level with no block is that of the start, and none has more entries than this. Its entries are counted.
fn judge_next<D: Digester>(
    left: u32,
    bound: u64,
    level: &SpelledLevel<D>,
) -> Result<u64, StateFault>
    ensures count { IfOk result (λ n. n ≡ level.now.roots.leaves) }
    ensures judged { Judges result (IsNext left bound level.now) }
{
    let n = level.roots.leaves();
    if n > bound {
        return Err(StateFault::NotAState);
    }
    if left > 0 {
        return Ok(n);
    }
    if n > 0 || level.tip != Digest([0; 32]) {
        return Err(StateFault::NotAState);
    }
    Ok(n)
}

fn judge_chain<D: Digester>(
    blocks: u32,
    most: u64,
    levels: &[SpelledLevel<D>],
) -> Result<(), StateFault>
    ensures { Judges result (AreLevels blocks most levels.now) }
{
    let mut left = blocks;
    let mut bound = most;
    for level in levels {
        bound = judge_next(left, bound, level)?;
        left = left.saturating_sub(1);
    }
    Ok(())
}

fn judge_counts(blocks: u32, levels: usize) -> Result<(), StateFault>
    ensures { Judges result (AreCounts blocks levels) }
{
    let few = levels >= 1 && levels <= 101;
    if blocks > 1 << 31 || !few || levels as u64 > blocks as u64 + 1 {
        return Err(StateFault::NotAState);
    }
    Ok(())
}

/// The state, with the lists of a cache on each level, where it is that of a node.
pub(crate) fn judge_state<D: Digester, L: Ledger>(
    alloc: Global,
    state: SpelledState<D>,
    most: u64,
    steps: &mut Steps<L>,
) -> Result<StoredState<D>, StateFault>
    ensures { MatchResult result
        (λ s. IsSound D.digest_of most state × (state_in s ≡ state) × AllByRecursion (IsFilled D.digest_of) s.levels)
        (λ e. claims e (IsSound D.digest_of most state → ⊥)) }
{
    let (net, blocks, scripts, levels) = state.into_parts();
    judge_counts(blocks, levels.len())?;
    judge_chain(blocks, most, &levels)?;
    let watch = watch_of(alloc, &scripts)?;
    let levels = judge_levels(alloc, &watch, levels, steps)?;
    Ok(StoredState {
        net,
        blocks,
        watch,
        levels,
    })
}
