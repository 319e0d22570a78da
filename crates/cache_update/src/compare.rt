//! A mark between two caches.
ghost use Rattle.std.specs.Prelude.{◌≡◌, ◌<◌, ◌≤◌, None, length, map, IfOk, OnOk};
ghost use Rattle.cache_model.specs.Lists.{leaf_key};
ghost use Rattle.leaf_cache.specs.Parted.{Parted as PartedCache, HaveSameLists};
ghost use Rattle.cache_update.specs.Marks.{Fits, kept_back, held_back};

use crate::differ::{note_all_gained, note_all_lost};
use crate::mark::Mark;
use leaf_cache::{Cache, Kept, Parts, copies_of};
use std::alloc::Global;
use uo_base::NoMemory;

fn number_of(entry: &Kept) -> u64
    ensures { result ≡ entry.now.number }
{
    entry.number
}

// The numbers of the kept entries.
fn numbers_of(alloc: Global, kept: &[Kept]) -> Result<Vec<u64>, NoMemory>
    ensures { IfOk result (λ v. v.items ≡ map leaf_key kept.now) }
{
    Ok(kept.iter().map(|entry| number_of(entry)).collect(alloc)?)
}

// A mark with no block, that gives back the older lists over the newer ones: of the held digests it has what differs.
fn differing(alloc: Global, newer: &Parts, older: &Parts) -> Result<Mark, NoMemory>
    ensures kept { IfOk result (λ m. kept_back m newer.now.kept ≡ older.now.kept) }
    ensures held { IfOk result (λ m. held_back m newer.now.held ≡ older.now.held) }
    ensures room { IfOk result (λ m. m.room ≡ None) }
    ensures done { IfOk result (λ m. (m.leaves ≡ 0) × (m.adds ≡ 0) × (m.watched ≡ 0)) }
{
    let taken = copies_of(alloc, &older.kept)?;
    let added = numbers_of(alloc, &newer.kept)?;
    let mut lost = Vec::with_capacity(alloc, older.held.len())?;
    let mut gained = Vec::with_capacity(alloc, newer.held.len())?;
    note_all_lost(&mut lost, &newer.held, &older.held);
    note_all_gained(&mut gained, &newer.held, &older.held);
    Ok(Mark {
        leaves: 0,
        adds: 0,
        watched: 0,
        taken,
        stood: Vec::new(alloc),
        added,
        lost,
        gained,
        room: None,
    })
}

// Makes room for these lists.
fn make_room(parts: &mut Parts, older: &Parts) -> Result<(), NoMemory>
    ensures lists { HaveSameLists parts.new parts.old }
    ensures kept_room { parts.old.kept_room ≤ parts.new.kept_room }
    ensures held_room { parts.old.held_room ≤ parts.new.held_room }
    ensures kept { OnOk result (length older.now.kept < parts.new.kept_room) }
    ensures held { OnOk result (length older.now.held < parts.new.held_room) }
{
    parts.kept.reserve(older.kept.len() + 1)?;
    parts.held.reserve(older.held.len() + 1)?;
    Ok(())
}

/// A mark that gives back `older` over a cache with the lists `newer`, and room in the cache for `older`. What the cache keeps
/// and holds stays. No addition is left in the mark.
pub fn between<D>(
    alloc: Global,
    cache: &mut Cache<D>,
    newer: &Parts,
    older: &Parts,
) -> Result<Mark, NoMemory>
    ensures lists { HaveSameLists cache.new.parts cache.old.parts }
    ensures watch { cache.new.watch ≡ cache.old.watch }
    ensures kept_room { cache.old.parts.kept_room ≤ cache.new.parts.kept_room }
    ensures held_room { cache.old.parts.held_room ≤ cache.new.parts.held_room }

    // It fits each cache that has the newer lists and this room.
    ensures fits { IfOk result (λ m. (p : PartedCache) → HaveSameLists p newer.now → cache.new.parts.kept_room ≤ p.kept_room
        → cache.new.parts.held_room ≤ p.held_room → Fits m p) }
    ensures kept_back { IfOk result (λ m. kept_back m newer.now.kept ≡ older.now.kept) }
    ensures held_back { IfOk result (λ m. held_back m newer.now.held ≡ older.now.held) }
    ensures done { IfOk result (λ m. (m.leaves ≡ 0) × (m.adds ≡ 0) × (m.watched ≡ 0)) }
{
    let mark = differing(alloc, newer, older)?;
    make_room(cache.parts(), older)?;
    Ok(mark)
}
