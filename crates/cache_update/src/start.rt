//! A mark for one block, with all the memory that the block takes.
ghost use Rattle.std.specs.Prelude.{◌≡◌, ◌<◌, ◌≤◌, [], map, IfOk, IfErr};
ghost use Rattle.std.specs.Bool.{OnTrue};
ghost use Rattle.leaf_cache.specs.Parted.{HaveSameLists, IsParted};
ghost use Rattle.cache_update.specs.Differences.{where_stood};
ghost use Rattle.cache_update.specs.Begun.{BeginsBlock, KeepsLists, IsRoom, IsMark, IsIdleMark};
ghost use Rattle.cache_update.specs.Refused.{IsBeginFault};
ghost use Rattle.cache_update.specs.Marks.{AreOfForest, Fits, WasBegun, kept_back, held_back};

use crate::block_room::{is_of_forest, room_for};
use crate::fault::BeginFault;
use crate::mark::{BlockRoom, Mark};
use forest_place::Place;
use leaf_cache::{Cache, Kept, Parts};
use proof_shape::Targets;
use std::alloc::Global;
use uo_base::NoMemory;

// The entry's number, and where it stands.
fn stands_at(entry: &Kept) -> (u64, Place)
    ensures { result ≡ where_stood entry.now }
{
    (entry.number, entry.place)
}

// Where each kept entry stands.
fn places_of(alloc: Global, kept: &[Kept]) -> Result<Vec<(u64, Place)>, NoMemory>
    ensures { IfOk result (λ v. v.items ≡ map where_stood kept.now) }
{
    Ok(kept.iter().map(|entry| stands_at(entry)).collect(alloc)?)
}

// A mark for a block of these targets and additions.
fn mark_for(
    alloc: Global,
    parts: &Parts,
    targets: &Targets,
    adds: u64,
    watched: u64,
    room: Box<BlockRoom>,
) -> Result<Mark, NoMemory>
    ensures { IfOk result (λ m. IsMark targets.now parts.now adds watched room m) }
{
    Ok(Mark {
        leaves: targets.leaves(),
        adds,
        watched,
        taken: Vec::with_capacity(alloc, parts.kept.len())?,
        stood: places_of(alloc, &parts.kept)?,
        added: Vec::with_capacity(alloc, watched as usize)?,
        lost: Vec::new(alloc),
        gained: Vec::new(alloc),
        room: Some(room),
    })
}

// Whether nothing is kept or held, and nothing comes that is watched.
fn is_idle(parts: &Parts, adds: u64, watched: u64) -> bool
    ensures { OnTrue result ((0 < adds) × (watched ≡ 0) × (parts.now.kept ≡ []) × (parts.now.held ≡ [])) }
{
    adds > 0 && watched == 0 && parts.kept.is_empty() && parts.held.is_empty()
}

// A mark for additions that change nothing. It takes no memory.
fn idle_mark(alloc: Global, leaves: u64, adds: u64) -> Mark
    ensures { IsIdleMark leaves adds result }
{
    Mark {
        leaves,
        adds,
        watched: 0,
        taken: Vec::new(alloc),
        stood: Vec::new(alloc),
        added: Vec::new(alloc),
        lost: Vec::new(alloc),
        gained: Vec::new(alloc),
        room: None,
    }
}

// A mark for a block that changes nothing of the lists, which are empty.
fn begin_idle(
    alloc: Global,
    parts: &mut Parts,
    targets: &Targets,
    adds: u64,
    watched: u64,
) -> Result<Mark, NoMemory>
    requires adds { 0 < adds }
    requires watched { watched ≡ 0 }
    requires nothing_kept { parts.old.kept ≡ [] }
    requires nothing_held { parts.old.held ≡ [] }
    ensures lists { KeepsLists parts.old parts.new }
    ensures ok { IfOk result (BeginsBlock targets.now adds watched parts.old parts.new) }
{
    parts.kept.reserve(1)?;
    parts.held.reserve(1)?;
    Ok(idle_mark(alloc, targets.leaves(), adds))
}

// A mark with this room, and room in the lists for what the block adds to them. Of 2^64 entries there is no room for one more.
fn begin_with(
    alloc: Global,
    parts: &mut Parts,
    targets: &Targets,
    adds: u64,
    watched: u64,
    room: Box<BlockRoom>,
) -> Result<Mark, NoMemory>
    requires forest { AreOfForest targets.now.leaves parts.old }
    requires room { IsRoom targets.now parts.old adds room.value }
    requires ordered { IsParted parts.old }
    ensures lists { KeepsLists parts.old parts.new }
    ensures ok { IfOk result (BeginsBlock targets.now adds watched parts.old parts.new) }
{
    let Some(entries) = (watched as usize).checked_add(1) else {
        return Err(NoMemory);
    };
    let most = room.most;
    let mark = mark_for(alloc, parts, targets, adds, watched, room)?;
    parts.kept.reserve(entries)?;
    parts.held.reserve(most)?;
    Ok(mark)
}

// A mark for a block, with the room that it takes, and room in the lists for what it adds to them.
fn begin_changing(
    alloc: Global,
    parts: &mut Parts,
    targets: &Targets,
    adds: u64,
    watched: u64,
) -> Result<Mark, BeginFault>
    ensures lists { KeepsLists parts.old parts.new }
    ensures ok { IfOk result (BeginsBlock targets.now adds watched parts.old parts.new) }
    ensures err { IfErr result (λ fault. IsBeginFault targets.now.leaves parts.old fault) }
{
    if !is_of_forest(targets.leaves(), parts) {
        return Err(BeginFault::Elsewhere);
    }
    let room = room_for(alloc, parts, targets, adds)?;
    Ok(begin_with(alloc, parts, targets, adds, watched, room)?)
}

// A mark for a block, and room in the lists for what the block adds to them.
fn begin_in(
    alloc: Global,
    parts: &mut Parts,
    targets: &Targets,
    adds: u64,
    watched: u64,
) -> Result<Mark, BeginFault>
    ensures lists { KeepsLists parts.old parts.new }
    ensures ok { IfOk result (BeginsBlock targets.now adds watched parts.old parts.new) }
    ensures err { IfErr result (λ fault. IsBeginFault targets.now.leaves parts.old fault) }
{
    if is_idle(parts, adds, watched) {
        Ok(begin_idle(alloc, parts, targets, adds, watched)?)
    } else {
        begin_changing(alloc, parts, targets, adds, watched)
    }
}

/// Takes all memory for one block: the deletion of `targets`, then `adds` additions of which `watched` are watched. What the
/// cache keeps and holds stays. The mark gives back this cache, through the deletion and the additions.
///
/// The cache is one of the forest over as many entries as the targets are of. For another one there is no mark, nor where 2^32 or more entries would
/// be kept.
pub fn begin<D>(
    alloc: Global,
    cache: &mut Cache<D>,
    targets: &Targets,
    adds: u64,
    watched: u64,
) -> Result<Mark, BeginFault>
    ensures lists { HaveSameLists cache.new.parts cache.old.parts }
    ensures watch { cache.new.watch ≡ cache.old.watch }
    ensures kept_room { cache.old.parts.kept_room ≤ cache.new.parts.kept_room }
    ensures held_room { cache.old.parts.held_room ≤ cache.new.parts.held_room }
    ensures fits { IfOk result (λ m. Fits m cache.new.parts) }
    ensures begun { IfOk result (λ m. WasBegun targets.now m cache.new.parts) }
    ensures kept_back { IfOk result (λ m. kept_back m cache.new.parts.kept ≡ cache.old.parts.kept) }
    ensures held_back { IfOk result (λ m. held_back m cache.new.parts.held ≡ cache.old.parts.held) }
    ensures left { IfOk result (λ m. (m.leaves ≡ targets.now.leaves) × (m.adds ≡ adds) × (m.watched ≡ watched)) }
    ensures err { IfErr result (λ fault. IsBeginFault targets.now.leaves cache.old.parts fault) }
{
    begin_in(alloc, cache.parts(), targets, adds, watched)
}

// The mark of a block that changes nothing of the lists, which are empty and stay so.
fn unchanged_in(alloc: Global, parts: &mut Parts) -> Result<Mark, NoMemory>
    requires kept { parts.old.kept ≡ [] }
    requires held { parts.old.held ≡ [] }
    ensures lists { KeepsLists parts.old parts.new }
    ensures fits { IfOk result (λ m. Fits m parts.new) }
    ensures kept_back { IfOk result (λ m. kept_back m parts.new.kept ≡ parts.old.kept) }
    ensures held_back { IfOk result (λ m. held_back m parts.new.held ≡ parts.old.held) }
    ensures done { IfOk result (λ m. (m.leaves ≡ 0) × (m.adds ≡ 0) × (m.watched ≡ 0)) }
{
    parts.kept.reserve(1)?;
    parts.held.reserve(1)?;
    Ok(idle_mark(alloc, 0, 0))
}

/// The mark of a block of which a cache that keeps and holds nothing is told nothing, neither what it deletes nor what it adds, since
/// none of its outputs is watched. What the cache keeps and holds stays nothing, and the mark gives it back.
pub fn unchanged<D>(alloc: Global, cache: &mut Cache<D>) -> Result<Mark, NoMemory>
    requires kept { cache.old.parts.kept ≡ [] }
    requires held { cache.old.parts.held ≡ [] }
    ensures lists { HaveSameLists cache.new.parts cache.old.parts }
    ensures watch { cache.new.watch ≡ cache.old.watch }
    ensures kept_room { cache.old.parts.kept_room ≤ cache.new.parts.kept_room }
    ensures held_room { cache.old.parts.held_room ≤ cache.new.parts.held_room }
    ensures fits { IfOk result (λ m. Fits m cache.new.parts) }
    ensures kept_back { IfOk result (λ m. kept_back m cache.new.parts.kept ≡ cache.old.parts.kept) }
    ensures held_back { IfOk result (λ m. held_back m cache.new.parts.held ≡ cache.old.parts.held) }
    ensures done { IfOk result (λ m. (m.leaves ≡ 0) × (m.adds ≡ 0) × (m.watched ≡ 0)) }
{
    unchanged_in(alloc, cache.parts())
}
