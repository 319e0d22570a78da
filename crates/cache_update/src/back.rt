//! A cache, and lists of one, as they were.
ghost use Rattle.std.specs.Prelude.{◌≡◌, ◌+◌, ◌^◌, ◌<◌, ◌≤◌, length, OnOk, OnErr, vec_capacity};
ghost use Rattle.cache_model.specs.Lists.{AscendByPlace};
ghost use Rattle.leaf_cache.specs.Parted.{HaveSameLists};
ghost use Rattle.cache_update.specs.Marks.{Fits, GivesInOrder, kept_back, held_back, held_from};

use crate::mark::{BlockRoom, Mark};
use crate::put::copy_over;
use crate::undoing::{undo_held, undo_kept};
use forest_place::Place;
use leaf_cache::{Cache, Parts, copies_of};
use std::alloc::Global;
use uo_base::NoMemory;
use uo_digest::Digest;

// The held digests as they were.
fn give_held(
    held: &mut Vec<(Place, Digest)>,
    room: &Option<Box<BlockRoom>>,
    lost: &[(Place, Digest)],
    gained: &[Place],
)
    requires ascends { AscendByPlace held.old.items }
    requires order { GivesInOrder room.now }
    requires room { length (held_from room.now lost.now gained.now held.old.items) < vec_capacity held.old }
    ensures items { held.new.items ≡ held_from room.now lost.now gained.now held.old.items }
    ensures ascends { AscendByPlace held.new.items }
    ensures capacity { vec_capacity held.new ≡ vec_capacity held.old }
{
    match room {
        Some(room) => copy_over(held, &room.before),
        None => undo_held(held, lost, gained),
    }
}

// The lists as they were.
fn undo_in(parts: &mut Parts, mark: Mark)
    requires { Fits mark parts.old }
    ensures kept { parts.new.kept ≡ kept_back mark parts.old.kept }
    ensures held { parts.new.held ≡ held_back mark parts.old.held }
    ensures kept_room { parts.new.kept_room ≡ parts.old.kept_room }
    ensures held_room { parts.new.held_room ≡ parts.old.held_room }
{
    let Mark {
        taken,
        stood,
        added,
        lost,
        gained,
        room,
        ..
    } = mark;
    undo_kept(&mut parts.kept, taken, &stood, &added);
    give_held(&mut parts.held, &room, &lost, &gained);
}

/// The cache that the mark gives back. For a mark of `begin` this is the cache that `begin` met. Takes no memory.
pub fn undo<D>(cache: &mut Cache<D>, mark: Mark)
    requires { Fits mark cache.old.parts }
    ensures kept { cache.new.parts.kept ≡ kept_back mark cache.old.parts.kept }
    ensures held { cache.new.parts.held ≡ held_back mark cache.old.parts.held }
    ensures watch { cache.new.watch ≡ cache.old.watch }
    ensures kept_room { cache.new.parts.kept_room ≡ cache.old.parts.kept_room }
    ensures held_room { cache.new.parts.held_room ≡ cache.old.parts.held_room }
{
    undo_in(cache.parts(), mark);
}

// How many digests the mark puts back, at most.
fn more_held(mark: &Mark) -> usize
    ensures most { (hs : _) → length (held_back mark.now hs) ≤ length hs + result }
    ensures small { result < 2 ^ 63 }
{
    match &mark.room {
        Some(room) => room.before.len(),
        None => mark.lost.len(),
    }
}

/// The lists that the mark gives back over these. At an error they are as they were.
pub fn step_back(alloc: Global, parts: &mut Parts, mark: &Mark) -> Result<(), NoMemory>
    requires { GivesInOrder mark.now.room }
    ensures kept { OnOk result (parts.new.kept ≡ kept_back mark.now parts.old.kept) }
    ensures held { OnOk result (parts.new.held ≡ held_back mark.now parts.old.held) }
    ensures err { OnErr result (HaveSameLists parts.new parts.old) }
{
    let taken = copies_of(alloc, &mark.taken)?;
    parts.kept.reserve(taken.len() + 1)?;
    parts.held.reserve(more_held(mark) + 1)?;
    undo_kept(&mut parts.kept, taken, &mark.stood, &mark.added);
    give_held(&mut parts.held, &mark.room, &mark.lost, &mark.gained);
    Ok(())
}
