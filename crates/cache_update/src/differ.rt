//! What differs between the lists of two caches.
ghost use Rattle.std.specs.Prelude.{◌≡◌, ◌+◌, ◌<◌, ◌≤◌, ◌++◌, length, filter_map, vec_len, vec_capacity};
ghost use Rattle.std.specs.Option.{option_to_list};
ghost use Rattle.forest_place.specs.Places.{is_before_place};
ghost use Rattle.cache_model.specs.Lists.{AscendByPlace, AscendByNumber};
ghost use Rattle.cache_model.specs.Cache.{look};
ghost use Rattle.cache_model.specs.Search.{IsSplit};
ghost use Rattle.cache_model.specs.Undo.{held_key};
ghost use Rattle.cache_update.specs.Differences.{AreBefore, lost as lost_of, gained as gained_of, moved_since};

use cache_model::is_same;
use forest_place::{Place, is_before};
use leaf_cache::{Kept, place_of};
use uo_digest::Digest;

// How many held places come before this one, where those up to an index do.
pub(crate) fn index_on(held: &[(Place, Digest)], from: usize, place: Place) -> usize
    requires ascends { AscendByPlace held.now }
    requires before { AreBefore held.now from place }
    ensures { IsSplit is_before_place held_key place held.now result }
{
    let mut at = from;
    while at < held.len() {
        if !is_before(held[at].0, place) {
            return at;
        }
        at += 1;
    }
    at
}

// The digest that is held at a place, which stands, or would stand, at the index.
fn digest_at(held: &[(Place, Digest)], at: usize, place: Place) -> Option<Digest>
    requires ascends { AscendByPlace held.now }
    requires split { IsSplit is_before_place held_key place held.now at }
    ensures { result ≡ look held.now place.row place.off }
{
    if at == held.len() {
        return None;
    }
    if is_same(place, held[at].0) {
        Some(held[at].1)
    } else {
        None
    }
}

// Notes a digest that was held, where the newer list does not have it at its place, which stands, or would stand, there at the
// index.
fn note_lost(
    lost: &mut Vec<(Place, Digest)>,
    newer: &[(Place, Digest)],
    at: usize,
    place: Place,
    digest: Digest,
)
    requires newer { AscendByPlace newer.now }
    requires split { IsSplit is_before_place held_key place newer.now at }
    requires room { vec_len lost.old < vec_capacity lost.old }
    ensures items { lost.new.items ≡ lost.old.items ++ option_to_list (lost_of newer.now (place, digest)) }
    ensures len { vec_len lost.new ≤ vec_len lost.old + 1 }
    ensures capacity { vec_capacity lost.old ≤ vec_capacity lost.new }
{
    if let Some(found) = digest_at(newer, at, place) {
        if found == digest {
            return;
        }
    }
    let _ = lost.push((place, digest));
}

// Notes a place at which the older list has nothing, where it would stand at the index.
fn note_gained(
    gained: &mut Vec<Place>,
    older: &[(Place, Digest)],
    at: usize,
    place: Place,
    digest: Digest,
)
    requires older { AscendByPlace older.now }
    requires split { IsSplit is_before_place held_key place older.now at }
    requires room { vec_len gained.old < vec_capacity gained.old }
    ensures items { gained.new.items ≡ gained.old.items ++ option_to_list (gained_of older.now (place, digest)) }
    ensures len { vec_len gained.new ≤ vec_len gained.old + 1 }
    ensures capacity { vec_capacity gained.old ≤ vec_capacity gained.new }
{
    if digest_at(older, at, place).is_some() {
        return;
    }
    let _ = gained.push(place);
}

// Notes where a kept entry stood, if it stands elsewhere now.
fn note_moved(moved: &mut Vec<(u64, Place)>, kept: &[Kept], number: u64, place: Place)
    requires kept { AscendByNumber kept.now }
    requires room { vec_len moved.old < vec_capacity moved.old }
    ensures items { moved.new.items ≡ moved.old.items ++ option_to_list (moved_since kept.now (number, place)) }
    ensures len { vec_len moved.new ≤ vec_len moved.old + 1 }
    ensures capacity { vec_capacity moved.old ≤ vec_capacity moved.new }
{
    if let Some(now) = place_of(kept, number) {
        if !is_same(place, now) {
            let _ = moved.push((number, place));
        }
    }
}

// Notes all that was held and is so no more.
pub(crate) fn note_all_lost(
    lost: &mut Vec<(Place, Digest)>,
    newer: &[(Place, Digest)],
    older: &[(Place, Digest)],
)
    requires newer { AscendByPlace newer.now }
    requires older { AscendByPlace older.now }
    requires room { vec_len lost.old + length older.now ≤ vec_capacity lost.old }
    ensures items { lost.new.items ≡ lost.old.items ++ filter_map (lost_of newer.now) older.now }
    ensures capacity { vec_capacity lost.old ≤ vec_capacity lost.new }
{
    let mut at = 0;
    for i in 0..older.len() {
        at = index_on(newer, at, older[i].0);
        note_lost(lost, newer, at, older[i].0, older[i].1);
    }
}

// Notes all places that the older list lacks.
pub(crate) fn note_all_gained(
    gained: &mut Vec<Place>,
    newer: &[(Place, Digest)],
    older: &[(Place, Digest)],
)
    requires newer { AscendByPlace newer.now }
    requires older { AscendByPlace older.now }
    requires room { vec_len gained.old + length newer.now ≤ vec_capacity gained.old }
    ensures items { gained.new.items ≡ gained.old.items ++ filter_map (gained_of older.now) newer.now }
    ensures capacity { vec_capacity gained.old ≤ vec_capacity gained.new }
{
    let mut at = 0;
    for i in 0..newer.len() {
        at = index_on(older, at, newer[i].0);
        note_gained(gained, older, at, newer[i].0, newer[i].1);
    }
}

// Notes where those stood that are kept and stand elsewhere now.
pub(crate) fn note_all_moved(moved: &mut Vec<(u64, Place)>, kept: &[Kept], stood: &[(u64, Place)])
    requires kept { AscendByNumber kept.now }
    requires room { vec_len moved.old + length stood.now ≤ vec_capacity moved.old }
    ensures items { moved.new.items ≡ moved.old.items ++ filter_map (moved_since kept.now) stood.now }
    ensures capacity { vec_capacity moved.old ≤ vec_capacity moved.new }
{
    for i in 0..stood.len() {
        note_moved(moved, kept, stood[i].0, stood[i].1);
    }
}
