//! Undoing what a mark says.
ghost use Rattle.std.specs.Prelude.{◌≡◌, ◌+◌, ◌<◌, ◌≤◌, ◌⊎◌, None, Some, map, length, option_map, vec_len, vec_capacity};
ghost use Rattle.cache_model.specs.Lists.{AscendByNumber, AscendByPlace, leaf_key};
ghost use Rattle.cache_model.specs.Undo.{change, is_same_number, is_before_number};
ghost use Rattle.cache_update.specs.GappedList.{IsGap, around};
ghost use Rattle.cache_update.specs.Given.{entry_was, entry_stood, entry_none, at_place, digest_was, digest_none, undo_entries, undo_digests};
ghost use Rattle.cache_update.specs.Given.{kept_given, held_given};

use crate::gapped_list::{Gap, close, open, put_in, take_out};
use forest_place::Place;
use leaf_cache::{Kept, index_of_number};
use uo_digest::Digest;

// Takes out what is held at these places.
fn take_out_gained(list: &mut [(Place, Digest)], gap: Gap, gained: &[Place]) -> Gap
    requires gap { IsGap gap.from gap.to list.old }
    requires ascends { AscendByPlace (around gap.from gap.to list.old) }
    ensures gap { IsGap result.from result.to list.new }
    ensures items { around result.from result.to list.new ≡ undo_digests (map digest_none gained.now) (around gap.from gap.to list.old) }
    ensures ascends { AscendByPlace (around result.from result.to list.new) }
{
    let mut now = gap;
    let mut i = gained.len();
    while i > 0 {
        i -= 1;
        now = take_out(list, now, gained[i]);
    }
    now
}

// Puts back what was held at these places.
fn put_back_lost(list: &mut [(Place, Digest)], gap: Gap, lost: &[(Place, Digest)]) -> Gap
    requires gap { IsGap gap.from gap.to list.old }
    requires ascends { AscendByPlace (around gap.from gap.to list.old) }
    requires room { (length (around gap.from gap.to list.old) + length lost.now ≤ length list.old)
        ⊎ (length (undo_digests (map digest_was lost.now) (around gap.from gap.to list.old)) < length list.old) }
    ensures gap { IsGap result.from result.to list.new }
    ensures items { around result.from result.to list.new ≡ undo_digests (map digest_was lost.now) (around gap.from gap.to list.old) }
    ensures ascends { AscendByPlace (around result.from result.to list.new) }
{
    let mut now = gap;
    let mut i = lost.len();
    while i > 0 {
        i -= 1;
        now = put_in(list, now, lost[i].0, lost[i].1);
    }
    now
}

// The list around the gap becomes what it was, where this was lost and gained since.
fn undo_around(
    list: &mut [(Place, Digest)],
    gap: Gap,
    lost: &[(Place, Digest)],
    gained: &[Place],
) -> Gap
    requires gap { IsGap gap.from gap.to list.old }
    requires ascends { AscendByPlace (around gap.from gap.to list.old) }
    requires room { (length (around gap.from gap.to list.old) + length lost.now ≤ length list.old)
        ⊎ (length (held_given lost.now gained.now (around gap.from gap.to list.old)) < length list.old) }
    ensures gap { IsGap result.from result.to list.new }
    ensures items { around result.from result.to list.new ≡ held_given lost.now gained.now (around gap.from gap.to list.old) }
{
    let without = take_out_gained(list, gap, gained);
    put_back_lost(list, without, lost)
}

fn undo_places(held: &mut Vec<(Place, Digest)>, lost: &[(Place, Digest)], gained: &[Place])
    requires ascends { AscendByPlace held.old.items }
    requires room { length (held_given lost.now gained.now held.old.items) < vec_capacity held.old }
    ensures items { held.new.items ≡ held_given lost.now gained.now held.old.items }
    ensures capacity { vec_capacity held.new ≡ vec_capacity held.old }
{
    let gap = open(held, lost);
    let whole = undo_around(held, gap, lost, gained);
    close(held, whole);
}

// The held digests as they were, where what was lost and gained since is this. It takes no memory.
pub(crate) fn undo_held(held: &mut Vec<(Place, Digest)>, lost: &[(Place, Digest)], gained: &[Place])
    requires ascends { AscendByPlace held.old.items }
    requires room { length (held_given lost.now gained.now held.old.items) < vec_capacity held.old }
    ensures items { held.new.items ≡ held_given lost.now gained.now held.old.items }
    ensures ascends { AscendByPlace held.new.items }
    ensures capacity { vec_capacity held.new ≡ vec_capacity held.old }
{
    undo_places(held, lost, gained);
}

// Takes out the entry with this number, if it is kept.
fn take_out_entry(kept: &mut Vec<Kept>, number: u64)
    requires { AscendByNumber kept.old.items }
    ensures items { kept.new.items ≡ change is_same_number is_before_number leaf_key number (λ now. None) kept.old.items }
    ensures ascends { AscendByNumber kept.new.items }
    ensures capacity { vec_capacity kept.new ≡ vec_capacity kept.old }
{
    let i = index_of_number(kept, number);
    if i == kept.len() {
        return;
    }
    if number == kept[i].number {
        let _ = kept.remove(i);
    }
}

// The entry with this number stands here, if it is kept.
fn set_place(kept: &mut Vec<Kept>, number: u64, place: Place)
    requires { AscendByNumber kept.old.items }
    ensures items { kept.new.items ≡ change is_same_number is_before_number leaf_key number (λ now. option_map (at_place (number, place)) now)
        kept.old.items }
    ensures ascends { AscendByNumber kept.new.items }
    ensures capacity { vec_capacity kept.new ≡ vec_capacity kept.old }
{
    let i = index_of_number(kept, number);
    if i == kept.len() {
        return;
    }
    if number == kept[i].number {
        kept[i].place = place;
    }
}

// Keeps an entry.
fn put_entry(kept: &mut Vec<Kept>, entry: Kept)
    requires ascends { AscendByNumber kept.old.items }
    requires room { vec_len kept.old < vec_capacity kept.old }
    ensures items { kept.new.items ≡ change is_same_number is_before_number leaf_key entry.number (λ now. Some entry) kept.old.items }
    ensures ascends { AscendByNumber kept.new.items }
    ensures capacity { vec_capacity kept.new ≡ vec_capacity kept.old }
{
    let i = index_of_number(kept, entry.number);
    if i == kept.len() {
        kept.push_reserved(entry);
    } else if entry.number == kept[i].number {
        kept[i] = entry;
    } else {
        let _ = kept.insert(i, entry);
    }
}

// Takes out the entries with these numbers.
fn take_out_added(kept: &mut Vec<Kept>, added: &[u64])
    requires { AscendByNumber kept.old.items }
    ensures items { kept.new.items ≡ undo_entries (map entry_none added.now) kept.old.items }
    ensures ascends { AscendByNumber kept.new.items }
    ensures capacity { vec_capacity kept.new ≡ vec_capacity kept.old }
{
    let mut i = added.len();
    while i > 0 {
        i -= 1;
        take_out_entry(kept, added[i]);
    }
}

// The entries with these numbers stand where they stood.
fn set_places(kept: &mut Vec<Kept>, stood: &[(u64, Place)])
    requires { AscendByNumber kept.old.items }
    ensures items { kept.new.items ≡ undo_entries (map entry_stood stood.now) kept.old.items }
    ensures ascends { AscendByNumber kept.new.items }
    ensures capacity { vec_capacity kept.new ≡ vec_capacity kept.old }
{
    let mut i = stood.len();
    while i > 0 {
        i -= 1;
        set_place(kept, stood[i].0, stood[i].1);
    }
}

// Puts back the entries that were taken out.
fn put_back_taken(kept: &mut Vec<Kept>, taken: Vec<Kept>)
    requires ascends { AscendByNumber kept.old.items }
    requires room { length (undo_entries (map entry_was taken.items) kept.old.items) < vec_capacity kept.old }
    ensures items { kept.new.items ≡ undo_entries (map entry_was taken.items) kept.old.items }
    ensures ascends { AscendByNumber kept.new.items }
    ensures capacity { vec_capacity kept.new ≡ vec_capacity kept.old }
{
    let mut left = taken;
    while let Some(entry) = left.pop() {
        put_entry(kept, entry);
    }
}

// The kept entries as they were, where these were taken out, stood elsewhere and were added since.
pub(crate) fn undo_kept(
    kept: &mut Vec<Kept>,
    taken: Vec<Kept>,
    stood: &[(u64, Place)],
    added: &[u64],
)
    requires ascends { AscendByNumber kept.old.items }
    requires room { length (kept_given taken.items stood.now added.now kept.old.items) < vec_capacity kept.old }
    ensures items { kept.new.items ≡ kept_given taken.items stood.now added.now kept.old.items }
    ensures ascends { AscendByNumber kept.new.items }
    ensures capacity { vec_capacity kept.new ≡ vec_capacity kept.old }
{
    take_out_added(kept, added);
    set_places(kept, stood);
    put_back_taken(kept, taken);
}
