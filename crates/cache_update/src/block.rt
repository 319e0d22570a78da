//! A cache through one block: the deletion, and each addition.
ghost use Rattle.std.specs.Prelude.{◌≡◌, ℕ, List, Option, ◌+◌, ◌<◌, ◌≤◌, ◌^◌, ◌∷◌, ◌++◌, [], true, false, length, map, is_some, Some, None};
ghost use Rattle.std.specs.Prelude.{if◌then◌else◌, vec_len, vec_capacity};
ghost use Rattle.uo_digest.specs.declared.digest.Digest.{Digest as Digested};
ghost use Rattle.leaf_record.specs.Leaf.{Leaf, leaf_text};
ghost use Rattle.leaf_record.specs.History.{History, spent};
ghost use Rattle.forest_place.specs.Forest.{is_slot};
ghost use Rattle.forest_model.specs.Standing.{digest_at};
ghost use Rattle.forest_model.specs.Cover.{need};
ghost use Rattle.forest_model.specs.Deletion.{StandAt};
ghost use Rattle.forest_model.specs.Addition.{all_slots};
ghost use Rattle.forest_model.specs.Right.{entries};
ghost use Rattle.forest_roots.specs.Stump.{Stump, StandsFor};
ghost use Rattle.forest_roots.specs.Joined.{joins_of};
ghost use Rattle.proof_verify.specs.Verified.{AreChanges};
ghost use Rattle.cache_model.specs.Known.{is_watched};
ghost use Rattle.cache_model.specs.Lists.{IsCacheOf, moved_leaves, leaf_places, leaves_more};
ghost use Rattle.cache_model.specs.Steps.{held_deleted};
ghost use Rattle.cache_update.specs.Joins.{is_empty_of, added_by};
ghost use Rattle.cache_update.specs.Marks.{Fits, WasBegun, kept_back, held_back, pairs_within};

use crate::lists::{add_to, delete_from};
use crate::mark::Mark;
use forest_place::Place;
use forest_roots::{Join, Joins};
use leaf_cache::{Cache, Parts};
use leaf_record::Record;
use proof_shape::Targets;
use proof_verify::Changes;
use uo_digest::Digest;

// The lists after the deletion of the block.
fn delete_in(parts: &mut Parts, mark: &mut Mark, targets: &Targets, pairs: &[(Place, Digest)])
    requires fits { Fits mark.old parts.old }
    requires begun { WasBegun targets.now mark.old parts.old }
    ensures kept { parts.new.kept ≡ moved_leaves targets.now.leaves targets.now.targets parts.old.kept }
    ensures held { parts.new.held ≡ held_deleted targets.now.leaves targets.now.targets (pairs_within targets.now.leaves pairs.now)
        (leaf_places (moved_leaves targets.now.leaves targets.now.targets parts.old.kept)) parts.old.held }
    ensures fits { Fits mark.new parts.new }
    ensures kept_back { kept_back mark.new parts.new.kept ≡ kept_back mark.old parts.old.kept }
    ensures held_back { held_back mark.new parts.new.held ≡ held_back mark.old parts.old.held }
    ensures leaves { mark.new.leaves ≡ mark.old.leaves }
    ensures adds { mark.new.adds ≡ mark.old.adds }
    ensures watched { mark.new.watched ≡ mark.old.watched }
    ensures kept_room { parts.new.kept_room ≡ parts.old.kept_room }
    ensures held_room { parts.new.held_room ≡ parts.old.held_room }
{
    let Some(left) = mark.room.take() else {
        return;
    };
    let mut room = left;
    let lists = &mut *room;
    delete_from(
        parts,
        &mut mark.taken,
        &mut lists.scratch,
        targets,
        &lists.kept,
        pairs,
    );
    mark.go_on(room, parts);
}

// The lists after an addition of the block.
fn add_in(
    parts: &mut Parts,
    mark: &mut Mark,
    n: u64,
    digest: Digest,
    joins: &[Join],
    leaf: Option<Record>,
)
    requires fits { Fits mark.old parts.old }
    requires left { 0 < mark.old.adds }
    requires watched { is_some leaf ≡ true → 0 < mark.old.watched }
    requires count { n ≡ mark.old.leaves }
    requires few { n + 1 < 2 ^ 40 }
    requires slots { all_slots n (length joins.now) ≡ true }
    requires forty { length joins.now ≤ 40 }
    ensures kept { parts.new.kept ≡ leaves_more (is_empty_of joins.now) n (length joins.now) leaf digest parts.old.kept }
    ensures held { parts.new.held ≡ added_by joins.now digest n (is_some leaf) parts.old.held }
    ensures fits { Fits mark.new parts.new }
    ensures kept_back { kept_back mark.new parts.new.kept ≡ kept_back mark.old parts.old.kept }
    ensures held_back { held_back mark.new parts.new.held ≡ held_back mark.old parts.old.held }
    ensures leaves { mark.new.leaves ≡ mark.old.leaves + 1 }
    ensures adds { mark.new.adds + 1 ≡ mark.old.adds }
    ensures watched { mark.new.watched + (if is_some leaf then 1 else 0) ≡ mark.old.watched }
    ensures kept_room { parts.new.kept_room ≡ parts.old.kept_room }
    ensures held_room { parts.new.held_room ≡ parts.old.held_room }
{
    mark.count_one(leaf.is_some());
    let Some(left) = mark.room.take() else {
        return;
    };
    let mut room = left;
    add_to(parts, &mut room.scratch.spare, n, digest, joins, leaf);
    mark.go_on(room, parts);
}

impl Mark {
    // An addition fewer is left, and a watched one where this is watched.
    fn count_one(&mut self, is_watched: bool)
        requires left { 0 < self.old.adds }
        requires watched { is_watched ≡ true → 0 < self.old.watched }
        requires added { is_watched ≡ true → vec_len self.old.added < vec_capacity self.old.added }
        requires few { self.old.leaves + 1 < 2 ^ 40 }
        ensures leaves { self.new.leaves ≡ self.old.leaves + 1 }
        ensures adds { self.new.adds + 1 ≡ self.old.adds }
        ensures watched { self.new.watched + (if is_watched then 1 else 0) ≡ self.old.watched }
        ensures added { self.new.added.items ≡ self.old.added.items ++ (if is_watched then self.old.leaves ∷ [] else []) }
        ensures added_room { vec_len self.new.added + self.new.watched + vec_capacity self.old.added ≤ vec_len self.old.added + self.old.watched
            + vec_capacity self.new.added }
        ensures taken { self.new.taken.items ≡ self.old.taken.items }
        ensures stood { self.new.stood.items ≡ self.old.stood.items }
        ensures stood_len { vec_len self.new.stood ≡ vec_len self.old.stood }
        ensures lost { self.new.lost.items ≡ self.old.lost.items }
        ensures gained { self.new.gained.items ≡ self.old.gained.items }
        ensures room { self.new.room ≡ self.old.room }
    {
        if is_watched {
            let _ = self.added.push(self.leaves);
            self.watched -= 1;
        }
        self.leaves += 1;
        self.adds -= 1;
    }
}

/// The cache after the deletion of the block for which the mark was begun: `targets` are its targets, and `changes` what the
/// check of their proof answered. Takes no memory.
///
/// The entries that are spent go, and what is known moves with its place; a digest of `changes` stands where it is known.
pub fn after_delete<D>(
    cache: &mut Cache<D>,
    mark: &mut Mark,
    targets: &Targets,
    changes: &Changes<'_>,
)
    requires fits { Fits mark.old cache.old.parts }
    requires begun { WasBegun targets.now mark.old cache.old.parts }
    ensures kept { cache.new.parts.kept ≡ moved_leaves targets.now.leaves targets.now.targets cache.old.parts.kept }
    ensures held { cache.new.parts.held ≡ held_deleted targets.now.leaves targets.now.targets (pairs_within targets.now.leaves changes.now)
        (leaf_places (moved_leaves targets.now.leaves targets.now.targets cache.old.parts.kept)) cache.old.parts.held }
    ensures watch { cache.new.watch ≡ cache.old.watch }

    // Where the cache stands for a history, the targets are places of live entries and the changes are those of right hashes.
    ensures stands { (H : List ℕ → Digested) (scripts : List (List ℕ)) (us : History) (numbers : List ℕ)
        (hashes : List Digested) →
        length us ≡ targets.now.leaves → StandAt (entries H leaf_text us) targets.now.targets numbers →
        map Some hashes ≡ map (λ p. digest_at H (entries H leaf_text us) p.row p.off) (need (length us) targets.now.targets) →
        AreChanges H (length us) targets.now.targets hashes changes.now → IsCacheOf H scripts us cache.old.parts.kept cache.old.parts.held →
        IsCacheOf H scripts (spent numbers us) cache.new.parts.kept cache.new.parts.held }

    ensures fits { Fits mark.new cache.new.parts }
    ensures kept_back { kept_back mark.new cache.new.parts.kept ≡ kept_back mark.old cache.old.parts.kept }
    ensures held_back { held_back mark.new cache.new.parts.held ≡ held_back mark.old cache.old.parts.held }
    ensures leaves { mark.new.leaves ≡ mark.old.leaves }
    ensures adds { mark.new.adds ≡ mark.old.adds }
    ensures watched { mark.new.watched ≡ mark.old.watched }
    ensures kept_room { cache.new.parts.kept_room ≡ cache.old.parts.kept_room }
    ensures held_room { cache.new.parts.held_room ≡ cache.old.parts.held_room }
{
    delete_in(cache.parts(), mark, targets, changes.pairs());
}

/// The cache after an addition of the mark's block to `n` entries: `digest` is that of the new leaf, `joins` what the addition
/// joined, and `leaf` the new entry where its script is watched. Takes no memory.
pub fn after_add<D>(
    cache: &mut Cache<D>,
    mark: &mut Mark,
    n: u64,
    digest: Digest,
    joins: &Joins,
    leaf: Option<Record>,
)
    requires fits { Fits mark.old cache.old.parts }
    requires left { 0 < mark.old.adds }
    requires watched { is_some leaf ≡ true → 0 < mark.old.watched }
    requires count { n ≡ mark.old.leaves }
    requires few { n + 1 < 2 ^ 40 }
    requires slots { all_slots n (length joins.now) ≡ true }
    ensures kept { cache.new.parts.kept ≡ leaves_more (is_empty_of joins.now) n (length joins.now) leaf digest cache.old.parts.kept }
    ensures held { cache.new.parts.held ≡ added_by joins.now digest n (is_some leaf) cache.old.parts.held }
    ensures watch { cache.new.watch ≡ cache.old.watch }

    // Where the cache stands for a history, and roots that stand for it joined these.
    ensures stands { (H : List ℕ → Digested) (scripts : List (List ℕ)) (us : History) (u : Leaf) (f : Stump) →
        length us ≡ n → StandsFor H (entries H leaf_text us) f → digest ≡ H (leaf_text u) → joins.now ≡ joins_of H f (H (leaf_text u))
        → is_slot n (length joins.now) ≡ false →
        leaf ≡ (if is_watched scripts (Some u) then Some u else None) → IsCacheOf H scripts us cache.old.parts.kept cache.old.parts.held →
        IsCacheOf H scripts (us ++ Some u ∷ []) cache.new.parts.kept cache.new.parts.held }

    ensures fits { Fits mark.new cache.new.parts }
    ensures kept_back { kept_back mark.new cache.new.parts.kept ≡ kept_back mark.old cache.old.parts.kept }
    ensures held_back { held_back mark.new cache.new.parts.held ≡ held_back mark.old cache.old.parts.held }
    ensures leaves { mark.new.leaves ≡ mark.old.leaves + 1 }
    ensures adds { mark.new.adds + 1 ≡ mark.old.adds }
    ensures watched { mark.new.watched + (if is_some leaf then 1 else 0) ≡ mark.old.watched }
    ensures kept_room { cache.new.parts.kept_room ≡ cache.old.parts.kept_room }
    ensures held_room { cache.new.parts.held_room ≡ cache.old.parts.held_room }
{
    add_in(cache.parts(), mark, n, digest, joins.list(), leaf);
}
