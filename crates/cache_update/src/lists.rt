//! Both lists of a cache after a deletion and after an addition.
ghost use Rattle.std.specs.Prelude.{◌≡◌, ◌+◌, ◌*◌, ◌<◌, ◌≤◌, ◌^◌, ◌++◌, true, length, filter, is_some, All, vec_len, vec_capacity};
ghost use Rattle.forest_model.specs.Addition.{all_slots};
ghost use Rattle.cache_model.specs.Lists.{moved_leaves, leaf_places, leaves_more};
ghost use Rattle.cache_model.specs.Steps.{held_deleted};
ghost use Rattle.leaf_cache.specs.Parted.{IsParted};
ghost use Rattle.cache_update.specs.DeletionGoals.{TellGoals};
ghost use Rattle.cache_update.specs.Joins.{is_empty_of, added_by};
ghost use Rattle.cache_update.specs.Kept.{is_gone_leaf};
ghost use Rattle.cache_update.specs.Marks.{AreOfForest, HoldsKnown, IsKnownIn, pairs_within};

use crate::add::add_held;
use crate::delete::delete_held;
use crate::keep::{add_kept, move_kept};
use crate::mark::HeldScratch;
use forest_place::Place;
use forest_roots::Join;
use leaf_cache::{Kept, Parts};
use leaf_record::Record;
use proof_shape::{Survey, Targets};
use uo_digest::Digest;

// The lists become those after a deletion of `targets`, where `kept` are the places at which the kept entries stand then. The
// entries that are spent are taken out.
pub(crate) fn delete_from(
    parts: &mut Parts,
    taken: &mut Vec<Kept>,
    scratch: &mut HeldScratch,
    targets: &Targets,
    kept: &Survey,
    pairs: &[(Place, Digest)],
)
    requires same { kept.now.leaves ≡ targets.now.leaves }
    requires places { kept.now.targets ≡ leaf_places (moved_leaves targets.now.leaves targets.now.targets parts.old.kept) }
    requires forest { AreOfForest targets.now.leaves parts.old }
    requires room { HoldsKnown kept.now.leaves kept.now.targets parts.old.held_room }
    requires spare_room { HoldsKnown kept.now.leaves kept.now.targets (vec_capacity scratch.old.spare) }
    requires spare_held { length parts.old.held ≤ vec_capacity scratch.old.spare }
    requires moves_held { length parts.old.held ≤ vec_capacity scratch.old.moves }
    requires goals { TellGoals targets.now.leaves targets.now.targets parts.old.held scratch.old.goals.items }
    requires each { vec_len scratch.old.goals ≡ length parts.old.held }
    requires taken_room { vec_len taken.old + length parts.old.kept ≤ vec_capacity taken.old }
    ensures kept { parts.new.kept ≡ moved_leaves targets.now.leaves targets.now.targets parts.old.kept }
    ensures held { parts.new.held ≡ held_deleted targets.now.leaves targets.now.targets (pairs_within targets.now.leaves pairs.now) kept.now.targets
        parts.old.held }
    ensures ordered { IsParted parts.new }
    ensures forest { AreOfForest targets.now.leaves parts.new }
    ensures known { All (IsKnownIn kept.now.leaves kept.now.targets) parts.new.held }
    ensures taken { taken.new.items ≡ taken.old.items ++ filter (is_gone_leaf targets.now.leaves targets.now.targets) parts.old.kept }
    ensures kept_room { parts.new.kept_room ≡ parts.old.kept_room }
    ensures held_room { parts.new.held_room ≡ parts.old.held_room }
    ensures spare_room { vec_capacity scratch.new.spare ≡ vec_capacity scratch.old.spare }
{
    move_kept(&mut parts.kept, taken, targets, kept.places());
    delete_held(&mut parts.held, scratch, targets, kept, pairs);
}

// The lists become those after an addition to `n` entries that joined `joins`, where `leaf` is the output if it is watched.
pub(crate) fn add_to(
    parts: &mut Parts,
    spare: &mut Vec<(Place, Digest)>,
    n: u64,
    digest: Digest,
    joins: &[Join],
    leaf: Option<Record>,
)
    requires few { n < 2 ^ 40 }
    requires slots { all_slots n (length joins.now) ≡ true }
    requires forty { length joins.now ≤ 40 }
    requires forest { AreOfForest n parts.old }
    requires kept_room { length parts.old.kept < parts.old.kept_room }
    requires held_room { length parts.old.held + 2 * length joins.now + 1 ≤ parts.old.held_room }
    requires spare_room { length parts.old.held ≤ vec_capacity spare.old }
    ensures kept { parts.new.kept ≡ leaves_more (is_empty_of joins.now) n (length joins.now) leaf digest parts.old.kept }
    ensures held { parts.new.held ≡ added_by joins.now digest n (is_some leaf) parts.old.held }
    ensures ordered { IsParted parts.new }
    ensures forest { AreOfForest (n + 1) parts.new }
    ensures len { length parts.new.held ≤ length parts.old.held + 2 * length joins.now + 1 }
    ensures kept_room { parts.new.kept_room ≡ parts.old.kept_room }
    ensures held_room { parts.new.held_room ≡ parts.old.held_room }
    ensures spare_room { vec_capacity spare.new ≡ vec_capacity spare.old }
{
    let watched = leaf.is_some();
    add_kept(&mut parts.kept, n, joins, digest, leaf);
    add_held(&mut parts.held, spare, n, joins, digest, watched);
}
