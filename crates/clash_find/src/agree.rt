//! Whether the forest's roots are those that a proof comes to.
ghost use Rattle.std.specs.Prelude.{◌≡◌, ◌↔◌, ℕ, ◌<◌, length, get_or, Some, IsTrue};
ghost use Rattle.forest_place.specs.Forest.{InForest};
ghost use Rattle.proof_verify.specs.declared.evaluation.CoveredPlace.{CoveredPlace as Covered};
ghost use Rattle.clash_find.specs.Searched.{DoRootsAgree};

use forest_place::is_root;
use live_forest::Forest;
use proof_verify::CoveredPlace;
use uo_digest::{Digest, Digester};

/// Whether this digest stands there.
pub(crate) fn stands(found: Option<Digest>, digest: Digest) -> bool
    ensures { IsTrue result ↔ (found ≡ Some digest) }
{
    match found {
        Some(there) => there == digest,
        None => false,
    }
}

/// Whether the proof comes to the forest's digest at each root that is covered.
pub(crate) fn roots_agree<D: Digester>(forest: &Forest<D>, items: &[CoveredPlace]) -> bool
    requires { (i : ℕ) (d : Covered) → i < length items.now
        → InForest (length forest.now.entries) (get_or items.now i d).place.row (get_or items.now i d).place.off }
    ensures { DoRootsAgree D.digest_of forest.now.entries items.now result }
{
    let n = forest.leaves();
    for item in items {
        if is_root(n, item.place) && !stands(forest.digest_at(item.place), item.digest) {
            return false;
        }
    }
    true
}
