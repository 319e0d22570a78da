//! What the kept entries and the hashes of a level tell of its forest.
ghost use Rattle.std.specs.Prelude.{◌≡◌, length, map, IfOk, MatchResult, ℕ};
ghost use Rattle.std.specs.Bool.{OnTrue, OnFalse};
ghost use Rattle.std.specs.List.{AllByRecursion};
ghost use Rattle.forest_model.specs.Evaluation.{nothing_known, IsAccepted};
ghost use Rattle.forest_roots.specs.Stump.{root_in};
ghost use Rattle.state_text.specs.Told.{told_at, told_list};
ghost use Rattle.state_text.specs.Reading.{claims};
ghost use Rattle.state_text.specs.Merged.{merged, paired, told_pair, StandsIn, IsRightRoot, AreRightRoots};

use crate::fault::StateFault;
use forest_place::{Place, is_before, is_root};
use forest_roots::Roots;
use proof_shape::Survey;
use proof_verify::{CoveredPlace, evaluate_covered};
use std::alloc::Global;
use std::sync::ledger::Ledger;
use uo_base::NoMemory;
use uo_digest::{Digest, Digester, Steps};

// Two ascending lists as one.
fn merge(
    alloc: Global,
    left: &[(Place, Digest)],
    right: &[(Place, Digest)],
) -> Result<Vec<(Place, Digest)>, NoMemory>
    ensures { IfOk result (λ out. out.items ≡ merged left.now right.now) }
{
    let mut out = Vec::with_capacity(alloc, left.len())?;
    let mut i = 0;
    let mut j = 0;
    while i < left.len() && j < right.len() {
        if is_before(left[i].0, right[j].0) {
            out.push(left[i])?;
            i += 1;
        } else {
            out.push(right[j])?;
            j += 1;
        }
    }
    out.extend_from_slice(&left[i..])?;
    out.extend_from_slice(&right[j..])?;
    Ok(out)
}

// Each place with its hash.
fn with_hashes(
    alloc: Global,
    places: &[Place],
    hashes: &[Digest],
) -> Result<Vec<(Place, Digest)>, NoMemory>
    requires { length hashes.now ≡ length places.now }
    ensures { IfOk result (λ pairs. pairs.items ≡ paired places.now hashes.now) }
{
    let mut pairs = Vec::with_capacity(alloc, places.len())?;
    for i in 0..places.len() {
        pairs.push((places[i], hashes[i]))?;
    }
    Ok(pairs)
}

// Each covered place with its digest.
fn with_digests(alloc: Global, covered: &[CoveredPlace]) -> Result<Vec<(Place, Digest)>, NoMemory>
    ensures { IfOk result (λ pairs. pairs.items ≡ map told_pair covered.now) }
{
    let mut pairs = Vec::with_capacity(alloc, covered.len())?;
    for item in covered {
        pairs.push((item.place, item.digest))?;
    }
    Ok(pairs)
}

// Where the place is that of a root: whether the digest is this root.
fn is_right_root<D: Digester>(roots: &Roots<D>, item: &CoveredPlace) -> bool
    requires { StandsIn roots.now.leaves item.now }
    ensures right { OnTrue result (IsRightRoot roots.now item.now) }
    ensures wrong { OnFalse result (IsRightRoot roots.now item.now → ⊥) }
{
    if !is_root(roots.leaves(), item.place) {
        return true;
    }
    match roots.root(item.place.row) {
        Some(Some(root)) => root == item.digest,
        _ => false,
    }
}

// Each covered root is the root that stands there.
fn judge_roots<D: Digester>(roots: &Roots<D>, covered: &[CoveredPlace]) -> bool
    requires { AllByRecursion (StandsIn roots.now.leaves) covered.now }
    ensures right { OnTrue result (AreRightRoots roots.now covered.now) }
    ensures wrong { OnFalse result (AreRightRoots roots.now covered.now → ⊥) }
{
    for item in covered {
        if !is_right_root(roots, item) {
            return false;
        }
    }
    true
}

/// The digests at and above these targets and at the places that a proof of them needs, where the hashes are that proof, over
/// these roots.
pub(crate) fn told_of<D: Digester, L: Ledger>(
    alloc: Global,
    roots: &Roots<D>,
    targets: &Survey,
    leaves: &[Digest],
    hashes: &[Digest],
    steps: &mut Steps<L>,
) -> Result<Vec<(Place, Digest)>, StateFault>
    requires same { targets.now.leaves ≡ roots.now.leaves }
    requires leaves { length leaves.now ≡ length targets.now.targets }
    ensures { MatchResult result
        (λ held. IsAccepted D.digest_of roots.now.leaves (root_in roots.now) targets.now.targets nothing_known leaves.now hashes.now
        × (held.items ≡ told_list roots.now.leaves (told_at D.digest_of roots.now.leaves targets.now.targets leaves.now hashes.now)))
        (λ e. claims e (IsAccepted D.digest_of roots.now.leaves (root_in roots.now) targets.now.targets nothing_known leaves.now hashes.now → ⊥)) }
{
    // That the targets have shape.
    let _count = targets.leaves();
    let needed = targets.needed();
    if hashes.len() != needed.len() {
        return Err(StateFault::NotAState);
    }
    let covered = evaluate_covered::<D, L>(alloc, targets, leaves, hashes, steps)?;
    if !judge_roots(roots, &covered) {
        return Err(StateFault::NotAState);
    }
    let above = with_digests(alloc, &covered)?;
    let beside = with_hashes(alloc, needed, hashes)?;
    Ok(merge(alloc, &above, &beside)?)
}
