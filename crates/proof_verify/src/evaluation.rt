//! What a proof comes to at each covered place.
ghost use Rattle.std.specs.Prelude.{◌≡◌, ◌+◌, ◌*◌, ◌≤◌, length, map, IfOk};
ghost use Rattle.std.specs.List.{range_with_len};
ghost use Rattle.forest_place.specs.Position.{rows};
ghost use Rattle.forest_model.specs.Cover.{need};
ghost use Rattle.proof_verify.specs.Evaluation.{AreEvaluatedAt};
ghost use Rattle.proof_verify.specs.Gathered.{preimage_from, item_from, AreHalvesWithin, AreHalfwise};
ghost use Rattle.proof_verify.specs.Verified.{above_targets};

use crate::evaluate::evaluate;
use crate::place_node::{PlaceNode, half};
use crate::place_source::PlaceSource;
use crate::plan::plan_of;
use forest_place::Place;
use proof_shape::Survey;
use std::alloc::{AllocError, Global};
use std::sync::ledger::Ledger;
use uo_base::NoMemory;
use uo_digest::{Digest, Digester, Steps};

/// What is digested at a covered place.
#[derive(Clone, Copy, Debug, PartialEq, Eq)]
pub enum Preimage {
    /// The leaf text of the target at this index.
    Target(usize),
    /// The digests of the place's two halves.
    Halves(Digest, Digest),
}

/// A covered place, and the digest that a proof comes to there.
#[derive(Clone, Copy, Debug, PartialEq, Eq)]
pub struct CoveredPlace {
    pub place: Place,
    pub preimage: Preimage,
    pub digest: Digest,
}

// What is digested at a covered place, by what it is made of.
fn preimage_of(source: PlaceSource, nodes: &[PlaceNode], hashes: &[Digest]) -> Preimage
    requires { AreHalvesWithin (length nodes.now) (length hashes.now) source }
    ensures { result ≡ preimage_from hashes.now nodes.now source }
{
    match source {
        PlaceSource::Target(i) => Preimage::Target(i),
        PlaceSource::Halves(left, right) => {
            let left = half(nodes, hashes, left);
            let right = half(nodes, hashes, right);
            Preimage::Halves(*left.0, *right.0)
        }
    }
}

// Each covered place with its digest and what is digested there.
fn gather(
    alloc: Global,
    covered: &[Place],
    sources: &[PlaceSource],
    nodes: &[PlaceNode],
    hashes: &[Digest],
) -> Result<Vec<CoveredPlace>, AllocError>
    requires sources { length sources.now ≡ length covered.now }
    requires nodes { length nodes.now ≡ length covered.now }
    requires within { AreHalfwise sources.now (length nodes.now) (length hashes.now) }
    ensures { IfOk result (λ items. items.items
        ≡ map (item_from covered.now sources.now nodes.now hashes.now) (range_with_len 0 (length covered.now))) }
{
    let mut items = Vec::with_capacity(alloc, covered.len())?;
    for i in 0..covered.len() {
        items.push(CoveredPlace {
            place: covered[i],
            preimage: preimage_of(sources[i], nodes, hashes),
            digest: nodes[i].digest,
        })?;
    }
    Ok(items)
}

/// The covered places of a proof, which are its targets and all places above them, in ascending position: for each the digest
/// that the proof comes to there, and what is digested for it.
///
/// `leaves` are the digests of the targets, in the order of the targets. `hashes` are those of the needed places, in
/// ascending position.
pub fn evaluate_covered<D: Digester, L: Ledger>(
    alloc: Global,
    targets: &Survey,
    leaves: &[Digest],
    hashes: &[Digest],
    steps: &mut Steps<L>,
) -> Result<Vec<CoveredPlace>, NoMemory>
    requires leaves { length leaves.now ≡ length targets.now.targets }
    requires hashes { length hashes.now ≡ length (need targets.now.leaves targets.now.targets) }
    ensures evaluated { IfOk result (λ items. AreEvaluatedAt D.digest_of targets.now.leaves targets.now.targets leaves.now hashes.now items.items) }
    ensures fewer { steps.new ≤ steps.old + 2 * length (above_targets targets.now.leaves targets.now.targets) }
    ensures few { steps.new ≤ steps.old + 2 * (length targets.now.targets * rows targets.now.leaves) }
{
    let (covered, positions) = targets.covered();
    // That the targets have shape.
    let _count = targets.leaves();
    let (sources, _) = plan_of(alloc, targets, covered, positions)?;
    let nothing = PlaceNode {
        digest: Digest([0; 32]),
        left: None,
    };
    let mut nodes = vec![in alloc; nothing; sources.len()]?;
    evaluate::<D, L>(&sources, leaves, hashes, &mut nodes, steps);
    Ok(gather(alloc, covered, &sources, &nodes, hashes)?)
}
