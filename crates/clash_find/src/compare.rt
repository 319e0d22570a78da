//! The texts at the covered places, compared.
ghost use Rattle.std.specs.Prelude.{◌≡◌, ◌↔◌, ℕ, ◌<◌, length, get_or, IfOk, IsTrue};
ghost use Rattle.forest_place.specs.Forest.{InForest};
ghost use Rattle.proof_verify.specs.declared.evaluation.CoveredPlace.{CoveredPlace as Covered};
ghost use Rattle.clash_find.specs.Texts.{IsWithin};
ghost use Rattle.clash_find.specs.Searched.{IsCompared, AreCompared};

use crate::Clash;
use crate::agree::stands;
use crate::texts::{node_text, proof_text};
use leaf_record::Record;
use live_forest::Forest;
use output_index::Outputs;
use proof_verify::CoveredPlace;
use std::alloc::Global;
use uo_base::NoMemory;
use uo_digest::Digester;

fn are_same(first: &[u8], second: &[u8]) -> bool
    ensures { IsTrue result ↔ (first.now ≡ second.now) }
{
    first == second
}

/// The two texts at a covered place, where the proof comes to the forest's digest and the texts differ.
fn clash_at<D: Digester>(
    alloc: Global,
    forest: &Forest<D>,
    outputs: &Outputs,
    leaves: &[Record],
    item: CoveredPlace,
) -> Result<Option<Clash>, NoMemory>
    requires within { InForest (length forest.now.entries) item.place.row item.place.off }
    requires target { IsWithin (length leaves.now) item.preimage }
    ensures { IfOk result (λ clash. IsCompared D.digest_of forest.now.entries outputs.now leaves.now item clash) }
{
    if !stands(forest.digest_at(item.place), item.digest) {
        return Ok(None);
    }
    let Some(first) = node_text(alloc, forest, outputs, item.place)? else {
        return Ok(None);
    };
    let second = proof_text(alloc, leaves, item.preimage)?;
    if are_same(&first, &second) {
        return Ok(None);
    }
    Ok(Some(Clash {
        first,
        second,
        digest: item.digest,
    }))
}

/// The first such texts among these places.
pub(crate) fn first_clash<D: Digester>(
    alloc: Global,
    forest: &Forest<D>,
    outputs: &Outputs,
    leaves: &[Record],
    items: &[CoveredPlace],
) -> Result<Option<Clash>, NoMemory>
    requires within { (i : ℕ) (d : Covered) → i < length items.now
        → InForest (length forest.now.entries) (get_or items.now i d).place.row (get_or items.now i d).place.off }
    requires targets { (i : ℕ) (d : Covered) → i < length items.now → IsWithin (length leaves.now) (get_or items.now i d).preimage }
    ensures { IfOk result (λ clash. AreCompared D.digest_of forest.now.entries outputs.now leaves.now items.now clash) }
{
    for item in items {
        if let Some(clash) = clash_at(alloc, forest, outputs, leaves, *item)? {
            return Ok(Some(clash));
        }
    }
    Ok(None)
}
