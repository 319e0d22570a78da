//! The search for two different texts with one digest.
ghost use Rattle.std.specs.Prelude.{◌≡◌, ◌^◌, ◌<◌, length, IfOk};
ghost use Rattle.forest_model.specs.Cover.{need};
ghost use Rattle.forest_model.specs.Right.{IsKnowledge};
ghost use Rattle.leaf_record.specs.History.{History};
ghost use Rattle.node_rules.specs.Messages.{points_of};
ghost use Rattle.cache_model.specs.Cache.{look};
ghost use Rattle.cache_model.specs.Lists.{AscendByPlace};
ghost use Rattle.clash_find.specs.Answers.{StandForHistory, IsAnswer, IsAnswerIn};
ghost use Rattle.clash_find.specs.Found.{clash_in, IsFirstPair};
ghost use Rattle.clash_find.specs.Searched.{IsSearched};

use crate::Clash;
use crate::agree::roots_agree;
use crate::claims::{claimed_records, digests_of};
use crate::compare::first_clash;
use block_rules::{RuleFault, Spends};
use forest_place::Place;
use leaf_record::Record;
use live_forest::Forest;
use node_rules::{full_hashes, targets_of};
use output_index::Outputs;
use proof_shape::{Survey, Targets};
use proof_verify::evaluate_covered;
use proof_wire::MessageView;
use std::alloc::Global;
use std::sync::ledger::Ledger;
use uo_base::NoMemory;
use uo_digest::{Digest, Digester, Steps};

// Evaluates the proof, and compares the texts at the covered places where the forest's roots are those that it comes to.
fn search_over<D: Digester, L: Ledger>(
    alloc: Global,
    forest: &Forest<D>,
    outputs: &Outputs,
    targets: &Survey,
    leaves: &[Record],
    hashes: &[Digest],
    steps: &mut Steps<L>,
) -> Result<Option<Clash>, NoMemory>
    requires entries { targets.now.leaves ≡ length forest.now.entries }
    requires leaves { length leaves.now ≡ length targets.now.targets }
    requires hashes { length hashes.now ≡ length (need targets.now.leaves targets.now.targets) }
    ensures { IfOk result (λ clash. IsSearched D.digest_of forest.now.entries outputs.now targets.now.targets leaves.now hashes.now clash) }
{
    let digests = digests_of::<D, L>(alloc, leaves, steps)?;
    let items = evaluate_covered::<D, L>(alloc, targets, &digests, hashes, steps)?;
    if !roots_agree(forest, &items) {
        return Ok(None);
    }
    first_clash(alloc, forest, outputs, leaves, &items)
}

// The same of targets that are named.
fn search<D: Digester, L: Ledger>(
    alloc: Global,
    forest: &Forest<D>,
    outputs: &Outputs,
    targets: &Targets,
    leaves: &[Record],
    hashes: &[Digest],
    steps: &mut Steps<L>,
) -> Result<Option<Clash>, NoMemory>
    requires entries { targets.now.leaves ≡ length forest.now.entries }
    requires leaves { length leaves.now ≡ length targets.now.targets }
    requires hashes { length hashes.now ≡ length (need targets.now.leaves targets.now.targets) }
    ensures { IfOk result (λ clash. IsSearched D.digest_of forest.now.entries outputs.now targets.now.targets leaves.now hashes.now clash) }
{
    search_over(
        alloc,
        forest,
        outputs,
        targets.survey(),
        leaves,
        hashes,
        steps,
    )
}

/// Two different texts with one digest, where the roots of the forest accept a proof of these targets, with this leaf for each
/// and these hashes of all needed places, and it is not right: the first is that of a node of the forest, and the second is one
/// that the proof digests. Nothing where the roots do not accept it, and nothing where each leaf is the live entry at its target
/// and each hash the forest's. Of several pairs it is the one at the first covered place, from the lowest row up.
pub fn find_in<D: Digester, L: Ledger>(
    alloc: Global,
    forest: &Forest<D>,
    outputs: &Outputs,
    targets: &Targets,
    leaves: &[Record],
    hashes: &[Digest],
    steps: &mut Steps<L>,
) -> Result<Option<Clash>, NoMemory>
    requires entries { targets.now.leaves ≡ length forest.now.entries }
    requires leaves { length leaves.now ≡ length targets.now.targets }
    ensures answer { IfOk result (λ clash. (us : History) → StandForHistory D.digest_of forest.now.entries outputs.now us →
        IsAnswerIn D.digest_of us targets.now.targets leaves.now hashes.now clash) }

    // Which it is.
    ensures exact { IfOk result (λ clash. (us : History) → StandForHistory D.digest_of forest.now.entries outputs.now us →
        IsFirstPair D.digest_of us targets.now.targets leaves.now hashes.now clash) }
{
    // That the targets have shape.
    let _count = targets.leaves();
    if hashes.len() != targets.needed().len() {
        return Ok(None);
    }
    search(alloc, forest, outputs, targets, leaves, hashes, steps)
}

/// Two different texts with one digest, where the roots of the forest accept the proof in a message and it is not right: the
/// first is that of a node of the forest, and the second is one that the proof digests. Nothing where the roots do not accept
/// it, and nothing where it is right. Of several pairs it is the one at the first covered place, from the lowest row up.
///
/// `spends` is what the block beside the message spends, `outputs` has the outputs of the forest's live entries, and `known`
/// the digests that a lean message leaves out, each place once, in ascending order.
pub fn find<D: Digester, L: Ledger>(
    alloc: Global,
    forest: &Forest<D>,
    outputs: &Outputs,
    spends: &Spends<'_>,
    message: &MessageView<'_>,
    known: &[(Place, Digest)],
    steps: &mut Steps<L>,
) -> Result<Option<Clash>, NoMemory>
    requires count { length message.now.proof.spends ≡ length spends.now.external }
    requires few { length message.now.proof.spends < 2 ^ 32 }
    requires ascends { AscendByPlace known.now }
    ensures answer { IfOk result (λ clash. (us : History) → StandForHistory D.digest_of forest.now.entries outputs.now us
        → IsKnowledge D.digest_of forest.now.entries (look known.now) →
        IsAnswer D.digest_of us (look known.now) (points_of spends.now.external) message.now clash) }

    // Which it is.
    ensures exact { IfOk result (λ clash. (us : History) → StandForHistory D.digest_of forest.now.entries outputs.now us →
        clash ≡ clash_in D.digest_of us (look known.now) spends.now.external message.now) }
{
    let targets = match targets_of(alloc, forest.leaves(), message) {
        Ok(targets) => targets,
        Err(RuleFault::NoMemory) => return Err(NoMemory),
        Err(RuleFault::Refused(_)) => return Ok(None),
    };
    // That the targets have shape.
    let _count = targets.leaves();
    let hashes = match full_hashes(alloc, message, &targets, known) {
        Ok(hashes) => hashes,
        Err(RuleFault::NoMemory) => return Err(NoMemory),
        Err(RuleFault::Refused(_)) => return Ok(None),
    };
    let leaves = claimed_records(alloc, spends.external(), message)?;
    search(alloc, forest, outputs, &targets, &leaves, &hashes, steps)
}
