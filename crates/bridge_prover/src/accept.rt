//! Whether the roots of the forest accept the proof in a message.
ghost use Rattle.std.specs.Prelude.{◌≡◌, ◌+◌, ◌*◌, ◌≤◌, ◌<◌, ◌^◌, map, length, option_map, IfOk, IfErr};
ghost use Rattle.forest_place.specs.Position.{rows};
ghost use Rattle.proof_wire.specs.BlockProof.{rests_of};
ghost use Rattle.block_rules.specs.declared.refusal.Refusal.TheVariants as Why;
ghost use Rattle.block_rules.specs.Money.{found_of};
ghost use Rattle.cache_model.specs.Cache.{look};
ghost use Rattle.cache_model.specs.Lists.{AscendByPlace};
ghost use Rattle.node_rules.specs.Judged.{IsFirst};
ghost use Rattle.node_rules.specs.Accepting.{proof_fault};
ghost use Rattle.node_rules.specs.Messages.{points_of};
ghost use Rattle.bridge_prover.specs.Shown.{IsChecked, view_in};

use block_rules::{Outside, RuleFault};
use forest_place::Place;
use leaf_record::LeafBuf;
use live_forest::Forest;
use node_rules::{Claim, claim_of, delete_claim};
use proof_verify::Scratch;
use proof_wire::MessageView;
use std::alloc::Global;
use std::sync::ledger::Ledger;
use uo_digest::{Digest, Digester, Steps};

/// What a message claims, where the roots of the forest accept its proof. `known` has the digests that a lean message leaves out. The
/// first thing that is wrong is the fault: where the targets stand, how many hashes there are, or a root.
pub(crate) fn check_proof<D: Digester, L: Ledger>(
    alloc: Global,
    forest: &Forest<D>,
    room: &mut LeafBuf<D>,
    external: &[Outside],
    message: &MessageView<'_>,
    known: &[(Place, Digest)],
    steps: &mut Steps<L>,
) -> Result<Claim, RuleFault>
    requires shown { length message.now.proof.spends ≡ length external.now }
    requires few { length external.now < 2 ^ 32 }
    requires ascends { AscendByPlace known.now }
    ensures ok { IfOk result (λ claim. IsChecked D.digest_of forest.now.entries (look known.now) external.now message.now claim.targets
        claim.hashes.items) }
    ensures found { IfOk result (λ claim. claim.found.items ≡ map found_of (rests_of message.now.proof.spends)) }
    ensures err { IfErr result (λ fault. IsFirst (option_map Why.Proof
        (proof_fault D.digest_of (view_in D.digest_of forest.now.entries (look known.now)) (points_of external.now) message.now)) fault) }
    ensures steps { steps.new ≤ steps.old + length external.now + 2 * (length external.now * rows (length forest.now.entries)) }
{
    let mut roots = forest.roots();
    let claim = claim_of(alloc, &roots, known, room, external, message, steps)?;
    let mut scratch = Scratch::new(alloc);
    // What the deletion changes is not asked for.
    delete_claim(&claim, false, &mut roots, &mut scratch, steps)?;
    Ok(claim)
}
