//! What a message claims of a block's external inputs, and whether roots accept it.
ghost use Rattle.std.specs.Prelude.{◌≡◌, ◌+◌, ◌*◌, ◌≤◌, ◌<◌, ◌^◌, [], map, length, option_map, IfOk, IfErr, OnErr};
ghost use Rattle.forest_place.specs.Position.{rows};
ghost use Rattle.proof_wire.specs.BlockProof.{rests_of};
ghost use Rattle.proof_verify.specs.Verified.{IsDeleted};
ghost use Rattle.cache_model.specs.Lists.{AscendByPlace};
ghost use Rattle.block_rules.specs.declared.refusal.Refusal.TheVariants as Why;
ghost use Rattle.block_rules.specs.Money.{found_of};
ghost use Rattle.node_rules.specs.Messages.{points_of};
ghost use Rattle.node_rules.specs.Accepting.{leaves_of as claimed_leaves, proof_fault};
ghost use Rattle.node_rules.specs.Claimed.{IsFilledOut, IsProofRefused, view_by};
ghost use Rattle.node_rules.specs.Judged.{IsFirst};

use crate::claims::MessageLeaves;
use crate::lean::full_hashes;
use crate::messages::{proof_refusal_of, targets_of};
use block_rules::{Found, Outside, Refusal, RuleFault};
use forest_place::Place;
use forest_roots::Roots;
use leaf_record::{LeafBuf, RestView, leaf_digests};
use proof_shape::Targets;
use proof_verify::{Changes, Scratch, check_and_delete};
use proof_wire::MessageView;
use std::alloc::{AllocError, Global};
use std::sync::ledger::Ledger;
use uo_digest::{Digest, Digester, Steps};

/// What the external inputs of a block spend, where that stands, the digests of its leaves, and the hashes of all places that a check of these needs.
#[derive(Drop)]
pub struct Claim {
    pub found: Vec<Found>,
    pub targets: Targets,
    pub leaves: Vec<Digest>,
    pub hashes: Vec<Digest>,
}

impl Claim {
    /// Where nothing is spent, nothing is claimed of the forest over `n` entries.
    pub fn none(alloc: Global, n: u64) -> Claim
        requires { n < 2 ^ 40 }
        ensures { (result.found.items ≡ []) × (result.targets ≡ record { leaves = n; targets = [] }) × (result.leaves.items ≡ [])
            × (result.hashes.items ≡ []) }
    {
        Claim {
            found: Vec::new(alloc),
            targets: Targets::none(alloc, n),
            leaves: Vec::new(alloc),
            hashes: Vec::new(alloc),
        }
    }

    /// What is spent, apart from the rest.
    pub fn into_found(self) -> Vec<Found>
        ensures { result ≡ self.found }
    {
        self.found
    }
}

// What the rules on money ask of an output.
fn found_in(rest: &RestView<'_>) -> Found
    ensures { result ≡ found_of rest.now }
{
    Found {
        amount: rest.amount,
        height: rest.height,
        coinbase: rest.coinbase,
    }
}

// What they ask of each output that a message shows.
fn found_by(alloc: Global, message: &MessageView<'_>) -> Result<Vec<Found>, AllocError>
    ensures { IfOk result (λ found. found.items ≡ map found_of (rests_of message.now.proof.spends)) }
{
    let mut found = Vec::with_capacity(alloc, message.spends() as usize)?;
    for i in 0..message.spends() {
        let rest = message.rest(i);
        found.push(found_in(&rest))?;
    }
    Ok(found)
}

// The digests of the leaves that are claimed: each rest with the name of its input's output.
fn leaves_of<D: Digester, L: Ledger>(
    alloc: Global,
    room: &mut LeafBuf<D>,
    external: &[Outside],
    message: &MessageView<'_>,
    steps: &mut Steps<L>,
) -> Result<Vec<Digest>, AllocError>
    requires { length message.now.proof.spends ≡ length external.now }
    ensures leaves { IfOk result (λ leaves. leaves.items ≡ claimed_leaves D.digest_of (points_of external.now) message.now) }
    ensures steps { steps.new ≤ steps.old + length external.now }
{
    let claims = MessageLeaves::new(external, message);
    leaf_digests(alloc, room, &claims, steps)
}

/// What a message claims, over roots and known digests, each place of which is known once, in ascending order. Or the first
/// thing that is wrong with its proof, before a root is asked: where the targets stand, or how many hashes there are.
pub fn claim_of<D: Digester, L: Ledger>(
    alloc: Global,
    roots: &Roots<D>,
    known: &[(Place, Digest)],
    room: &mut LeafBuf<D>,
    external: &[Outside],
    message: &MessageView<'_>,
    steps: &mut Steps<L>,
) -> Result<Claim, RuleFault>
    requires ascends { AscendByPlace known.now }
    requires shown { length message.now.proof.spends ≡ length external.now }
    requires few { length external.now < 2 ^ 32 }
    ensures found { IfOk result (λ c. c.found.items ≡ map found_of (rests_of message.now.proof.spends)) }
    ensures filled { IfOk result (λ c. IsFilledOut D.digest_of (view_by roots.now known.now) external.now message.now c.targets
        c.leaves.items c.hashes.items) }
    ensures err { IfErr result (λ fault. IsFirst
        (option_map Why.Proof (proof_fault D.digest_of (view_by roots.now known.now) (points_of external.now) message.now)) fault) }
    ensures steps { steps.new ≤ steps.old + length external.now }
{
    let targets = targets_of(alloc, roots.leaves(), message)?;
    let hashes = full_hashes(alloc, message, &targets, known)?;
    let leaves = leaves_of::<D, L>(alloc, room, external, message, steps)?;
    let found = found_by(alloc, message)?;
    Ok(Claim {
        found,
        targets,
        leaves,
        hashes,
    })
}

/// Deletes what is claimed from these roots, where they accept its proof, and tells what that changes where it is to.
pub fn delete_claim<'s, D: Digester, L: Ledger>(
    claim: &Claim,
    tells: bool,
    roots: &mut Roots<D>,
    scratch: &'s mut Scratch,
    steps: &mut Steps<L>,
) -> Result<Changes<'s>, RuleFault>
    requires entries { claim.now.targets.leaves ≡ roots.old.leaves }
    requires leaves { length claim.now.leaves.items ≡ length claim.now.targets.targets }
    ensures ok { IfOk result (λ changes. IsDeleted tells D.digest_of roots.old claim.now.targets.targets claim.now.leaves.items claim.now.hashes.items
        changes roots.new) }
    ensures err { IfErr result (IsProofRefused D.digest_of roots.old claim.now.targets.targets claim.now.leaves.items claim.now.hashes.items) }
    ensures stays { OnErr result (roots.new ≡ roots.old) }
    ensures steps { steps.new ≤ steps.old + 2 * (length claim.now.targets.targets * rows claim.now.targets.leaves) }
{
    scratch.reserve_for(&claim.targets, tells)?;
    let leaves = claim.leaves.as_slice();
    let hashes = claim.hashes.as_slice();
    match check_and_delete(roots, &claim.targets, leaves, hashes, scratch, steps) {
        Ok(changes) => Ok(changes),
        Err(fault) => Err(RuleFault::Refused(Refusal::Proof(proof_refusal_of(fault)))),
    }
}
