//! What the message beside a block shows: the entries at its targets, where they are what it says.
ghost use Rattle.std.specs.Prelude.{◌≡◌, ◌↔◌, map, length, Some, option_map, IfOk, IsTrue};
ghost use Rattle.forest_model.specs.Cover.{need};
ghost use Rattle.proof_wire.specs.BlockProof.{rests_of};
ghost use Rattle.node_rules.specs.Messages.{points_of, claimed};
ghost use Rattle.node_rules.specs.Right.{same_leaf};
ghost use Rattle.node_rules.specs.Judged.{AreNamed};
ghost use Rattle.bridge_prover.specs.Shown.{claimed_at, all_claimed, AreAllOf, ShowsByEach};

use block_rules::Outside;
use forest_place::Place;
use leaf_record::RecordView;
use live_forest::Forest;
use output_index::Outputs;
use proof_shape::Targets;
use proof_wire::MessageView;
use std::alloc::Global;
use uo_base::NoMemory;
use uo_digest::{Digest, Digester};

// Whether an output is the one that is claimed.
fn is_claimed(found: &RecordView<'_>, claim: &RecordView<'_>) -> bool
    ensures { result ≡ same_leaf found.now claim.now }
{
    (found.txid == claim.txid && found.index == claim.index)
        && (found.block == claim.block
            && (found.height == claim.height
                && (found.coinbase == claim.coinbase
                    && (found.amount == claim.amount && found.script == claim.script))))
}

// The live entry that stands at a place, if its output is the one that is claimed.
fn entry_shown<D: Digester>(
    forest: &Forest<D>,
    outputs: &Outputs,
    place: Place,
    claim: &RecordView<'_>,
) -> Option<u64>
    ensures { result ≡ claimed_at forest.now.entries outputs.now place claim.now }
{
    let number = forest.number_at(place)?;
    let found = outputs.output(number)?;
    if is_claimed(&found, claim) {
        Some(number)
    } else {
        None
    }
}

// The entries at all targets, if each output is the one that is claimed.
fn entries_shown<D: Digester>(
    alloc: Global,
    forest: &Forest<D>,
    outputs: &Outputs,
    external: &[Outside],
    message: &MessageView<'_>,
    places: &[Place],
) -> Result<Option<Vec<u64>>, NoMemory>
    requires count { length message.now.proof.spends ≡ length external.now }
    requires places { length places.now ≡ length external.now }
    ensures { IfOk result (λ numbers. AreAllOf
        (all_claimed forest.now.entries outputs.now places.now (claimed (points_of external.now) (rests_of message.now.proof.spends)))
        (option_map (λ all. all.items) numbers)) }
{
    let mut numbers = Vec::with_capacity(alloc, external.len())?;
    for i in 0..external.len() {
        let at = external[i];
        let claim = message.rest(i as u64).with_outpoint(at.txid, at.index);
        let Some(number) = entry_shown(forest, outputs, places[i], &claim) else {
            return Ok(None);
        };
        numbers.push(number)?;
    }
    Ok(Some(numbers))
}

// Whether this digest stands there.
fn stands(found: Option<Digest>, digest: Digest) -> bool
    ensures { IsTrue result ↔ (found ≡ Some digest) }
{
    match found {
        Some(there) => there == digest,
        None => false,
    }
}

// Whether these are the digests that were found.
fn do_hashes_stand(hashes: &[Digest], found: &[Option<Digest>]) -> bool
    requires { length hashes.now ≡ length found.now }
    ensures { IsTrue result ↔ (map Some hashes.now ≡ found.now) }
{
    for i in 0..hashes.len() {
        if !stands(found[i], hashes[i]) {
            return false;
        }
    }
    true
}

/// The entries at a message's targets, if the message is right: each output that it shows is that of the live entry at its
/// target, and `hashes`, those of all places that its proof needs, are the forest's.
pub(crate) fn right_entries<D: Digester>(
    alloc: Global,
    forest: &Forest<D>,
    outputs: &Outputs,
    external: &[Outside],
    message: &MessageView<'_>,
    targets: &Targets,
    hashes: &[Digest],
) -> Result<Option<Vec<u64>>, NoMemory>
    requires count { length message.now.proof.spends ≡ length external.now }
    requires named { AreNamed (length forest.now.entries) message.now targets.now }
    requires many { length hashes.now ≡ length (need targets.now.leaves targets.now.targets) }
    ensures { IfOk result (λ numbers. ShowsByEach D.digest_of forest.now.entries outputs.now external.now message.now targets.now hashes.now
        (option_map (λ all. all.items) numbers)) }
{
    let Some(numbers) = entries_shown(alloc, forest, outputs, external, message, targets.places())?
    else {
        return Ok(None);
    };
    let (covered, _) = targets.covered();
    let found = forest.digests_at(alloc, covered, targets.needed())?;
    if do_hashes_stand(hashes, &found) {
        Ok(Some(numbers))
    } else {
        Ok(None)
    }
}
