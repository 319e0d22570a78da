//! The hashes that a check of a proof needs, of a message that may leave out those that its reader knows.
ghost use Rattle.std.specs.Prelude.{◌≡◌, ℕ, ◌+◌, ◌^◌, ◌≤◌, ◌<◌, ◌∷◌, [], map, drop, length, Option, None, IfOk};
ghost use Rattle.uo_digest.specs.declared.digest.Digest.{Digest as Digested};
ghost use Rattle.forest_place.specs.declared.place.Place.{Place as Placed};
ghost use Rattle.forest_place.specs.Places.{IsAscending};
ghost use Rattle.node_rules.specs.Messages.{known_to};
ghost use Rattle.cache_model.specs.Cache.{look};
ghost use Rattle.cache_model.specs.Lists.{AscendByPlace};
ghost use Rattle.node_rules.specs.Judged.{HashesJudged};
ghost use Rattle.node_rules.specs.Filled.{IsFrom, nones, filled, IsNextHash};

use block_rules::{ProofRefusal, Refusal, RuleFault};
use forest_place::{Place, is_before};
use proof_shape::Targets;
use proof_wire::MessageView;
use std::alloc::{AllocError, Global};
use uo_digest::Digest;

/// The digest, where it is known at this place.
fn digest_if(known: (Place, Digest), place: Place) -> Option<Digest>
    ensures { result ≡ look (known ∷ []) place.row place.off }
{
    if known.0 == place {
        Some(known.1)
    } else {
        None
    }
}

/// Passes what comes before a place, from an index on, and answers where that ends and what is known at the place.
fn known_from(known: &[(Place, Digest)], from: usize, place: Place) -> (usize, Option<Digest>)
    requires ascends { AscendByPlace known.now }
    requires from { from ≤ length known.now }
    ensures within { result.0 ≤ length known.now }
    ensures same { (q : Placed) → IsFrom place q → look (drop from known.now) q.row q.off ≡ look (drop result.0 known.now) q.row q.off }
    ensures digest { result.1 ≡ look (drop from known.now) place.row place.off }
{
    let mut next = from;
    while next < known.len() {
        if !is_before(known[next].0, place) {
            return (next, digest_if(known[next], place));
        }
        next += 1;
    }
    (next, None)
}

/// What is known at each of these places.
fn known_beside(
    alloc: Global,
    places: &[Place],
    known: &[(Place, Digest)],
) -> Result<Vec<Option<Digest>>, AllocError>
    requires places { IsAscending places.now }
    requires known { AscendByPlace known.now }
    ensures { IfOk result (λ found. found.items ≡ map (λ p. look known.now p.row p.off) places.now) }
{
    let mut found = Vec::with_capacity(alloc, places.len())?;
    let mut next = 0;
    for place in places {
        let here = known_from(known, next, *place);
        next = here.0;
        found.push(here.1)?;
    }
    Ok(found)
}

/// To a message in full, nothing is known.
fn lent<'k>(lean: bool, known: &'k [(Place, Digest)]) -> &'k [(Place, Digest)]
    requires { AscendByPlace known.now }
    ensures known { (row off : ℕ) → look result.now row off ≡ known_to lean (look known.entry.now) row off }
    ensures ascends { AscendByPlace result.now }
{
    if lean { known } else { &known[..0] }
}

/// How many of the places are not known.
fn asked_count(known: &[Option<Digest>]) -> u64
    ensures { result ≡ nones known.now }
{
    known.iter().filter(|digest| digest.is_none()).count() as u64
}

/// The hash of a needed place, where the message's hashes before `next` are used: the known one, or the next. And which is the next then.
fn next_hash(message: &MessageView<'_>, known: Option<Digest>, next: u64) -> (Digest, u64)
    requires some { known ≡ None → next < length message.now.proof.hashes }
    requires few { length message.now.proof.hashes < 2 ^ 64 }
    ensures { IsNextHash message.now.proof.hashes known next result.0 result.1 }
{
    match known {
        Some(digest) => (digest, next),
        None => (message.hash(next), next + 1),
    }
}

/// The known hashes in their places, and the message's between them.
fn fill(
    alloc: Global,
    message: &MessageView<'_>,
    known: &[Option<Digest>],
) -> Result<Vec<Digest>, AllocError>
    requires count { length message.now.proof.hashes ≡ nones known.now }
    requires few { length message.now.proof.hashes < 2 ^ 64 }
    ensures { IfOk result (λ hashes. hashes.items ≡ filled message.now.proof.hashes 0 known.now) }
{
    let mut hashes = Vec::with_capacity(alloc, known.len())?;
    let mut next = 0;
    for digest in known {
        let (hash, later) = next_hash(message, *digest, next);
        hashes.push(hash)?;
        next = later;
    }
    Ok(hashes)
}

/// The hashes of a message.
fn all_hashes(alloc: Global, message: &MessageView<'_>) -> Result<Vec<Digest>, AllocError>
    ensures { IfOk result (λ hashes. hashes.items ≡ message.now.proof.hashes) }
{
    let mut hashes = Vec::with_capacity(alloc, message.hash_count() as usize)?;
    for i in 0..message.hash_count() {
        hashes.push(message.hash(i))?;
    }
    Ok(hashes)
}

/// The hashes of all needed places, where nothing is known: a message gives them all.
fn given_hashes(
    alloc: Global,
    message: &MessageView<'_>,
    targets: &Targets,
) -> Result<Vec<Digest>, RuleFault>
    ensures { (k : ℕ → ℕ → Option Digested) → ((row off : ℕ) → known_to message.now.lean k row off ≡ None)
        → HashesJudged message.now targets.now k result }
{
    let want = targets.needed().len() as u64;
    let got = message.hash_count();
    if got != want {
        return Err(RuleFault::Refused(Refusal::Proof(ProofRefusal::HashCount { want, got })));
    }
    Ok(all_hashes(alloc, message)?)
}

/// The hashes of all needed places, in ascending position. In a lean message those of known places are left out, and its
/// hashes are those of the others; a message in full gives them all. `known` has each place once, in ascending order. It
/// refuses a message that gives another number of hashes.
pub fn full_hashes(
    alloc: Global,
    message: &MessageView<'_>,
    targets: &Targets,
    known: &[(Place, Digest)],
) -> Result<Vec<Digest>, RuleFault>
    requires { AscendByPlace known.now }
    ensures { HashesJudged message.now targets.now (look known.now) result }
{
    let known = lent(message.lean(), known);
    if known.is_empty() {
        return given_hashes(alloc, message, targets);
    }
    let found = known_beside(alloc, targets.needed(), known)?;
    let want = asked_count(&found);
    let got = message.hash_count();
    if got != want {
        return Err(RuleFault::Refused(Refusal::Proof(ProofRefusal::HashCount { want, got })));
    }
    Ok(fill(alloc, message, &found)?)
}
