//! SHA-512/256 of many texts, side by side.
ghost use Rattle.std.specs.Prelude.{◌≡◌, ℕ, ◌+◌, ◌*◌, ◌/◌, ◌≤◌, ◌<◌, ◌++◌, List, length, map};
ghost use Rattle.std.specs.Borrow.{Bor};
ghost use Rattle.sha2.specs.Sha512.{sha512_256};
ghost use Rattle.digest_lanes.specs.Front.{Holds};
ghost use Rattle.uo_digest.specs.declared.digest.Digest.{Digest as Digested};
ghost use Rattle.uo_digest.specs.Batches.{AreGiven};

use crate::Digest;
use digest_lanes::{Front, pair_alone, pairs_of_four, pairs_of_two};

// The digests of four pairs.
fn four_digests(pairs: &[(Digest, Digest)]) -> [Digest; 4]
    requires { length pairs.now ≡ 4 }
    ensures { result ≡ map (λ (pair : Digested × Digested). record { 0 = sha512_256 (pair.0.0 ++ pair.1.0) }) pairs.now }
{
    let left = [pairs[0].0.0, pairs[1].0.0, pairs[2].0.0, pairs[3].0.0];
    let right = [pairs[0].1.0, pairs[1].1.0, pairs[2].1.0, pairs[3].1.0];
    let [first, second, third, fourth] = pairs_of_four(&left, &right);
    [Digest(first), Digest(second), Digest(third), Digest(fourth)]
}

// Puts the digests of four pairs behind those before them.
fn put_four(pairs: &[(Digest, Digest)], from: usize, out: &mut [Digest])
    requires count { length out.old ≡ length pairs.now }
    requires within { from + 4 ≤ length pairs.now }
    requires before { AreGiven (λ (pair : Digested × Digested). record { 0 = sha512_256 (pair.0.0 ++ pair.1.0) }) pairs.now out.old from }
    ensures { AreGiven (λ (pair : Digested × Digested). record { 0 = sha512_256 (pair.0.0 ++ pair.1.0) }) pairs.now out.new (from + 4) }
{
    let four = four_digests(&pairs[from..from + 4]);
    out[from..from + 4].copy_from_slice(&four);
}

// The digests of two pairs.
fn two_digests(pairs: &[(Digest, Digest)]) -> [Digest; 2]
    requires { length pairs.now ≡ 2 }
    ensures { result ≡ map (λ (pair : Digested × Digested). record { 0 = sha512_256 (pair.0.0 ++ pair.1.0) }) pairs.now }
{
    let left = [pairs[0].0.0, pairs[1].0.0];
    let right = [pairs[0].1.0, pairs[1].1.0];
    let [first, second] = pairs_of_two(&left, &right);
    [Digest(first), Digest(second)]
}

// Puts the digests of the last two pairs behind those before them.
fn put_two(pairs: &[(Digest, Digest)], from: usize, out: &mut [Digest])
    requires count { length out.old ≡ length pairs.now }
    requires within { from + 2 ≡ length pairs.now }
    requires before { AreGiven (λ (pair : Digested × Digested). record { 0 = sha512_256 (pair.0.0 ++ pair.1.0) }) pairs.now out.old from }
    ensures { AreGiven (λ (pair : Digested × Digested). record { 0 = sha512_256 (pair.0.0 ++ pair.1.0) }) pairs.now out.new (length pairs.now) }
{
    let two = two_digests(&pairs[from..from + 2]);
    out[from..from + 2].copy_from_slice(&two);
}

// The digests of three pairs: a blank goes in the fourth lane.
fn three_digests(pairs: &[(Digest, Digest)]) -> [Digest; 3]
    requires { length pairs.now ≡ 3 }
    ensures { result ≡ map (λ (pair : Digested × Digested). record { 0 = sha512_256 (pair.0.0 ++ pair.1.0) }) pairs.now }
{
    let left = [pairs[0].0.0, pairs[1].0.0, pairs[2].0.0, [0; 32]];
    let right = [pairs[0].1.0, pairs[1].1.0, pairs[2].1.0, [0; 32]];
    let [first, second, third, _] = pairs_of_four(&left, &right);
    [Digest(first), Digest(second), Digest(third)]
}

// Puts the digests of the last three pairs behind those before them.
fn put_three(pairs: &[(Digest, Digest)], from: usize, out: &mut [Digest])
    requires count { length out.old ≡ length pairs.now }
    requires within { from + 3 ≡ length pairs.now }
    requires before { AreGiven (λ (pair : Digested × Digested). record { 0 = sha512_256 (pair.0.0 ++ pair.1.0) }) pairs.now out.old from }
    ensures { AreGiven (λ (pair : Digested × Digested). record { 0 = sha512_256 (pair.0.0 ++ pair.1.0) }) pairs.now out.new (length pairs.now) }
{
    let three = three_digests(&pairs[from..from + 3]);
    out[from..from + 3].copy_from_slice(&three);
}

// The digest of each pair, one by one.
fn digest_pairs_alone(pairs: &[(Digest, Digest)], out: &mut [Digest])
    requires { length out.old ≡ length pairs.now }
    ensures { out.new ≡ map (λ (pair : Digested × Digested). record { 0 = sha512_256 (pair.0.0 ++ pair.1.0) }) pairs.now }
{
    'each: for i in 0..pairs.len() {
        let (left, right) = pairs[i];
        out[i] = Digest(pair_alone(&left.0, &right.0));
    }
}

// Puts the digests of the last pairs, made one by one, behind those before them.
fn put_alone(pairs: &[(Digest, Digest)], from: usize, out: &mut [Digest])
    requires count { length out.old ≡ length pairs.now }
    requires within { from ≤ length pairs.now }
    requires before { AreGiven (λ (pair : Digested × Digested). record { 0 = sha512_256 (pair.0.0 ++ pair.1.0) }) pairs.now out.old from }
    ensures { AreGiven (λ (pair : Digested × Digested). record { 0 = sha512_256 (pair.0.0 ++ pair.1.0) }) pairs.now out.new (length pairs.now) }
{
    digest_pairs_alone(&pairs[from..], &mut out[from..]);
}

// Puts the digests of the last pairs, fewer than four, behind those before them. Three take no longer in four lanes than
// two do in two lanes and one alone.
fn put_rest(pairs: &[(Digest, Digest)], from: usize, out: &mut [Digest])
    requires count { length out.old ≡ length pairs.now }
    requires within { from ≤ length pairs.now }
    requires before { AreGiven (λ (pair : Digested × Digested). record { 0 = sha512_256 (pair.0.0 ++ pair.1.0) }) pairs.now out.old from }
    ensures { AreGiven (λ (pair : Digested × Digested). record { 0 = sha512_256 (pair.0.0 ++ pair.1.0) }) pairs.now out.new (length pairs.now) }
{
    match pairs.len() - from {
        3 => put_three(pairs, from, out),
        2 => put_two(pairs, from, out),
        _ => put_alone(pairs, from, out),
    }
}

/// The digest of each pair, as one text of 64 bytes: four at a time, two or three at the end as well, and one at the end alone.
pub(crate) fn digest_pairs(pairs: &[(Digest, Digest)], out: &mut [Digest])
    requires { length out.old ≡ length pairs.now }
    ensures { out.new ≡ map (λ (pair : Digested × Digested). record { 0 = sha512_256 (pair.0.0 ++ pair.1.0) }) pairs.now }
{
    let fours = pairs.len() / 4;
    'fours: for four in 0..fours {
        put_four(pairs, 4 * four, out);
    }
    put_rest(pairs, 4 * fours, out);
}

// The digest of each whole text, one by one.
fn digest_alone(front: &Front, rests: &[&[u8]], out: &mut [Digest])
    requires { length out.old ≡ length rests.now }
    ensures { (text : List ℕ) → Holds front.now text
        → out.new ≡ map (λ (rest : Bor (List ℕ)). record { 0 = sha512_256 (text ++ rest.now) }) rests.now }
{
    'each: for i in 0..rests.len() {
        out[i] = Digest(front.digest(rests[i]));
    }
}

// The digest of each whole text, those of equally many blocks side by side.
fn digest_in_lanes(front: &Front, rests: &[&[u8]], out: &mut [Digest])
    requires { length out.old ≡ length rests.now }
    ensures { (text : List ℕ) → Holds front.now text
        → out.new ≡ map (λ (rest : Bor (List ℕ)). record { 0 = sha512_256 (text ++ rest.now) }) rests.now }
{
    front.digest_each(rests, out);
}

/// The digest of each whole text, a front and what comes behind it. Few texts go alone.
pub(crate) fn digest_each(front: &Front, rests: &[&[u8]], out: &mut [Digest])
    requires { length out.old ≡ length rests.now }
    ensures { (text : List ℕ) → Holds front.now text
        → out.new ≡ map (λ (rest : Bor (List ℕ)). record { 0 = sha512_256 (text ++ rest.now) }) rests.now }
{
    if rests.len() < 4 {
        digest_alone(front, rests, out);
    } else {
        digest_in_lanes(front, rests, out);
    }
}
