//! SHA-256 of SHA-256 of many texts, side by side.
ghost use Rattle.std.specs.Prelude.{◌≡◌, ◌+◌, ◌*◌, ◌/◌, ◌≤◌, ◌++◌, ℕ, List, length, map};
ghost use Rattle.std.specs.Borrow.{Bor};
ghost use Rattle.sha2.specs.Sha256.{sha256};
ghost use Rattle.uo_digest.specs.declared.digest.Digest.{Digest as Digested};
ghost use Rattle.uo_digest.specs.Batches.{AreGiven};

use crate::pair::pair_text;
use crate::{Digest, sha256d};
use digest_lanes::{double_pairs_of_eight, sha256d_each};

// The digest of each text, one by one.
fn digest_alone(texts: &[&[u8]], out: &mut [Digest])
    requires { length out.old ≡ length texts.now }
    ensures { out.new ≡ map (λ (text : Bor (List ℕ)). record { 0 = sha256 (sha256 text.now) }) texts.now }
{
    'each: for i in 0..texts.len() {
        out[i] = sha256d(texts[i]);
    }
}

// The digest of each text, those of equally many blocks side by side.
fn digest_in_lanes(texts: &[&[u8]], out: &mut [Digest])
    requires { length out.old ≡ length texts.now }
    ensures { out.new ≡ map (λ (text : Bor (List ℕ)). record { 0 = sha256 (sha256 text.now) }) texts.now }
{
    sha256d_each(texts, out);
}

/// What `sha256d` gives of each text, in the place of an entry of `out`. Texts of about the same length go side by side, and few alone.
pub fn sha256d_all(texts: &[&[u8]], out: &mut [Digest])
    requires { length out.old ≡ length texts.now }
    ensures { out.new ≡ map (λ (text : Bor (List ℕ)). record { 0 = sha256 (sha256 text.now) }) texts.now }
{
    if texts.len() < 8 {
        digest_alone(texts, out);
    } else {
        digest_in_lanes(texts, out);
    }
}

/// What `sha256d` gives of a pair of digests, as one text of 64 bytes.
pub fn sha256d_pair(left: Digest, right: Digest) -> Digest
    ensures { result ≡ record { 0 = sha256 (sha256 (left.0 ++ right.0)) } }
{
    sha256d(&pair_text(left, right))
}

// The digests of eight pairs.
fn eight_digests(pairs: &[(Digest, Digest)]) -> [Digest; 8]
    requires { length pairs.now ≡ 8 }
    ensures { result ≡ map (λ (pair : Digested × Digested). record { 0 = sha256 (sha256 (pair.0.0 ++ pair.1.0)) }) pairs.now }
{
    let left = [
        pairs[0].0.0,
        pairs[1].0.0,
        pairs[2].0.0,
        pairs[3].0.0,
        pairs[4].0.0,
        pairs[5].0.0,
        pairs[6].0.0,
        pairs[7].0.0,
    ];
    let right = [
        pairs[0].1.0,
        pairs[1].1.0,
        pairs[2].1.0,
        pairs[3].1.0,
        pairs[4].1.0,
        pairs[5].1.0,
        pairs[6].1.0,
        pairs[7].1.0,
    ];
    let [first, second, third, fourth, fifth, sixth, seventh, eighth] = double_pairs_of_eight(
        &left, &right,
    );
    [
        Digest(first),
        Digest(second),
        Digest(third),
        Digest(fourth),
        Digest(fifth),
        Digest(sixth),
        Digest(seventh),
        Digest(eighth),
    ]
}

// Puts the digests of eight pairs behind those before them.
fn put_eight(pairs: &[(Digest, Digest)], from: usize, out: &mut [Digest])
    requires count { length out.old ≡ length pairs.now }
    requires within { from + 8 ≤ length pairs.now }
    requires before { AreGiven (λ (pair : Digested × Digested). record { 0 = sha256 (sha256 (pair.0.0 ++ pair.1.0)) }) pairs.now out.old from }
    ensures { AreGiven (λ (pair : Digested × Digested). record { 0 = sha256 (sha256 (pair.0.0 ++ pair.1.0)) }) pairs.now out.new (from + 8) }
{
    let eight = eight_digests(&pairs[from..from + 8]);
    out[from..from + 8].copy_from_slice(&eight);
}

/// What `sha256d` gives of each pair of digests, as one text of 64 bytes, in the place of an entry of `out`: eight at a time, and the rest alone.
pub fn sha256d_pairs(pairs: &[(Digest, Digest)], out: &mut [Digest])
    requires { length out.old ≡ length pairs.now }
    ensures { out.new ≡ map (λ (pair : Digested × Digested). record { 0 = sha256 (sha256 (pair.0.0 ++ pair.1.0)) }) pairs.now }
{
    let eights = pairs.len() / 8;
    'eights: for eight in 0..eights {
        put_eight(pairs, 8 * eight, out);
    }
    'rest: for i in 8 * eights..pairs.len() {
        let (left, right) = pairs[i];
        out[i] = sha256d_pair(left, right);
    }
}
