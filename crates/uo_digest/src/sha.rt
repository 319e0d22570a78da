//! Digests of the SHA-2 family (FIPS 180-4).
ghost use Rattle.std.specs.Prelude.{◌≡◌};
ghost use Rattle.sha2.specs.Sha256.{sha256};
ghost use Rattle.sha2.specs.Sha512.{sha512_256};
ghost use Rattle.sha2.proofs.Facts512.{length-sha512_256};
ghost use Rattle.digest_lanes.specs.Front.{Holds};

use crate::{Digest, Digester, Steps, beside};
use digest_lanes::{Front, pair_alone};
use sha2::{Sha256, Sha512_256};
use std::sync::ledger::Ledger;

/// SHA-512/256, the digest of the forest.
pub struct Sha512t256;

impl Digester for Sha512t256 {
    ghost digest_of = { λ text. record { 0 = sha512_256 text } };

    fn digest<L: Ledger>(text: &[u8], steps: &mut Steps<L>) -> Digest {
        steps.tick();
        Digest(<Sha512_256 as sha2::Digest>::digest(text))
    }

    type Front = Front;

    ghost holds = { λ front text. Holds front text };

    fn front(text: &[u8]) -> Front {
        Front::new(text)
    }

    fn digest_behind<L: Ledger>(front: &Front, rest: &[u8], steps: &mut Steps<L>) -> Digest {
        steps.tick();
        Digest(front.digest(rest))
    }

    fn digest_pair<L: Ledger>(left: Digest, right: Digest, steps: &mut Steps<L>) -> Digest {
        steps.tick();
        Digest(pair_alone(&left.0, &right.0))
    }

    fn digest_pairs<L: Ledger>(
        pairs: &[(Digest, Digest)],
        out: &mut [Digest],
        steps: &mut Steps<L>,
    ) {
        steps.tick_all(pairs.len());
        beside::digest_pairs(pairs, out);
    }

    fn digest_each_behind<L: Ledger>(
        front: &Front,
        rests: &[&[u8]],
        out: &mut [Digest],
        steps: &mut Steps<L>,
    ) {
        steps.tick_all(rests.len());
        beside::digest_each(front, rests, out);
    }

    ghost has_32_bytes = { length-sha512_256 };
}

/// SHA-256 of SHA-256: the hash of blocks and transactions.
pub fn sha256d(text: &[u8]) -> Digest
    ensures { result.0 ≡ sha256 (sha256 text.now) }
{
    let first = <Sha256 as sha2::Digest>::digest(text);
    Digest(<Sha256 as sha2::Digest>::digest(first.as_slice()))
}
