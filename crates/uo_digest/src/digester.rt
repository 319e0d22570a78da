//! What a digest is, and what makes one.
ghost use Rattle.std.specs.Prelude.{◌≡◌, ◌+◌, ◌++◌, ℕ, List, length, map};
ghost use Rattle.std.specs.Borrow.{Bor};
ghost use Rattle.uo_digest.specs.declared.digest.Digest.{Digest as Digested};
ghost use Rattle.uo_digest.specs.Batches.{pair_digest};

use crate::pair::pair_text;
use crate::{Digest, Steps};
use std::sync::ledger::Ledger;

/// A function from texts to digests. All that is proved of the node holds for every one of them.
pub trait Digester {
    /// The digest of a text.
    ghost digest_of: { List ℕ → Digested };

    /// The digest of a text, as one step.
    fn digest<L: Ledger>(text: &[u8], steps: &mut Steps<L>) -> Digest
        ensures value { result ≡ digest_of text.now }
        ensures step { steps.new ≡ steps.old + 1 };

    /// What has been taken in of a text that goes on: where many texts begin alike, the work on their front is done once.
    type Front: Drop;

    /// The text that was taken in.
    ghost holds: { Self.Front → List ℕ → Type 0 };

    /// Takes in the front of texts. This is no step.
    fn front(text: &[u8]) -> Self::Front
        ensures { holds result text.now };

    /// The digest of the whole text, a front and what comes behind it, as one step.
    fn digest_behind<L: Ledger>(front: &Self::Front, rest: &[u8], steps: &mut Steps<L>) -> Digest
        ensures value { (text : List ℕ) → holds front.now text → result ≡ digest_of (text ++ rest.now) }
        ensures step { steps.new ≡ steps.old + 1 };

    /// The digest of a pair of digests, as one text of 64 bytes, as one step.
    fn digest_pair<L: Ledger>(left: Digest, right: Digest, steps: &mut Steps<L>) -> Digest
        ensures value { result ≡ digest_of (left.0 ++ right.0) }
        ensures step { steps.new ≡ steps.old + 1 }
    {
        Self::digest(&pair_text(left, right), steps)
    }

    /// The digest of each pair of digests, as one text of 64 bytes, in the place of an entry of `out`, each as one step.
    fn digest_pairs<L: Ledger>(pairs: &[(Digest, Digest)], out: &mut [Digest], steps: &mut Steps<L>)
        requires { length out.old ≡ length pairs.now }
        ensures value { out.new ≡ map (pair_digest digest_of) pairs.now }
        ensures step { steps.new ≡ steps.old + length pairs.now }
    {
        'each: for i in 0..pairs.len() {
            let (left, right) = pairs[i];
            out[i] = Self::digest_pair(left, right, steps);
        }
    }

    /// The digest of each whole text, a front and what comes behind it, in the place of an entry of `out`, each as one step.
    fn digest_each_behind<L: Ledger>(
        front: &Self::Front,
        rests: &[&[u8]],
        out: &mut [Digest],
        steps: &mut Steps<L>,
    )
        requires { length out.old ≡ length rests.now }
        ensures value { (text : List ℕ) → holds front.now text
            → out.new ≡ map (λ (rest : Bor (List ℕ)). digest_of (text ++ rest.now)) rests.now }
        ensures step { steps.new ≡ steps.old + length rests.now }
    {
        'each: for i in 0..rests.len() {
            out[i] = Self::digest_behind(front, rests[i], steps);
        }
    }

    /// A digest has 32 bytes.
    ghost has_32_bytes: { (text : List ℕ) → length (digest_of text).0 ≡ 32 };
}
