//! A digest for tests that can be computed by hand.
ghost use Rattle.std.specs.Prelude.{◌≡◌, ◌<◌, ◌++◌, ℕ, List, []};
ghost use Rattle.uo_digest.specs.XorFold.{xor_at, xor_fold, xor_behind, IsFrontOf, length-xor_fold};

use crate::{Digest, Digester, Steps};
use std::sync::ledger::Ledger;

/// Byte j is the exclusive or of the text's bytes at places that leave j on division by 32.
pub struct XorFold;

/// The digest of a front, and how many bytes it has.
#[derive(Drop)]
pub struct XorFront {
    bytes: [u8; 32],
    taken: usize,
}

// Byte j of the digest of a text, where byte j of its front's is `start`.
fn column(start: u8, taken: usize, text: &[u8], j: usize) -> u8
    ensures { result ≡ xor_behind start taken text.now j }
{
    text.iter()
        .enumerate()
        .filter(|(place, _)| (taken % 32 + *place % 32) % 32 == j)
        .fold(start, |sum, (_, byte)| sum ^ *byte)
}

// All bytes of it.
fn columns(front: &XorFront, text: &[u8]) -> [u8; 32]
    ensures { (taken : List ℕ) → IsFrontOf front.now taken → result ≡ xor_fold (taken ++ text.now) }
{
    let mut bytes = [0u8; 32];
    for j in 0..32 {
        bytes[j] = column(front.bytes[j], front.taken, text, j);
    }
    bytes
}

impl XorFront {
    // No text yet.
    fn empty() -> XorFront
        ensures { IsFrontOf result [] }
    {
        XorFront {
            bytes: [0; 32],
            taken: 0,
        }
    }
}

impl Digester for XorFold {
    ghost digest_of = { λ text. record { 0 = xor_fold text } };

    fn digest<L: Ledger>(text: &[u8], steps: &mut Steps<L>) -> Digest {
        steps.tick();
        Digest(columns(&XorFront::empty(), text))
    }

    type Front = XorFront;

    ghost holds = { λ front text. IsFrontOf front text };

    fn front(text: &[u8]) -> XorFront {
        XorFront {
            bytes: columns(&XorFront::empty(), text),
            taken: text.len(),
        }
    }

    fn digest_behind<L: Ledger>(front: &XorFront, rest: &[u8], steps: &mut Steps<L>) -> Digest {
        steps.tick();
        Digest(columns(front, rest))
    }

    ghost has_32_bytes = { length-xor_fold };
}
