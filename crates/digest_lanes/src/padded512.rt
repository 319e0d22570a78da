//! A text with its padding, block by block.

ghost use Rattle.std.specs.Prelude.{◌≡◌, ℕ, ◌+◌, ◌-◌, ◌*◌, ◌/◌, ◌%◌, ◌^◌, ◌<◌, ◌≤◌, ◌++◌, ◌∷◌, length, take, drop, replicate};
ghost use Rattle.std.specs.Int.{w128, to_be_bytes};
ghost use Rattle.digest_lanes.specs.Midstate.{padded_behind};

use std::marker::Model;

const BLOCK: usize = 128;

/// The bytes of the length behind a text.
const LENGTH: usize = 16;

/// A text that goes on behind whole blocks, with its padding; contracts see both together.
#[derive(Drop)]
pub(crate) struct Padded<'a> {
    text: &'a [u8],
    // What is left behind the last whole block of the text, and the padding.
    tail: [u8; 256],
    tail_len: usize,
}

impl<'a> Model for Padded<'a> {
    ghost use Rattle.std.specs.Prelude.{◌≡◌, ℕ, List, ◌*◌, ◌/◌, ◌≤◌, ◌++◌, length, take};

    ghost Value = { List ℕ };

    ghost view = { λ s. take (length s.text.now / 128 * 128) s.text.now ++ take s.tail_len s.tail };

    ghost invariant = { λ s. (s.tail_len ≤ 256) × (length s.tail ≡ 256) };
}

// What is left of a text, the bit 1, zeros, and the length in bits, up to the end of a block; and how many bytes these are.
fn tail_of(rest: &[u8], bits: u128) -> ([u8; 256], usize)
    requires { length rest.now < 128 }
    ensures fits { result.1 ≤ 256 }
    ensures bytes { take result.1 result.0 ≡ rest.now ++ (0x80 ∷ replicate ((239 - length rest.now) % 128) 0 ++ to_be_bytes w128 bits) }
{
    let used = rest.len();
    let end = if used + LENGTH < BLOCK {
        BLOCK
    } else {
        2 * BLOCK
    };
    let mut tail = [0u8; 256];
    tail[..used].copy_from_slice(rest);
    tail[used] = 0x80;
    tail[end - LENGTH..end].copy_from_slice(&bits.to_be_bytes());
    (tail, end)
}

impl<'a> Padded<'a> {
    /// The text behind this many bytes.
    pub(crate) fn new(text: &'a [u8], before: usize) -> Padded<'a>
        requires { before % 128 ≡ 0 }
        ensures { result ≡ padded_behind before text.now }
    {
        let whole = text.len() / BLOCK * BLOCK;
        let bits = (before as u128 + text.len() as u128).wrapping_mul(8);
        let (tail, tail_len) = tail_of(&text[whole..], bits);
        Padded {
            text,
            tail,
            tail_len,
        }
    }

    /// Block `k`, from 0.
    pub(crate) fn block(&self, k: usize) -> &[u8]
        requires { 128 * k + 128 ≤ length self.now }
        ensures bytes { result.now ≡ take 128 (drop (k * 128) self.now) }
        ensures long { length result.now ≡ 128 }
    {
        let whole = self.text.len() / BLOCK;
        if k < whole {
            let at = BLOCK * k;
            &self.text[at..at + BLOCK]
        } else {
            let at = BLOCK * (k - whole);
            &self.tail[at..at + BLOCK]
        }
    }
}
