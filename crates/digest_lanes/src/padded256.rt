//! A text with its padding, block by block.

ghost use Rattle.std.specs.Prelude.{◌≡◌, ℕ, ◌+◌, ◌-◌, ◌*◌, ◌/◌, ◌%◌, ◌^◌, ◌<◌, ◌≤◌, ◌++◌, ◌∷◌, length, take, drop, replicate};
ghost use Rattle.std.specs.Int.{w64, to_be_bytes};
ghost use Rattle.sha2.specs.Sha256.{padded_message};

use std::marker::Model;

const BLOCK: usize = 64;

/// The bytes of the length behind a text.
const LENGTH: usize = 8;

/// A text with its padding; contracts see both together.
#[derive(Drop)]
pub(crate) struct Padded<'a> {
    text: &'a [u8],
    // What is left behind the last whole block of the text, and the padding.
    tail: [u8; 128],
    tail_len: usize,
}

impl<'a> Model for Padded<'a> {
    ghost use Rattle.std.specs.Prelude.{◌≡◌, ℕ, List, ◌*◌, ◌/◌, ◌≤◌, ◌++◌, length, take};

    ghost Value = { List ℕ };

    ghost view = { λ s. take (length s.text.now / 64 * 64) s.text.now ++ take s.tail_len s.tail };

    ghost invariant = { λ s. (s.tail_len ≤ 128) × (length s.tail ≡ 128) };
}

// What is left of a text, the bit 1, zeros, and the length in bits, up to the end of a block; and how many bytes these are.
fn tail_of(rest: &[u8], bits: u64) -> ([u8; 128], usize)
    requires { length rest.now < 64 }
    ensures fits { result.1 ≤ 128 }
    ensures bytes { take result.1 result.0 ≡ rest.now ++ (0x80 ∷ replicate ((119 - length rest.now) % 64) 0 ++ to_be_bytes w64 bits) }
{
    let used = rest.len();
    let end = if used + LENGTH < BLOCK {
        BLOCK
    } else {
        2 * BLOCK
    };
    let mut tail = [0u8; 128];
    tail[..used].copy_from_slice(rest);
    tail[used] = 0x80;
    tail[end - LENGTH..end].copy_from_slice(&bits.to_be_bytes());
    (tail, end)
}

impl<'a> Padded<'a> {
    /// The whole text.
    pub(crate) fn new(text: &'a [u8]) -> Padded<'a>
        ensures { result ≡ padded_message text.now }
    {
        let whole = text.len() / BLOCK * BLOCK;
        let bits = (text.len() as u64).wrapping_mul(8);
        let (tail, tail_len) = tail_of(&text[whole..], bits);
        Padded {
            text,
            tail,
            tail_len,
        }
    }

    /// Block `k`, from 0.
    pub(crate) fn block(&self, k: usize) -> &[u8]
        requires { 64 * k + 64 ≤ length self.now }
        ensures bytes { result.now ≡ take 64 (drop (k * 64) self.now) }
        ensures long { length result.now ≡ 64 }
    {
        let whole = self.text.len() / BLOCK;
        if k < whole {
            let at = BLOCK * k;
            &self.text[at..at + BLOCK]
        } else {
            let at = BLOCK * (k - whole);
            &self.tail[at..at + BLOCK]
        }
    }
}
