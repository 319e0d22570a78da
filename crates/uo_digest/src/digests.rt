//! Digests one behind the other.
ghost use Rattle.std.specs.Prelude.{◌≡◌, ◌*◌, ◌/◌, ◌<◌, List, length, slice_get, Some};
ghost use Rattle.uo_digest.specs.declared.digest.Digest.{Digest as Digested};
ghost use Rattle.uo_digest.specs.Reading.{digests_in};

use crate::Digest;
use std::marker::Model;

/// Digests that lie one behind the other in a text, 32 bytes each; contracts see their list.
#[derive(Drop)]
pub struct Digests<'a> {
    bytes: &'a [u8],
}

impl<'a> Model for Digests<'a> {
    ghost Value = { List Digested };

    ghost view = { λ s. digests_in s.bytes.now };

    ghost invariant = { λ s. 32 * (length s.bytes.now / 32) ≡ length s.bytes.now };
}

impl<'a> Digests<'a> {
    /// The digests that a text is made of, without a copy of it.
    pub fn new(bytes: &'a [u8]) -> Digests<'a>
        requires { 32 * (length bytes.now / 32) ≡ length bytes.now }
        ensures { result ≡ digests_in bytes.now }
    {
        Digests { bytes }
    }

    /// How many there are.
    pub fn len(&self) -> usize
        ensures { result ≡ length self.now }
    {
        self.bytes.len() / 32
    }

    /// The i-th of them, from 0.
    pub fn get(&self, i: usize) -> Digest
        requires { i < length self.now }
        ensures { slice_get self.now i ≡ Some result }
    {
        let bytes = self.bytes;
        let from = 32 * i;
        Digest::from_bytes(&bytes[from..from + 32])
    }
}
