//! Tests of places, of roots, of the targets of a deletion and the check of proofs, and of outputs, what undoes their blocks, and watch lists.
//!
//! They stand in a crate of their own, so that none of these crates is proved a second time for them.
#![tactic(auto)]

ghost use Rattle.std.specs.Prelude.{◌≡◌, replicate};

#[cfg(test)]
mod tests;

use uo_digest::Digest;

/// A digest of one byte, 32 times.
pub fn digest(byte: u8) -> Digest
    ensures { result ≡ record { 0 = replicate 32 byte } }
{
    Digest([byte; 32])
}
