//! Tests of the path to a block among blocks in order of arrival.
//!
//! They stand in a crate of their own, so that what finds the path is not proved a second time for them.
#![tactic(auto)]

ghost use Rattle.std.specs.Prelude.{◌≡◌, replicate};

#[cfg(test)]
mod tests;

use uo_digest::Digest;

/// A hash of one byte, 32 times.
pub fn hash(byte: u8) -> Digest
    ensures { result ≡ record { 0 = replicate 32 byte } }
{
    Digest([byte; 32])
}
