//! Tests of the forest in place, and of deletions, beside a plain forest that is hashed from nothing.
//!
//! They stand in a crate of their own, so that none of these crates is proved a second time for them.
#![tactic(auto)]

ghost use Rattle.std.specs.Int.{w64, to_le_bytes};
ghost use Rattle.std.specs.Prelude.{◌≡◌, take};

#[cfg(test)]
mod tests;

use uo_digest::Digest;

/// The digest of an entry, which begins with its number.
pub fn leaf(number: u64) -> Digest
    ensures { take 8 result.0 ≡ to_le_bytes w64 number }
{
    let mut bytes = [77; 32];
    bytes[..8].copy_from_slice(&number.to_le_bytes());
    Digest(bytes)
}
