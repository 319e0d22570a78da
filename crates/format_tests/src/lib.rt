//! Tests of what is read and written: ports, digests, leaf texts, messages, feeds, generated feeds, the program's words, scripts and lines.
//!
//! They stand in a crate of their own, so that none of these ten crates is proved a second time for them.
#![tactic(auto)]

ghost use Rattle.std.specs.Prelude.{◌≡◌, replicate};

#[cfg(test)]
mod tests;

use uo_digest::Digest;

/// A hash of one byte, 32 times, where its value is of no account.
pub fn repeated(byte: u8) -> Digest
    ensures { result ≡ record { 0 = replicate 32 byte } }
{
    Digest([byte; 32])
}
