//! Tests of tickets.
//!
//! They stand in a crate of their own, so that what writes and judges tickets is not proved a second time for them.
#![tactic(auto)]

ghost use Rattle.std.specs.Prelude.{◌≡◌, ◌+◌, ◌*◌, ◌<◌};

#[cfg(test)]
mod tests;

/// The bytes of a ticket with a script of so many bytes and so many hashes.
pub fn ticket_length(script: usize, hashes: usize) -> usize
    requires script { script < 253 }
    requires hashes { hashes < 253 }
    ensures { result ≡ 127 + script + 32 * hashes }
{
    127 + script + 32 * hashes
}
