//! Tests of the text of a state.
//!
//! They stand in a crate of their own, so that what reads and writes states is not proved a second time for them.
#![tactic(auto)]

ghost use Rattle.std.specs.Prelude.{◌≡◌, ◌+◌, ◌^◌};

#[cfg(test)]
mod tests;

/// The most entries that a forest has.
pub fn most_entries() -> u64
    ensures { result + 1 ≡ 2 ^ 40 }
{
    (1 << 40) - 1
}
