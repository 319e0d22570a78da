//! Tests of worlds of one bridge and its followers.
//!
//! They stand in a crate of their own, so that the relay is not proved a second time for them.
#![tactic(auto)]

ghost use Rattle.std.specs.Prelude.{◌≡◌, ◌+◌, ◌*◌, ◌<◌, ◌^◌};

#[cfg(test)]
mod tests;

/// The number of the ask of a follower, and of the reply to it, where in each round three followers ask one after the other.
pub fn number_in(round: u64, follower: u32) -> u64
    requires { round < 2 ^ 32 }
    ensures { result ≡ 3 * round + follower }
{
    3 * round + follower as u64
}
