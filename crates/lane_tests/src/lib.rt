//! Tests of digests side by side, beside the library `sha2` and the examples of FIPS 180-4.
//!
//! They stand in a crate of their own, so that the lanes are not proved a second time for them.
#![tactic(auto)]

ghost use Rattle.std.specs.Prelude.{◌≡◌, ◌+◌, ◌*◌, ◌%◌, ◌^◌, ◌<◌};

#[cfg(test)]
mod tests;

/// A length up to 400: that of the text with this number, of texts of unlike lengths of which the first has `len`.
pub fn length_of(number: usize, len: usize, step: usize) -> usize
    requires { number * step + len < 2 ^ 64 }
    ensures { result ≡ (number * step + len) % 401 }
{
    (number * step + len) % 401
}
