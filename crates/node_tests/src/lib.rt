//! Tests of the bridge, with the compact node beside it, and of the auditor.
//!
//! They stand in a crate of their own, so that none of these crates is proved a second time for them.
#![tactic(auto)]

ghost use Rattle.std.specs.Prelude.{◌≡◌, ◌∷◌, [], length, if◌then◌else◌, ◌==◌};

#[cfg(test)]
mod tests;

/// The script of what the coinbase of this height pays in these tests: that of height 41 has another one than all the rest.
pub fn script_of(height: u32) -> &'static [u8]
    ensures exact { result.now ≡ (if height == 41 then 82 else 81) ∷ [] }
    ensures short { length result.now ≡ 1 }
{
    if height == 41 { b"\x52" } else { b"\x51" }
}
