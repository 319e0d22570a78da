//! Tests of the commands: what of the one call `run` the built program can not be asked, over ports in memory.
//!
//! They stand in a crate of their own, so that neither the commands nor the program is proved a second time for them.
#![tactic(auto)]

ghost use Rattle.std.specs.Prelude.{◌≡◌, ◌<◌, if◌then◌else◌, ◌==◌};

#[cfg(test)]
mod tests;

/// As many bytes as a port moves in one call: so many, and one where that is none.
pub fn piece_of(size: usize) -> usize
    ensures exact { result ≡ (if size == 0 then 1 else size) }
    ensures some { 0 < result }
{
    if size == 0 { 1 } else { size }
}
