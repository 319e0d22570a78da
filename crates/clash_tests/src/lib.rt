//! Tests of the search for two texts with one digest in a forged proof.
//!
//! They stand in a crate of their own, so that what searches is not proved a second time for them.
#![tactic(auto)]

ghost use Rattle.std.specs.Prelude.{◌≡◌, if◌then◌else◌, ◌==◌};

#[cfg(test)]
mod tests;

/// The number of a row's first place in the forest of eight entries.
pub fn first_of(row: u8) -> u64
    ensures { result ≡ (if row == 0 then 0 else if row == 1 then 1099511627776 else if row == 2 then 1649267441664 else 1924145348608) }
{
    if row == 0 {
        0
    } else if row == 1 {
        1_099_511_627_776
    } else if row == 2 {
        1_649_267_441_664
    } else {
        1_924_145_348_608
    }
}
