//! What is issued at a height, and what is said where there is no memory.
use block_rules::{
    RuleFault, internal_is_latest, new_is_paid, new_is_unspent, subsidy, witness_height,
};
use std::alloc::AllocError;
use std::test::Fail;
use uo_base::Net;

/// A network, a height, and what is issued there.
const ISSUED: [(Net, u32, u64); 12] = [
    (Net::Main, 0, 5_000_000_000),
    (Net::Main, 209_999, 5_000_000_000),
    (Net::Main, 210_000, 2_500_000_000),
    (Net::Main, 6_720_000, 1),
    (Net::Main, 6_929_999, 1),
    (Net::Main, 6_930_000, 0),
    (Net::Main, 13_440_000, 0),
    (Net::Main, 2_147_483_647, 0),
    (Net::Regtest, 149, 5_000_000_000),
    (Net::Regtest, 150, 2_500_000_000),
    (Net::Regtest, 4_800, 1),
    (Net::Regtest, 9_600, 0),
];

#[test]
fn subsidies(rt: HostRuntime) {
    for (net, height, issued) in ISSUED {
        assert!(rt; subsidy(height, net) == issued);
    }
    assert!(rt; witness_height(Net::Main) == 481_824 && witness_height(Net::Regtest) == 0);
    internal_is_latest();
    new_is_unspent();
    new_is_paid();
}

#[test]
fn faults(rt: HostRuntime) -> Result<(), Fail> {
    let fault = format!(in rt.alloc(); "{}", RuleFault::from(AllocError))?;
    assert!(rt; fault.as_str() == "out of memory");
    Ok(())
}
