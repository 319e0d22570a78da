//! What a block issues.
ghost use Rattle.std.specs.Prelude.{◌≡◌};
ghost use Rattle.block_rules.specs.Money.{halving as halving_of, subsidy_at};

use uo_base::Net;

const FIRST_SUBSIDY: u64 = 5_000_000_000;

// After how many blocks it halves.
fn halving(net: Net) -> u32
    ensures { result ≡ halving_of net }
{
    match net {
        Net::Main => 210_000,
        Net::Regtest => 150,
    }
}

/// What the block of a height issues, in satoshi: 50 coins, halved every 210,000 blocks on the main network and every 150
/// on regtest, and nothing from 64 halvings on.
pub fn subsidy(height: u32, net: Net) -> u64
    ensures { result ≡ subsidy_at net height }
{
    let halvings = height / halving(net);
    if halvings < 64 {
        FIRST_SUBSIDY >> halvings
    } else {
        0
    }
}
