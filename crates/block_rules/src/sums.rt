//! Sums of amounts.
ghost use Rattle.std.specs.Prelude.{◌≡◌};
ghost use Rattle.block_rules.specs.Money.{output_sum as output_sum_of};

use tx_codec::TxView;

/// No sum of money is more, in satoshi.
pub(crate) const MOST_MONEY: u64 = 2_100_000_000_000_000;

/// The sum of a transaction's outputs.
pub(crate) fn output_sum(tx: &TxView<'_>) -> u128
    ensures { result ≡ output_sum_of tx.now }
{
    let mut sum = 0u128;
    for output in tx.outputs() {
        sum += u128::from(output.amount);
    }
    sum
}
