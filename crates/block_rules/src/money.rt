//! The rules on money.
ghost use Rattle.std.specs.Prelude.{◌≡◌, ◌+◌, ◌*◌, ◌<◌, ◌≤◌, ◌^◌, ◌∷◌, [], length, None, sum_by};
ghost use Rattle.block_rules.specs.Judged.{MoneyJudged};
ghost use Rattle.block_rules.specs.Money.{paid_from, found_after, paid_by, is_ripe, unripe, immature, overspend, fees};
ghost use Rattle.block_rules.specs.Paying.{outside_count, outside_sum, PaysNext};
ghost use Rattle.block_rules.specs.Steps.{first_from};

use crate::chain::Found;
use crate::issue::subsidy;
use crate::refusal::Refusal;
use crate::spends::{Spends, TxMoney};
use crate::sums::MOST_MONEY;

// How many blocks later what a coinbase made can be spent.
const MATURITY: u64 = 100;

/// Judges the money of a block, where `found` tells what its external inputs spend, one for each and in their order. The
/// rules are asked in this order, and the first that is broken is the answer: that outputs of a coinbase are spent 100
/// blocks later at the earliest, that each transaction pays for what it makes, and that the coinbase claims no more than
/// the subsidy and the fees. Else the answer is the sum of the fees, in satoshi.
pub fn money_rules(spends: &Spends<'_>, found: &[Found]) -> Result<u128, Refusal>
    requires { length found.now ≡ length spends.now.external }
    ensures { MoneyJudged spends.now found.now result }
{
    if let Some(why) = immature_step(spends.origins.height, &spends.bills, found) {
        return Err(why);
    }
    if let Some(why) = overspend_step(&spends.bills, found) {
        return Err(why);
    }
    let fees = fees(&spends.bills, found);
    let allowed = u128::from(subsidy(spends.origins.height, spends.net)) + fees;
    if u128::from(spends.claimed) > allowed {
        return Err(Refusal::Subsidy {
            claimed: spends.claimed,
            allowed,
        });
    }
    Ok(fees)
}

// What an input spends, which is the block's own or the next that was found, and what is left of those found.
fn next_paid<'f>(own: &Option<Found>, found: &'f [Found]) -> (Found, &'f [Found])
    requires { outside_count (own.now ∷ []) ≤ length found.now }
    ensures { PaysNext own.now found.now result.0 result.1.now }
{
    match own {
        Some(own) => (*own, found),
        None => (found[0], &found[1..]),
    }
}

// What is left of those found for later transactions.
fn found_after<'f>(own: &[Option<Found>], found: &'f [Found]) -> &'f [Found]
    requires { outside_count own.now ≤ length found.now }
    ensures left { result.now ≡ found_after own.now found.now }
    ensures count { outside_count own.now + length result.now ≡ length found.now }
{
    let mut left = found;
    for own in own {
        left = next_paid(own, left).1;
    }
    left
}

// Whether what an input spends can be spent at a height.
fn is_ripe(height: u32, found: &Found) -> bool
    ensures { result ≡ is_ripe height found.now }
{
    !found.coinbase || u64::from(found.height) + MATURITY <= u64::from(height)
}

// The first input of a transaction that spends what has not ripened.
fn immature_input(height: u32, t: u32, own: &[Option<Found>], found: &[Found]) -> Option<Refusal>
    requires few { length own.now < 2 ^ 32 }
    requires enough { outside_count own.now ≤ length found.now }
    ensures { result ≡ first_from 0 (unripe height t) (paid_from own.now found.now) }
{
    let mut left = found;
    let mut i = 0;
    for own in own {
        let (paid, others) = next_paid(own, left);
        if !is_ripe(height, &paid) {
            return Some(Refusal::Immature { tx: t, input: i });
        }
        left = others;
        i += 1;
    }
    None
}

// No input spends what has not ripened.
fn immature_step(height: u32, bills: &[TxMoney], found: &[Found]) -> Option<Refusal>
    requires few { length bills.now < 2 ^ 32 }
    requires enough { outside_sum bills.now ≤ length found.now }
    ensures { result ≡ first_from 1 (immature height) (paid_by bills.now found.now) }
{
    let mut left = found;
    let mut t = 0;
    for bill in bills {
        t += 1;
        if let Some(why) = immature_input(height, t, &bill.own, left) {
            return Some(why);
        }
        left = found_after(&bill.own, left);
    }
    None
}

// The sum of what a transaction's inputs spend.
fn paid_sum(own: &[Option<Found>], found: &[Found]) -> u128
    requires few { length own.now < 2 ^ 32 }
    requires enough { outside_count own.now ≤ length found.now }
    ensures { result ≡ sum_by (λ paid. paid.amount) (paid_from own.now found.now) }
{
    let mut left = found;
    let mut sum = 0u128;
    for own in own {
        let (paid, others) = next_paid(own, left);
        sum += u128::from(paid.amount);
        left = others;
    }
    sum
}

// No transaction spends too little or too much.
fn overspend_step(bills: &[TxMoney], found: &[Found]) -> Option<Refusal>
    requires few { length bills.now < 2 ^ 32 }
    requires enough { outside_sum bills.now ≤ length found.now }
    ensures { result ≡ first_from 1 overspend (paid_by bills.now found.now) }
{
    let mut left = found;
    let mut t = 0;
    for bill in bills {
        t += 1;
        let paid = paid_sum(&bill.own, left);
        if paid < bill.makes || paid > u128::from(MOST_MONEY) {
            return Some(Refusal::Overspend { tx: t });
        }
        left = found_after(&bill.own, left);
    }
    None
}

// What the transactions spend and do not make.
fn fees(bills: &[TxMoney], found: &[Found]) -> u128
    requires few { length bills.now < 2 ^ 32 }
    requires enough { outside_sum bills.now ≤ length found.now }
    requires paid { first_from 1 overspend (paid_by bills.now found.now) ≡ None }
    ensures exact { result ≡ fees (paid_by bills.now found.now) }
    ensures most { result ≤ 2100000000000000 * length bills.now }
{
    let mut left = found;
    let mut fees = 0u128;
    for bill in bills {
        fees += paid_sum(&bill.own, left) - bill.makes;
        left = found_after(&bill.own, left);
    }
    fees
}
