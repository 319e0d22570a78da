//! What is live, and what was issued.
ghost use Rattle.std.specs.Prelude.{◌≡◌, ◌≤◌, ◌^◌};
ghost use Rattle.leaf_record.specs.History.{supply};
ghost use Rattle.node_rules.specs.Machine as machine;
ghost use Rattle.bridge_prover.specs.Full.{history_of};
ghost use Rattle.audit_replay.specs.Audit.{IsAudit, amount_at};

use block_rules::subsidy;
use bridge_prover::Bridge;
use output_index::Outputs;
use uo_digest::Digester;

// The amount of an entry, if it is live.
fn amount(outputs: &Outputs, number: u64) -> u64
    ensures { result ≡ amount_at outputs.now number }
{
    if !outputs.live(number) {
        return 0;
    }
    match outputs.output(number) {
        Some(leaf) => leaf.amount,
        None => 0,
    }
}

/// The sum of the amounts of all live outputs, in satoshi.
pub(crate) fn live<D: Digester>(bridge: &Bridge<D>) -> u64
    requires { IsAudit D.digest_of bridge.now }
    ensures is { result ≡ supply (history_of bridge.now) }
    ensures most { result ≤ machine.issued bridge.now.rules.net bridge.now.chain.blocks }
{
    // What a bridge keeps is known.
    let _chain = bridge.chain();
    let outputs = bridge.outputs();
    let mut sum = 0;
    for number in 0..bridge.forest().leaves() {
        sum += amount(outputs, number);
    }
    sum
}

/// The sum of what the blocks of the chain were allowed to issue, in satoshi.
pub(crate) fn issued<D: Digester>(bridge: &Bridge<D>) -> u64
    ensures { result ≡ machine.issued bridge.now.rules.net bridge.now.chain.blocks }
{
    let net = bridge.net();
    let mut sum = 0;
    for height in 0..bridge.chain().blocks {
        sum += subsidy(height, net);
    }
    sum
}
