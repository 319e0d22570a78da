//! Two texts with one digest, at a forged event.
ghost use Rattle.std.specs.Prelude.{◌≡◌, ◌<◌, ◌^◌, None, Some, length, option_copied, IfOk};
ghost use Rattle.block_codec.specs.Reading.{block_in};
ghost use Rattle.uo_base.specs.FeedEvent.{event_of};
ghost use Rattle.node_rules.specs.Machine.{BlockCame, event_in};
ghost use Rattle.node_rules.specs.Reading.{handed_in};
ghost use Rattle.node_rules.specs.Fitting.{IsShort};
ghost use Rattle.bridge_prover.specs.Full.{history_of, judged_on, watched_by};
ghost use Rattle.block_rules.specs.Blocks.{external};
ghost use Rattle.audit_replay.specs.Audit.{IsAudit, IsClashOf, ShowsClashOf, clash_beside, clash_on};

use block_codec::{BlockFault, BlockView, read_block};
use block_rules::{RuleFault, shape_rules};
use bridge_prover::Bridge;
use clash_find::{Clash, find};
use node_rules::message_rules;
use std::alloc::Global;
use std::sync::ledger::Ledger;
use uo_base::{Event, NoMemory};
use uo_digest::{Digester, Steps};

// What the message beside a block shows, where the event is forged.
fn clash_of<D: Digester, L: Ledger>(
    alloc: Global,
    bridge: &Bridge<D>,
    block: &BlockView<'_>,
    message: Option<&[u8]>,
    steps: &mut Steps<L>,
) -> Result<Clash, NoMemory>
    requires is { IsAudit D.digest_of bridge.now }
    requires forged { judged_on D.digest_of bridge.now (BlockCame (Some block.now) (handed_in (option_copied message))) ≡ None }
    ensures shows { IfOk result (λ clash. IsClashOf D.digest_of bridge.now block.now (handed_in (option_copied message.entry)) clash) }
    ensures which { IfOk result (λ clash. clash_beside D.digest_of (watched_by bridge.now) (history_of bridge.now)
        (external block.now bridge.now.chain.blocks) (handed_in (option_copied message.entry)) ≡ Some clash) }
{
    let chain = bridge.chain();
    let spends = match shape_rules(alloc, block, &chain, bridge.net(), bridge.limits()) {
        Ok(spends) => spends,
        Err(RuleFault::NoMemory) => return Err(NoMemory),
        Err(RuleFault::Refused(_)) => unreachable!(),
    };
    // A block that is not too heavy has few inputs, since it has a text.
    let _bytes = block.bytes();
    let message = match message_rules(alloc, &spends, message) {
        Ok(Some(message)) => message,
        Ok(None) => unreachable!(),
        Err(RuleFault::NoMemory) => return Err(NoMemory),
        Err(RuleFault::Refused(_)) => unreachable!(),
    };
    let known = bridge.known_hashes()?;
    match find(
        alloc,
        bridge.forest(),
        bridge.outputs(),
        &spends,
        &message,
        &known,
        steps,
    )? {
        Some(clash) => Ok(clash),
        None => unreachable!(),
    }
}

/// The two texts that a forged event shows.
pub(crate) fn clash_in<D: Digester, L: Ledger>(
    alloc: Global,
    bridge: &Bridge<D>,
    event: Event<'_>,
    steps: &mut Steps<L>,
) -> Result<Clash, NoMemory>
    requires is { IsAudit D.digest_of bridge.now }
    requires short { IsShort (event_of event) }
    requires forged { judged_on D.digest_of bridge.now (event_in (event_of event)) ≡ None }
    ensures shows { IfOk result (λ clash. ShowsClashOf D.digest_of bridge.now (event_in (event_of event.entry)) clash) }
    ensures which { IfOk result (λ clash. clash_on D.digest_of bridge.now (event_in (event_of event.entry)) ≡ Some clash) }
{
    match event {
        Event::Block { block, message } => match read_block(alloc, block) {
            Ok(block) => clash_of(alloc, bridge, &block, message, steps),
            Err(BlockFault::NotABlock) => unreachable!(),
            Err(BlockFault::NoMemory) => Err(NoMemory),
        },
        Event::Rollback { .. } => unreachable!(),
        Event::Stray => unreachable!(),
    }
}
