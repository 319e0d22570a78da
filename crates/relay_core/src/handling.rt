//! The bridge handles an event.
ghost use Rattle.std.specs.Prelude.{◌≡◌, ◌<◌, ◌≤◌, ◌^◌, ◌++◌, ◌∷◌, [], ℕ, suc, length, map, reverse, take, drop, option_map, option_copied, IfOk};
ghost use Rattle.std.specs.Prelude.{OnOk, OnErr};
ghost use Rattle.std.specs.Vec.{vec_len, vec_capacity};
ghost use Rattle.uo_base.specs.FeedEvent as Feed;
ghost use Rattle.node_rules.specs.Machine.{event_in};
ghost use Rattle.bridge_prover.specs.Bridge.{verdict_on, next_bridge, message_on};
ghost use Rattle.relay_core.specs.World.{Sent, chain_after, is_acceptance, sent_after};
ghost use Rattle.relay_core.specs.Rising.{IsRising};

use crate::line::cut;
use crate::store::Passed;
use block_rules::Verdict;
use bridge_prover::{Bridge, Proved};
use std::alloc::Global;
use std::sync::ledger::Ledger;
use uo_base::{Event, NoMemory};
use uo_digest::{Digester, Steps};

// The bridge handles a block, which is sent on where it accepts it. Where there is no memory, nothing changes.
pub(crate) fn take_block<D: Digester, L: Ledger>(
    alloc: Global,
    bridge: &mut Bridge<D>,
    sent: &mut Vec<Passed>,
    chain: &mut Vec<u64>,
    block: &[u8],
    message: Option<&[u8]>,
    steps: &mut Steps<L>,
) -> Result<Verdict, NoMemory>
    requires short { length block.now < 2 ^ 32 }
    requires rising { IsRising (length sent.old.items) chain.old.items }
    ensures verdict { let e = event_in (Feed.BlockCame block.now (option_copied message.entry)) in IfOk result (λ v. v ≡ verdict_on bridge.old e) }
    ensures bridge { let e = event_in (Feed.BlockCame block.now (option_copied message.entry)) in
        OnOk result (bridge.new ≡ next_bridge D.digest_of bridge.old e) }
    ensures sent { let event = Feed.BlockCame block.now (option_copied message.entry) in
        OnOk result (sent.new.items ≡ sent_after (verdict_on bridge.old (event_in event)) event (message_on D.digest_of bridge.old (event_in event))
        sent.old.items) }
    ensures chain { let e = event_in (Feed.BlockCame block.now (option_copied message.entry)) in
        OnOk result (reverse chain.new.items ≡ chain_after (verdict_on bridge.old e) (suc (length sent.old.items)) (reverse chain.old.items)) }
    ensures rising { IsRising (length sent.new.items) chain.new.items }
    ensures bridge_stays { OnErr result (bridge.new ≡ bridge.old) }
    ensures sent_stays { OnErr result (sent.new.items ≡ sent.old.items) }
    ensures chain_stays { OnErr result (chain.new.items ≡ chain.old.items) }
{
    let bytes = block.to_vec(alloc)?;
    sent.reserve(1)?;
    chain.reserve(1)?;
    let proved = bridge.step(Event::Block { block, message }, steps)?;
    let Proved { verdict, message } = proved;
    if let Verdict::Accepted { .. } = verdict {
        add(sent, chain, bytes, message);
    }
    Ok(verdict)
}

// An accepted block gets the next serial.
fn add(sent: &mut Vec<Passed>, chain: &mut Vec<u64>, block: Vec<u8>, message: Option<Vec<u8>>)
    requires short { length block.items < 2 ^ 32 }
    requires rising { IsRising (length sent.old.items) chain.old.items }
    requires sent_room { vec_len sent.old < vec_capacity sent.old }
    requires chain_room { vec_len chain.old < vec_capacity chain.old }
    ensures sent { sent.new.items ≡ sent.old.items ++ record { block = block.items; message = option_map (λ m. m.items) message } ∷ [] }
    ensures chain { reverse chain.new.items ≡ suc (length sent.old.items) ∷ reverse chain.old.items }
    ensures rising { IsRising (length sent.new.items) chain.new.items }
{
    sent.push_reserved(Passed::new(block, message));
    chain.push_reserved(sent.len() as u64);
}

// The bridge goes back by so many blocks, if it can.
pub(crate) fn roll_back<D: Digester, L: Ledger>(
    bridge: &mut Bridge<D>,
    chain: &mut Vec<u64>,
    count: u32,
    given: u64,
    steps: &mut Steps<L>,
) -> Result<Verdict, NoMemory>
    requires { IsRising given chain.old.items }
    ensures verdict { IfOk result (λ v. v ≡ verdict_on bridge.old (event_in (Feed.RollbackCame count))) }
    ensures bridge { OnOk result (bridge.new ≡ next_bridge D.digest_of bridge.old (event_in (Feed.RollbackCame count))) }
    ensures chain { (serial : ℕ) → OnOk result
        (reverse chain.new.items ≡ chain_after (verdict_on bridge.old (event_in (Feed.RollbackCame count))) serial (reverse chain.old.items)) }
    ensures rising { IsRising given chain.new.items }
    ensures bridge_stays { OnErr result (bridge.new ≡ bridge.old) }
    ensures chain_stays { OnErr result (chain.new.items ≡ chain.old.items) }
{
    let proved = bridge.step(Event::Rollback { count }, steps)?;
    let Proved { verdict, .. } = proved;
    if let Verdict::RolledBack { .. } = verdict {
        cut(chain, count);
    }
    Ok(verdict)
}
