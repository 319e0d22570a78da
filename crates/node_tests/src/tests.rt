//! Two bridges, a node that follows what one of them passes on, and an auditor, over one chain: what they answer, and no line of a report tells.
//!
//! What they say of blocks, messages and rollbacks is asked of the built program.
ghost use Rattle.std.specs.Prelude.{◌≡◌, ◌<◌};

use crate::script_of;
use audit_replay::{Audit, AuditLine};
use block_samples::Sample;
use bridge_prover::Bridge;
use compact_node::Node;
use compact_tests::{FULL, Sketch, block_paying};
use leaf_cache::Watch;
use std::alloc::Global;
use std::marker::Brand;
use std::process::Abort;
use std::sync::ledger::{Blank, Ledger};
use std::test::Fail;
use tx_codec::OutView;
use uo_base::{Event, Limits, Net};
use uo_digest::{Digest, Sha512t256, Steps};

/// All four. One bridge writes proofs in full, the other lean ones.
#[derive(Drop)]
struct Court {
    bridge: Bridge<Sha512t256>,
    lean: Bridge<Sha512t256>,
    node: Node<Sha512t256>,
    audit: Audit<Sha512t256>,
}

fn fresh(alloc: Global, watch: Watch) -> Result<Court, Fail> {
    let limits = Limits::standard();
    Ok(Court {
        bridge: Bridge::new(alloc, Net::Main, limits, None)?,
        lean: Bridge::new(alloc, Net::Main, limits, Some(watch))?,
        node: Node::new(alloc, Net::Main, limits, Watch::empty(alloc))?,
        audit: Audit::new(alloc, Net::Main, limits, Watch::empty(alloc))?,
    })
}

/// The next block: a coinbase that pays 50 coins, and other transactions.
fn next_block(alloc: Global, court: &Court, sketches: &[Sketch<'_>]) -> Result<Sample, Fail> {
    let chain = court.bridge.chain();
    let output = OutView {
        amount: FULL,
        script: script_of(chain.blocks),
    };
    Ok(block_paying(alloc, chain.tip, chain.blocks, output, sketches)?)
}

/// The auditor says the same of this event, and has not ended.
fn judge<L: Ledger>(
    rt: &impl Abort,
    court: &mut Court,
    block: &[u8],
    message: Option<&[u8]>,
    steps: &mut Steps<L>,
) -> Result<(), Fail> {
    if block.len() > 4_000_000 || court.audit.ended() {
        return Err("a short block".into());
    }
    let event = Event::Block { block, message };
    let said = court.node.step(event, steps)?;
    let line = court.audit.step(event, steps)?;
    assert!(rt; matches!(line, AuditLine::Verdict(verdict) if verdict == said));
    Ok(())
}

/// Passes a block on, and answers how long both messages are.
fn pass<L: Ledger>(
    rt: &impl Abort,
    court: &mut Court,
    block: &[u8],
    steps: &mut Steps<L>,
) -> Result<(usize, usize), Fail> {
    if block.len() > 4_000_000 {
        return Err("a short block".into());
    }
    let message = None;
    let event = Event::Block { block, message };
    let full = court.bridge.step(event, steps)?;
    let lean = court.lean.step(event, steps)?;
    assert!(rt; full.verdict == lean.verdict);
    judge(rt, court, block, full.message.as_deref(), steps)?;
    Ok((
        full.message.as_deref().unwrap_or(b"").len(),
        lean.message.as_deref().unwrap_or(b"").len(),
    ))
}

/// Blocks up to height 100. It answers the id of the coinbase of height 1.
fn grow<L: Ledger>(
    rt: &impl Abort,
    alloc: Global,
    court: &mut Court,
    steps: &mut Steps<L>,
) -> Result<Digest, Fail> {
    let mut first = Digest([0; 32]);
    for height in 0..101 {
        let block = next_block(alloc, court, &[])?;
        let sizes = pass(rt, court, &block.text, steps)?;
        assert!(rt; sizes == (0, 0));
        if height == 1 {
            first = *block.ids.first().ok_or("a coinbase")?;
        }
    }
    Ok(first)
}

/// All of them are on one chain with the same roots, and go back as far.
fn check_same(rt: &impl Abort, court: &Court) {
    let chain = court.bridge.chain();
    assert!(rt; court.lean.chain() == chain && court.node.chain() == chain);
    assert!(rt; court.audit.chain() == chain && court.audit.bridge().chain() == chain);
    assert!(rt; court.bridge.kept_levels() == court.node.kept_levels());
    for row in 0..8 {
        assert!(rt; court.bridge.forest().root(row) == court.node.roots().root(row));
    }
}

/// The first output is spent, and all its hashes are known to who watches all outputs but one.
fn spend<L: Ledger>(
    rt: &impl Abort,
    alloc: Global,
    court: &mut Court,
    id: Digest,
    steps: &mut Steps<L>,
) -> Result<(), Fail> {
    assert!(rt; court.bridge.outputs().newest(&id, 0) == Some(0));
    let block = next_block(alloc, court, &[Sketch(id, 0, &[FULL])])?;
    let sizes = pass(rt, court, &block.text, steps)?;
    assert!(rt; sizes == (250, 58));
    assert!(rt; court.bridge.outputs().newest(&id, 0).is_none());
    assert!(rt; court.audit.supply() == (505_000_000_000, 510_000_000_000));
    Ok(())
}

/// Behind a rollback it is live again, and the places of 64, 32 and 4 entries are known.
fn go_back<L: Ledger>(
    rt: &impl Abort,
    court: &mut Court,
    id: Digest,
    steps: &mut Steps<L>,
) -> Result<(), Fail> {
    let event = Event::Rollback { count: 1 };
    let verdict = court.bridge.step(event, steps)?.verdict;
    assert!(rt; court.lean.step(event, steps)?.verdict == verdict);
    assert!(rt; court.node.step(event, steps)? == verdict);
    assert!(rt; court.bridge.outputs().newest(&id, 0) == Some(0));
    assert!(rt; court.lean.known_hashes()?.len() == 127 + 63 + 7);
    Ok(())
}

fn check_chain<L: Ledger>(
    rt: &impl Abort,
    alloc: Global,
    watch: Watch,
    blank: Blank,
) -> Result<(), Fail>
    requires name { blank.name ≡ L.name }
    requires parts { blank.parts ≡ L.parts }
    requires some { 0 < blank.parts }
{
    let mut steps = Steps::<L>::new(blank);
    let mut court = fresh(alloc, watch)?;
    let id = grow(rt, alloc, &mut court, &mut steps)?;
    check_same(rt, &court);
    spend(rt, alloc, &mut court, id, &mut steps)?;
    check_same(rt, &court);
    go_back(rt, &mut court, id, &mut steps)
}

#[test]
fn one_chain(rt: HostRuntime) -> Result<(), Fail> {
    match Watch::from_list(rt.alloc(), b"51") {
        Ok(watch) => check_chain::<Brand>(&rt, rt.alloc(), watch, Blank::new(1)),
        Err(_) => Err("a list".into()),
    }
}
