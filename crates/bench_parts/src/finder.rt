//! The auditor's search for two texts with one digest, in a message of as many targets as a block can have.
ghost use Rattle.output_index.specs.Held.{IsAbove};

use crate::alone::{leaves_alone, pairs_alone};
use crate::names::name_of;
use crate::outputs::{insert, record_of};
use crate::rules::{TIP, judge};
use crate::spending::{block_of, input_of};
use crate::stopwatch::Stopwatch;
use crate::targets::{hashes_of, targets_of};
use block_codec::read_block;
use block_rules::Spends;
use block_samples::SampleFault;
use clash_find::{Clash, find};
use leaf_record::{LeafBuf, RestView, leaf_digest};
use live_forest::Forest;
use output_index::Outputs;
use proof_shape::Targets;
use proof_wire::{Message, MessageView, read_message};
use std::alloc::Global;
use std::io;
use std::sync::ledger::Ledger;
use std::time::CpuClock;
use tx_codec::OutView;
use uo_base::NoMemory;
use uo_digest::{Digest, Digester, Sha512t256, Steps, XorFold};

/// The most outputs that a block can spend.
const MOST: u32 = 24_384;

/// An amount in satoshi, and another.
const AMOUNT: u64 = 5;

const OTHER: u64 = 4;

/// Microseconds of searching a right message, and a forged one that the roots accept, over so many live outputs.
///
/// Either search goes over all covered places: the right message shows nothing, and the forged one shows two texts at the last of
/// them, the root. For its amounts are other ones in two outputs, one of either half of the forest, so that by exclusive or
/// all digests above them differ, and that of the root does not.
pub fn measure_finder<R: CpuClock + Print + AllocGlobal, L: Ledger>(
    rt: &R,
    steps: &mut Steps<L>,
) -> io::Result<()> {
    for entries in [1 << 17, 1 << 20] {
        measure::<R, Sha512t256, L>(rt, rt.alloc(), "SHA-512/256", entries, false, steps)?;
        measure::<R, XorFold, L>(rt, rt.alloc(), "exclusive or", entries, true, steps)?;
    }
    Ok(())
}

/// A forest and its outputs, a block that spends some of them, and the message beside it.
#[derive(Drop)]
struct Case<D: Digester> {
    forest: Forest<D>,
    outputs: Outputs,
    positions: Vec<u64>,
    block: Vec<u8>,
    message: Vec<u8>,
}

fn rest_of(amount: u64) -> RestView<'static> {
    RestView {
        block: Digest([1; 32]),
        height: 7,
        coinbase: false,
        amount,
        script: b"\x51",
    }
}

fn grow<D: Digester, L: Ledger>(
    alloc: Global,
    forest: &mut Forest<D>,
    outputs: &mut Outputs,
    entries: u32,
    steps: &mut Steps<L>,
) -> Result<(), NoMemory>
    requires { IsAbove 0 outputs.old }
{
    let mut room = LeafBuf::<D>::new(alloc)?;
    forest.reserve(u64::from(entries))?;
    for number in 0..entries {
        let leaf = record_of(alloc, u64::from(number), b"\x51")?;
        let digest = leaf_digest(&mut room, &leaf.view(), steps);
        if 0 < forest.spare() && forest.leaves() < 1 << 39 {
            let _ = forest.add(digest, steps);
        }
        insert(outputs, u64::from(number), leaf)?;
    }
    Ok(())
}

// The entries that are spent: all different, and all over either half of the forest in turn. While none is spent each stands in the
// lowest row, so these are their fixed positions too.
fn chosen(alloc: Global, entries: u32) -> Result<Vec<u64>, NoMemory> {
    let mut positions = Vec::new(alloc);
    let half = (entries / 2).max(1);
    for i in 0..MOST {
        let within = (i / 2).wrapping_mul(0x9e37_79b1) % half;
        let first = if i % 2 == 0 { 0 } else { half };
        positions.push(u64::from(within.saturating_add(first)))?;
    }
    Ok(positions)
}

fn block_spending(alloc: Global, numbers: &[u64]) -> Result<Vec<u8>, SampleFault> {
    let mut inputs = Vec::new(alloc);
    for number in numbers {
        inputs.push(input_of(name_of(*number), 0))?;
    }
    let output = OutView {
        amount: 0,
        script: b"\x51",
    };
    Ok(block_of(alloc, TIP, 101, &[output], &inputs, &[output])?.text)
}

// What is shown of each input, with another amount in the first two of a forged message.
fn shown(alloc: Global, positions: &[u64], forged: bool) -> Result<Message, NoMemory> {
    let mut message = Message::new(alloc, false);
    let mut others: u32 = if forged { 2 } else { 0 };
    for position in positions {
        let amount = if others > 0 { OTHER } else { AMOUNT };
        others = others.saturating_sub(1);
        message.push_spend(*position, &rest_of(amount))?;
    }
    Ok(message)
}

fn message_of<D: Digester>(
    alloc: Global,
    forest: &Forest<D>,
    positions: &[u64],
    forged: bool,
) -> Result<Vec<u8>, NoMemory> {
    let mut message = shown(alloc, positions, forged)?;
    let hashes = hashes_of(alloc, forest, positions)?;
    for hash in hashes.as_slice() {
        message.push_hash(*hash)?;
    }
    let mut text = Vec::new(alloc);
    message.write(&mut text)?;
    Ok(text)
}

fn case_of<D: Digester, L: Ledger>(
    alloc: Global,
    entries: u32,
    forged: bool,
    steps: &mut Steps<L>,
) -> Result<Case<D>, SampleFault> {
    let mut forest = Forest::new(alloc);
    let mut outputs = Outputs::new(alloc);
    grow(alloc, &mut forest, &mut outputs, entries, steps)?;
    let positions = chosen(alloc, entries)?;
    let block = block_spending(alloc, &positions)?;
    let message = message_of(alloc, &forest, &positions, forged)?;
    Ok(Case {
        forest,
        outputs,
        positions,
        block,
        message,
    })
}

fn search<D: Digester, L: Ledger>(
    alloc: Global,
    case: &Case<D>,
    spends: &Spends<'_>,
    message: &MessageView<'_>,
    steps: &mut Steps<L>,
) -> Option<Clash> {
    if message.spends() != spends.external().len() as u64 || message.spends() >= 1 << 32 {
        return None;
    }
    find(
        alloc,
        &case.forest,
        &case.outputs,
        spends,
        message,
        &[],
        steps,
    )
    .ok()?
}

fn measure<R: CpuClock + Print, D: Digester, L: Ledger>(
    rt: &R,
    alloc: Global,
    name: &str,
    entries: u32,
    forged: bool,
    steps: &mut Steps<L>,
) -> io::Result<()> {
    let Ok(case) = case_of::<D, L>(alloc, entries, forged, steps) else {
        return println!(rt; "no memory");
    };
    let Some(targets) = targets_of(alloc, u64::from(entries), &case.positions) else {
        return println!(rt; "no memory");
    };
    let leaves = u64::from(targets.len());
    let pairs = (targets.covered().0.len() as u64).saturating_sub(leaves);
    println!(rt; "{MOST} of {entries} outputs, by {name}:")?;
    measure_search(rt, alloc, &case, steps)?;
    let mut watch = Stopwatch::start(rt)?;
    let leaf = leaves_alone::<D, L>(alloc, leaves, steps);
    let last = pairs_alone::<D, L>(pairs, steps);
    let time = watch.lap(rt)?;
    println!(rt;
        "  its {leaves} leaf digests and {pairs} pairs alone {} us; {}",
        time.as_micros(),
        leaf.map_or(0, |digest| digest.0[0]) ^ last.0[0]
    )
}

fn measure_search<R: CpuClock + Print, D: Digester, L: Ledger>(
    rt: &R,
    alloc: Global,
    case: &Case<D>,
    steps: &mut Steps<L>,
) -> io::Result<()> {
    let bytes = case.block.as_slice();
    if bytes.len() >= 1 << 32 {
        return println!(rt; "  a long block");
    }
    let mut watch = Stopwatch::start(rt)?;
    let Ok(block) = read_block(alloc, bytes) else {
        return println!(rt; "  no block");
    };
    let Some(spends) = judge(alloc, &block) else {
        return println!(rt; "  a refused block");
    };
    let Ok(message) = read_message(alloc, &case.message) else {
        return println!(rt; "  no message");
    };
    let reading = watch.lap(rt)?;
    let clash = search(alloc, case, &spends, &message, steps);
    let searching = watch.lap(rt)?;
    println!(rt;
        "  reading {} us; find {} us, {}",
        reading.as_micros(),
        searching.as_micros(),
        if clash.is_some() {
            "two texts"
        } else {
            "nothing"
        }
    )
}
