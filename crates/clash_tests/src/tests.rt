//! Proofs over a forest of eight entries, with a digest under which texts clash.
ghost use Rattle.std.specs.Prelude.{◌≡◌, ◌+◌, [], OnOk};
ghost use Rattle.output_index.specs.Held.{IsAbove};

mod forged;
mod refused;
mod spending;

use crate::first_of;
use block_codec::read_block;
use block_rules::{Chain, shape_rules};
use clash_find::{Clash, find};
use forest_place::Place;
use leaf_record::{LeafBuf, leaf_digest};
use live_forest::Forest;
use output_index::Outputs;
use proof_wire::{Message, read_message};
use spending::{TIP, claim, record_of, spending};
use std::alloc::Global;
use std::process::Abort;
use std::sync::ledger::Ledger;
use std::test::Fail;
use uo_base::{Limits, Net};
use uo_digest::{Digest, Steps, XorFold};

/// Adds an entry with its output.
fn add<L: Ledger>(
    rt: &impl Abort,
    alloc: Global,
    forest: &mut Forest<XorFold>,
    outputs: &mut Outputs,
    number: u8,
    steps: &mut Steps<L>,
) -> Result<(), Fail>
    requires { IsAbove number outputs.old }
    ensures { OnOk result (IsAbove (number + 1) outputs.new) }
{
    let record = record_of(alloc, number)?;
    let mut room = LeafBuf::new(alloc)?;
    let digest = leaf_digest::<XorFold, L>(&mut room, &record.view(), steps);
    forest.reserve(1)?;
    assert!(rt; 0 < forest.spare() && forest.leaves() < 8);
    let _number = forest.add(digest, steps);
    Ok(outputs.insert(number as u64, record)?)
}

/// Eight entries, of which these are spent.
fn grow<L: Ledger>(
    rt: &impl Abort,
    alloc: Global,
    forest: &mut Forest<XorFold>,
    outputs: &mut Outputs,
    spent: &[u64],
    steps: &mut Steps<L>,
) -> Result<(), Fail>
    requires { outputs.old ≡ [] }
{
    for number in 0..8u8 {
        add(rt, alloc, forest, outputs, number, steps)?;
    }
    for number in spent {
        assert!(rt; forest.live(*number) && outputs.live(*number));
        forest.remove(*number, steps);
        outputs.spend(*number);
    }
    Ok(())
}

/// The text of a message that says that the output stands at this place and that this block made it.
fn spell(
    alloc: Global,
    lean: bool,
    target: Place,
    block: Digest,
    hashes: &[Digest],
) -> Result<Vec<u8>, Fail> {
    let mut message = Message::new(alloc, lean);
    message.push_spend(first_of(target.row).wrapping_add(target.off), &claim(block))?;
    for hash in hashes {
        message.push_hash(*hash)?;
    }
    let mut text = Vec::new(alloc);
    message.write(&mut text)?;
    Ok(text)
}

/// Looks for a clash in the message beside the block, where one hash is known or none.
fn clash_in<L: Ledger>(
    rt: &impl Abort,
    alloc: Global,
    forest: &Forest<XorFold>,
    outputs: &Outputs,
    text: &[u8],
    known: Option<(Place, Digest)>,
    steps: &mut Steps<L>,
) -> Result<Option<Clash>, Fail> {
    let chain = Chain {
        blocks: 101,
        tip: TIP,
        leaves: 8,
    };
    let sample = spending(alloc)?;
    let bytes = sample.text.as_slice();
    assert!(rt; bytes.len() < 1 << 32);
    let block = read_block(alloc, bytes)?;
    let spends = shape_rules(alloc, &block, &chain, Net::Main, Limits::standard())?;
    let message = read_message(alloc, text)?;
    assert!(rt; message.spends() == 1 && spends.external().len() == 1);
    let clash = match known {
        Some(entry) => find(alloc, forest, outputs, &spends, &message, &[entry], steps)?,
        None => find(alloc, forest, outputs, &spends, &message, &[], steps)?,
    };
    Ok(clash)
}
