//! A block that spends an output, and a message beside it.

use crate::chain_of;
use block_codec::read_block;
use block_rules::{Found, Refusal, RuleFault, Spends, money_rules, shape_rules};
use forest_place::Place;
use leaf_record::RestView;
use node_rules::{full_hashes, message_rules, targets_of};
use proof_wire::{Message, MessageView, read_message};
use std::alloc::Global;
use std::process::Abort;
use std::test::Fail;
use uo_base::{Limits, Net, NoMemory};
use uo_digest::Digest;

/// A block behind 32 bytes of 7, with a coinbase, a transaction that spends an output of another block into two, and one that
/// spends the first of these.
const SPENDING: &str =
    "0100000007070707070707070707070707070707070707070707070707070707070707076b2b298cb4dda05d8d52654b68fb\
    4101f855768775de8aa591e196737748fa820000000000000000000000000301000000010000000000000000000000000000\
    000000000000000000000000000000000000ffffffff026565000000000100f2052a0100000001510000000001000000010b\
    0b0b0b0b0b0b0b0b0b0b0b0b0b0b0b0b0b0b0b0b0b0b0b0b0b0b0b0b0b0b0b0000000000000000000200f902950000000001\
    5100f90295000000000151000000000100000001af9e13c3f43a27003a6b35e9d6be64bb73d77a5c126824dde288c2595527\
    d9c90000000000000000000100f9029500000000015100000000";

/// A message that names the first of a hundred outputs, one of 50 coins that the coinbase of height 1 made.
fn spell(alloc: Global) -> Result<Vec<u8>, NoMemory> {
    let rest = RestView {
        block: Digest([7; 32]),
        height: 1,
        coinbase: true,
        amount: 5_000_000_000,
        script: &[0x51],
    };
    let mut message = Message::new(alloc, false);
    message.push_spend(0, &rest)?;
    for hash in SIX {
        message.push_hash(hash)?;
    }
    let mut text = Vec::new(alloc);
    message.write(&mut text)?;
    Ok(text)
}

const SIX: [Digest; 6] = [
    Digest([0; 32]),
    Digest([1; 32]),
    Digest([2; 32]),
    Digest([3; 32]),
    Digest([4; 32]),
    Digest([5; 32]),
];

/// One input is external, the coinbase's output and one of each payment are new, and no fee is left.
fn check_spends(rt: &impl Abort, spends: &Spends<'_>) {
    assert!(rt; spends.external().len() == 1 && spends.new_count() == 3);
    assert!(rt; spends.new_output(2).amount == 2_500_000_000);
    let found = Found {
        amount: 5_000_000_000,
        height: 1,
        coinbase: true,
    };
    assert!(rt; money_rules(spends, &[found]) == Ok(0));
}

/// The message shows an output, and needs what stands beside it and beside each place above it.
fn check_message(rt: &impl Abort, alloc: Global, message: &MessageView<'_>) -> Result<(), Fail> {
    assert!(rt; message.spends() == 1);
    let targets = targets_of(alloc, 100, message)?;
    // Positions 1, 129, 193, 225, 241 and 249.
    let needed = targets.needed();
    assert!(rt; needed.len() == 6);
    for (row, place) in needed.iter().enumerate() {
        assert!(rt;
            *place
                == Place {
                    row: row as u8,
                    off: 1
                }
        );
    }
    let hashes = full_hashes(alloc, message, &targets, &[])?;
    assert!(rt; hashes.as_slice() == SIX.as_slice());
    Ok(())
}

#[test]
fn one_spend(rt: HostRuntime) -> Result<(), Fail> {
    let mut text = [0; 276];
    hex::decode_to_slice(SPENDING, &mut text)?;
    let block = read_block(rt.alloc(), &text)?;
    let chain = chain_of(101, 100);
    let spends = shape_rules(rt.alloc(), &block, &chain, Net::Main, Limits::standard())?;
    check_spends(&rt, &spends);
    let fault = message_rules(rt.alloc(), &spends, None).err();
    assert!(rt; fault == Some(RuleFault::Refused(Refusal::NoProof)));
    let told = spell(rt.alloc())?;
    let shown = message_rules(rt.alloc(), &spends, Some(&told))?.map(|message| message.spends());
    assert!(rt; shown == Some(1));
    Ok(())
}

/// The oldest of a hundred outputs.
#[test]
fn first_of_a_hundred(rt: HostRuntime) -> Result<(), Fail> {
    let text = spell(rt.alloc())?;
    assert!(rt; text.len() == 250);
    let message = read_message(rt.alloc(), &text)?;
    check_message(&rt, rt.alloc(), &message)
}
