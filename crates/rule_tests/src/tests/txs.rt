//! Transactions that were published, and ones of unusual sizes, in both forms.
mod built;
mod published;

use built::{BUILT, Built, text_of};
use genesis_block::GENESIS;
use published::{FIRST_COINBASE, Ids, PUBLISHED};
use std::alloc::Global;
use std::process::Abort;
use std::test::Fail;
use tx_codec::{Items, TxView, one_tx, read_tx, write_tx};
use uo_base::Cursor;
use uo_digest::{hex_plain, hex_reversed};

/// No shorter front of the text is a transaction.
fn check_cuts(rt: &impl Abort, text: &[u8]) {
    assert!(rt; text.len() < 1_000_000);
    for end in 0..text.len() {
        let mut at = Cursor::new(&text[..end]);
        assert!(rt; read_tx(&mut at).is_none());
        assert!(rt; at.rest().len() == end);
    }
}

/// A copy is written as the text that was read, behind what stood there.
fn check_written(rt: &impl Abort, alloc: Global, tx: &TxView<'_>, text: &[u8]) -> Result<(), Fail> {
    let mut out = Vec::from_slice(alloc, [1, 2, 3].as_slice())?;
    let copy = tx.to_tx(alloc)?;
    write_tx(&copy, &mut out)?;
    let mut wanted = Vec::from_slice(alloc, [1, 2, 3].as_slice())?;
    wanted.extend_from_slice(text)?;
    assert!(rt; out.as_slice() == wanted.as_slice());
    Ok(())
}

fn check_published(rt: &impl Abort, alloc: Global, text: &[u8], ids: &Ids) -> Result<(), Fail> {
    assert!(rt; text.len() < 1_000_000);
    let mut at = Cursor::new(text);
    let tx = read_tx(&mut at).ok_or("it is a transaction")?;
    assert!(rt; at.rest().is_empty());
    assert!(rt; tx.bytes() == text);
    assert!(rt; hex_reversed(&tx.txid()) == *ids.txid);
    assert!(rt; hex_reversed(&tx.wtxid()) == *ids.wtxid);
    assert!(rt; tx.stripped_len() == ids.stripped_len);
    check_written(rt, alloc, &tx, text)
}

#[test]
fn published_transactions(rt: HostRuntime) -> Result<(), Fail> {
    for row in &PUBLISHED {
        let text = hex::decode(rt.alloc(), row.text)?;
        check_published(&rt, rt.alloc(), &text, &row.ids)?;
        check_cuts(&rt, &text);
    }
    Ok(())
}

/// The coinbase of the first block.
#[test]
fn first_coinbase(rt: HostRuntime) -> Result<(), Fail> {
    let (_, text) = GENESIS.split_at(81);
    check_published(&rt, rt.alloc(), text, &FIRST_COINBASE)?;
    check_cuts(&rt, text);
    Ok(())
}

fn check_built(rt: &impl Abort, alloc: Global, row: &Built) -> Result<(), Fail> {
    let text = text_of(alloc, row)?;
    assert!(rt; text.len() < 1_000_000);
    let mut at = Cursor::new(&text);
    let tx = read_tx(&mut at).ok_or("it is a transaction")?;
    assert!(rt; at.rest().is_empty());
    assert!(rt; hex_plain(&tx.txid()) == *row.txid);
    assert!(rt; hex_plain(&tx.wtxid()) == *row.wtxid);
    check_written(rt, alloc, &tx, &text)?;
    check_cuts(rt, &text);
    Ok(())
}

#[test]
fn unusual_sizes(rt: HostRuntime) -> Result<(), Fail> {
    for row in &BUILT {
        check_built(&rt, rt.alloc(), row)?;
    }
    Ok(())
}

fn check_inputs(rt: &impl Abort, tx: &TxView<'_>) {
    let inputs = [(0, 73, 4_294_967_278), (1, 0, 4_294_967_295)];
    for (input, (index, length, sequence)) in tx.inputs().zip(inputs) {
        assert!(rt; input.index == index);
        assert!(rt; input.script.len() == length);
        assert!(rt; input.sequence == sequence);
    }
}

fn check_outputs(rt: &impl Abort, tx: &TxView<'_>) {
    for (output, amount) in tx.outputs().zip([112_340_000, 223_450_000]) {
        assert!(rt; output.amount == amount);
        assert!(rt; output.script.len() == 25);
    }
}

fn check_stacks(rt: &impl Abort, tx: &TxView<'_>) {
    for (stack, empty) in tx.stacks().zip([true, false]) {
        assert!(rt; stack.is_empty() == empty);
    }
}

fn check_items(rt: &impl Abort, items: Items<'_>) {
    for (item, length) in items.zip([71, 33]) {
        assert!(rt; item.len() == length);
    }
}

/// The parts of the example of a native P2WPKH, as BIP 143 lists them.
#[test]
fn parts(rt: HostRuntime) -> Result<(), Fail> {
    let text = hex::decode(rt.alloc(), PUBLISHED[0].text)?;
    assert!(rt; text.len() < 1_000_000);
    let tx = read_tx(&mut Cursor::new(&text)).ok_or("it is a transaction")?;
    assert!(rt; tx.version() == 1);
    assert!(rt; tx.lock_time() == 17);
    assert!(rt; tx.is_segwit());
    assert!(rt; tx.input_count() == 2);
    assert!(rt; tx.output_count() == 2);
    check_inputs(&rt, &tx);
    check_outputs(&rt, &tx);
    check_stacks(&rt, &tx);
    check_items(&rt, tx.items(1));
    one_tx();
    Ok(())
}
