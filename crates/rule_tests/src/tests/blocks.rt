//! The first block, and one like it.

use block_codec::{
    BlockFault, MerkleOutcome, block_hash, commitment, merkle, merkle_root_of, one_block,
    read_block, weight, witness_root, write_block,
};
use genesis_block::{GENESIS, genesis_is_hashed};
use std::alloc::Global;
use std::test::Fail;
use uo_digest::hex_reversed;

const FIRST_ID: &[u8; 64] = b"4a5e1e4baab89f3a32518a88c31bc87f618f76673e2cc77ab2127b7afdeda33b";

#[test]
fn first_header(rt: HostRuntime) -> Result<(), Fail> {
    let block = read_block(rt.alloc(), &GENESIS)?;
    assert!(rt; block.bytes() == GENESIS.as_slice());
    let header = block.header();
    assert!(rt; header.version == 1);
    assert!(rt; header.prev.0 == [0; 32]);
    assert!(rt; header.time == 1_231_006_505);
    assert!(rt; header.bits == 0x1d00_ffff);
    assert!(rt; header.nonce == 2_083_236_893);
    assert!(rt; hex_reversed(&header.merkle) == *FIRST_ID);
    let hash = b"000000000019d6689c085ae165831e934ff763ae46a2a6c172b3f1b60a8ce26f";
    assert!(rt; hex_reversed(&block_hash(&block)) == *hash);
    genesis_is_hashed();
    one_block();
    Ok(())
}

#[test]
fn first_block(rt: HostRuntime) -> Result<(), Fail> {
    let block = read_block(rt.alloc(), &GENESIS)?;
    let root = block.header().merkle;
    assert!(rt; merkle(rt.alloc(), &block)? == MerkleOutcome::Root(root));
    assert!(rt; merkle_root_of(rt.alloc(), &[root])? == MerkleOutcome::Root(root));
    assert!(rt; weight(&block) == 1_140);
    assert!(rt; block.tx_count() == 1);
    assert!(rt; hex_reversed(&block.txid(0)) == *FIRST_ID);
    Ok(())
}

#[test]
fn first_block_written(rt: HostRuntime) -> Result<(), Fail> {
    let block = read_block(rt.alloc(), &GENESIS)?;
    assert!(rt; block.tx_count() == 1);
    let txs = [block.tx(0).to_tx(rt.alloc())?];
    let mut out = Vec::new(rt.alloc());
    write_block(&block.header(), &txs, &mut out)?;
    assert!(rt; out.as_slice() == GENESIS.as_slice());
    Ok(())
}

/// The first block in the form with stacks, with one stack of one item of 32 zero bytes.
fn with_witness(alloc: Global) -> Result<Vec<u8>, Fail> {
    let (body, lock_time) = GENESIS.split_at(281);
    let (front, rest) = body.split_at(85);
    let mut text = Vec::from_slice(alloc, front)?;
    text.extend_from_slice(&[0, 1])?;
    text.extend_from_slice(rest)?;
    text.extend_from_slice(&[1, 32])?;
    text.extend_from_slice(&[0; 32])?;
    text.extend_from_slice(lock_time)?;
    Ok(text)
}

#[test]
fn no_block(rt: HostRuntime) -> Result<(), Fail> {
    let (front, _) = GENESIS.split_at(284);
    assert!(rt; matches!(read_block(rt.alloc(), front), Err(BlockFault::NotABlock)));
    let fault = format!(in rt.alloc(); "{}", BlockFault::NotABlock)?;
    assert!(rt; fault.as_str() == "the text is no block");
    Ok(())
}

/// The coinbase stands as 32 zero bytes in the tree of witnesses.
#[test]
fn witness_counts_once(rt: HostRuntime) -> Result<(), Fail> {
    let alloc = rt.alloc();
    let text = with_witness(alloc)?;
    assert!(rt; text.len() == 321);
    let block = read_block(alloc, &text)?;
    assert!(rt; weight(&block) == 1_176);
    assert!(rt; merkle(alloc, &block)? == MerkleOutcome::Root(block.header().merkle));
    assert!(rt; commitment(&block).is_none());
    assert!(rt; witness_root(alloc, &block)?.0 == [0; 32]);
    Ok(())
}
