//! What a block commits to of its witnesses (BIP 141).
ghost use Rattle.std.specs.Prelude.{◌≡◌, ◌<◌, ◌^◌, length, map, IfOk};
ghost use Rattle.std.specs.Option.{option_or};
ghost use Rattle.tx_codec.specs.Ids.{wtxid_of};
ghost use Rattle.block_codec.specs.Merkle.{merkle_root};
ghost use Rattle.block_codec.specs.Witness.{commitment_in, commitment_of, witness_ids, witness_root_of};

use crate::block_view::BlockView;
use crate::ids::put_wtxids;
use crate::merkle_tree::lift;
use std::alloc::{AllocError, Global};
use tx_codec::TxView;
use uo_base::NoMemory;
use uo_digest::Digest;

/// How a script begins that commits to witnesses.
const HEAD: [u8; 6] = [0x6a, 0x24, 0xaa, 0x21, 0xa9, 0xed];

// The hash in such a script.
fn commitment_in(script: &[u8]) -> Option<Digest>
    ensures { result ≡ commitment_in script.now }
{
    if script.len() < 38 || &script[..6] != HEAD.as_slice() {
        return None;
    }
    Some(Digest::from_bytes(&script[6..38]))
}

/// The hash by which the block commits to its witnesses: bytes 6 to 37 of the script of the coinbase's last output whose script
/// has at least 38 bytes and begins with `6a24aa21a9ed`. None where there is no such output.
pub fn commitment(block: &BlockView<'_>) -> Option<Digest>
    ensures { result ≡ commitment_of block.now }
{
    // A block has a transaction.
    let _text = block.bytes();
    let mut last = None;
    for output in block.tx(0).outputs() {
        if let Some(hash) = commitment_in(output.script) {
            last = Some(hash);
        }
    }
    last
}

// The root over these ids, whatever is repeated.
fn root_of(mut hashes: Vec<Digest>) -> Digest
    requires some { 0 < length hashes.items }
    requires few { length hashes.items < 2 ^ 32 }
    ensures { result ≡ merkle_root hashes.items }
{
    while hashes.len() > 1 {
        lift(&mut hashes);
    }
    hashes[0]
}

// The ids with witnesses, in the places of those in `out`.
fn put_witness_ids(txs: &[TxView<'_>], out: &mut [Digest])
    requires some { 0 < length txs.now }
    requires count { length out.old ≡ length txs.now }
    ensures { out.new ≡ witness_ids txs.now }
{
    out[0] = Digest([0; 32]);
    put_wtxids(&txs[1..], &mut out[1..]);
}

// The ids with witnesses, 32 zero bytes for the coinbase's.
fn witness_ids(alloc: Global, block: &BlockView<'_>) -> Result<Vec<Digest>, AllocError>
    requires { 0 < length block.now.txs }
    ensures ids { IfOk result (λ ids. ids.items ≡ witness_ids block.now.txs) }
    ensures few { IfOk result (λ ids. length ids.items < 2 ^ 32) }
{
    let mut ids = vec![in alloc; Digest([0; 32]); block.tx_count() as usize]?;
    put_witness_ids(&block.txs, &mut ids);
    Ok(ids)
}

/// The root of the merkle tree over the ids with witnesses, 32 zero bytes in place of the coinbase's.
pub fn witness_root(alloc: Global, block: &BlockView<'_>) -> Result<Digest, NoMemory>
    ensures { IfOk result (λ root. root ≡ witness_root_of block.now) }
{
    // A block has a transaction.
    let _text = block.bytes();
    Ok(root_of(witness_ids(alloc, block)?))
}
