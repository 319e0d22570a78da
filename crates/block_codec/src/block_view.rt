//! A block as it lies in its source.
ghost use Rattle.std.specs.Prelude.{◌≡◌, ◌+◌, ◌<◌, ◌^◌, length, slice_get, Some};
ghost use Rattle.std.specs.List.{flat_map};
ghost use Rattle.tx_codec.specs.Transaction.{tx_text, legacy_text};
ghost use Rattle.block_codec.specs.Block.{BlockFits, block_text, txids_of, block_hash_of, weight_of};

use crate::header::HeaderView;
use std::marker::Model;
use tx_codec::TxView;
use uo_digest::Digest;

/// A block that holds a view of each of its transactions, their ids and its own hash; contracts see its value.
#[derive(Drop)]
pub struct BlockView<'a> {
    pub(crate) bytes: &'a [u8],
    pub(crate) header: HeaderView,
    pub(crate) txs: Vec<TxView<'a>>,
    pub(crate) txids: Vec<Digest>,
    pub(crate) hash: Digest,
}

impl<'a> Model for BlockView<'a> {
    ghost use Rattle.std.specs.Prelude.{◌≡◌};
    ghost use Rattle.block_codec.specs.Block.{Block, block_of, block_hash_of};

    ghost Value = { Block };

    ghost use Rattle.block_codec.specs.Views.{IsBlockView};

    ghost view = { λ s. block_of s.header s.txs.items };

    ghost invariant = { λ s. IsBlockView s.bytes.now s.txids.items (block_of s.header s.txs.items)
        × (s.hash ≡ block_hash_of (block_of s.header s.txs.items)) };
}

impl<'a> BlockView<'a> {
    /// The whole text.
    pub fn bytes(&self) -> &'a [u8]
        ensures text { result.now ≡ block_text self.now }
        ensures fits { BlockFits self.now }
    {
        self.bytes
    }

    /// The header's fields.
    pub fn header(&self) -> HeaderView
        ensures { result ≡ self.now.header }
    {
        self.header
    }

    /// How many transactions there are, at least 1.
    pub fn tx_count(&self) -> u32
        ensures { result ≡ length self.now.txs }
    {
        self.txs.len() as u32
    }

    /// The transaction at a place, from 0.
    pub fn tx(&self, i: u32) -> &TxView<'a>
        requires { i < length self.now.txs }
        ensures { slice_get self.now.txs i ≡ Some result.now }
    {
        &self.txs[i as usize]
    }

    /// The id of the transaction at a place, from 0. It was hashed when the block was read.
    pub fn txid(&self, i: u32) -> Digest
        requires { i < length self.now.txs }
        ensures { slice_get (txids_of self.now) i ≡ Some result }
    {
        self.txids[i as usize]
    }
}

/// SHA-256 of SHA-256 of the header, which names the block. It was hashed when the block was read, and is printed with its bytes reversed.
pub fn block_hash(block: &BlockView<'_>) -> Digest
    ensures { result ≡ block_hash_of block.now }
{
    block.hash
}

/// How many bytes markers, flags and witnesses have.
fn witness_len(txs: &[TxView<'_>]) -> u64
    requires { length (flat_map tx_text txs.now) < 2 ^ 32 }
    ensures { result + length (flat_map legacy_text txs.now) ≡ length (flat_map tx_text txs.now) }
{
    let mut witness = 0;
    for tx in txs {
        witness += tx.bytes().len() as u64 - tx.stripped_len();
    }
    witness
}

/// The block's weight (BIP 141): three times its size without markers, flags and witnesses, and its whole size. So a byte
/// of a witness counts once, and each other byte four times.
pub fn weight(block: &BlockView<'_>) -> u64
    ensures { result ≡ weight_of block.now }
{
    4 * block.bytes.len() as u64 - 3 * witness_len(&block.txs)
}
