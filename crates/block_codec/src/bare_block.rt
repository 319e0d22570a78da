//! A block as it lies in its source, before anything of it is hashed.
ghost use Rattle.std.specs.Prelude.{◌≡◌, ◌≤◌, length, map, take, IfOk};
ghost use Rattle.sha2.specs.Sha256.{sha256};
ghost use Rattle.tx_codec.specs.Ids.{txid_of};
ghost use Rattle.block_codec.specs.Block.{block_hash_of};

use crate::block_view::BlockView;
use crate::header::HeaderView;
use crate::ids::put_txids;
use std::alloc::{AllocError, Global};
use std::marker::Model;
use tx_codec::TxView;
use uo_digest::{Digest, sha256d};

/// A block that holds a view of each of its transactions, and neither their ids nor its own hash; contracts see its value.
#[derive(Drop)]
pub struct BareBlock<'a> {
    pub(crate) bytes: &'a [u8],
    pub(crate) header: HeaderView,
    pub(crate) txs: Vec<TxView<'a>>,
}

impl<'a> Model for BareBlock<'a> {
    ghost use Rattle.block_codec.specs.Block.{Block, block_of, txids_of};

    ghost Value = { Block };

    ghost use Rattle.block_codec.specs.Views.{IsBlockView};

    ghost view = { λ s. block_of s.header s.txs.items };

    ghost invariant = { λ s. IsBlockView s.bytes.now (txids_of (block_of s.header s.txs.items)) (block_of s.header s.txs.items) };
}

impl<'a> BareBlock<'a> {
    /// The hash of the block that it says it comes behind.
    pub fn prev(&self) -> Digest
        ensures { result ≡ self.now.header.prev }
    {
        self.header.prev
    }

    /// SHA-256 of SHA-256 of the header, which names the block. It is hashed at each call.
    pub fn hash(&self) -> Digest
        ensures { result ≡ block_hash_of self.now }
    {
        hash_of(self.bytes)
    }

    /// The same block with the ids of its transactions and its hash, which are hashed here.
    pub fn with_ids(self, alloc: Global) -> Result<BlockView<'a>, AllocError>
        ensures { IfOk result (λ block. block ≡ self.entry) }
    {
        let BareBlock { bytes, header, txs } = self;
        let txids = ids_of(alloc, &txs)?;
        let hash = hash_of(bytes);
        Ok(BlockView {
            bytes,
            header,
            txs,
            txids,
            hash,
        })
    }
}

fn ids_of(alloc: Global, txs: &[TxView<'_>]) -> Result<Vec<Digest>, AllocError>
    ensures { IfOk result (λ ids. ids.items ≡ map txid_of txs.now) }
{
    let mut ids = vec![in alloc; Digest([0; 32]); txs.len()]?;
    put_txids(txs, &mut ids);
    Ok(ids)
}

// The hash of the header in front of a text.
fn hash_of(text: &[u8]) -> Digest
    requires { 80 ≤ length text.now }
    ensures { result.0 ≡ sha256 (sha256 (take 80 text.now)) }
{
    sha256d(&text[..80])
}
