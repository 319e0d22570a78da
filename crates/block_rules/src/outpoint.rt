//! Names of outputs, and ids of transactions, as keys.
ghost use Rattle.std.specs.Prelude.{◌≡◌};
ghost use Rattle.tx_codec.specs.Views.{input_of};
ghost use Rattle.block_rules.specs.Blocks.{outpoint_of};
ghost use Rattle.block_rules.specs.Keys.{point_of, key_of_id, head_of};

use tx_codec::InView;
use uo_digest::Digest;

/// The name of an output, in an order of its own: by the index, which is quick to compare, and then by the id.
#[derive(Clone, Copy, Debug, PartialEq, Eq, PartialOrd, Ord)]
pub(crate) struct OutpointKey {
    index: u32,
    txid: [u8; 32],
}

/// The output that an input spends.
pub(crate) fn key_of_input(input: &InView<'_>) -> OutpointKey
    ensures { point_of result ≡ outpoint_of (input_of input.now) }
{
    OutpointKey {
        index: input.index,
        txid: input.txid.0,
    }
}

/// The id of a transaction, in an order of its own: by its head, which is quick to compare, and then by all of it.
#[derive(Clone, Copy, Debug, PartialEq, Eq, PartialOrd, Ord)]
pub(crate) struct TxidKey {
    head: u64,
    txid: [u8; 32],
}

pub(crate) fn key_of_txid(txid: &Digest) -> TxidKey
    ensures { result ≡ key_of_id txid.now }
{
    TxidKey {
        head: head_of(txid),
        txid: txid.0,
    }
}

/// The first eight bytes of an id, as a number.
pub(crate) fn head_of(txid: &Digest) -> u64
    ensures { result ≡ head_of txid.now }
{
    let id = txid.0;
    u64::from_le_bytes([id[0], id[1], id[2], id[3], id[4], id[5], id[6], id[7]])
}
