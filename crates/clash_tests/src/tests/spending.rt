//! A block that spends one output, and what a message can say of that output.
ghost use Rattle.std.specs.Prelude.{◌≡◌};

use block_samples::{Sample, block_behind, coinbase, legacy_tx};
use leaf_record::{LeafBuf, Record, RestView, leaf_digest};
use std::alloc::Global;
use std::sync::ledger::Ledger;
use std::test::Fail;
use tx_codec::{InView, OutView};
use uo_base::NoMemory;
use uo_digest::{Digest, Steps, XorFold};

/// The transaction whose first output the block spends.
const SPENT: Digest = Digest([11; 32]);

/// The hash of the block before it.
pub const TIP: Digest = Digest([5; 32]);

/// A block of height 101 that spends the first output of `SPENT`.
pub fn spending(alloc: Global) -> Result<Sample, Fail> {
    let input = InView {
        txid: SPENT,
        index: 0,
        script: &[],
        sequence: 0,
    };
    let output = OutView {
        amount: 5_000_000_000,
        script: b"\x51",
    };
    let paying = coinbase(alloc, 101, &[output])?;
    let spends = legacy_tx(alloc, &[input], &[output], 0)?;
    let txs = vec![in alloc; paying, spends]?;
    Ok(block_behind(alloc, TIP, &txs)?)
}

/// One of the outputs of the forest. The fourth is the one that is spent.
pub fn record_of(alloc: Global, number: u8) -> Result<Record, NoMemory> {
    Ok(Record {
        block: block_of(number),
        txid: Digest([number.wrapping_add(7); 32]),
        index: 0,
        height: 1,
        coinbase: true,
        amount: 5_000_000_000,
        script: vec![in alloc; 0x51]?,
    })
}

/// The block that made it.
pub fn block_of(number: u8) -> Digest {
    Digest([number.wrapping_mul(16); 32])
}

/// What a message says of the output, if this block made it.
pub fn claim(block: Digest) -> RestView<'static> {
    RestView {
        block,
        height: 1,
        coinbase: true,
        amount: 5_000_000_000,
        script: &[0x51],
    }
}

/// The exclusive or of two digests.
pub fn both(left: Digest, right: Digest) -> Digest {
    let mut bytes = left.0;
    for (byte, other) in bytes.iter_mut().zip(&right.0) {
        *byte ^= *other;
    }
    Digest(bytes)
}

/// The block for which what a message says has this digest.
pub fn block_for<L: Ledger>(
    alloc: Global,
    digest: Digest,
    steps: &mut Steps<L>,
) -> Result<Digest, NoMemory> {
    let mut room = LeafBuf::new(alloc)?;
    let leaf = claim(Digest([0; 32])).with_outpoint(SPENT, 0);
    let rest = leaf_digest::<XorFold, L>(&mut room, &leaf, steps);
    Ok(both(digest, rest))
}
