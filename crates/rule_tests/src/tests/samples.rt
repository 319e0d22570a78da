//! A block behind the first, with a coinbase and a payment. Hash and ids were computed by another program.
ghost use Rattle.std.specs.Prelude.{IfOk};
ghost use Rattle.tx_codec.specs.Transaction.{IsWritable};

use block_samples::{GENESIS_HASH, SampleFault, block_behind, coinbase, legacy_tx};
use std::alloc::Global;
use std::test::Fail;
use tx_codec::{InView, OutView, Tx};
use uo_base::NoMemory;
use uo_digest::{Digest, hex_reversed};

const REWARD: OutView<'static> = OutView {
    amount: 5_000_000_000,
    script: b"\x51",
};

fn payment(alloc: Global) -> Result<Tx, NoMemory>
    ensures { IfOk result IsWritable }
{
    let input = InView {
        txid: Digest([11; 32]),
        index: 3,
        script: &[1, 2],
        sequence: 7,
    };
    let halves = [
        OutView {
            amount: 2_500_000_000,
            script: &[0x51],
        },
        OutView {
            amount: 1,
            script: &[],
        },
    ];
    legacy_tx(alloc, &[input], &halves, 9)
}

#[test]
fn behind_the_first(rt: HostRuntime) -> Result<(), Fail> {
    let alloc = rt.alloc();
    let txs = [coinbase(alloc, 1, &[REWARD])?, payment(alloc)?];
    let block = block_behind(alloc, Digest(GENESIS_HASH), &txs)?;
    assert!(rt; block.text.len() == 218);
    let hash = b"faecbe34ffa723eb2d8ce7eda51b8864422b687611968c77d8db024d9c297af0";
    assert!(rt; hex_reversed(&block.hash) == *hash);
    let id = b"5b3b37ba3d32208a4fe79275ff5b3b4a37e11481791cd2f3150dca4b01a9801c";
    assert!(rt; block.ids.get(1).map(|id| hex_reversed(id)) == Some(*id));
    Ok(())
}

#[test]
fn the_same_twice(rt: HostRuntime) -> Result<(), Fail> {
    let alloc = rt.alloc();
    let txs = [payment(alloc)?, payment(alloc)?];
    let made = block_behind(alloc, Digest([0; 32]), &txs);
    assert!(rt; matches!(made, Err(SampleFault::Repeated)));
    Ok(())
}
