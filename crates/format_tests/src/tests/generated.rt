//! Feeds beside the lengths and the digests that an independent program gives.
use chain_gen::{GenFault, Made, generate};
use std::test::Fail;
use uo_base::{MemSink, Net};
use uo_digest::{Digest, hex_plain};

/// What an independent program makes of a seed: the counts, and the SHA-256 of the whole feed.
struct FeedRow {
    seed: u64,
    blocks: u32,
    net: Net,
    rollbacks: u32,
    bytes: u64,
    digest: &'static [u8],
}

const FEEDS: [FeedRow; 8] = [
    FeedRow {
        seed: 1,
        blocks: 0,
        net: Net::Main,
        rollbacks: 0,
        bytes: 0,
        digest: b"e3b0c44298fc1c149afbf4c8996fb92427ae41e4649b934ca495991b7852b855",
    },
    FeedRow {
        seed: 9,
        blocks: 51,
        net: Net::Main,
        rollbacks: 1,
        bytes: 8_121,
        digest: b"1330069e59a6f58c14eb52cdc776c6fa7a3ff35e3e9ce8b969cc91746dec7721",
    },
    FeedRow {
        seed: 5,
        blocks: 300,
        net: Net::Regtest,
        rollbacks: 5,
        bytes: 68_857,
        digest: b"34699fac7197c30d853baf9c9eb7a150eb5e205680665fd27df140c6c71ff7b2",
    },
    FeedRow {
        seed: 1,
        blocks: 400,
        net: Net::Main,
        rollbacks: 7,
        bytes: 96_169,
        digest: b"01e8da6d084ba898082534b3595f59974839efe1ff00d1ebb5b6710959871cee",
    },
    FeedRow {
        seed: 18_446_744_073_709_551_615,
        blocks: 230,
        net: Net::Main,
        rollbacks: 4,
        bytes: 50_415,
        digest: b"becfff3db7dd3aa884227d5778689c55d2bc53d2d6696632e621eaeeeaef7e5b",
    },
    FeedRow {
        seed: 0,
        blocks: 160,
        net: Net::Regtest,
        rollbacks: 3,
        bytes: 31_243,
        digest: b"885dbb7ee1546a0802545de4fbc349fff5054a57673b697b23cdd00e6645e15c",
    },
    FeedRow {
        seed: 7,
        blocks: 2_000,
        net: Net::Main,
        rollbacks: 39,
        bytes: 525_642,
        digest: b"67af662e9753c8d85dde449e6e79435beaa0fbdf14b79a7274676e1a265c30ba",
    },
    // Long enough for subsidies that are not worth spending.
    FeedRow {
        seed: 3,
        blocks: 5_200,
        net: Net::Regtest,
        rollbacks: 103,
        bytes: 1_387_435,
        digest: b"ad69c09fecd121565e51b1e78d0e405985c22a678b61cbcca32f59a3da08c0eb",
    },
];

#[test]
fn feeds(rt: HostRuntime) -> Result<(), Fail> {
    for row in &FEEDS {
        if row.blocks <= 100_000 {
            let mut sink = MemSink::new(rt.alloc(), 4_096, Vec::new(rt.alloc()));
            let made = generate(rt.alloc(), row.seed, row.blocks, row.net, &mut sink)?;
            assert!(rt; made.blocks == row.blocks);
            assert!(rt; made.rollbacks == row.rollbacks);
            assert!(rt; made.bytes == row.bytes);
            assert!(rt; sink.held().len() as u64 == row.bytes);
            let digest = <sha2::Sha256 as sha2::Digest>::digest(sink.held());
            assert!(rt; hex_plain(&Digest(digest)).as_slice() == row.digest);
        }
    }
    Ok(())
}

#[test]
fn a_sink_that_fails(rt: HostRuntime) -> Result<(), Fail> {
    let mut sink = MemSink::new(rt.alloc(), 100, vec![in rt.alloc(); 2]?);
    let made = generate(rt.alloc(), 9, 51, Net::Main, &mut sink);
    assert!(rt; matches!(made, Err(GenFault::WriteFault)));
    assert!(rt; sink.held().len() < 8_121);
    let mut sink = MemSink::new(rt.alloc(), 100, Vec::new(rt.alloc()));
    let made = generate(rt.alloc(), 9, 51, Net::Main, &mut sink);
    assert!(rt; matches!(made, Ok(Made { blocks: 51, .. })));
    Ok(())
}
