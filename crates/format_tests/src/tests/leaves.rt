//! Texts and digests that were computed by hand.
ghost use Rattle.std.specs.Prelude.{◌≡◌, ◌<◌};

use crate::repeated;
use leaf_record::{LeafBuf, Record, leaf_digest, leaf_text, read_rest, write_rest};
use std::alloc::{AllocError, Global};
use std::marker::Brand;
use std::process::Abort;
use std::sync::ledger::{Blank, Ledger};
use std::test::Fail;
use uo_base::Cursor;
use uo_digest::{Digest, Steps, XorFold, hex_plain};

/// A rest of a block hash of 32 times 1 and of the amount 5, as it is spelled, and whether it is one.
struct RestRow {
    code: [u8; 4],
    length: &'static [u8],
    script: usize,
    height: u32,
    coinbase: bool,
    accepted: bool,
}

const RESTS: [RestRow; 6] = [
    RestRow {
        code: [0, 0, 0, 0],
        length: &[0],
        script: 0,
        height: 0,
        coinbase: false,
        accepted: true,
    },
    RestRow {
        code: [3, 0, 0, 0],
        length: &[252],
        script: 252,
        height: 1,
        coinbase: true,
        accepted: true,
    },
    RestRow {
        code: [254, 255, 255, 255],
        length: &[253, 253, 0],
        script: 253,
        height: 2_147_483_647,
        coinbase: false,
        accepted: true,
    },
    RestRow {
        code: [255, 255, 255, 255],
        length: &[253, 16, 39],
        script: 10_000,
        height: 2_147_483_647,
        coinbase: true,
        accepted: true,
    },
    // One byte too long, and a length of 1 in three bytes.
    RestRow {
        code: [0, 0, 0, 0],
        length: &[253, 17, 39],
        script: 10_001,
        height: 0,
        coinbase: false,
        accepted: false,
    },
    RestRow {
        code: [0, 0, 0, 0],
        length: &[253, 1, 0],
        script: 1,
        height: 0,
        coinbase: false,
        accepted: false,
    },
];

fn spelled(alloc: Global, row: &RestRow) -> Result<Vec<u8>, AllocError> {
    let mut text = Vec::new(alloc);
    text.extend_from_slice(&[1; 32])?;
    text.extend_from_slice(&row.code)?;
    text.extend_from_slice(&[5, 0, 0, 0, 0, 0, 0, 0])?;
    text.extend_from_slice(row.length)?;
    for _ in 0..row.script {
        text.push(0x51)?;
    }
    Ok(text)
}

#[test]
fn rests_whole(rt: HostRuntime) -> Result<(), Fail> {
    for row in &RESTS {
        let text = spelled(rt.alloc(), row)?;
        let mut at = Cursor::new(&text);
        if let Some(rest) = read_rest(&mut at) {
            assert!(rt; row.accepted);
            assert!(rt; at.rest().is_empty());
            assert!(rt; rest.block == repeated(1));
            assert!(rt; rest.height == row.height);
            assert!(rt; rest.coinbase == row.coinbase);
            assert!(rt; rest.amount == 5);
            assert!(rt; rest.script.len() == row.script);
            let mut written = Vec::new(rt.alloc());
            write_rest(&rest, &mut written)?;
            assert!(rt; written.as_slice() == text.as_slice());
        } else {
            assert!(rt; !row.accepted);
            assert!(rt; at.rest().len() == text.len());
        }
    }
    Ok(())
}

#[test]
fn rests_cut(rt: HostRuntime) -> Result<(), Fail> {
    for row in &RESTS {
        let text = spelled(rt.alloc(), row)?;
        for cut in 0..text.len() {
            let mut at = Cursor::new(&text[..cut]);
            assert!(rt; read_rest(&mut at).is_none());
            assert!(rt; at.rest().len() == cut);
        }
    }
    Ok(())
}

fn record(alloc: Global) -> Result<Record, AllocError> {
    Ok(Record {
        block: repeated(1),
        txid: repeated(2),
        index: 0,
        height: 1,
        coinbase: true,
        amount: 5,
        script: vec![in alloc; 0x51]?,
    })
}

#[test]
fn leaf_text_behind_its_tags(rt: HostRuntime) -> Result<(), Fail> {
    let record = record(rt.alloc())?;
    let copy = record.view().to_record(rt.alloc())?;
    let mut text = Vec::new(rt.alloc());
    leaf_text(&copy.view(), &mut text)?;
    let tag = <sha2::Sha512 as sha2::Digest>::digest(b"UtreexoV1".as_slice());
    let mut expected = Vec::new(rt.alloc());
    expected.extend_from_slice(&tag)?;
    expected.extend_from_slice(&tag)?;
    expected.extend_from_slice(&[1; 32])?;
    expected.extend_from_slice(&[2; 32])?;
    expected.extend_from_slice(&[0, 0, 0, 0, 3, 0, 0, 0])?;
    expected.extend_from_slice(&[5, 0, 0, 0, 0, 0, 0, 0, 1, 0x51])?;
    assert!(rt; text.len() == 210);
    assert!(rt; text.as_slice() == expected.as_slice());
    Ok(())
}

fn check_digest<L: Ledger>(rt: &impl Abort, alloc: Global, blank: Blank) -> Result<(), Fail>
    requires name { blank.name ≡ L.name }
    requires parts { blank.parts ≡ L.parts }
    requires some { 0 < blank.parts }
{
    let mut steps = Steps::<L>::new(blank);
    let record = record(alloc)?;
    let rest = record.view().rest();
    let mut buf = LeafBuf::<XorFold>::new(alloc)?;
    let leaf = rest.with_outpoint(record.txid, record.index);
    let digest = leaf_digest::<XorFold, L>(&mut buf, &leaf, &mut steps);
    let expected = b"0303030300030303060303030303030302520303030303030303030303030303";
    assert!(rt; hex_plain(&digest).as_slice() == expected.as_slice());
    Ok(())
}

#[test]
fn digests(rt: HostRuntime) -> Result<(), Fail> {
    check_digest::<Brand>(&rt, rt.alloc(), Blank::new(1))
}
