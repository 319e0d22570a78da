//! Bad frames, strays and limits.
use super::{GENESIS, GENESIS_HEAD, drain};
use feed_frame::FeedFault;
use std::test::Fail;
use uo_base::{MemSource, Net};

/// The parts of a text, and what it gives as a feed of at most so many bytes.
struct Row {
    net: Net,
    limit: u64,
    text: &'static [&'static [u8]],
    letters: &'static [u8],
    ending: Option<FeedFault>,
    offset: u64,
}

const ROWS: [Row; 18] = [
    Row {
        net: Net::Main,
        limit: 1000,
        text: &[GENESIS_HEAD, &GENESIS, b"UTXP\x40\0\0\0", b"0123456789"],
        letters: b"B",
        ending: Some(FeedFault::Cut {
            offset: 293,
            missing: 54,
        }),
        offset: 293,
    },
    Row {
        net: Net::Regtest,
        limit: 1000,
        text: &[GENESIS_HEAD, &GENESIS],
        letters: b"",
        ending: Some(FeedFault::Magic {
            offset: 0,
            found: [0xf9, 0xbe, 0xb4, 0xd9],
        }),
        offset: 0,
    },
    Row {
        net: Net::Main,
        limit: 1000,
        text: &[b"\xf9\xbe"],
        letters: b"",
        ending: Some(FeedFault::Cut {
            offset: 0,
            missing: 6,
        }),
        offset: 0,
    },
    Row {
        net: Net::Main,
        limit: 1000,
        text: &[b"\xf9\xbe\xb4\xd9\x01\x09\x3d\0"],
        letters: b"",
        ending: Some(FeedFault::TooLong {
            offset: 0,
            length: 4_000_001,
        }),
        offset: 0,
    },
    Row {
        net: Net::Main,
        limit: 1000,
        text: &[b"\0\0UTXP\x01\xa3\xe1\x11"],
        letters: b"",
        ending: Some(FeedFault::TooLong {
            offset: 2,
            length: 300_000_001,
        }),
        offset: 0,
    },
    Row {
        net: Net::Main,
        limit: 1000,
        text: &[b"UTXR\x05\0\0\0"],
        letters: b"",
        ending: Some(FeedFault::BadRollback {
            offset: 0,
            length: 5,
        }),
        offset: 0,
    },
    Row {
        net: Net::Main,
        limit: 1000,
        text: &[GENESIS_HEAD, &GENESIS, b"UTXP\0\0\0\0UTXP\0\0\0\0"],
        letters: b"BSS",
        ending: None,
        offset: 309,
    },
    Row {
        net: Net::Main,
        limit: 1000,
        text: &[b"UTXP\0\0\0\0\0UTXQUTXP"],
        letters: b"S",
        ending: Some(FeedFault::Magic {
            offset: 9,
            found: *b"UTXQ",
        }),
        offset: 8,
    },
    Row {
        net: Net::Main,
        limit: 8,
        text: &[b"\0\0\0\0\0\0\0\0\0"],
        letters: b"",
        ending: Some(FeedFault::Limit { bytes: 8 }),
        offset: 0,
    },
    Row {
        net: Net::Main,
        limit: 8,
        text: &[b"\0\0\0\0\0\0\0\0"],
        letters: b"",
        ending: None,
        offset: 0,
    },
    Row {
        net: Net::Main,
        limit: 6,
        text: &[b"UTXQ\x04\0\0\0"],
        letters: b"",
        ending: Some(FeedFault::Magic {
            offset: 0,
            found: *b"UTXQ",
        }),
        offset: 0,
    },
    Row {
        net: Net::Main,
        limit: 3,
        text: &[b"UTXQ"],
        letters: b"",
        ending: Some(FeedFault::Limit { bytes: 3 }),
        offset: 0,
    },
    Row {
        net: Net::Main,
        limit: 8,
        text: &[b"UTXR\x05\0\0\0\x02"],
        letters: b"",
        ending: Some(FeedFault::BadRollback {
            offset: 0,
            length: 5,
        }),
        offset: 0,
    },
    Row {
        net: Net::Main,
        limit: 11,
        text: &[b"UTXR\x04\0\0\0\x02\0\0\0"],
        letters: b"",
        ending: Some(FeedFault::Limit { bytes: 11 }),
        offset: 0,
    },
    Row {
        net: Net::Main,
        limit: 11,
        text: &[b"UTXR\x04\0\0\0\x02\0\0"],
        letters: b"",
        ending: Some(FeedFault::Cut {
            offset: 0,
            missing: 1,
        }),
        offset: 0,
    },
    Row {
        net: Net::Main,
        limit: 12,
        text: &[b"UTXR\x04\0\0\0\x02\0\0\0"],
        letters: b"R",
        ending: None,
        offset: 12,
    },
    Row {
        net: Net::Main,
        limit: 12,
        text: &[b"UTXR\x04\0\0\0\x02\0\0\0\0"],
        letters: b"R",
        ending: Some(FeedFault::Limit { bytes: 12 }),
        offset: 12,
    },
    Row {
        net: Net::Main,
        limit: 9,
        text: &[b"UTXP\0\0\0\0UTXP\0\0\0\0"],
        letters: b"S",
        ending: Some(FeedFault::Limit { bytes: 9 }),
        offset: 8,
    },
];

#[test]
fn rows(rt: HostRuntime) -> Result<(), Fail> {
    let alloc = rt.alloc();
    for row in &ROWS {
        let mut text = Vec::new(alloc);
        for part in row.text {
            text.extend_from_slice(*part)?;
        }
        let mut source = MemSource::new(text, 3, Vec::new(alloc));
        let told = drain(&rt, alloc, row.net, row.limit, &mut source)?;
        assert!(rt; told.letters.as_slice() == row.letters);
        assert!(rt; told.ending == row.ending);
        assert_eq!(rt; told.offset, row.offset);
    }
    Ok(())
}
