//! A source that fails at one of its calls, each in turn.
use super::{GENESIS, GENESIS_HEAD, MESSAGE, drain};
use feed_frame::FeedFault;
use std::test::Fail;
use uo_base::{MemSource, Net};

/// A feed, the letters of its events, and how many of them are answered where call 0, 1 and so on fails. The last of
/// these calls meets the end.
struct Row {
    text: &'static [&'static [u8]],
    letters: &'static [u8],
    answered: &'static [usize],
}

// A head takes three calls, of 1, 3 and 4 bytes. The block takes five of at most 64, and each other body one, an empty
// one none.
const ROWS: [Row; 3] = [
    Row {
        text: &[
            b"UTXP\x05\0\0\0",
            MESSAGE,
            GENESIS_HEAD,
            &GENESIS,
            b"UTXR\x04\0\0\0\x02\0\0\0",
        ],
        letters: b"PR",
        answered: &[0, 0, 0, 0, 0, 0, 0, 0, 0, 0, 0, 0, 1, 1, 1, 1, 2],
    },
    Row {
        text: &[b"UTXP\0\0\0\0", b"UTXR\x04\0\0\0\x02\0\0\0"],
        letters: b"SR",
        answered: &[0, 0, 0, 0, 0, 0, 1, 2],
    },
    Row {
        text: &[GENESIS_HEAD, &GENESIS, b"UTXP\0\0\0\0UTXP\0\0\0\0"],
        letters: b"BSS",
        answered: &[0, 0, 0, 0, 0, 0, 0, 0, 1, 1, 1, 1, 1, 1, 2],
    },
];

#[test]
fn each_call(rt: HostRuntime) -> Result<(), Fail> {
    let alloc = rt.alloc();
    for row in &ROWS {
        let mut text = Vec::new(alloc);
        for part in row.text {
            text.extend_from_slice(*part)?;
        }
        for call in 0..20 {
            let failing = [call as u64];
            let mut source = MemSource::new(
                Vec::from_slice(alloc, &text)?,
                64,
                Vec::from_slice(alloc, &failing)?,
            );
            let told = drain(&rt, alloc, Net::Main, 1000, &mut source)?;
            match row.answered.get(call) {
                Some(count) => {
                    assert!(rt; told.ending == Some(FeedFault::ReadFault));
                    assert!(rt; row.letters.get(..*count) == Some(told.letters.as_slice()));
                }
                None => {
                    assert!(rt; told.ending == None);
                    assert!(rt; told.letters.as_slice() == row.letters);
                }
            }
        }
    }
    Ok(())
}
