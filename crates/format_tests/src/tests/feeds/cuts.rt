//! Feeds of three frames, cut at each length, beside a plain reading.
use super::{GENESIS, GENESIS_HEAD, MESSAGE, drain};
use feed_frame::FeedFault;
use std::alloc::Global;
use std::process::Abort;
use std::test::Fail;
use uo_base::{MemSource, Net};

/// The frames of a feed: a block, a proof and a rollback, each by its letter.
const ORDERS: [&[u8; 3]; 7] = [b"BPR", b"BRP", b"PBR", b"PRB", b"RBP", b"RPB", b"PPB"];

/// A frame of a feed, by its letter and its place.
#[derive(Clone, Copy)]
struct Mark {
    kind: u8,
    start: usize,
    end: usize,
}

// A feed's text, with zero bytes before, between and behind its frames, and their places.
fn feed_of(alloc: Global, order: &[u8]) -> Result<(Vec<u8>, Vec<Mark>), Fail> {
    let mut text = Vec::new(alloc);
    let mut marks = Vec::new(alloc);
    text.extend_from_slice(b"\0\0")?;
    for kind in order {
        let start = text.len();
        match kind {
            b'B' => {
                text.extend_from_slice(GENESIS_HEAD)?;
                text.extend_from_slice(&GENESIS)?;
            }
            b'P' => {
                text.extend_from_slice(b"UTXP\x05\0\0\0")?;
                text.extend_from_slice(MESSAGE)?;
            }
            _ => text.extend_from_slice(b"UTXR\x04\0\0\0\x02\0\0\0")?,
        }
        let end = text.len();
        marks.push(Mark {
            kind: *kind,
            start,
            end,
        })?;
        text.extend_from_slice(b"\0\0\0")?;
    }
    Ok((text, marks))
}

// The letters of the events of the first `cut` bytes, and how these end.
fn plain(alloc: Global, marks: &[Mark], cut: usize) -> Result<(Vec<u8>, Option<FeedFault>), Fail> {
    let mut letters = Vec::new(alloc);
    let mut ending = None;
    let mut proof = false;
    for mark in marks {
        if cut <= mark.start {
            break;
        }
        if cut < mark.end {
            let there = cut - mark.start;
            let missing = if there < 8 { 8 - there } else { mark.end - cut };
            ending = Some(FeedFault::Cut {
                offset: mark.start as u64,
                missing: missing as u64,
            });
            break;
        }
        if proof && mark.kind != b'B' {
            letters.push(b'S')?;
        }
        if mark.kind == b'B' {
            letters.push(if proof { b'P' } else { b'B' })?;
        } else if mark.kind == b'R' {
            letters.push(b'R')?;
        }
        proof = mark.kind == b'P';
    }
    if proof {
        letters.push(b'S')?;
    }
    Ok((letters, ending))
}

fn check_cut(
    rt: &impl Abort,
    alloc: Global,
    text: &[u8],
    marks: &[Mark],
    piece: usize,
) -> Result<(), Fail> {
    let (letters, ending) = plain(alloc, marks, text.len())?;
    let mut source = MemSource::new(Vec::from_slice(alloc, text)?, piece.max(1), Vec::new(alloc));
    let told = drain(rt, alloc, Net::Main, 1000, &mut source)?;
    assert!(rt; told.letters.as_slice() == letters.as_slice());
    assert!(rt; told.ending == ending);
    Ok(())
}

#[test]
fn cuts(rt: HostRuntime) -> Result<(), Fail> {
    let alloc = rt.alloc();
    for order in &ORDERS {
        let (text, marks) = feed_of(alloc, *order)?;
        for piece in [1, 7, 64] {
            for cut in 0..text.len() {
                check_cut(&rt, alloc, &text[..cut], &marks, piece)?;
            }
            check_cut(&rt, alloc, &text, &marks, piece)?;
        }
    }
    Ok(())
}
