//! Messages that were spelled by hand.
use crate::repeated;
use proof_wire::{Message, MessageFault, MessageView, read_message};
use std::alloc::{AllocError, Global};
use std::process::Abort;
use std::test::Fail;
use uo_digest::Digest;

/// A count, its form, and how many bytes that many hashes have.
struct Count {
    count: u64,
    form: &'static [u8],
    hash_bytes: usize,
}

const SPENDS: [Count; 4] = [
    Count {
        count: 0,
        form: &[0],
        hash_bytes: 0,
    },
    Count {
        count: 1,
        form: &[1],
        hash_bytes: 32,
    },
    Count {
        count: 2,
        form: &[2],
        hash_bytes: 64,
    },
    Count {
        count: 253,
        form: &[253, 253, 0],
        hash_bytes: 8096,
    },
];

const HASHES: [Count; 3] = [
    Count {
        count: 0,
        form: &[0],
        hash_bytes: 0,
    },
    Count {
        count: 1,
        form: &[1],
        hash_bytes: 32,
    },
    Count {
        count: 253,
        form: &[253, 253, 0],
        hash_bytes: 8096,
    },
];

fn target(i: u64) -> u64 {
    i ^ 0x0102_0304_0506_0708
}

fn block(i: u64) -> Digest {
    repeated((i % 251) as u8)
}

fn hash(i: u64) -> Digest {
    repeated(255 - (i % 251) as u8)
}

/// The rest of spend i: the height 1, the amount i and a script of i modulo 4 bytes.
fn put_rest(text: &mut Vec<u8>, i: u64) -> Result<(), AllocError> {
    text.extend_from_slice(&block(i).0)?;
    text.extend_from_slice(&[2, 0, 0, 0])?;
    text.extend_from_slice(&i.to_le_bytes())?;
    text.push((i % 4) as u8)?;
    text.extend_from_slice([0x51; 4].split_at((i % 4) as usize).0)?;
    Ok(())
}

fn put_targets(text: &mut Vec<u8>, spends: &Count) -> Result<(), AllocError> {
    text.extend_from_slice(spends.form)?;
    for i in 0..spends.count {
        text.extend_from_slice(&target(i).to_le_bytes())?;
    }
    Ok(())
}

fn put_rests(text: &mut Vec<u8>, spends: &Count) -> Result<(), AllocError> {
    for i in 0..spends.count {
        put_rest(text, i)?;
    }
    Ok(())
}

fn put_hashes(text: &mut Vec<u8>, hashes: &Count) -> Result<(), AllocError> {
    text.extend_from_slice(hashes.form)?;
    for i in 0..hashes.count {
        text.extend_from_slice(&hash(i).0)?;
    }
    Ok(())
}

fn spelled(
    alloc: Global,
    version: u8,
    kind: u8,
    spends: &Count,
    hashes: &Count,
) -> Result<Vec<u8>, AllocError> {
    let mut text = Vec::from_slice(alloc, &[version, kind])?;
    put_targets(&mut text, spends)?;
    put_rests(&mut text, spends)?;
    put_hashes(&mut text, hashes)?;
    Ok(text)
}

/// The spends are those that were spelled, and are shown by a message again.
fn check_spends(
    rt: &impl Abort,
    view: &MessageView<'_>,
    message: &mut Message,
) -> Result<(), Fail> {
    for i in 0..view.spends() {
        let rest = view.rest(i);
        assert!(rt; view.target(i) == target(i));
        assert!(rt; rest.block == block(i));
        assert!(rt; rest.height == 1 && !rest.coinbase);
        assert!(rt; rest.amount == i);
        assert!(rt; rest.script.len() as u64 == i % 4);
        message.push_spend(target(i), &rest)?;
    }
    Ok(())
}

/// The hashes likewise.
fn check_hashes(
    rt: &impl Abort,
    view: &MessageView<'_>,
    message: &mut Message,
) -> Result<(), Fail> {
    for i in 0..view.hash_count() {
        assert!(rt; view.hash(i) == hash(i));
        message.push_hash(view.hash(i))?;
    }
    Ok(())
}

// A message of either version is read, and written in version 2.
fn check_whole(
    rt: &impl Abort,
    alloc: Global,
    version: u8,
    kind: u8,
    spends: &Count,
    hashes: &Count,
) -> Result<(), Fail> {
    let text = spelled(alloc, version, kind, spends, hashes)?;
    let view = read_message(alloc, &text)?;
    assert!(rt; view.version() == version);
    assert!(rt; view.lean() == (kind == 1));
    let mut message = Message::new(alloc, view.lean());
    assert!(rt; view.spends() == spends.count);
    check_spends(rt, &view, &mut message)?;
    assert!(rt; view.hash_count() == hashes.count);
    check_hashes(rt, &view, &mut message)?;
    let mut written = Vec::new(alloc);
    message.write(&mut written)?;
    let want = spelled(alloc, 2, kind, spends, hashes)?;
    assert!(rt; written.as_slice() == want.as_slice());
    Ok(())
}

#[test]
fn messages_whole(rt: HostRuntime) -> Result<(), Fail> {
    for spends in &SPENDS {
        for hashes in &HASHES {
            let kind = (hashes.count % 2) as u8;
            check_whole(&rt, rt.alloc(), 1, kind, spends, hashes)?;
            check_whole(&rt, rt.alloc(), 2, kind, spends, hashes)?;
        }
    }
    Ok(())
}

fn check_cuts(rt: &impl Abort, alloc: Global, text: &[u8]) {
    for cut in 0..text.len() {
        let read = read_message(alloc, &text[..cut]);
        assert!(rt; matches!(read, Err(MessageFault::NotAMessage)));
    }
}

#[test]
fn messages_cut(rt: HostRuntime) -> Result<(), Fail> {
    for spends in &SPENDS {
        for hashes in &HASHES {
            let version = 1 + (hashes.count % 2) as u8;
            let text = spelled(rt.alloc(), version, 1, spends, hashes)?;
            check_cuts(&rt, rt.alloc(), &text);
        }
    }
    Ok(())
}

/// The byte at a place takes each other value in turn.
fn check_changed(rt: &impl Abort, alloc: Global, text: &mut [u8], place: usize) {
    if place >= text.len() {
        return;
    }
    for _ in 0..255 {
        text[place] = text[place].wrapping_add(1);
        let read = read_message(alloc, text);
        assert!(rt; matches!(read, Err(MessageFault::NotAMessage)));
    }
    text[place] = text[place].wrapping_add(1);
}

/// Each byte of the two counts takes each other value.
fn check_counts(
    rt: &impl Abort,
    alloc: Global,
    spends: &Count,
    hashes: &Count,
) -> Result<(), Fail> {
    let mut text = spelled(alloc, 2, 0, spends, hashes)?;
    let size = hashes.hash_bytes.saturating_add(hashes.form.len());
    let behind = text.len().saturating_sub(size);
    for place in 0..spends.form.len() {
        check_changed(rt, alloc, &mut text, place.saturating_add(2));
    }
    for place in 0..hashes.form.len() {
        check_changed(rt, alloc, &mut text, place.saturating_add(behind));
    }
    Ok(())
}

#[test]
fn counts_changed(rt: HostRuntime) -> Result<(), Fail> {
    for spends in &SPENDS {
        for hashes in &HASHES {
            check_counts(&rt, rt.alloc(), spends, hashes)?;
        }
    }
    Ok(())
}

struct Refused {
    text: &'static [u8],
    fault: MessageFault,
}

/// No byte, other versions, the kinds 2 and 255, a byte after the message, 9,375,000 hashes (300
/// megabytes) of which none is there, and 2^61 targets.
const REFUSED: [Refused; 12] = [
    Refused {
        text: &[],
        fault: MessageFault::NotAMessage,
    },
    Refused {
        text: &[9],
        fault: MessageFault::Version(9),
    },
    Refused {
        text: &[0, 1, 0, 0],
        fault: MessageFault::Version(0),
    },
    Refused {
        text: &[3, 0, 0, 0],
        fault: MessageFault::Version(3),
    },
    Refused {
        text: &[2],
        fault: MessageFault::NotAMessage,
    },
    Refused {
        text: &[2, 2, 0, 0],
        fault: MessageFault::NotAMessage,
    },
    Refused {
        text: &[2, 0, 0, 0, 0],
        fault: MessageFault::NotAMessage,
    },
    Refused {
        text: &[1, 255, 0, 0],
        fault: MessageFault::NotAMessage,
    },
    Refused {
        text: &[1, 2, 0, 0],
        fault: MessageFault::NotAMessage,
    },
    Refused {
        text: &[1, 0, 0, 0, 0],
        fault: MessageFault::NotAMessage,
    },
    Refused {
        text: &[1, 0, 0, 254, 24, 13, 143, 0],
        fault: MessageFault::NotAMessage,
    },
    Refused {
        text: &[1, 0, 255, 0, 0, 0, 0, 0, 0, 0, 32],
        fault: MessageFault::NotAMessage,
    },
];

#[test]
fn other_texts(rt: HostRuntime) -> Result<(), Fail> {
    for row in &REFUSED {
        match read_message(rt.alloc(), row.text) {
            Ok(_) => assert!(rt; false),
            Err(fault) => assert!(rt; fault == row.fault),
        }
    }
    Ok(())
}

#[test]
fn faults_in_words(rt: HostRuntime) -> Result<(), Fail> {
    let text = format!(in rt.alloc(); "{}", MessageFault::Version(9))?;
    assert!(rt; text.as_str() == "a proof message of version 9");
    Ok(())
}
