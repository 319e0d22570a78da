//! Lines as they are printed, and how they are written where a sink fails.
use block_rules::{ProofRefusal, Refusal, Verdict, WitnessFault};
use feed_run::{Status, Stop};
use report_lines::{
    CheckFault, Line, ReplyKind, line_of, push_clash, push_line, push_ticket_clash, say,
};
use std::alloc::Global;
use std::process::Abort;
use std::test::Fail;
use uo_base::MemSink;
use uo_digest::Digest;

/// A hash whose last byte is 0f and whose others are 1f.
const HASH: Digest = Digest([
    0x1f, 0x1f, 0x1f, 0x1f, 0x1f, 0x1f, 0x1f, 0x1f, 0x1f, 0x1f, 0x1f, 0x1f, 0x1f, 0x1f, 0x1f, 0x1f,
    0x1f, 0x1f, 0x1f, 0x1f, 0x1f, 0x1f, 0x1f, 0x1f, 0x1f, 0x1f, 0x1f, 0x1f, 0x1f, 0x1f, 0x1f, 0x0f,
]);

/// How it is printed.
const HASH_TEXT: &str = "0f1f1f1f1f1f1f1f1f1f1f1f1f1f1f1f1f1f1f1f1f1f1f1f1f1f1f1f1f1f1f1f";

/// Why a block is refused, and how that is printed.
struct Why {
    why: Refusal,
    text: &'static str,
}

const REFUSALS: [Why; 25] = [
    Why {
        why: Refusal::Link,
        text: "link",
    },
    Why {
        why: Refusal::MerkleRoot,
        text: "merkle root",
    },
    Why {
        why: Refusal::MerkleRepeated { level: 1, place: 2 },
        text: "merkle repeated 1 2",
    },
    Why {
        why: Refusal::Witness(WitnessFault::Form),
        text: "witness form",
    },
    Why {
        why: Refusal::Witness(WitnessFault::Root),
        text: "witness root",
    },
    Why {
        why: Refusal::Witness(WitnessFault::Unexpected),
        text: "witness unexpected",
    },
    Why {
        why: Refusal::Weight { weight: 4_000_001 },
        text: "weight 4000001",
    },
    Why {
        why: Refusal::Coinbase { tx: 3 },
        text: "coinbase 3",
    },
    Why {
        why: Refusal::Value { tx: 0 },
        text: "value 0",
    },
    Why {
        why: Refusal::Double { tx: 2, input: 1 },
        text: "double 2 1",
    },
    Why {
        why: Refusal::Full,
        text: "full",
    },
    Why {
        why: Refusal::NoProof,
        text: "noproof",
    },
    Why {
        why: Refusal::MessageForm,
        text: "message form",
    },
    Why {
        why: Refusal::MessageVersion { version: 255 },
        text: "message version 255",
    },
    Why {
        why: Refusal::Spends { got: 4, want: 5 },
        text: "spends 4 5",
    },
    Why {
        why: Refusal::Proof(ProofRefusal::Outside(6)),
        text: "proof outside 6",
    },
    Why {
        why: Refusal::Proof(ProofRefusal::Repeated(7, 8)),
        text: "proof repeated 7 8",
    },
    Why {
        why: Refusal::Proof(ProofRefusal::Beneath(9, 10)),
        text: "proof beneath 9 10",
    },
    Why {
        why: Refusal::Proof(ProofRefusal::HashCount { want: 11, got: 12 }),
        text: "proof hashes 11 12",
    },
    Why {
        why: Refusal::Proof(ProofRefusal::EmptyRoot { row: 13 }),
        text: "proof empty 13",
    },
    Why {
        why: Refusal::Proof(ProofRefusal::RootDiffers { row: 14 }),
        text: "proof root 14",
    },
    Why {
        why: Refusal::Missing { tx: 15, input: 16 },
        text: "missing 15 16",
    },
    Why {
        why: Refusal::Immature { tx: 17, input: 18 },
        text: "immature 17 18",
    },
    Why {
        why: Refusal::Overspend { tx: 19 },
        text: "overspend 19",
    },
    Why {
        why: Refusal::Subsidy {
            claimed: 5_000_000_001,
            allowed: 5_000_000_000,
        },
        text: "subsidy 5000000001 5000000000",
    },
];

/// A line with its end, by a text in which H stands for the hash.
struct Row {
    line: Line,
    text: &'static str,
}

const LINES: [Row; 48] = [
    Row {
        line: Line::Verdict(Verdict::Accepted {
            height: 7,
            hash: HASH,
            leaves: 8,
        }),
        text: "accepted 7 H 8\n",
    },
    Row {
        line: Line::Verdict(Verdict::Refused {
            height: 7,
            hash: None,
            why: Refusal::Block,
        }),
        text: "refused 7 - block\n",
    },
    Row {
        line: Line::Verdict(Verdict::RolledBack {
            count: 2,
            height: Some(5),
            hash: HASH,
            leaves: 6,
        }),
        text: "rolledback 2 5 H 6\n",
    },
    Row {
        line: Line::Verdict(Verdict::RolledBack {
            count: 8,
            height: None,
            hash: Digest([0; 32]),
            leaves: 0,
        }),
        text: "rolledback 8 - - 0\n",
    },
    Row {
        line: Line::Verdict(Verdict::TooDeep {
            asked: 101,
            kept: 100,
        }),
        text: "toodeep 101 100\n",
    },
    Row {
        line: Line::Verdict(Verdict::Stray),
        text: "stray\n",
    },
    Row {
        line: Line::End {
            events: 9,
            tip: Some((7, HASH)),
            leaves: 8,
        },
        text: "end 9 7 H 8\n",
    },
    Row {
        line: Line::End {
            events: 0,
            tip: None,
            leaves: 0,
        },
        text: "end 0 - - 0\n",
    },
    Row {
        line: Line::Words(2),
        text: "words 2\n",
    },
    Row {
        line: Line::FrameMagic {
            offset: 10,
            found: [0x0a, 0xbf, 0x00, 0xda],
        },
        text: "frame magic 10 0abf00da\n",
    },
    Row {
        line: Line::FrameCut {
            offset: 293,
            missing: 54,
        },
        text: "frame cut 293 54\n",
    },
    Row {
        line: Line::FrameLong {
            offset: 0,
            length: 4_000_001,
        },
        text: "frame long 0 4000001\n",
    },
    Row {
        line: Line::FrameRollback {
            offset: 1,
            length: 5,
        },
        text: "frame rollback 1 5\n",
    },
    Row {
        line: Line::LimitFeed(281_474_976_710_656),
        text: "limit feed 281474976710656\n",
    },
    Row {
        line: Line::PriorForm,
        text: "prior form\n",
    },
    Row {
        line: Line::PriorVersion(9),
        text: "prior version 9\n",
    },
    Row {
        line: Line::Watch(10_001),
        text: "watch 10001\n",
    },
    Row {
        line: Line::LimitPrior(8),
        text: "limit prior 8\n",
    },
    Row {
        line: Line::LimitWatch(0),
        text: "limit watch 0\n",
    },
    Row {
        line: Line::Supply {
            live: 240_000_000_000,
            issued: 245_000_000_000,
        },
        text: "supply 240000000000 issued 245000000000\n",
    },
    Row {
        line: Line::Clash(3),
        text: "clash 3\n",
    },
    Row {
        line: Line::Generated {
            blocks: 51,
            rollbacks: 1,
            bytes: 8_121,
        },
        text: "generated 51 1 8121\n",
    },
    Row {
        line: Line::UpgradedFeed {
            events: 102,
            messages: 1,
        },
        text: "upgraded 102 1\n",
    },
    Row {
        line: Line::UpgradedState(101),
        text: "upgraded state 101\n",
    },
    Row {
        line: Line::Ordered {
            blocks: 3,
            passed: 1,
        },
        text: "ordered 3 1\n",
    },
    Row {
        line: Line::NoTip,
        text: "notip\n",
    },
    Row {
        line: Line::Missing(HASH),
        text: "missing H\n",
    },
    Row {
        line: Line::Loop(HASH),
        text: "loop H\n",
    },
    Row {
        line: Line::Ticket {
            number: 0,
            bytes: 128,
        },
        text: "ticket 0 128\n",
    },
    Row {
        line: Line::NoTicket,
        text: "ticket none\n",
    },
    Row {
        line: Line::CheckLive {
            txid: HASH,
            index: 0,
            amount: 5_000_000_000,
        },
        text: "check live H 0 5000000000\n",
    },
    Row {
        line: Line::CheckFails(CheckFault::Form),
        text: "check form\n",
    },
    Row {
        line: Line::CheckFails(CheckFault::Version(2)),
        text: "check version 2\n",
    },
    Row {
        line: Line::CheckFails(CheckFault::Tip),
        text: "check tip\n",
    },
    Row {
        line: Line::CheckFails(CheckFault::Proof(ProofRefusal::HashCount { want: 1, got: 0 })),
        text: "check hashes 1 0\n",
    },
    Row {
        line: Line::TicketClash,
        text: "clash ticket\n",
    },
    Row {
        line: Line::Asked(0),
        text: "asked 0\n",
    },
    Row {
        line: Line::Replied {
            reply: 0,
            kind: ReplyKind::Next,
        },
        text: "replied 0 next\n",
    },
    Row {
        line: Line::Replied {
            reply: 1,
            kind: ReplyKind::Same,
        },
        text: "replied 1 same\n",
    },
    Row {
        line: Line::Replied {
            reply: 2,
            kind: ReplyKind::Back(1),
        },
        text: "replied 2 back 1\n",
    },
    Row {
        line: Line::Replied {
            reply: 3,
            kind: ReplyKind::Lost,
        },
        text: "replied 3 lost\n",
    },
    Row {
        line: Line::Moved(3),
        text: "moved 3\n",
    },
    Row {
        line: Line::Stale,
        text: "stale\n",
    },
    Row {
        line: Line::Unknown,
        text: "unknown\n",
    },
    Row {
        line: Line::Node {
            follower: 0,
            serial: 1,
            tip: Some((0, HASH)),
            leaves: 0,
        },
        text: "node 0 1 0 H 0\n",
    },
    Row {
        line: Line::Node {
            follower: 99,
            serial: 0,
            tip: None,
            leaves: 0,
        },
        text: "node 99 0 - - 0\n",
    },
    Row {
        line: Line::NoEvent,
        text: "bridge none\n",
    },
    Row {
        line: Line::Script(1),
        text: "script 1\n",
    },
];

// The text with the hash in place of an H.
fn with_hash(alloc: Global, text: &str) -> Result<Vec<u8>, Fail> {
    let mut bytes = Vec::new(alloc);
    for byte in text.as_bytes() {
        if *byte == b'H' {
            bytes.extend_from_slice(HASH_TEXT.as_bytes())?;
        } else {
            bytes.push(*byte)?;
        }
    }
    Ok(bytes)
}

fn check_refusal(rt: &impl Abort, alloc: Global, row: &Why) -> Result<(), Fail> {
    let verdict = Verdict::Refused {
        height: 4,
        hash: Some(HASH),
        why: row.why,
    };
    let mut said = Vec::new(alloc);
    line_of(alloc, &verdict, &mut said)?;
    let wanted = format!(in alloc; "refused 4 {HASH_TEXT} {}\n", row.text)?;
    assert!(rt; said.as_slice() == wanted.as_bytes());
    Ok(())
}

fn check_line(rt: &impl Abort, alloc: Global, row: &Row) -> Result<(), Fail> {
    let mut said = Vec::from_slice(alloc, b"before\n".as_slice())?;
    push_line(alloc, row.line, &mut said)?;
    let line = with_hash(alloc, row.text)?;
    assert!(rt; said.as_slice().strip_prefix(b"before\n".as_slice()) == Some(line.as_slice()));
    Ok(())
}

#[test]
fn refusals(rt: HostRuntime) -> Result<(), Fail> {
    for row in &REFUSALS {
        check_refusal(&rt, rt.alloc(), row)?;
    }
    Ok(())
}

#[test]
fn lines(rt: HostRuntime) -> Result<(), Fail> {
    for row in &LINES {
        check_line(&rt, rt.alloc(), row)?;
    }
    Ok(())
}

// A sink that takes three bytes at a time and fails at its call 2.
#[test]
fn a_line_is_begun_where_the_sink_fails(rt: HostRuntime) -> Result<(), Fail> {
    let alloc = rt.alloc();
    let mut report = MemSink::new(alloc, 3, Vec::from_slice(alloc, [2].as_slice())?);
    let outcome = say(alloc, &mut report, Status::Words, Line::Words(2));
    assert!(rt; outcome == Err(Stop::WriteFault));
    assert!(rt; report.held() == b"words ".as_slice());
    Ok(())
}

// Bytes of both texts and of the digest stand in their order.
#[test]
fn a_clash_has_four_lines(rt: HostRuntime) -> Result<(), Fail> {
    let alloc = rt.alloc();
    let mut said = Vec::from_slice(alloc, b"before\n".as_slice())?;
    push_clash(
        alloc,
        3,
        b"\x0a\xff".as_slice(),
        b"".as_slice(),
        &HASH,
        &mut said,
    )?;
    let front = b"before\nclash 3\nfirst 0aff\nsecond \ndigest 1f1f".as_slice();
    assert!(rt; said.as_slice().starts_with(front));
    assert!(rt; said.as_slice().ends_with(b"1f1f0f\n".as_slice()));
    assert!(rt; said.len() == 106);
    Ok(())
}

// Those of a ticket have no count of events.
#[test]
fn a_clash_of_a_ticket_has_four_lines(rt: HostRuntime) -> Result<(), Fail> {
    let alloc = rt.alloc();
    let mut said = Vec::from_slice(alloc, b"before\n".as_slice())?;
    push_ticket_clash(
        alloc,
        b"\x0a\xff".as_slice(),
        b"\x01".as_slice(),
        &HASH,
        &mut said,
    )?;
    let front = b"before\nclash ticket\nfirst 0aff\nsecond 01\ndigest 1f1f".as_slice();
    assert!(rt; said.as_slice().starts_with(front));
    assert!(rt; said.as_slice().ends_with(b"1f1f0f\n".as_slice()));
    Ok(())
}
