//! Ports in memory, in pieces and at failing calls; counts in their compact form.
mod files;

use std::alloc::Global;
use std::test::Fail;
use uo_base::{
    Cursor, InputFault, Limits, MemSink, MemSource, QuietSink, QuietSource, SinkFault, fill,
    put_all, put_compact, read_all,
};

struct ReadRow {
    text: &'static [u8],
    piece: usize,
    failing: &'static [u64],
    limit: u64,
    outcome: Result<&'static [u8], InputFault>,
    rest: &'static [u8],
}

const READS: [ReadRow; 6] = [
    ReadRow {
        text: b"",
        piece: 1,
        failing: &[],
        limit: 0,
        outcome: Ok(b""),
        rest: b"",
    },
    ReadRow {
        text: b"abc",
        piece: 1,
        failing: &[],
        limit: 3,
        outcome: Ok(b"abc"),
        rest: b"",
    },
    ReadRow {
        text: b"abc",
        piece: 2,
        failing: &[9],
        limit: 2,
        outcome: Err(InputFault::Limit),
        rest: b"",
    },
    ReadRow {
        text: b"abcd",
        piece: 1,
        failing: &[],
        limit: 1,
        outcome: Err(InputFault::Limit),
        rest: b"cd",
    },
    ReadRow {
        text: b"abc",
        piece: 1,
        failing: &[0],
        limit: 9,
        outcome: Err(InputFault::ReadFault),
        rest: b"abc",
    },
    ReadRow {
        text: b"abc",
        piece: 1,
        failing: &[2, 7],
        limit: 9,
        outcome: Err(InputFault::ReadFault),
        rest: b"c",
    },
];

struct WriteRow {
    text: &'static [u8],
    piece: usize,
    failing: &'static [u64],
    outcome: Result<(), SinkFault>,
    held: &'static [u8],
}

const WRITES: [WriteRow; 4] = [
    WriteRow {
        text: b"",
        piece: 1,
        failing: &[0],
        outcome: Ok(()),
        held: b"",
    },
    WriteRow {
        text: b"hello",
        piece: 2,
        failing: &[3],
        outcome: Ok(()),
        held: b"hello",
    },
    WriteRow {
        text: b"hello",
        piece: 2,
        failing: &[2],
        outcome: Err(SinkFault::Failed),
        held: b"hell",
    },
    WriteRow {
        text: b"hello",
        piece: 9,
        failing: &[0],
        outcome: Err(SinkFault::Failed),
        held: b"",
    },
];

fn source(alloc: Global, row: &ReadRow) -> Result<MemSource, Fail> {
    let text = Vec::from_slice(alloc, row.text)?;
    let failing = Vec::from_slice(alloc, row.failing)?;
    Ok(MemSource::new(text, row.piece.max(1), failing))
}

#[test]
fn reads(rt: HostRuntime) -> Result<(), Fail> {
    let alloc = rt.alloc();
    for row in &READS {
        let mut source = source(alloc, row)?;
        match (read_all(alloc, &mut source, row.limit), row.outcome) {
            (Ok(text), Ok(wanted)) => assert!(rt; text.as_slice() == wanted),
            (Err(fault), Err(wanted)) => assert!(rt; fault == wanted),
            _ => assert!(rt; false),
        }
        let rest = read_all(alloc, &mut source, 99);
        if let Ok(rest) = rest {
            assert!(rt; rest.as_slice() == row.rest);
        } else {
            assert!(rt; false);
        }
    }
    Ok(())
}

#[test]
fn writes(rt: HostRuntime) -> Result<(), Fail> {
    let alloc = rt.alloc();
    for row in &WRITES {
        let failing = Vec::from_slice(alloc, row.failing)?;
        let mut sink = MemSink::new(alloc, row.piece.max(1), failing);
        let outcome = put_all(&mut sink, row.text);
        assert!(rt; outcome == row.outcome);
        assert!(rt; sink.held() == row.held);
    }
    Ok(())
}

#[test]
fn fills_and_quiet_ports(rt: HostRuntime) -> Result<(), Fail> {
    let alloc = rt.alloc();
    let mut source = QuietSource::new(Vec::from_slice(alloc, b"abcde".as_slice())?);
    let mut piece = [0u8; 3];
    assert!(rt; fill(&mut source, &mut piece) == Ok(3));
    assert!(rt; piece == [97, 98, 99]);
    assert!(rt; fill(&mut source, &mut piece) == Ok(2));
    assert!(rt; piece == [100, 101, 99]);
    let mut sink = QuietSink::new(alloc);
    assert!(rt; put_all(&mut sink, b"xyz") == Ok(()));
    assert!(rt; sink.held() == b"xyz".as_slice());
    Ok(())
}

/// A count, its form, and longer forms that are none.
struct CompactRow {
    value: u64,
    form: &'static [u8],
    overlong: &'static [u8],
}

const COMPACT: [CompactRow; 5] = [
    CompactRow {
        value: 252,
        form: &[0xfc],
        overlong: &[0xfd, 0xfc, 0],
    },
    CompactRow {
        value: 253,
        form: &[0xfd, 0xfd, 0],
        overlong: &[0xfe, 0xfd, 0, 0, 0],
    },
    CompactRow {
        value: 65_535,
        form: &[0xfd, 0xff, 0xff],
        overlong: &[0xfe, 0xff, 0xff, 0, 0],
    },
    CompactRow {
        value: 65_536,
        form: &[0xfe, 0, 0, 1, 0],
        overlong: &[0xff, 0, 0, 1, 0, 0, 0, 0, 0],
    },
    CompactRow {
        value: 4_294_967_296,
        form: &[0xff, 0, 0, 0, 0, 1, 0, 0, 0],
        overlong: &[0xff, 0xff, 0xff, 0xff, 0xff, 0, 0, 0, 0],
    },
];

#[test]
fn compact_counts(rt: HostRuntime) -> Result<(), Fail> {
    let alloc = rt.alloc();
    for row in &COMPACT {
        let mut text = Vec::new(alloc);
        put_compact(&mut text, row.value)?;
        assert!(rt; text.as_slice() == row.form);
        text.push(7)?;
        let mut at = Cursor::new(&text);
        assert!(rt; at.compact() == Some(row.value));
        assert!(rt; at.rest() == [7].as_slice());
        let mut at = Cursor::new(row.overlong);
        assert!(rt; at.compact() == None);
        assert!(rt; at.rest() == row.overlong);
    }
    Ok(())
}

#[test]
fn cursor_parts(rt: HostRuntime) {
    let mut at = Cursor::new(
        b"\x01\x02\x03\x04\x05\x06\x07\x08\x09\x0a\x0b\x0c\x0d\x0e\x0f\x10".as_slice(),
    );
    assert!(rt; at.u8() == Some(1));
    assert!(rt; at.u32() == Some(0x0504_0302));
    assert!(rt; at.u64() == Some(0x0d0c_0b0a_0908_0706));
    assert!(rt; at.u32() == None);
    assert!(rt; at.take(4) == None);
    assert!(rt; at.take(2) == Some(b"\x0e\x0f".as_slice()));
    assert!(rt; at.rest() == b"\x10".as_slice());
    let limits = Limits::standard();
    assert!(rt; limits.leaves == (1 << 40) - 1);
    assert!(rt; limits.bytes == 1 << 48);
}
