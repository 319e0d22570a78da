//! A handler that copies a feed, over ports in memory.
ghost use Rattle.std.specs.Prelude.{◌≡◌, ◌<◌};

mod copier;

use copier::Copier;
use feed_run::{Status, Stop, handle_feed};
use std::alloc::Global;
use std::marker::Brand;
use std::process::Abort;
use std::sync::ledger::{Blank, Ledger};
use std::test::Fail;
use uo_base::{MemSink, MemSource, Net};
use uo_digest::Steps;

/// A block, a proof with a block, a proof with a rollback, and a cut frame.
const FEED: &[u8] =
    b"\xf9\xbe\xb4\xd9\x01\0\0\0aUTXP\x02\0\0\0mm\xf9\xbe\xb4\xd9\x01\0\0\0bUTXP\0\0\0\0UTXR\x04\0\0\0\x02\0\0\0UTX";

const COPIED: &[u8] =
    b"\xf9\xbe\xb4\xd9\x01\0\0\0a\xf9\xbe\xb4\xd9\x01\0\0\0bUTXR\x04\0\0\0\x02\0\0\0";

const REPORT: &[u8] = b"copied 1\ncopied 2\ncopied 3\ncopied 4\n";

/// How many bytes are read, and the calls of each port that fail; then what the run answers, and how much of the copy and of the
/// report there is.
struct Row {
    bytes: u64,
    reads: &'static [u64],
    outs: &'static [u64],
    reports: &'static [u64],
    stop: Option<Stop>,
    out: usize,
    report: usize,
}

const ROWS: [Row; 5] = [
    Row {
        bytes: 1000,
        reads: &[],
        outs: &[],
        reports: &[],
        stop: None,
        out: 30,
        report: 36,
    },
    // the second block's line fails, and its frame is out
    Row {
        bytes: 1000,
        reads: &[],
        outs: &[],
        reports: &[1],
        stop: Some(Stop::WriteFault),
        out: 18,
        report: 9,
    },
    // its frame fails, and no line is begun
    Row {
        bytes: 1000,
        reads: &[],
        outs: &[1],
        reports: &[],
        stop: Some(Stop::WriteFault),
        out: 9,
        report: 9,
    },
    Row {
        bytes: 1000,
        reads: &[5],
        outs: &[],
        reports: &[],
        stop: Some(Stop::ReadFault),
        out: 9,
        report: 9,
    },
    Row {
        bytes: 9,
        reads: &[],
        outs: &[],
        reports: &[],
        stop: None,
        out: 9,
        report: 9,
    },
];

fn check_row<L: Ledger>(rt: &impl Abort, alloc: Global, row: &Row, blank: Blank) -> Result<(), Fail>
    requires name { blank.name ≡ L.name }
    requires parts { blank.parts ≡ L.parts }
    requires some { 0 < blank.parts }
{
    let bytes = if row.bytes < 1000 { row.bytes } else { 1000 };
    let mut copier = Copier::new(alloc, Net::Main);
    let mut feed = MemSource::new(
        Vec::from_slice(alloc, FEED)?,
        64,
        Vec::from_slice(alloc, row.reads)?,
    );
    let mut out = MemSink::new(alloc, 64, Vec::from_slice(alloc, row.outs)?);
    let mut report = MemSink::new(alloc, 64, Vec::from_slice(alloc, row.reports)?);
    let mut steps = Steps::<L>::new(blank);
    let ended = handle_feed(
        alloc,
        Net::Main,
        bytes,
        &mut copier,
        &mut feed,
        &mut out,
        &mut report,
        &mut steps,
    );
    assert!(rt; ended.err() == row.stop);
    assert!(rt; COPIED.get(..row.out) == Some(out.held()));
    assert!(rt; REPORT.get(..row.report) == Some(report.held()));
    Ok(())
}

#[test]
fn copies(rt: HostRuntime) -> Result<(), Fail> {
    for row in &ROWS {
        check_row::<Brand>(&rt, rt.alloc(), row, Blank::new(1))?;
    }
    Ok(())
}
