//! What a node stores, spelled by hand.
ghost use Rattle.std.specs.Prelude.{◌≡◌, ◌<◌};

use super::{Compact, follow};
use block_rules::Verdict;
use block_samples::GENESIS;
use leaf_cache::Watch;
use std::alloc::Global;
use std::marker::Brand;
use std::process::Abort;
use std::sync::ledger::{Blank, Ledger};
use std::test::Fail;
use uo_base::{Limits, MemSink, Net, SinkFault};
use uo_digest::Steps;

/// `UTXS`, version 2, the main network, no block, no script, and one level of 42 zero bytes.
const START: [u8; 54] = [
    0x55, 0x54, 0x58, 0x53, 0x02, 0x00, 0x00, 0x00, 0x00, 0x00, 0x00, 0x01, 0, 0, 0, 0, 0, 0, 0, 0,
    0, 0, 0, 0, 0, 0, 0, 0, 0, 0, 0, 0, 0, 0, 0, 0, 0, 0, 0, 0, 0, 0, 0, 0, 0, 0, 0, 0, 0, 0, 0, 0,
    0, 0,
];

/// The same with one block, and in front of that level one with the hash of this block, and no output.
const FIRST: [u8; 96] = [
    0x55, 0x54, 0x58, 0x53, 0x02, 0x00, 0x01, 0x00, 0x00, 0x00, 0x00, 0x02, 0x6f, 0xe2, 0x8c, 0x0a,
    0xb6, 0xf1, 0xb3, 0x72, 0xc1, 0xa6, 0xa2, 0x46, 0xae, 0x63, 0xf7, 0x4f, 0x93, 0x1e, 0x83, 0x65,
    0xe1, 0x5a, 0x08, 0x9c, 0x68, 0xd6, 0x19, 0x00, 0x00, 0x00, 0x00, 0x00, 0, 0, 0, 0, 0, 0, 0, 0,
    0, 0, 0, 0, 0, 0, 0, 0, 0, 0, 0, 0, 0, 0, 0, 0, 0, 0, 0, 0, 0, 0, 0, 0, 0, 0, 0, 0, 0, 0, 0, 0,
    0, 0, 0, 0, 0, 0, 0, 0, 0, 0, 0, 0,
];

/// Whether the first block was taken, the calls that fail of a sink that takes up to 16 bytes in one, the answer, how many bytes are
/// held then, and of which text.
struct Row(
    bool,
    &'static [u64],
    Result<(), SinkFault>,
    usize,
    &'static [u8],
);

const ROWS: [Row; 4] = [
    Row(false, &[], Ok(()), 54, &START),
    Row(true, &[], Ok(()), 96, &FIRST),
    // The 12 bytes in front of the levels are one call, each level is three.
    Row(true, &[2], Err(SinkFault::Failed), 28, &FIRST),
    Row(true, &[4], Err(SinkFault::Failed), 54, &FIRST),
];

/// What is read of the text is a node on the same chain, with the same roots, which keeps as many levels.
fn check_read<L: Ledger>(
    rt: &impl Abort,
    alloc: Global,
    node: &Compact,
    text: &[u8],
    steps: &mut Steps<L>,
) -> Result<(), Fail> {
    let limits = Limits::standard();
    match Compact::read_state(alloc, text, limits, steps) {
        Ok(read) => {
            assert!(rt; read.chain() == node.chain() && read.net() == node.net());
            assert!(rt; read.kept_levels() == node.kept_levels());
            assert!(rt; read.roots().leaves() == node.roots().leaves());
            Ok(())
        }
        Err(_) => Err("a state".into()),
    }
}

fn check_row<L: Ledger>(rt: &impl Abort, alloc: Global, row: &Row, blank: Blank) -> Result<(), Fail>
    requires name { blank.name ≡ L.name }
    requires parts { blank.parts ≡ L.parts }
    requires some { 0 < blank.parts }
{
    let mut steps = Steps::<L>::new(blank);
    let mut node = Compact::new(alloc, Net::Main, Limits::standard(), Watch::empty(alloc))?;
    if row.0 {
        let verdict = follow(&mut node, &GENESIS, None, &mut steps)?;
        assert!(rt; matches!(verdict, Verdict::Accepted { .. }));
    }
    let mut sink = MemSink::new(alloc, 16, Vec::from_slice(alloc, row.1)?);
    assert!(rt; node.write_state(&mut sink) == row.2);
    assert!(rt; Some(sink.held()) == row.4.get(..row.3));
    check_read(rt, alloc, &node, row.4, &mut steps)
}

/// A node with no block, one with the first block, and a sink that fails in mid-stream, within the newest level and before the
/// older one.
#[test]
fn states_of_a_node(rt: HostRuntime) -> Result<(), Fail> {
    let alloc = rt.alloc();
    for row in &ROWS {
        check_row::<Brand>(&rt, alloc, row, Blank::new(1))?;
    }
    Ok(())
}
