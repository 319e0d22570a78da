//! The tickets of what a node keeps, read and judged by the same node and behind other blocks.
ghost use Rattle.std.specs.Prelude.{◌≡◌, ◌<◌};

use super::{BEHIND_1, BEHIND_2, BLOCKS, FIRST, SECOND, bytes_of, watch};
use compact_node::Node;
use std::alloc::Global;
use std::marker::Brand;
use std::process::Abort;
use std::sync::ledger::{Blank, Ledger};
use std::test::Fail;
use ticket_check::{Checked, check_ticket, write_ticket};
use uo_base::{Event, Limits, Net};
use uo_digest::{Digest, Sha512t256, Steps};

type Compact = Node<Sha512t256>;

/// The height of a block, the number of an output, and its ticket behind that block.
struct Row(usize, u64, &'static [&'static str]);

const ROWS: [Row; 3] = [
    Row(1, 0, &[BEHIND_1, FIRST, "00"]),
    Row(
        2,
        0,
        &[
            BEHIND_2,
            FIRST,
            "01",
            "1a3c3795f91355dee41e90b8e1d634fd3e2015e71727e08a2df4158334185db2",
        ],
    ),
    Row(
        2,
        1,
        &[
            BEHIND_2,
            SECOND,
            "01",
            "84ca5156273c25aa026cbe34223f96efb03900edd44c73bafe3f2be4bc069ea0",
        ],
    ),
];

fn follow<L: Ledger>(
    alloc: Global,
    node: &mut Compact,
    block: &'static str,
    steps: &mut Steps<L>,
) -> Result<(), Fail> {
    let block = hex::decode(alloc, block)?;
    if block.len() > 4_000_000 {
        return Err("a short block".into());
    }
    let event = Event::Block {
        block: &block,
        message: None,
    };
    node.step(event, steps)?;
    Ok(())
}

/// The ticket of the output with this number, if it is kept.
fn written(alloc: Global, node: &Compact, number: u64) -> Result<Option<Vec<u8>>, Fail> {
    let mut text = Vec::new(alloc);
    if write_ticket(alloc, node, number, &mut text)? {
        return Ok(Some(text));
    }
    if text.is_empty() {
        Ok(None)
    } else {
        Err("no text".into())
    }
}

/// Whether a ticket names this transaction.
fn has_id(text: &[u8], txid: &Digest) -> bool {
    let id = txid.0;
    text.get(45..77) == Some(id.as_slice())
}

/// What is said of a ticket: whether it is live.
fn is_live<L: Ledger>(
    alloc: Global,
    node: &Compact,
    text: &[u8],
    steps: &mut Steps<L>,
) -> Result<bool, Fail> {
    match check_ticket(alloc, node, text, steps)? {
        Checked::Tip => Ok(false),
        Checked::Live {
            txid,
            index: 0,
            amount: 5_000_000_000,
        } if has_id(text, &txid) => Ok(true),
        _ => Err("another answer".into()),
    }
}

/// Behind the block of this height, all outputs but that of the first block are kept.
fn check_row<L: Ledger>(
    rt: &impl Abort,
    alloc: Global,
    node: &Compact,
    height: usize,
    row: &Row,
    steps: &mut Steps<L>,
) -> Result<(), Fail> {
    let ticket = written(alloc, node, row.1)?;
    assert!(rt; ticket.is_some() == (row.1 < height as u64));
    let text = bytes_of(alloc, row.2)?;
    let is_here = row.0 == height;
    assert!(rt; !is_here || ticket.as_deref() == Some(text.as_slice()));
    assert!(rt; is_live(alloc, node, &text, steps)? == is_here);
    Ok(())
}

fn check_rows<L: Ledger>(rt: &impl Abort, alloc: Global, blank: Blank) -> Result<(), Fail>
    requires name { blank.name ≡ L.name }
    requires parts { blank.parts ≡ L.parts }
    requires some { 0 < blank.parts }
{
    let mut steps = Steps::<L>::new(blank);
    let mut node = Compact::new(alloc, Net::Main, Limits::standard(), watch(alloc)?)?;
    for height in 0..BLOCKS.len() {
        follow(alloc, &mut node, BLOCKS[height], &mut steps)?;
        for row in &ROWS {
            check_row(rt, alloc, &node, height, row, &mut steps)?;
        }
    }
    Ok(())
}

#[test]
fn kept_outputs(rt: HostRuntime) -> Result<(), Fail> {
    check_rows::<Brand>(&rt, rt.alloc(), Blank::new(1))
}
