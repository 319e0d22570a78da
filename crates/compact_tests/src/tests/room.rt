//! How much room there is.
ghost use Rattle.std.specs.Prelude.{◌≡◌, ◌<◌};

use super::{Compact, follow};
use crate::{FULL, block_paying, entries_at};
use block_rules::{Refusal, Verdict};
use block_samples::Sample;
use compact_node::{compact_is_full, fresh_stands, next_is_node, verdicts_tell_levels};
use leaf_cache::Watch;
use std::alloc::Global;
use std::marker::Brand;
use std::process::Abort;
use std::sync::ledger::{Blank, Ledger};
use std::test::Fail;
use tx_codec::OutView;
use uo_base::{Limits, Net};
use uo_digest::Steps;

/// The next block, with a coinbase alone.
fn next_block(alloc: Global, node: &Compact) -> Result<Sample, Fail> {
    let chain = node.chain();
    let output = OutView {
        amount: FULL,
        script: b"\x51",
    };
    Ok(block_paying(alloc, chain.tip, chain.blocks, output, &[])?)
}

/// There is room for eight entries, and none for a ninth. The first block adds none.
fn check_room<L: Ledger>(rt: &impl Abort, alloc: Global, blank: Blank) -> Result<(), Fail>
    requires name { blank.name ≡ L.name }
    requires parts { blank.parts ≡ L.parts }
    requires some { 0 < blank.parts }
{
    let mut steps = Steps::<L>::new(blank);
    let limits = Limits {
        leaves: 8,
        bytes: 1_000,
    };
    let mut node = Compact::new(alloc, Net::Regtest, limits, Watch::empty(alloc))?;
    for height in 0..9 {
        let block = next_block(alloc, &node)?;
        let verdict = follow(&mut node, &block.text, None, &mut steps)?;
        let all = entries_at(height);
        assert!(rt; matches!(verdict, Verdict::Accepted { leaves, .. } if leaves == all));
    }
    let block = next_block(alloc, &node)?;
    let verdict = follow(&mut node, &block.text, None, &mut steps)?;
    assert!(rt; matches!(verdict, Verdict::Refused { height: 9, why, .. } if why == Refusal::Full));
    assert!(rt; node.cache().kept().is_empty());
    Ok(())
}

#[test]
fn no_room(rt: HostRuntime) -> Result<(), Fail> {
    compact_is_full();
    fresh_stands();
    next_is_node();
    verdicts_tell_levels();
    check_room::<Brand>(&rt, rt.alloc(), Blank::new(1))
}
