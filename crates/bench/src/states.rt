//! Writing and reading a node's state.
use bench_parts::{Purse, Stopwatch};
use block_samples::SampleFault;
use compact_node::Node;
use leaf_cache::Watch;
use std::alloc::Global;
use std::io;
use std::sync::ledger::Ledger;
use std::time::CpuClock;
use uo_base::{Event, Limits, MemSink, Net};
use uo_digest::{Sha512t256, Steps};

/// Outputs of each of a hundred blocks, which make nearly 2^20 entries.
const WIDE: u32 = 10_485;

// A node that has gone on by a hundred blocks of many outputs, and then by a hundred of one.
fn grown<L: Ledger>(
    alloc: Global,
    list: &[u8],
    every: u64,
    steps: &mut Steps<L>,
) -> Result<Node<Sha512t256>, SampleFault> {
    let watch = Watch::from_list(alloc, list).unwrap_or(Watch::empty(alloc));
    let mut node = Node::new(alloc, Net::Main, Limits::standard(), watch)?;
    let mut purse = Purse::new(alloc, every);
    for i in 0..201 {
        let coins = if i > 0 && i <= 100 { WIDE } else { 1 };
        let text = purse.block(coins, 0)?;
        let block = text.as_slice();
        if block.len() < 4_294_967_296 {
            let event = Event::Block {
                block,
                message: None,
            };
            node.step(event, steps)?;
        }
    }
    Ok(node)
}

/// Milliseconds of writing and of reading a state of 101 levels over 2^20 entries, with none, a hundred and ten thousand of them
/// kept, and its bytes.
pub fn measure_states<R: CpuClock + Print + AllocGlobal, L: Ledger>(
    rt: &R,
    steps: &mut Steps<L>,
) -> io::Result<()> {
    let alloc = rt.alloc();
    for (list, every) in [(&b""[..], 100), (&b"52"[..], 10_000), (&b"52"[..], 100)] {
        let Ok(node) = grown(alloc, list, every, steps) else {
            return println!(rt; "no memory");
        };
        let mut sink = MemSink::new(alloc, 65_536, Vec::new(alloc));
        let mut watch = Stopwatch::start(rt)?;
        let written = node.write_state(&mut sink).is_ok();
        let writing = watch.lap(rt)?;
        let state = Node::<Sha512t256>::read_state(alloc, sink.held(), Limits::standard(), steps);
        let reading = watch.lap(rt)?;
        println!(rt;
            "{} kept of {} entries, {} bytes: written in {} us, read in {} us; {written} {}",
            node.cache().kept().len(),
            node.chain().leaves,
            sink.held().len(),
            writing.as_micros(),
            reading.as_micros(),
            state.is_ok()
        )?;
    }
    Ok(())
}
