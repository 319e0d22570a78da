//! A bridge that judges blocks and proves them.
use bench_parts::{Purse, Stopwatch, leaves_alone, needs_of, pairs_alone};
use block_samples::SampleFault;
use bridge_prover::Bridge;
use leaf_cache::Watch;
use std::alloc::Global;
use std::io;
use std::sync::ledger::Ledger;
use std::time::{CpuClock, Duration};
use uo_base::{Event, Limits, Net, NoMemory};
use uo_digest::{Sha512t256, Steps, sha256d};

/// Entries, spends of each block, blocks, and whether the bridge has a watch list. There are so many blocks of 500 spends that the lists of the
/// forest over ten thousand entries double about once in them: in fewer, that would count for too much or for nothing.
const CASES: [(u32, u32, u32, bool); 12] = [
    (10_000, 1, 2_000, false),
    (10_000, 20, 500, false),
    (10_000, 500, 160, false),
    (100_000, 1, 2_000, false),
    (100_000, 1, 2_000, true),
    (100_000, 20, 500, false),
    (100_000, 20, 500, true),
    (100_000, 500, 160, false),
    (100_000, 500, 160, true),
    (1_000_000, 1, 2_000, false),
    (1_000_000, 20, 500, false),
    (1_000_000, 500, 160, false),
];

/// Outputs of a block that comes before those that are measured.
const WIDE: u32 = 10_000;

/// Blocks that are proved at a stretch. Behind each stretch the messages are dropped, as the program gives back what it has written.
const ROUND: usize = 10;

/// Rounds of the same kind that come before those that are told. What a block spends is kept until a hundred more have come, and from
/// then on each block has as many outputs forgotten as it spends.
const WARMING: usize = 11;

// The digests of blocks: those of pairs, where no path is shared and where paths are, and those of leaves. And the bytes of their messages.
#[derive(Clone, Copy)]
struct Needs {
    apart: u64,
    shared: u64,
    leaves: u64,
    bytes: u64,
}

impl Needs {
    fn and(self, other: Needs) -> Needs {
        Needs {
            apart: self.apart.saturating_add(other.apart),
            shared: self.shared.saturating_add(other.shared),
            leaves: self.leaves.saturating_add(other.leaves),
            bytes: self.bytes.saturating_add(other.bytes),
        }
    }
}

// How many blocks were accepted, what they need, and the time in which they were judged and proved, in which as many pairs and as many
// leaves were digested alone, and in which what else they hash was hashed alone.
#[derive(Clone, Copy)]
struct Proved {
    blocks: u64,
    needs: Needs,
    proving: Duration,
    pairing: Duration,
    digesting: Duration,
    hashing: Duration,
    seen: u8,
}

impl Proved {
    fn nothing() -> Proved {
        Proved {
            blocks: 0,
            needs: Needs {
                apart: 0,
                shared: 0,
                leaves: 0,
                bytes: 0,
            },
            proving: Duration::ZERO,
            pairing: Duration::ZERO,
            digesting: Duration::ZERO,
            hashing: Duration::ZERO,
            seen: 0,
        }
    }

    fn and(self, other: Proved) -> Proved {
        Proved {
            blocks: self.blocks.saturating_add(other.blocks),
            needs: self.needs.and(other.needs),
            proving: self.proving.saturating_add(other.proving),
            pairing: self.pairing.saturating_add(other.pairing),
            digesting: self.digesting.saturating_add(other.digesting),
            hashing: self.hashing.saturating_add(other.hashing),
            seen: self.seen ^ other.seen,
        }
    }
}

/// Microseconds of blocks that a bridge judges and proves, over ten thousand to a million entries, and of the digests and the
/// hashing that they need; and the bytes of its messages, over a hundred thousand also where one entry in a hundred is watched.
/// Each case is measured behind a hundred blocks like its own.
pub fn measure_bridge<R: CpuClock + Print + AllocGlobal, L: Ledger>(
    rt: &R,
    steps: &mut Steps<L>,
) -> io::Result<()> {
    for case in CASES {
        measure(rt, rt.alloc(), case, steps)?;
    }
    Ok(())
}

fn prove<L: Ledger>(
    bridge: &mut Bridge<Sha512t256>,
    block: &[u8],
    steps: &mut Steps<L>,
) -> Result<Option<Vec<u8>>, NoMemory> {
    if block.len() >= 4_294_967_296 {
        return Ok(None);
    }
    let event = Event::Block {
        block,
        message: None,
    };
    Ok(bridge.step(event, steps)?.message)
}

// So many wide blocks, whose outputs can then all be spent.
fn fill<L: Ledger>(
    bridge: &mut Bridge<Sha512t256>,
    purse: &mut Purse,
    wide: u32,
    steps: &mut Steps<L>,
) -> Result<(), SampleFault> {
    for i in 0..=wide.saturating_add(100) {
        let coins = if i > 0 && i <= wide { WIDE } else { 1 };
        prove(bridge, &purse.block(coins, 0)?, steps)?;
    }
    Ok(())
}

fn spending_blocks(
    alloc: Global,
    purse: &mut Purse,
    spends: u32,
    count: u32,
) -> Result<Vec<Vec<u8>>, SampleFault> {
    let mut blocks = Vec::new(alloc);
    for _ in 0..count {
        blocks.push(purse.block(1, spends)?)?;
    }
    Ok(blocks)
}

// The messages beside the blocks that are accepted.
fn prove_round<L: Ledger>(
    alloc: Global,
    bridge: &mut Bridge<Sha512t256>,
    blocks: &[Vec<u8>],
    steps: &mut Steps<L>,
) -> Result<Vec<Vec<u8>>, NoMemory> {
    let mut messages = Vec::new(alloc);
    for block in blocks {
        if let Some(message) = prove(bridge, block, steps)? {
            messages.push(message)?;
        }
    }
    Ok(messages)
}

// What blocks need, whose first is for a forest of `before` entries and of which each adds some. With each entry comes the digest of its
// leaf, and a pair wherever two trees are joined.
fn needs_of_round(
    alloc: Global,
    before: u64,
    added: u64,
    after: u64,
    messages: &[Vec<u8>],
) -> Needs {
    let leaves = after.saturating_sub(before);
    let joins = leaves
        .saturating_add(u64::from(before.count_ones()))
        .saturating_sub(u64::from(after.count_ones()));
    let mut needs = Needs {
        apart: joins,
        shared: joins,
        leaves,
        bytes: 0,
    };
    let mut there = before;
    for message in messages {
        let (apart, shared) = needs_of(alloc, there, message).unwrap_or((0, 0));
        needs = needs.and(Needs {
            apart,
            shared,
            leaves: 0,
            bytes: message.len() as u64,
        });
        there = there.saturating_add(added);
    }
    needs
}

// The ids of the blocks and of both their transactions, and their merkle roots.
fn hash_alone(blocks: &[Vec<u8>]) -> u8 {
    let mut seen = 0;
    for block in blocks {
        let (header, txs) = block.split_at(block.len().min(80));
        let (coinbase, payment) = txs.split_at(txs.len().min(66));
        seen ^= sha256d(header).0[0] ^ sha256d(coinbase).0[0] ^ sha256d(payment).0[0];
        seen ^= sha256d(&[seen; 64]).0[0];
    }
    seen
}

// Some blocks, of which each adds so many entries, at a stretch, and then their digests and their hashing alone. None where there is
// no memory.
fn measure_round<R: CpuClock, L: Ledger>(
    rt: &R,
    alloc: Global,
    added: u64,
    bridge: &mut Bridge<Sha512t256>,
    blocks: &[Vec<u8>],
    steps: &mut Steps<L>,
) -> io::Result<Option<Proved>> {
    let before = bridge.forest().leaves();
    let mut watch = Stopwatch::start(rt)?;
    let Ok(messages) = prove_round(alloc, bridge, blocks, steps) else {
        return Ok(None);
    };
    let proving = watch.lap(rt)?;
    let needs = needs_of_round(alloc, before, added, bridge.forest().leaves(), &messages);
    let mut watch = Stopwatch::start(rt)?;
    let last = pairs_alone::<Sha512t256, L>(needs.shared, steps);
    let pairing = watch.lap(rt)?;
    let Ok(leaf) = leaves_alone::<Sha512t256, L>(alloc, needs.leaves, steps) else {
        return Ok(None);
    };
    let digesting = watch.lap(rt)?;
    let seen = hash_alone(blocks) ^ last.0[0] ^ leaf.0[0];
    let hashing = watch.lap(rt)?;
    Ok(Some(Proved {
        blocks: messages.len() as u64,
        needs,
        proving,
        pairing,
        digesting,
        hashing,
        seen,
    }))
}

fn measure<R: CpuClock + Print, L: Ledger>(
    rt: &R,
    alloc: Global,
    case: (u32, u32, u32, bool),
    steps: &mut Steps<L>,
) -> io::Result<()> {
    let (entries, spends, count, lean) = case;
    let watch = if lean {
        Watch::from_list(alloc, b"52").ok()
    } else {
        None
    };
    let mut purse = Purse::new(alloc, 100);
    let Ok(mut bridge) = Bridge::new(alloc, Net::Main, Limits::standard(), watch) else {
        return println!(rt; "no memory");
    };
    let filled = fill(&mut bridge, &mut purse, entries / WIDE, steps);
    let all = count.saturating_add((WARMING * ROUND) as u32);
    let Ok(blocks) = spending_blocks(alloc, &mut purse, spends, all) else {
        return println!(rt; "no memory");
    };
    if filled.is_err() {
        return println!(rt; "no memory");
    }
    print!(rt;
        "{entries} entries, {spends} spends, {}: ",
        if lean { "lean" } else { "full" }
    )?;
    measure_blocks(
        rt,
        alloc,
        u64::from(spends) + 1,
        &mut bridge,
        &blocks,
        steps,
    )
}

// The first blocks are proved as the others are, and not told. The others take turns of some with their digests and hashing alone, so
// what else goes on beside hits both alike.
fn measure_blocks<R: CpuClock + Print, L: Ledger>(
    rt: &R,
    alloc: Global,
    added: u64,
    bridge: &mut Bridge<Sha512t256>,
    blocks: &[Vec<u8>],
    steps: &mut Steps<L>,
) -> io::Result<()> {
    let mut proved = Proved::nothing();
    for (number, round) in blocks.chunks(ROUND).enumerate() {
        let Some(one) = measure_round(rt, alloc, added, bridge, round, steps)? else {
            return println!(rt; "no memory");
        };
        if number >= WARMING {
            proved = proved.and(one);
        }
    }
    print_proved(rt, &proved)
}

fn print_proved<R: Print>(rt: &R, proved: &Proved) -> io::Result<()> {
    println!(rt;
        "{} blocks in {} us",
        proved.blocks,
        proved.proving.as_micros()
    )?;
    println!(rt;
        "  its {} pairs alone {} us, {} where no path is shared; {} leaves alone {} us; hashing alone {} us; {} bytes of messages; {}",
        proved.needs.shared,
        proved.pairing.as_micros(),
        proved.needs.apart,
        proved.needs.leaves,
        proved.digesting.as_micros(),
        proved.hashing.as_micros(),
        proved.needs.bytes,
        proved.seen
    )
}
