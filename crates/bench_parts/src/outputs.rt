//! Outputs by their names.
ghost use Rattle.std.specs.Prelude.{◌+◌, ◌≤◌, length, OnOk};
ghost use Rattle.output_index.specs.Held.{IsAbove};

use crate::names::name_of;
use crate::probe::descend;
use crate::stopwatch::Stopwatch;
use leaf_record::Record;
use output_index::Outputs;
use std::alloc::Global;
use std::io;
use std::time::CpuClock;
use uo_base::NoMemory;
use uo_digest::Digest;

/// Nanoseconds of adding outputs, of finding them by their names, and of spending them, among a hundred thousand to ten
/// million.
pub fn measure_outputs<R: CpuClock + Print + AllocGlobal>(rt: &R) -> io::Result<()> {
    for entries in [100_000, 1_000_000, 10_000_000] {
        measure(rt, rt.alloc(), entries)?;
        measure_bare(rt, rt.alloc(), entries)?;
    }
    Ok(())
}

/// An output that is named by its number.
pub fn record_of(alloc: Global, number: u64, script: &[u8]) -> Result<Record, NoMemory>
    requires { length script.now ≤ 10000 }
{
    Ok(Record {
        block: Digest([1; 32]),
        txid: name_of(number),
        index: 0,
        height: 7,
        coinbase: false,
        amount: 5,
        script: Vec::from_slice(alloc, script)?,
    })
}

fn insert_all(alloc: Global, outputs: &mut Outputs, entries: u32) -> Result<(), NoMemory>
    requires { IsAbove 0 outputs.old }
{
    for number in 0..entries {
        let leaf = record_of(alloc, u64::from(number), b"\x51")?;
        insert(outputs, u64::from(number), leaf)?;
    }
    Ok(())
}

/// Adds an output behind all others.
pub fn insert(outputs: &mut Outputs, number: u64, leaf: Record) -> Result<(), NoMemory>
    requires { IsAbove number outputs.old }
    ensures { OnOk result (IsAbove (number + 1) outputs.new) }
{
    outputs.insert(number, leaf)
}

// The i-th of some numbers, which are spread over all.
fn chosen(i: u32, entries: u32) -> u32 {
    i.wrapping_mul(0x9e37_79b9) % entries.max(1)
}

fn find_all(outputs: &Outputs, entries: u32) -> u64 {
    let mut seen = 0;
    for i in 0..entries {
        seen ^= outputs
            .newest(&name_of(u64::from(chosen(i, entries))), 0)
            .unwrap_or(0);
    }
    seen
}

fn spend_all(outputs: &mut Outputs, entries: u32) {
    for i in 0..entries {
        let number = u64::from(chosen(i, entries));
        if outputs.live(number) {
            outputs.spend(number);
        }
    }
}

// Bytes of the index and its records for each entry.
const ENTRY: usize = 264;

// Two searches for each entry by bare reads over as many bytes as the index takes.
fn search_bare(words: &[u64], levels: u32, entries: u32) -> u64 {
    let mut seen = 0;
    for i in 0..entries {
        seen ^= descend(words, levels, u64::from(i));
        seen ^= descend(words, levels, !seen);
    }
    seen
}

fn measure_bare<R: CpuClock + Print>(rt: &R, alloc: Global, entries: u32) -> io::Result<()> {
    let words = vec![in alloc; 0u64; entries as usize * (ENTRY / 8)]?;
    let levels = (entries.max(1).ilog2() + 2) / 3;
    let mut watch = Stopwatch::start(rt)?;
    let seen = search_bare(&words, levels, entries);
    let time = watch.lap(rt)?;
    println!(rt;
        "  two searches of {levels} bare reads over as many bytes: {} ns; {seen}",
        time.as_nanos() / u128::from(entries).max(1)
    )
}

fn measure<R: CpuClock + Print>(rt: &R, alloc: Global, entries: u32) -> io::Result<()> {
    let mut outputs = Outputs::new(alloc);
    let mut watch = Stopwatch::start(rt)?;
    let added = insert_all(alloc, &mut outputs, entries);
    let adding = watch.lap(rt)?;
    if added.is_err() {
        return println!(rt; "{entries} outputs: no memory");
    }
    let seen = find_all(&outputs, entries);
    let finding = watch.lap(rt)?;
    spend_all(&mut outputs, entries);
    let spending = watch.lap(rt)?;
    let count = u128::from(entries);
    println!(rt;
        "{entries} outputs: insert {} ns, newest {} ns, spend {} ns; {seen}",
        adding.as_nanos() / count.max(1),
        finding.as_nanos() / count.max(1),
        spending.as_nanos() / count.max(1)
    )
}
