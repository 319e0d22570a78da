//! Each call once, outpoints that stand more than once, and many outpoints that differ in their last bytes alone.
ghost use Rattle.std.specs.Prelude.{ℕ, ◌+◌, ◌≤◌, length, OnOk};
ghost use Rattle.output_index.specs.Held.{IsAbove};

mod pages;
mod short_lists;

use leaf_record::{Record, RecordView};
use output_index::{OutputName, Outputs};
use std::alloc::{AllocError, Global};
use std::process::Abort;
use std::test::Fail;
use uo_base::NoMemory;
use uo_digest::Digest;

const MANY: u32 = 400_000;

/// A txid that differs from others of its kind in its last four bytes alone.
fn txid_of(kind: u8, number: u32) -> Digest {
    let [a, b, c, d] = number.to_le_bytes();
    let mut id = [kind; 32];
    id[28] = a;
    id[29] = b;
    id[30] = c;
    id[31] = d;
    Digest(id)
}

fn record_of(alloc: Global, txid: Digest, index: u32) -> Result<Record, AllocError> {
    Ok(Record {
        block: Digest([1; 32]),
        txid,
        index,
        height: 7,
        coinbase: true,
        amount: 5,
        script: vec![in alloc; 0x51]?,
    })
}

fn name_of(txid: Digest, index: u32) -> OutputName {
    OutputName { txid, index }
}

#[test]
fn finds_the_newest(rt: HostRuntime) -> Result<(), Fail> {
    let first = txid_of(2, 0);
    let second = txid_of(2, 1);
    let mut outputs = Outputs::new(rt.alloc());
    assert!(rt; outputs.newest(&first, 0).is_none());
    assert!(rt; outputs.output(0).is_none());
    outputs.insert(3, record_of(rt.alloc(), first, 0)?)?;
    outputs.insert(5, record_of(rt.alloc(), second, 9)?)?;
    assert!(rt; outputs.newest(&first, 0) == Some(3));
    assert!(rt; outputs.newest(&second, 9) == Some(5));
    assert!(rt; outputs.newest(&second, 0).is_none());
    assert!(rt; outputs.live(3) && outputs.live(5) && !outputs.live(4));
    let output = outputs.output(5).ok_or("held")?;
    assert!(rt; output.txid == second && output.index == 9 && output.amount == 5);
    assert!(rt; output.script == [0x51].as_slice());
    Ok(())
}

/// What is told of many outpoints is told in their order.
#[test]
fn finds_all_at_once(rt: HostRuntime) -> Result<(), Fail> {
    let first = txid_of(2, 0);
    let second = txid_of(2, 1);
    let mut outputs = Outputs::new(rt.alloc());
    outputs.insert(3, record_of(rt.alloc(), first, 0)?)?;
    outputs.insert(5, record_of(rt.alloc(), second, 9)?)?;
    outputs.insert(6, record_of(rt.alloc(), first, 0)?)?;
    let names = [name_of(second, 9), name_of(second, 0), name_of(first, 0)];
    let found = outputs.newest_of_all(rt.alloc(), names.as_slice())?;
    assert!(rt; found.as_slice() == [Some(5), None, Some(6)].as_slice());
    Ok(())
}

#[test]
fn finds_what_is_left(rt: HostRuntime) -> Result<(), Fail> {
    let first = txid_of(2, 0);
    let second = txid_of(2, 1);
    let mut outputs = Outputs::new(rt.alloc());
    outputs.insert(3, record_of(rt.alloc(), first, 0)?)?;
    outputs.insert(5, record_of(rt.alloc(), second, 9)?)?;
    outputs.spend(3);
    assert!(rt; outputs.newest(&first, 0).is_none() && !outputs.live(3));
    assert!(rt; outputs.output(3).is_some());
    outputs.unspend(3);
    assert!(rt; outputs.newest(&first, 0) == Some(3));
    outputs.spend(3);
    outputs.forget(3);
    assert!(rt; outputs.output(3).is_none() && outputs.newest(&first, 0).is_none());
    outputs.take_back(5);
    assert!(rt; outputs.output(5).is_none() && outputs.newest(&second, 9).is_none());
    outputs.insert(5, record_of(rt.alloc(), first, 0)?)?;
    assert!(rt; outputs.newest(&first, 0) == Some(5));
    Ok(())
}

/// Two entries of one outpoint and one of another go at once, and what is added then is the newest.
#[test]
fn forgets_all_at_once(rt: HostRuntime) -> Result<(), Fail> {
    let first = txid_of(2, 0);
    let second = txid_of(2, 1);
    let mut outputs = Outputs::new(rt.alloc());
    outputs.insert(3, record_of(rt.alloc(), first, 0)?)?;
    outputs.insert(5, record_of(rt.alloc(), second, 9)?)?;
    outputs.insert(6, record_of(rt.alloc(), first, 0)?)?;
    outputs.spend(3);
    outputs.spend(5);
    outputs.spend(6);
    outputs.forget_all([6, 3, 5].as_slice());
    assert!(rt;
        outputs.output(3).is_none() && outputs.output(5).is_none() && outputs.output(6).is_none()
    );
    assert!(rt; outputs.newest(&first, 0).is_none() && outputs.newest(&second, 9).is_none());
    outputs.insert(7, record_of(rt.alloc(), first, 0)?)?;
    assert!(rt; outputs.newest(&first, 0) == Some(7));
    Ok(())
}

fn view_of(txid: Digest, index: u32, script: &[u8]) -> RecordView<'_>
    requires { length script.now ≤ 10000 }
{
    RecordView {
        block: Digest([1; 32]),
        txid,
        index,
        height: 7,
        coinbase: true,
        amount: 5,
        script,
    }
}

fn has_script(outputs: &Outputs, number: u64, script: &[u8]) -> bool {
    outputs
        .output(number)
        .is_some_and(|output| output.script == script)
}

/// A script of 40 bytes lies in what is held, and one of 41 does not. What was forgotten leaves its cell to the next one.
#[test]
fn scripts_of_both_kinds(rt: HostRuntime) -> Result<(), Fail> {
    let txid = txid_of(2, 0);
    let short = [0x51; 40];
    let long = [0x52; 41];
    let mut outputs = Outputs::new(rt.alloc());
    outputs.insert_view(0, &view_of(txid, 0, short.as_slice()))?;
    outputs.insert_view(1, &view_of(txid, 1, long.as_slice()))?;
    assert!(rt; has_script(&outputs, 0, short.as_slice()));
    assert!(rt; has_script(&outputs, 1, long.as_slice()));
    outputs.spend(0);
    outputs.forget(0);
    outputs.insert_view(2, &view_of(txid, 2, long.as_slice()))?;
    outputs.spend(1);
    outputs.forget(1);
    outputs.insert_view(3, &view_of(txid, 3, short.as_slice()))?;
    assert!(rt; has_script(&outputs, 2, long.as_slice()));
    assert!(rt; has_script(&outputs, 3, short.as_slice()));
    assert!(rt; outputs.newest(&txid, 0).is_none() && outputs.newest(&txid, 1).is_none());
    assert!(rt; outputs.newest(&txid, 2) == Some(2) && outputs.newest(&txid, 3) == Some(3));
    Ok(())
}

/// Spends a live one.
fn spend(rt: &impl Abort, outputs: &mut Outputs, number: u64)
    ensures { (n : ℕ) → IsAbove n outputs.old → IsAbove n outputs.new }
{
    assert!(rt; outputs.live(number));
    outputs.spend(number);
}

/// Makes a spent one live again.
fn unspend(rt: &impl Abort, outputs: &mut Outputs, number: u64)
    ensures { (n : ℕ) → IsAbove n outputs.old → IsAbove n outputs.new }
{
    assert!(rt; outputs.output(number).is_some());
    assert!(rt; !outputs.live(number));
    outputs.unspend(number);
}

/// Forgets a spent one.
fn forget(rt: &impl Abort, outputs: &mut Outputs, number: u64)
    ensures { (n : ℕ) → IsAbove n outputs.old → IsAbove n outputs.new }
{
    assert!(rt; outputs.output(number).is_some());
    assert!(rt; !outputs.live(number));
    outputs.forget(number);
}

/// Takes the last one back.
fn take_back(rt: &impl Abort, outputs: &mut Outputs, number: u64)
    requires { IsAbove (number + 1) outputs.old }
    ensures { IsAbove number outputs.new }
{
    assert!(rt; outputs.live(number));
    outputs.take_back(number);
}

/// Adds one behind all others.
fn insert(outputs: &mut Outputs, number: u64, leaf: Record) -> Result<(), NoMemory>
    requires { IsAbove number outputs.old }
    ensures { OnOk result (IsAbove (number + 1) outputs.new) }
{
    outputs.insert(number, leaf)
}

#[test]
fn one_outpoint_many_times(rt: HostRuntime) -> Result<(), Fail> {
    let txid = txid_of(2, 0);
    let mut outputs = Outputs::new(rt.alloc());
    for number in 0..1_010 {
        insert(&mut outputs, number, record_of(rt.alloc(), txid, 0)?)?;
    }
    for taken in 0..10 {
        assert!(rt; outputs.newest(&txid, 0) == Some(1_009 - taken));
        take_back(&rt, &mut outputs, 1_009 - taken);
    }
    // The newest is spent each time, which gives back the one before it.
    for spent in 0..1_000 {
        assert!(rt; outputs.newest(&txid, 0) == Some(999 - spent));
        spend(&rt, &mut outputs, 999 - spent);
    }
    assert!(rt; outputs.newest(&txid, 0).is_none());
    for number in 0..1_000 {
        unspend(&rt, &mut outputs, number);
        assert!(rt; outputs.newest(&txid, 0) == Some(number));
    }
    // Those of even numbers are forgotten, wherever they stand.
    for half in 0..500 {
        spend(&rt, &mut outputs, 2 * half);
        forget(&rt, &mut outputs, 2 * half);
        assert!(rt; outputs.newest(&txid, 0) == Some(999));
    }
    for half in 0..500 {
        assert!(rt; outputs.newest(&txid, 0) == Some(999 - 2 * half));
        spend(&rt, &mut outputs, 999 - 2 * half);
    }
    assert!(rt; outputs.newest(&txid, 0).is_none());
    Ok(())
}

#[test]
fn look_ups_do_not_scan(rt: HostRuntime) -> Result<(), Fail> {
    let mut outputs = Outputs::new(rt.alloc());
    for number in 0..MANY {
        insert(
            &mut outputs,
            u64::from(number),
            record_of(rt.alloc(), txid_of(2, number), 0)?,
        )?;
    }
    for number in 0..MANY {
        assert!(rt; outputs.newest(&txid_of(2, number), 0) == Some(u64::from(number)));
    }
    for number in MANY..2 * MANY {
        assert!(rt; outputs.newest(&txid_of(2, number), 0).is_none());
    }
    Ok(())
}

/// A bridge holds at most a hundred spent ones of an outpoint, and a look-up passes them.
#[test]
fn a_hundred_spent_ones_are_passed(rt: HostRuntime) -> Result<(), Fail> {
    let txid = txid_of(2, 0);
    let mut outputs = Outputs::new(rt.alloc());
    for number in 0..MANY {
        let leaf = record_of(rt.alloc(), txid, 0)?;
        insert(&mut outputs, u64::from(number), leaf)?;
    }
    for spent in 0..100 {
        let newest = u64::from(MANY - 1 - spent);
        assert!(rt; outputs.newest(&txid, 0) == Some(newest));
        spend(&rt, &mut outputs, newest);
    }
    for _ in 0..MANY {
        assert!(rt; outputs.newest(&txid, 0) == Some(u64::from(MANY - 101)));
    }
    Ok(())
}

/// Outputs whose places in the index would all be one: six have room in it.
#[test]
fn outpoints_of_one_bucket(rt: HostRuntime) -> Result<(), Fail> {
    let txid = txid_of(2, 0);
    let mut outputs = Outputs::new(rt.alloc());
    for number in 0..1_000u32 {
        let leaf = record_of(rt.alloc(), txid, number << 16)?;
        insert(&mut outputs, u64::from(number), leaf)?;
    }
    for number in 0..1_000u32 {
        assert!(rt; outputs.newest(&txid, number << 16) == Some(u64::from(number)));
        assert!(rt; outputs.newest(&txid, number << 16 | 1).is_none());
    }
    for half in 0..500 {
        spend(&rt, &mut outputs, 2 * half);
        forget(&rt, &mut outputs, 2 * half);
    }
    for half in 0..500u32 {
        assert!(rt; outputs.newest(&txid, half << 17).is_none());
        assert!(rt; outputs.newest(&txid, half << 17 | 1 << 16) == Some(u64::from(2 * half + 1)));
    }
    Ok(())
}
