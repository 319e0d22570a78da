//! Entries of many numbers, and of numbers far apart.
use super::{forget, insert, record_of, spend, txid_of};
use output_index::Outputs;
use std::test::Fail;

/// Whether the output of a number is held, and is the one that was added under it.
fn is_own(outputs: &Outputs, number: u32) -> bool {
    outputs
        .output(u64::from(number))
        .is_some_and(|output| output.index == number)
}

/// Of a thousand entries all but each seventh go, and what is left is found at its number.
#[test]
fn each_seventh_stays(rt: HostRuntime) -> Result<(), Fail> {
    let txid = txid_of(2, 0);
    let mut outputs = Outputs::new(rt.alloc());
    for number in 0..1_000u32 {
        let leaf = record_of(rt.alloc(), txid, number)?;
        insert(&mut outputs, u64::from(number), leaf)?;
    }
    for number in 0..1_000 {
        if number % 7 != 0 {
            spend(&rt, &mut outputs, number);
            forget(&rt, &mut outputs, number);
        }
    }
    for number in 0..1_000u32 {
        assert!(rt; is_own(&outputs, number) == (number % 7 == 0));
        assert!(rt; outputs.live(u64::from(number)) == (number % 7 == 0));
    }
    Ok(())
}

/// An entry at the last number of a page, and one many pages behind it.
#[test]
fn numbers_far_apart(rt: HostRuntime) -> Result<(), Fail> {
    let txid = txid_of(2, 0);
    let mut outputs = Outputs::new(rt.alloc());
    outputs.insert(255, record_of(rt.alloc(), txid, 255)?)?;
    outputs.insert(70_000, record_of(rt.alloc(), txid, 70_000)?)?;
    assert!(rt; is_own(&outputs, 255) && is_own(&outputs, 70_000));
    assert!(rt; outputs.output(254).is_none() && outputs.output(256).is_none());
    assert!(rt; outputs.output(1 << 40).is_none());
    Ok(())
}
