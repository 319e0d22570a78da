//! Short lists of blocks in order of arrival: each beside a search through all orders of the hashes.

use crate::hash;
use chain_order::{Arrivals, PathFault};
use std::alloc::Global;
use std::process::Abort;
use std::test::Fail;
use uo_base::NoMemory;

/// The hashes 1, 2 and 3, each at most once, in every order.
const ORDERS: [&[u8]; 15] = [
    &[1],
    &[2],
    &[3],
    &[1, 2],
    &[2, 1],
    &[1, 3],
    &[3, 1],
    &[2, 3],
    &[3, 2],
    &[1, 2, 3],
    &[1, 3, 2],
    &[2, 1, 3],
    &[2, 3, 1],
    &[3, 1, 2],
    &[3, 2, 1],
];

/// What is found of a tip.
#[derive(Clone, Copy, Debug, PartialEq, Eq)]
enum Found {
    /// The path is this order.
    Path(&'static [u8]),
    NoTip,
    Missing(u8),
    Loop(u8),
}

/// Which hash the first block of each hash names, 0 for none before it.
#[derive(Clone, Copy)]
struct Named([Option<u8>; 4]);

impl Named {
    fn of(&self, hash: u8) -> Option<u8> {
        self.0.get(hash as usize).copied().flatten()
    }

    // Whether these have arrived, and each but the first names the one before it.
    fn is_linked(&self, order: &[u8]) -> bool {
        let mut before = None;
        for hash in order {
            let named = self.of(*hash);
            if named.is_none() || (before.is_some() && named != before) {
                return false;
            }
            before = Some(*hash);
        }
        true
    }

    // What is found of the last of an order: the path, or why no block can be put before it.
    fn at(&self, order: &'static [u8]) -> Option<Found> {
        if !self.is_linked(order) {
            return None;
        }
        let before = self.of(*order.first()?)?;
        if before == 0 {
            return Some(Found::Path(order));
        }
        if order.contains(&before) {
            return Some(Found::Loop(before));
        }
        match self.of(before) {
            Some(_) => None,
            None => Some(Found::Missing(before)),
        }
    }

    // What is found of a tip, and by how many orders.
    fn search(&self, tip: u8) -> (Found, usize) {
        let mut found = Found::NoTip;
        let mut orders: usize = 0;
        for order in ORDERS {
            if order.last() == Some(&tip) {
                if let Some(at) = self.at(order) {
                    found = at;
                    orders = orders.saturating_add(1);
                }
            }
        }
        (found, orders)
    }
}

// The block with this number: its hash is 1, 2 or 3, and it names one of these or none.
fn block(number: u32) -> (u8, u8) {
    (1 + (number % 3) as u8, (number / 3 % 4) as u8)
}

// Whether the path to a tip is what is found of it.
fn is_answered(arrivals: &Arrivals, tip: u8, found: Found) -> bool {
    match (arrivals.path(&hash(tip)), found) {
        (Ok(numbers), Found::Path(order)) => {
            let mut hashes = order.iter();
            for number in &numbers {
                if *number >= arrivals.len() || arrivals.body(*number).first() != hashes.next() {
                    return false;
                }
            }
            hashes.next().is_none()
        }
        (Err(PathFault::NoTip), Found::NoTip) => true,
        (Err(PathFault::Missing { hash: missing }), Found::Missing(byte)) => missing == hash(byte),
        (Err(PathFault::Loop { hash: again }), Found::Loop(byte)) => again == hash(byte),
        _ => false,
    }
}

// Four blocks arrive, which these numbers give by their digits.
fn check(rt: &impl Abort, alloc: Global, numbers: u32) -> Result<(), NoMemory> {
    let mut arrivals = Arrivals::new(alloc);
    let mut named = Named([None; 4]);
    let mut rest = numbers;
    for _ in 0..4 {
        let (byte, before) = block(rest % 12);
        rest /= 12;
        let is_new = arrivals.add(hash(byte), hash(before), &[byte, before])?;
        assert!(rt; is_new == named.of(byte).is_none(), "{numbers}");
        if is_new {
            if let Some(slot) = named.0.get_mut(byte as usize) {
                *slot = Some(before);
            }
        }
    }
    for tip in 0..4 {
        let (found, orders) = named.search(tip);
        assert!(rt; orders <= 1, "{numbers}");
        assert!(rt; is_answered(&arrivals, tip, found), "{numbers}");
    }
    Ok(())
}

#[test]
fn four_blocks(rt: HostRuntime) -> Result<(), Fail> {
    for numbers in 0..12 * 12 * 12 * 12 {
        check(&rt, rt.alloc(), numbers).ok().ok_or("memory")?;
    }
    Ok(())
}

#[test]
fn no_block(rt: HostRuntime) {
    let arrivals = Arrivals::new(rt.alloc());
    assert!(rt; arrivals.len() == 0);
    assert!(rt; arrivals.path(&hash(1)).err() == Some(PathFault::NoTip));
}

#[test]
fn two_that_name_each_other(rt: HostRuntime) -> Result<(), Fail> {
    let mut arrivals = Arrivals::new(rt.alloc());
    arrivals.add(hash(1), hash(2), b"a").ok().ok_or("memory")?;
    arrivals.add(hash(2), hash(1), b"b").ok().ok_or("memory")?;
    let fault = arrivals.path(&hash(1)).err().ok_or("a path")?;
    assert!(rt; fault == PathFault::Loop { hash: hash(1) });
    Ok(())
}
