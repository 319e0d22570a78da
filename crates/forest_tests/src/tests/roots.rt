//! Roots that were computed by hand, by another implementation of SHA-512/256, or by other implementations of the accumulator.
ghost use Rattle.std.specs.Prelude.{◌≡◌, ◌<◌};

use crate::digest;
use forest_roots::{Join, Joins, Roots, pair};
use std::marker::Brand;
use std::process::Abort;
use std::sync::ledger::{Blank, Ledger};
use std::test::Fail;
use uo_digest::{Digest, Digester, Sha512t256, Steps, XorFold, hex_plain};

/// Nine additions by XorFold, where a node has the exclusive or of its leaves: the digest that is added, the digests that
/// are carried on, and the row and the root that it ends in. Eight take seven steps in all, and the ninth takes none.
const NINE: [(u8, &[u8], u8, u8); 9] = [
    (1, &[], 0, 1),
    (2, &[3], 1, 3),
    (4, &[], 0, 4),
    (8, &[12, 15], 2, 15),
    (16, &[], 0, 16),
    (32, &[48], 1, 48),
    (64, &[], 0, 64),
    (128, &[192, 240, 255], 3, 255),
    (1, &[], 0, 1),
];

// Whether the joins carried these digests on, over roots that were not empty.
fn check_joins(rt: &impl Abort, joins: &[Join], carried: &[u8]) {
    assert!(rt; joins.len() == carried.len());
    for (join, byte) in joins.iter().zip(carried) {
        assert!(rt; join.result == digest(*byte));
        assert!(rt; join.left.is_some());
    }
}

fn adds_nine<L: Ledger>(rt: &impl Abort, steps: &mut Steps<L>) {
    let mut roots = Roots::<XorFold>::new();
    let mut joins = Joins::new();
    for (n, (byte, carried, row, root)) in NINE.iter().enumerate() {
        assert!(rt; roots.leaves() == n as u64);
        roots.add_into(digest(*byte), &mut joins, steps);
        check_joins(rt, joins.list(), carried);
        assert!(rt; roots.root(*row) == Some(Some(digest(*root))));
    }
    assert!(rt; roots.root(3) == Some(Some(digest(255))));
    assert!(rt; roots.root(1) == None);
    assert!(rt; roots.copy().root(3) == roots.root(3));
}

// An empty root is joined and listed, and the digest is carried on as it is.
fn joins_an_empty_root<L: Ledger>(rt: &impl Abort, steps: &mut Steps<L>) {
    let mut roots = Roots::<XorFold>::of(5);
    roots.put_root(2, Some(digest(9)));
    roots.put_root(0, None);
    let joins = roots.add(digest(7), steps);
    let join = Join {
        row: 0,
        left: None,
        result: digest(7),
    };
    assert!(rt; joins.list() == [join].as_slice());
    assert!(rt; roots.leaves() == 6);
    assert!(rt; roots.root(0) == None);
    assert!(rt; roots.root(1) == Some(Some(digest(7))));
    assert!(rt; roots.root(2) == Some(Some(digest(9))));
}

// The last entry for which there is room.
fn adds_the_last<L: Ledger>(rt: &impl Abort, steps: &mut Steps<L>) {
    let mut roots = Roots::<XorFold>::of((1 << 40) - 2);
    let joins = roots.add(digest(7), steps);
    assert!(rt; joins.list().is_empty());
    assert!(rt; roots.leaves() == (1 << 40) - 1);
    assert!(rt; roots.root(0) == Some(Some(digest(7))));
    assert!(rt; roots.root(39) == Some(None));
    assert!(rt; roots.root(40) == None);
}

// The left half comes first.
fn puts_left_first<L: Ledger>(rt: &impl Abort, steps: &mut Steps<L>) {
    let mut roots = Roots::<Sha512t256>::new();
    for byte in 1..5 {
        assert!(rt; roots.leaves() < 5);
        let _ = roots.add(digest(byte), steps);
    }
    let low = pair::<Sha512t256, L>(digest(1), digest(2), steps);
    let high = pair::<Sha512t256, L>(digest(3), digest(4), steps);
    let top = pair::<Sha512t256, L>(low, high, steps);
    let want = b"70cecb4f248865cb80bb3d23866d6bf1eefa97e8c82b44940526c1e2d5b4320f";
    assert!(rt; hex_plain(&top) == *want);
    assert!(rt; roots.root(2) == Some(Some(top)));
}

/// The leaves of a test vector of rustreexo and utreexod: the SHA-256 of the one byte 00, of 01, and so on to 07.
const LEAVES: [&[u8; 32]; 8] = [
    b"\x6e\x34\x0b\x9c\xff\xb3\x7a\x98\x9c\xa5\x44\xe6\xbb\x78\x0a\x2c\x78\x90\x1d\x3f\xb3\x37\x38\x76\x85\x11\xa3\x06\x17\xaf\xa0\x1d",
    b"\x4b\xf5\x12\x2f\x34\x45\x54\xc5\x3b\xde\x2e\xbb\x8c\xd2\xb7\xe3\xd1\x60\x0a\xd6\x31\xc3\x85\xa5\xd7\xcc\xe2\x3c\x77\x85\x45\x9a",
    b"\xdb\xc1\xb4\xc9\x00\xff\xe4\x8d\x57\x5b\x5d\xa5\xc6\x38\x04\x01\x25\xf6\x5d\xb0\xfe\x3e\x24\x49\x4b\x76\xea\x98\x64\x57\xd9\x86",
    b"\x08\x4f\xed\x08\xb9\x78\xaf\x4d\x7d\x19\x6a\x74\x46\xa8\x6b\x58\x00\x9e\x63\x6b\x61\x1d\xb1\x62\x11\xb6\x5a\x9a\xad\xff\x29\xc5",
    b"\xe5\x2d\x9c\x50\x8c\x50\x23\x47\x34\x4d\x8c\x07\xad\x91\xcb\xd6\x06\x8a\xfc\x75\xff\x62\x92\xf0\x62\xa0\x9c\xa3\x81\xc8\x9e\x71",
    b"\xe7\x7b\x9a\x9a\xe9\xe3\x0b\x0d\xbd\xb6\xf5\x10\xa2\x64\xef\x9d\xe7\x81\x50\x1d\x7b\x6b\x92\xae\x89\xeb\x05\x9c\x5a\xb7\x43\xdb",
    b"\x67\x58\x6e\x98\xfa\xd2\x7d\xa0\xb9\x96\x8b\xc0\x39\xa1\xef\x34\xc9\x39\xb9\xb8\xe5\x23\xa8\xbe\xf8\x9d\x47\x86\x08\xc5\xec\xf6",
    b"\xca\x35\x87\x58\xf6\xd2\x7e\x6c\xf4\x52\x72\x93\x79\x77\xa7\x48\xfd\x88\x39\x1d\xb6\x79\xce\xda\x7d\xc7\xbf\x1f\x00\x5e\xe8\x79",
];

/// The node above the first two leaves there.
const FIRST_TWO: &[u8; 32] =
    b"\x02\x24\x2b\x37\xd8\xe8\x51\xf1\xe8\x6f\x46\x79\x02\x98\xc7\x09\x7d\xf0\x68\x93\xd6\x22\x6b\x7c\x14\x53\xc2\x13\xe9\x17\x17\xde";

/// The root over all eight.
const ALL_EIGHT: &[u8; 32] =
    b"\xb1\x51\xa9\x56\x13\x9b\xb8\x21\xd4\xef\xfa\x34\xea\x95\xc1\x75\x60\xe0\x13\x5d\x1e\x46\x61\xfc\x23\xce\xdc\x3a\xf4\x9d\xac\x42";

fn agrees_with_others<L: Ledger>(rt: &impl Abort, steps: &mut Steps<L>) {
    let mut roots = Roots::<Sha512t256>::new();
    for (n, leaf) in LEAVES.iter().enumerate() {
        assert!(rt; roots.leaves() == n as u64);
        let _ = roots.add(Digest(**leaf), steps);
        if n == 1 {
            assert!(rt; roots.root(1) == Some(Some(Digest(*FIRST_TWO))));
        }
    }
    assert!(rt; roots.root(3) == Some(Some(Digest(*ALL_EIGHT))));
}

fn check_all<L: Ledger>(rt: &impl Abort, blank: Blank)
    requires name { blank.name ≡ L.name }
    requires parts { blank.parts ≡ L.parts }
    requires some { 0 < blank.parts }
{
    let mut steps = Steps::<L>::new(blank);
    adds_nine(rt, &mut steps);
    joins_an_empty_root(rt, &mut steps);
    adds_the_last(rt, &mut steps);
    puts_left_first(rt, &mut steps);
    agrees_with_others(rt, &mut steps);
}

#[test]
fn few_additions(rt: HostRuntime) {
    check_all::<Brand>(&rt, Blank::new(1));
}

// Packed roots come back: of no entry, of five, and of as many as there is room for.
#[test]
fn packed_roots_come_back(rt: HostRuntime) -> Result<(), Fail> {
    let none = Roots::<XorFold>::new().pack(rt.alloc())?.unpack();
    assert!(rt; none.leaves() == 0);
    let mut five = Roots::<XorFold>::of(5);
    five.put_root(2, Some(digest(9)));
    let five = five.pack(rt.alloc())?.unpack();
    assert!(rt; five.root(2) == Some(Some(digest(9))));
    assert!(rt; five.root(1) == None && five.root(0) == Some(None));
    let mut most = Roots::<XorFold>::of((1 << 40) - 1);
    most.put_root(39, Some(digest(7)));
    let most = most.pack(rt.alloc())?.unpack();
    assert!(rt; most.root(39) == Some(Some(digest(7))));
    assert!(rt; most.root(38) == Some(None));
    Ok(())
}
