//! Numbers of the forest from tables that were made by hand, and a walk over all places.
use forest_place::{
    Naming, Place, children, parent, parent_position, place_of, position, root_place, rows,
    sibling, slot_of,
};
use std::test::Fail;

/// How many rows a forest of so many entries has.
const ROWS: [(u64, u8); 11] = [
    (0, 0),
    (1, 0),
    (2, 1),
    (3, 2),
    (4, 2),
    (5, 3),
    (6, 3),
    (8, 3),
    (9, 4),
    (100, 7),
    ((1 << 40) - 1, 40),
];

#[test]
fn counts_rows(rt: HostRuntime) {
    for (n, want) in ROWS {
        assert!(rt; n < 1 << 40);
        assert!(rt; rows(n) == want);
    }
}

/// Where the rows of a forest begin: its entries, a row, and the position.
const STARTS: [(u64, u8, u64); 21] = [
    (1, 0, 0),
    (4, 0, 0),
    (4, 1, 4),
    (4, 2, 6),
    (5, 0, 0),
    (5, 1, 8),
    (5, 2, 12),
    (6, 0, 0),
    (6, 1, 8),
    (6, 2, 12),
    (8, 0, 0),
    (8, 1, 8),
    (8, 2, 12),
    (8, 3, 14),
    (100, 0, 0),
    (100, 1, 128),
    (100, 2, 192),
    (100, 3, 224),
    (100, 4, 240),
    (100, 5, 248),
    (100, 6, 252),
];

#[test]
fn begins_rows(rt: HostRuntime) {
    for (n, row, start) in STARTS {
        assert!(rt; n < 1 << 40 && row < 40 && n >> row > 0);
        assert!(rt; position(Place { row, off: 0 }, n) == start);
    }
}

/// Roots: the entries, the row, the offset and the position.
const ROOTS: [(u64, u8, u64, u64); 10] = [
    (1, 0, 0, 0),
    (4, 2, 0, 6),
    (5, 2, 0, 12),
    (5, 0, 4, 4),
    (6, 2, 0, 12),
    (6, 1, 2, 10),
    (8, 3, 0, 14),
    (100, 6, 0, 252),
    (100, 5, 2, 250),
    (100, 2, 24, 216),
];

#[test]
fn numbers_slots(rt: HostRuntime) {
    for (n, row, off, want) in ROOTS {
        assert!(rt; n < 1 << 40 && row < 40 && (n >> row) % 2 == 1 && off < n >> row);
        let place = Place { row, off };
        assert!(rt; root_place(row, n) == place);
        assert!(rt; slot_of(place, n) == Some(row));
        assert!(rt; position(place, n) == want);
    }
}

/// A version, the entries, a row, an offset, and the number that names the place.
const NAMES: [(u8, u64, u8, u64, u64); 10] = [
    (1, 4, 1, 0, 4),
    (2, 4, 1, 0, 1_099_511_627_776),
    (1, 5, 2, 0, 12),
    (2, 5, 2, 0, 1_649_267_441_664),
    (1, 100, 0, 99, 99),
    (2, 100, 0, 99, 99),
    (1, 100, 5, 2, 250),
    (2, 100, 5, 2, 2_130_303_778_818),
    // The highest tree of the largest forest.
    (1, (1 << 40) - 1, 39, 0, 2_199_023_255_548),
    (2, (1 << 40) - 1, 39, 0, 2_199_023_255_548),
];

#[test]
fn names_places(rt: HostRuntime) -> Result<(), Fail> {
    for (version, n, row, off, number) in NAMES {
        assert!(rt; n < 1 << 40 && row < 40 && off < n >> row);
        let naming = Naming::of_version(version).ok_or("a version")?;
        let place = Place { row, off };
        assert!(rt; naming.number(place, n) == number);
        assert!(rt; naming.place(number, n) == Some(place));
    }
    Ok(())
}

#[test]
fn other_versions_name_nothing(rt: HostRuntime) {
    for version in [0, 3, 9, 255] {
        assert!(rt; Naming::of_version(version).is_none());
    }
}

#[test]
fn steps_to_neighbours(rt: HostRuntime) {
    let place = Place { row: 2, off: 5 };
    let (left, right) = children(place);
    assert!(rt; parent(place) == (Place { row: 3, off: 2 }));
    assert!(rt; sibling(place) == (Place { row: 2, off: 4 }));
    assert!(rt; sibling(sibling(place)) == place);
    assert!(rt; left == (Place { row: 1, off: 10 }));
    assert!(rt; right == (Place { row: 1, off: 11 }));
}

/// Positions among eight entries, and those of their parents.
const PARENTS: [(u64, u64); 6] = [(0, 8), (2, 9), (7, 11), (8, 12), (11, 13), (12, 14)];

#[test]
fn numbers_parents(rt: HostRuntime) {
    for (number, want) in PARENTS {
        assert!(rt; parent_position(number, 3) == want);
    }
}

#[test]
fn walks_all_places(rt: HostRuntime) {
    for n in 0..=300 {
        let mut before = None;
        for row in 0..9 {
            for off in 0..n >> row {
                let place = Place { row, off };
                let number = position(place, n);
                assert!(rt; place_of(number, n) == Some(place));
                assert!(rt; before < Some((number, place)));
                before = Some((number, place));
            }
        }
        for number in 0..1100 {
            if let Some(place) = place_of(number, n) {
                assert!(rt; position(place, n) == number);
            }
        }
    }
}
