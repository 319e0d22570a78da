//! States that are read in both versions, written in version 2, and cut off.
ghost use Rattle.std.specs.Prelude.{◌≡◌, ◌<◌};

use super::{genesis, none_kept, one_kept, one_live, start, two_kept};
use crate::most_entries;
use state_text::{StateFault, read_state};
use std::alloc::{AllocError, Global};
use std::marker::Brand;
use std::process::Abort;
use std::sync::ledger::{Blank, Ledger};
use std::test::Fail;
use uo_base::MemSink;
use uo_digest::{Steps, XorFold};

/// A text, what is written of its state, and how much its newest level keeps and holds.
#[derive(Clone, Copy, Drop)]
struct Row<'a>(&'a [u8], &'a [u8], (usize, usize));

/// It is read, this is written of it, and no front of it is a state.
fn check_state<L: Ledger>(
    rt: &impl Abort,
    alloc: Global,
    row: &Row<'_>,
    blank: Blank,
) -> Result<(), Fail>
    requires name { blank.name ≡ L.name }
    requires parts { blank.parts ≡ L.parts }
    requires some { 0 < blank.parts }
{
    let Row(text, written, lists) = *row;
    let mut steps = Steps::<L>::new(blank);
    let state = read_state::<XorFold, L>(alloc, text, most_entries(), &mut steps)?;
    assert!(rt; state.levels.len() < 256 && state.levels.len() > 0);
    let parts = &state.levels[0].parts;
    assert!(rt; (parts.kept.len(), parts.held.len()) == lists);
    let mut sink = MemSink::new(alloc, 7, Vec::new(alloc));
    assert!(rt; state.write(alloc, &mut sink).is_ok());
    assert!(rt; sink.held() == written);
    for cut in 0..text.len() {
        let read = read_state::<XorFold, L>(alloc, &text[..cut], most_entries(), &mut steps);
        assert!(rt; matches!(read, Err(StateFault::NotAState)), "cut {cut}");
    }
    Ok(())
}

/// No state is read from it.
fn check_refused<L: Ledger>(rt: &impl Abort, alloc: Global, text: &[u8], blank: Blank)
    requires name { blank.name ≡ L.name }
    requires parts { blank.parts ≡ L.parts }
    requires some { 0 < blank.parts }
{
    let mut steps = Steps::<L>::new(blank);
    let read = read_state::<XorFold, L>(alloc, text, most_entries(), &mut steps);
    assert!(rt; matches!(read, Err(StateFault::NotAState)));
}

/// The same bytes but for the version.
fn in_version(
    rt: &impl Abort,
    alloc: Global,
    text: &[u8],
    version: u8,
) -> Result<Vec<u8>, AllocError> {
    let mut other = Vec::from_slice(alloc, text)?;
    assert!(rt; other.len() > 4);
    other[4] = version;
    Ok(other)
}

// Where all places are in row 0, both versions name them alike.
#[test]
fn states_whole(rt: HostRuntime) -> Result<(), Fail> {
    let alloc = rt.alloc();
    let texts = [
        (start(alloc)?, (0, 0)),
        (genesis(alloc)?, (0, 0)),
        (two_kept(alloc)?, (2, 3)),
        (none_kept(alloc)?, (0, 0)),
        (one_kept(alloc)?, (1, 3)),
    ];
    for (text, lists) in &texts {
        for version in [1, 2] {
            let told = in_version(&rt, alloc, text, version)?;
            check_state::<Brand>(&rt, alloc, &Row(&told, text, *lists), Blank::new(1))?;
        }
    }
    Ok(())
}

// The root over two entries, (1, 0), has the position 2 and the fixed position 1,099,511,627,776. Each of them names no place of the
// forest in the other version.
#[test]
fn states_of_both_versions(rt: HostRuntime) -> Result<(), Fail> {
    let alloc = rt.alloc();
    let by_position = one_live(alloc, [2, 0, 0, 0, 0, 0, 0, 0])?;
    let by_fixed_position = one_live(alloc, [0, 0, 0, 0, 0, 1, 0, 0])?;
    let texts = [(1, 2, &by_position), (2, 1, &by_fixed_position)];
    for (version, other, text) in texts {
        let told = in_version(&rt, alloc, text, version)?;
        let row = Row(&told, &by_fixed_position, (1, 1));
        check_state::<Brand>(&rt, alloc, &row, Blank::new(1))?;
        let mixed = in_version(&rt, alloc, text, other)?;
        check_refused::<Brand>(&rt, alloc, &mixed, Blank::new(1));
    }
    Ok(())
}
