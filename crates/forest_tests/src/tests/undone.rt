//! Rings that run full.
use reorg_undo::{Ring, Undo};
use std::alloc::Global;
use std::test::Fail;
use uo_base::NoMemory;
use uo_digest::Digest;

fn undo_of(alloc: Global, blocks: u32) -> Result<Undo, NoMemory> {
    Ok(Undo {
        blocks,
        tip: Digest([7; 32]),
        leaves: 2 * u64::from(blocks),
        spent: vec![in alloc; u64::from(blocks)]?,
    })
}

#[test]
fn the_last_hundred(rt: HostRuntime) -> Result<(), Fail> {
    let mut ring = Ring::new(rt.alloc())?;
    assert!(rt; ring.pop().is_none());
    for blocks in 0..250 {
        let oldest = ring.push(undo_of(rt.alloc(), blocks)?);
        if blocks < 100 {
            assert!(rt; oldest.is_none());
            assert!(rt; ring.kept() == blocks + 1);
        } else {
            assert!(rt; oldest.is_some_and(|undo| undo.blocks == blocks - 100));
            assert!(rt; ring.kept() == 100);
        }
    }
    for i in 0..100 {
        assert!(rt; i < ring.kept());
        let undo = ring.get(i);
        assert!(rt; undo.blocks == 249 - i);
        assert!(rt; undo.spent.len() == 1);
    }
    for i in 0..100 {
        assert!(rt; ring.pop().is_some_and(|undo| undo.blocks == 249 - i));
    }
    assert!(rt; ring.kept() == 0);
    assert!(rt; ring.pop().is_none());
    Ok(())
}
