//! Watch lists with texts that were worked out by hand.
use leaf_cache::{Watch, WatchFault};
use std::test::Fail;

#[test]
fn reads_a_list(rt: HostRuntime) -> Result<(), Fail> {
    let mut watch = Watch::from_list(rt.alloc(), b"5203\r\n51\nAb0C\n51\nfF")?;
    if watch.scripts() < 10_000 {
        watch.insert(rt.alloc(), &[0x52])?;
    }
    if watch.scripts() < 10_000 {
        watch.insert(rt.alloc(), &[0x52, 0x03])?;
    }
    assert!(rt; watch.scripts() == 5);
    assert!(rt; watch.script(0) == [0x51].as_slice());
    assert!(rt; watch.script(1) == [0x52].as_slice());
    assert!(rt; watch.script(2) == [0x52, 0x03].as_slice());
    assert!(rt; watch.script(3) == [0xab, 0x0c].as_slice());
    assert!(rt; watch.script(4) == [0xff].as_slice());
    assert!(rt; watch.has(&[0xab, 0x0c]));
    assert!(rt; !watch.has(&[0xab]));
    assert!(rt; !watch.has(&[]));
    Ok(())
}

#[test]
fn names_the_first_bad_line(rt: HostRuntime) -> Result<(), Fail> {
    let cases: [(&[u8], u32); 6] = [
        (b"51\n5g\n", 2),
        (b"51\n\n52", 2),
        (b"51\r", 1),
        (b"51\n52\n515", 3),
        (b"\n", 1),
        (b"51\r\r\n", 1),
    ];
    for (text, line) in cases {
        match Watch::from_list(rt.alloc(), text) {
            Ok(_) => assert!(rt; false),
            Err(fault) => assert!(rt; fault == WatchFault::Line(line)),
        }
    }
    Ok(())
}
