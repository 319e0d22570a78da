//! Frames that are written, whole or to a sink that fails.
use super::{GENESIS, GENESIS_HEAD, MESSAGE};
use feed_frame::{put_block, put_proof, put_rollback};
use std::test::Fail;
use uo_base::{MemSink, Net, SinkFault};

#[test]
fn frames(rt: HostRuntime) -> Result<(), Fail> {
    let alloc = rt.alloc();
    let mut sink = MemSink::new(alloc, 64, Vec::new(alloc));
    assert!(rt; put_block(&mut sink, Net::Main, &GENESIS) == Ok(()));
    let mut text = Vec::from_slice(alloc, GENESIS_HEAD)?;
    text.extend_from_slice(&GENESIS)?;
    assert!(rt; sink.held() == text.as_slice());
    let mut sink = MemSink::new(alloc, 3, Vec::new(alloc));
    assert!(rt; put_proof(&mut sink, MESSAGE) == Ok(()));
    assert!(rt; put_rollback(&mut sink, 258) == Ok(()));
    assert!(rt; put_block(&mut sink, Net::Regtest, b"") == Ok(()));
    assert!(rt;
        sink.held()
            == b"UTXP\x05\0\0\0\x01\0\0\0\x07UTXR\x04\0\0\0\x02\x01\0\0\xfa\xbf\xb5\xda\0\0\0\0".as_slice()
    );
    let mut sink = MemSink::new(alloc, 3, Vec::from_slice(alloc, &[4])?);
    assert!(rt; put_proof(&mut sink, MESSAGE) == Err(SinkFault::Failed));
    assert!(rt; sink.held() == b"UTXP\x05\0\0\0".as_slice());
    Ok(())
}
