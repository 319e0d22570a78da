//! Files that are written and read again.
ghost use Rattle.std.specs.Prelude.{◌<◌};

use std::alloc::Global;
use std::fs::remove_file;
use std::rt::Files;
use std::test::Fail;
use uo_base::{Failed, FileSink, FileSource, Sink, Source, fill, put_all};

/// More than is read ahead at once, and no multiple of it.
const LONG: u32 = 200_001;

const NAME: &str = "uo_base_ports";

fn pattern(alloc: Global) -> Result<Vec<u8>, Fail> {
    let mut bytes = Vec::new(alloc);
    for i in 0..LONG {
        bytes.push((i % 251) as u8)?;
    }
    Ok(bytes)
}

// Reads the file from its start in pieces of this size, and then its end, and says whether it is as it was written.
fn reads_as_written<R: Files + AllocGlobal>(
    rt: &R,
    written: &[u8],
    size: usize,
) -> Result<bool, Fail>
    requires { 0 < size }
{
    let mut source = FileSource::new(rt, String::from_str(rt.alloc(), NAME)?);
    let mut piece = Vec::new(rt.alloc());
    piece.resize(size, 0)?;
    for expected in written.chunks(size) {
        let count = fill(&mut source, &mut piece);
        if count != Ok(expected.len()) || piece.get(..expected.len()) != Some(expected) {
            return Ok(false);
        }
    }
    Ok(source.read(&mut piece) == Ok(0))
}

fn all_are_read_again<R: Files + AllocGlobal>(rt: &R) -> Result<bool, Fail> {
    let written = pattern(rt.alloc())?;
    let mut sink = FileSink::new(rt, String::from_str(rt.alloc(), NAME)?);
    if put_all(&mut sink, &written) != Ok(()) {
        return Ok(false);
    }
    for size in [1, 3, 4_096, 65_535, 65_536, 65_537, 200_001, 300_000] {
        if !reads_as_written(rt, &written, size)? {
            return Ok(false);
        }
    }
    Ok(true)
}

// The file is removed before anything is asserted, so that none stays, whatever comes.
#[test]
fn files_are_read_again(rt: HostRuntime) -> Result<(), Fail> {
    let outcome = all_are_read_again(&rt);
    let removed = remove_file(&rt, NAME).is_ok();
    assert!(rt; outcome?);
    assert!(rt; removed);
    Ok(())
}

#[test]
fn missing_files_fail(rt: HostRuntime) -> Result<(), Fail> {
    let mut source = FileSource::new(&rt, String::from_str(rt.alloc(), "no_such_file")?);
    for _ in 0..2 {
        assert!(rt; source.read(&mut [0; 4]) == Err(Failed));
    }
    Ok(())
}

#[test]
fn an_empty_piece_makes_no_file(rt: HostRuntime) -> Result<(), Fail> {
    let name = "uo_base_empty_piece";
    let mut sink = FileSink::new(&rt, String::from_str(rt.alloc(), name)?);
    assert!(rt; sink.write(&[]) == Ok(0));
    let mut source = FileSource::new(&rt, String::from_str(rt.alloc(), name)?);
    assert!(rt; source.read(&mut [0; 4]) == Err(Failed));
    Ok(())
}
