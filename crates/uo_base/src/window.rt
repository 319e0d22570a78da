//! Bytes that were read ahead.
ghost use Rattle.std.specs.Prelude.{◌≡◌, ◌≤◌, ◌++◌, [], length, take, min, OnErr};
ghost use Rattle.std.specs.Io.{ReadsAtMost};
ghost use Rattle.std.specs.Io.KnownBytes.{ReadConsumes};
ghost use Rattle.uo_base.specs.Faults.{CountsRead};

use crate::Failed;
use std::io::Read;

const SIZE: usize = 16_384;

/// Bytes of a reader that are read ahead, so that many small reads make one call of the system. A piece that has room for as many is read into at
/// once.
#[derive(Drop)]
pub struct Window {
    bytes: [u8; SIZE],
    start: usize,
    end: usize,
    ghost ordered: { start ≤ end },
    ghost within: { end ≤ 16384 },
}

impl Window {
    ghost use Rattle.std.specs.Io.KnownBytes.{prepend_known};
    ghost use Rattle.uo_base.specs.Ahead.{ahead, GivesAhead};

    pub fn new() -> Self
        ensures { ahead result ≡ [] }
    {
        Window {
            bytes: [0; SIZE],
            start: 0,
            end: 0,
        }
    }

    /// Gives the next bytes of a reader, of those that were read ahead where there are any. An error is counted.
    pub fn read<T: Read>(
        &mut self,
        reader: &mut T,
        faults: &mut u64,
        into: &mut [u8],
    ) -> Result<usize, Failed>
        ensures bound { ReadsAtMost result into.new }
        // What is held and what the reader tells are one text, and none is given only at its end.
        ensures bytes { ReadConsumes (prepend_known (ahead self.old) (T.remaining reader.old))
            (prepend_known (ahead self.new) (T.remaining reader.new)) result into.new }
        // The same of what is held, also where the reader tells nothing.
        ensures held { GivesAhead (ahead self.old) (ahead self.new) result into.new }
        ensures empty { OnErr result (ahead self.old ≡ []) }
        ensures later { faults.old ≤ faults.new }
        ensures counts { CountsRead result faults.old faults.new }
    {
        if self.start < self.end {
            return Ok(self.give(into));
        }
        if into.len() >= SIZE {
            return counted_read(reader, faults, into);
        }
        self.start = 0;
        self.end = 0;
        self.end = counted_read(reader, faults, &mut self.bytes)?;
        Ok(self.give(into))
    }

    // Gives bytes that were read ahead, as many as there is room for.
    fn give(&mut self, into: &mut [u8]) -> usize
        ensures bound { result ≤ length into.new }
        ensures bytes { ahead self.old ≡ take result into.new ++ ahead self.new }
        ensures count { result ≡ min (length into.old) (length (ahead self.old)) }
    {
        let count = into.len().min(self.end - self.start);
        into[..count].copy_from_slice(&self.bytes[self.start..self.start + count]);
        self.start += count;
        count
    }
}

// One read of a reader, whose error is counted.
fn counted_read<T: Read>(reader: &mut T, faults: &mut u64, into: &mut [u8]) -> Result<usize, Failed>
    ensures bound { ReadsAtMost result into.new }
    ensures bytes { ReadConsumes (T.remaining reader.old) (T.remaining reader.new) result into.new }
    ensures later { faults.old ≤ faults.new }
    ensures counts { CountsRead result faults.old faults.new }
{
    match reader.read(into) {
        Ok(count) => Ok(count),
        Err(_) => {
            *faults = faults.saturating_add(1);
            Err(Failed)
        }
    }
}
