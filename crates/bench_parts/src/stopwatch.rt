//! A watch for measuring.
use std::io;
use std::time::{CpuClock, Duration};

/// Tells the processor time of this thread. What other programs take on the machine is not in it, but for what they push
/// out of the caches.
#[derive(Drop)]
pub struct Stopwatch {
    last: Duration,
}

impl Stopwatch {
    /// An error is one of the clock, here and in `lap`.
    pub fn start<R: CpuClock>(rt: &R) -> io::Result<Stopwatch> {
        let last = rt.thread_cpu_time()?;
        Ok(Stopwatch { last })
    }

    /// The time since the start or the last lap.
    pub fn lap<R: CpuClock>(&mut self, rt: &R) -> io::Result<Duration> {
        let now = rt.thread_cpu_time()?;
        let lap = now.saturating_sub(self.last);
        self.last = now;
        Ok(lap)
    }
}
