use crate::Clock;
use std::alloc::Global;
use vs_base::OutOfMemory;

/// Times in memory: answered in order, and then the last one again; 0 where there is none.
#[derive(Debug, Drop)]
pub struct MemClock {
    times: Vec<u64>,
    calls: u64,
}

impl MemClock {
    ghost use Rattle.std.specs.Prelude.{◌≡◌, [], IfOk, Some};
    ghost use Rattle.vs_outside.specs.Times.{time_at};

    /// A clock that answered nothing yet.
    pub fn new(alloc: Global, times: &[u64]) -> Result<MemClock, OutOfMemory>
        ensures times { IfOk result (λ c. c.times.items ≡ times.now) }
        ensures answers { IfOk result (λ c. ⟦<MemClock as Clock>⟧.answers c ≡ Some []) }
    {
        Ok(MemClock {
            times: Vec::from_slice(alloc, times)?,
            calls: 0,
        })
    }

    /// The answer to the next call.
    fn next_time(&self) -> u64
        ensures { result ≡ time_at self.now.times.items self.now.calls }
    {
        let Some(last) = self.times.len().checked_sub(1) else {
            return 0;
        };
        self.times[self.calls.min(last as u64) as usize]
    }
}

impl Clock for MemClock {
    ghost use Rattle.vs_outside.specs.Times.{told_answers};

    ghost answers = { λ c. told_answers c.times.items c.calls };

    fn now(&mut self) -> u64 {
        let time = self.next_time();
        self.calls = self.calls.saturating_add(1);
        time
    }
}
