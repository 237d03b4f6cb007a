use crate::{Failed, Sink};
use std::alloc::Global;
use vs_base::OutOfMemory;

/// What a write to a sink in memory does.
#[derive(Debug, Clone, Copy, PartialEq, Eq)]
pub enum SinkAnswer {
    /// Takes at most so many bytes; 0 counts as 1.
    Take(usize),
    /// Takes nothing, and counts a fault.
    Fail,
}

/// Bytes in memory that went out. Writes go by a script, and take all when it has ended. A write
/// that finds no memory fails.
#[derive(Debug, Drop)]
pub struct MemSink {
    sent: Vec<u8>,
    script: Vec<SinkAnswer>,
    next: usize,
    faults: u64,
}

impl MemSink {
    ghost use Rattle.std.specs.Prelude.{◌≡◌, [], IfOk, Some};

    /// A sink that took nothing yet.
    pub fn new(alloc: Global, script: &[SinkAnswer]) -> Result<MemSink, OutOfMemory>
        ensures sent { IfOk result (λ s. ⟦<MemSink as Sink>⟧.sent s ≡ Some []) }
        ensures faults { IfOk result (λ s. ⟦<MemSink as Sink>⟧.faults s ≡ 0) }
    {
        Ok(MemSink {
            sent: Vec::new(alloc),
            script: Vec::from_slice(alloc, script)?,
            next: 0,
            faults: 0,
        })
    }

    /// The bytes that it took.
    pub fn sent(&self) -> &[u8]
        ensures { ⟦<MemSink as Sink>⟧.sent self.now ≡ Some result.now }
    {
        self.sent.as_slice()
    }
}

impl Sink for MemSink {
    ghost use Rattle.std.specs.Prelude.{Some};

    ghost sent = { λ s. Some s.sent.items };

    ghost faults = { λ s. s.faults };

    fn write(&mut self, bytes: &[u8]) -> Result<usize, Failed> {
        let answer = self.script.get(self.next).copied();
        self.next = self.next.saturating_add(1);
        let most = match answer {
            Some(SinkAnswer::Take(n)) => n.max(1),
            Some(SinkAnswer::Fail) => {
                self.faults = self.faults.saturating_add(1);
                return Err(Failed);
            }
            None => usize::MAX,
        };
        let n = most.min(bytes.len());
        if self.sent.extend_from_slice(&bytes[..n]).is_err() {
            self.faults = self.faults.saturating_add(1);
            return Err(Failed);
        }
        Ok(n)
    }
}
