ghost use Rattle.std.specs.Prelude.{◌≤◌, length};

use crate::{Failed, Feed, Got};
use vs_base::ShardName;

/// What a read of a feed in memory does.
#[derive(Debug, Clone, Copy, PartialEq, Eq)]
pub enum FeedAnswer {
    /// Gives at most so many bytes; 0 counts as 1. Where nothing is left, it is the end.
    Give(usize),
    /// Has nothing yet, and counts a wait.
    Wait,
    /// Fails, and counts a fault.
    Fail,
}

/// A log in memory. Reads go by a script, one answer each; when it has ended, they give all that
/// fits.
#[derive(Debug, Drop)]
pub struct MemFeed {
    origin: ShardName,
    log: Vec<u8>,
    at: usize,
    script: Vec<FeedAnswer>,
    next: usize,
    faults: u64,
    waits: u64,
    ghost within: { at ≤ length log.items },
}

impl MemFeed {
    ghost use Rattle.std.specs.Prelude.{◌≡◌, ◌≤◌, ◌≢◌, [], Some, Ok, take};
    ghost use Rattle.vs_outside.specs.Reads.{FillsBuffer, GivesNext};
    ghost use Rattle.vs_outside.specs.Scripts.{has_no_failure};

    /// A feed at the front of the log.
    pub fn new(origin: ShardName, log: Vec<u8>, script: Vec<FeedAnswer>) -> MemFeed
        ensures origin { ⟦<MemFeed as Feed>⟧.origin result ≡ origin }
        ensures all { ⟦<MemFeed as Feed>⟧.all result ≡ Some log.items }
        ensures given { ⟦<MemFeed as Feed>⟧.given result ≡ Some [] }
        ensures faults { ⟦<MemFeed as Feed>⟧.faults result ≡ 0 }
        ensures waits { ⟦<MemFeed as Feed>⟧.waits result ≡ 0 }
        ensures sound { ⟦<MemFeed as Feed>⟧.sound result ≡ has_no_failure script.items }
    {
        MemFeed {
            origin,
            log,
            at: 0,
            script,
            next: 0,
            faults: 0,
            waits: 0,
        }
    }

    /// How many reads failed.
    pub fn faults(&self) -> u64
        ensures { result ≡ ⟦<MemFeed as Feed>⟧.faults self.now }
    {
        self.faults
    }

    /// How many reads had nothing yet.
    pub fn waits(&self) -> u64
        ensures { result ≡ ⟦<MemFeed as Feed>⟧.waits self.now }
    {
        self.waits
    }

    fn give(&mut self, most: usize, buf: &mut [u8]) -> Got
        requires { 1 ≤ most }
        ensures keeps { (self.new.origin ≡ self.old.origin) × (self.new.log ≡ self.old.log) × (self.new.script ≡ self.old.script) × (self.new.faults ≡ self.old.faults) × (self.new.waits ≡ self.old.waits) }
        ensures fills { FillsBuffer result buf.new }
        ensures gives { GivesNext result buf.new self.old.log.items (take self.old.at self.old.log.items) (take self.new.at self.new.log.items) }
        ensures gave { result ≢ Got.NotYet }
    {
        let left = self.log.len() - self.at;
        if left == 0 {
            return Got::End;
        }
        let n = most.min(left).min(buf.len());
        buf[..n].copy_from_slice(&self.log[self.at..self.at + n]);
        self.at += n;
        Got::Bytes(n)
    }
}

impl Feed for MemFeed {
    ghost use Rattle.std.specs.Prelude.{Some, ◌&&◌, ◌==◌, take};
    ghost use Rattle.vs_outside.specs.Scripts.{has_no_failure, has_no_faults};

    ghost origin = { λ f. f.origin };

    ghost all = { λ f. Some f.log.items };

    ghost given = { λ f. Some (take f.at f.log.items) };

    ghost faults = { λ f. f.faults };

    ghost waits = { λ f. f.waits };

    ghost sound = { λ f. has_no_failure f.script.items && f.faults == 0 };

    ghost no_faults = { λ f sound. has_no_faults (has_no_failure f.script.items) f.faults sound };

    fn read(&mut self, buf: &mut [u8]) -> Result<Got, Failed> {
        let answer = self.script.get(self.next).copied();
        self.next = self.next.saturating_add(1);
        match answer {
            Some(FeedAnswer::Give(n)) => Ok(self.give(n.max(1), buf)),
            Some(FeedAnswer::Wait) => {
                self.waits = self.waits.saturating_add(1);
                Ok(Got::NotYet)
            }
            Some(FeedAnswer::Fail) => {
                self.faults = self.faults.saturating_add(1);
                Err(Failed)
            }
            None => Ok(self.give(usize::MAX, buf)),
        }
    }
}
