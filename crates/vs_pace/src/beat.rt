//! When a heartbeat is due.
ghost use Rattle.std.specs.Prelude.{◌≡◌, true};
ghost use Rattle.vs_pace.specs.Beats.{IsDue};

/// The seconds between heartbeats, 0 for none, and when the last frame was sent.
#[derive(Debug, Clone, Copy, PartialEq, Eq)]
pub struct Beat {
    pub interval: u64,
    pub last: u64,
}

impl Beat {
    /// The heartbeats of a session that begins now.
    pub fn new(interval: u64, now: u64) -> Beat
        ensures { result ≡ record { interval = interval; last = now } }
    {
        Beat {
            interval,
            last: now,
        }
    }

    /// Whether one is due.
    pub fn due(&self, now: u64) -> bool
        ensures due { result ≡ true → IsDue self.now now }
        ensures all { IsDue self.now now → result ≡ true }
    {
        self.interval != 0 && self.interval <= now.saturating_sub(self.last)
    }

    /// Notes that a frame was sent.
    pub fn sent(&mut self, now: u64)
        ensures { self.new ≡ record self.old { last = now } }
    {
        self.last = now;
    }
}
