use std::rt::Clock as SystemClock;
use std::time::SystemTime;
use vs_outside::Clock;

/// The system's time, in seconds since 1970. Where the system refuses, it is the last answer
/// again, or 0 where there is none. It tells no answers.
#[derive(Drop)]
pub struct HostClock<R: SystemClock + Drop> {
    rt: R,
    last: u64,
}

impl<R: SystemClock + Drop> HostClock<R> {
    pub fn new(rt: R) -> HostClock<R> {
        HostClock { rt, last: 0 }
    }
}

impl<R: SystemClock + Drop> Clock for HostClock<R> {
    ghost use Rattle.std.specs.Prelude.{None};

    ghost answers = { λ _. None };

    fn now(&mut self) -> u64 {
        if let Ok(time) = SystemTime::now(&self.rt) {
            if let Ok(since) = time.duration_since(SystemTime::UNIX_EPOCH) {
                self.last = since.as_secs();
            }
        }
        self.last
    }
}
