ghost use Rattle.std.specs.Prelude.{◌≡◌};

use crate::Interval;

/// The greatest number of a GTID.
const GREATEST: u64 = 0x7fff_ffff_ffff_fffe;

/// A span of a set's text: its interval, whose numbers may be out of order or out of range, and the
/// places of the two numbers. A span of one number has that number twice.
#[derive(Debug, Clone, Copy)]
pub(crate) struct Span {
    pub(crate) interval: Interval,
    pub(crate) first_at: usize,
    pub(crate) last_at: usize,
}

impl Span {
    ghost use Rattle.vs_gtid.specs.Readings.{empty_at, over_at, zero_at};

    /// The place of its number over the greatest.
    pub(crate) fn over_at(&self) -> Option<usize>
        ensures { result ≡ over_at self.now }
    {
        if self.interval.first > GREATEST {
            Some(self.first_at)
        } else if self.interval.last > GREATEST {
            Some(self.last_at)
        } else {
            None
        }
    }

    /// The place of its number 0.
    pub(crate) fn zero_at(&self) -> Option<usize>
        ensures { result ≡ zero_at self.now }
    {
        if self.interval.first == 0 {
            Some(self.first_at)
        } else if self.interval.last == 0 {
            Some(self.last_at)
        } else {
            None
        }
    }

    /// The place of its last number, where that is below the first.
    pub(crate) fn empty_at(&self) -> Option<usize>
        ensures { result ≡ empty_at self.now }
    {
        (self.interval.last < self.interval.first).then_some(self.last_at)
    }
}
