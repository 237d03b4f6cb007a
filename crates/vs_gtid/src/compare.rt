//! What one set lacks of another.
ghost use Rattle.std.specs.Prelude.{◌≡◌, ◌<◌, ◌↔◌, true, false, length, IsTrue, MatchOption};
ghost use Rattle.std.specs.List.{HoldsAt};
ghost use Rattle.vs_base.specs.declared.gtid.Gtid.{Gtid};
ghost use Rattle.vs_gtid.specs.Missing.{IsFirstMissing};
ghost use Rattle.vs_gtid.specs.Positions.{has, is_within, IsCanonical, IsInterval, IsPosition, IsSubset};

use crate::{GtidSet, Interval};
use vs_base::Gtid;

impl GtidSet {
    /// Whether each GTID of this set is in the other.
    pub fn is_subset(&self, other: &GtidSet) -> bool
        ensures subset { IsTrue result ↔ IsSubset self.now other.now }
        ensures left { IsPosition self.now }
        ensures right { IsPosition other.now }
    {
        self.first_missing(other).is_none()
    }

    /// The least GTID of this set that the other lacks, by UUID bytes and then by number.
    pub fn first_missing(&self, other: &GtidSet) -> Option<Gtid>
        ensures missing { MatchOption result (IsSubset self.now other.now) (λ g. IsFirstMissing self.now other.now g) }
        ensures left { IsPosition self.now }
        ensures right { IsPosition other.now }
    {
        missing_of(self.intervals.as_slice(), other.intervals.as_slice())
    }
}

fn missing_of(intervals: &[Interval], other: &[Interval]) -> Option<Gtid>
    requires canonical { IsCanonical intervals.now }
    requires other { IsCanonical other.now }
    ensures { MatchOption result (IsSubset intervals.now other.now) (λ g. IsFirstMissing intervals.now other.now g) }
{
    for interval in intervals {
        if let Some(gtid) = missing_in(interval, other) {
            return Some(gtid);
        }
    }
    None
}

/// The least GTID of the interval that the others lack.
fn missing_in(interval: &Interval, other: &[Interval]) -> Option<Gtid>
    requires interval { IsInterval interval.now }
    requires other { IsCanonical other.now }
    ensures whole { MatchOption result ((x : Gtid) → is_within x interval.now ≡ true → has other.now x ≡ true) (λ g. is_within g interval.now ≡ true) }
    ensures missing { MatchOption result (Unit {0}) (λ g. has other.now g ≡ false) }
    ensures least { MatchOption result (Unit {0}) (λ g. (x : Gtid) → is_within x interval.now ≡ true → x.number < g.number → has other.now x ≡ true) }
{
    let start = Gtid {
        uuid: interval.uuid,
        number: interval.first,
    };
    let Some(place) = holder(other, &start) else {
        return Some(start);
    };
    let last = other[place].last;
    if interval.last <= last {
        return None;
    }
    Some(Gtid {
        uuid: interval.uuid,
        number: last + 1,
    })
}

/// The place of the interval that contains the GTID.
#[tactic(auto, unfolding(crate::specs::Positions::has))]
fn holder(intervals: &[Interval], gtid: &Gtid) -> Option<usize>
    ensures { MatchOption result (has intervals.now gtid.now ≡ false) (λ i. HoldsAt (λ x. is_within gtid.now x ≡ true) intervals.now i × (i < length intervals.now)) }
{
    for (place, interval) in intervals.iter().enumerate() {
        if interval.contains(gtid) {
            return Some(place);
        }
    }
    None
}
