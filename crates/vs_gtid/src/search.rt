//! Where a GTID stands among the intervals of a set.
ghost use Rattle.std.specs.Prelude.{◌≡◌, ◌≤◌, length};
ghost use Rattle.vs_gtid.specs.Joins.{place, stands_before};
ghost use Rattle.vs_gtid.specs.Positions.{has, IsCanonical};

use crate::Interval;
use vs_base::Gtid;

/// Whether one of the intervals contains the GTID. The search halves them, since they are in order.
pub(crate) fn holds(intervals: &[Interval], gtid: &Gtid) -> bool
    requires { IsCanonical intervals.now }
    ensures { result ≡ has intervals.now gtid.now }
{
    let single = Interval::alone(*gtid);
    let at = place_in(intervals, &single);
    at < intervals.len() && intervals[at].contains(gtid)
}

/// How many intervals stand before this one.
fn place_in(intervals: &[Interval], single: &Interval) -> usize
    requires { IsCanonical intervals.now }
    ensures place { result ≡ place single.now intervals.now }
    ensures within { result ≤ length intervals.now }
{
    intervals.partition_point(
        |interval: &Interval| -> bool
            ensures { result ≡ stands_before interval.now single.entry.now }
        { interval.stands_before(single) },
    )
}
