//! How one GTID comes into the intervals of a set.
ghost use Rattle.std.specs.Prelude.{
  ◌≡◌,
  ◌≤◌,
  ◌<◌,
  ◌⊎◌,
  ◌↔◌,
  ◌++◌,
  length,
  take,
  drop,
  insert,
  slice_index_or,
  false,
  IfErr,
  OnErr,
  OnOk,
};
ghost use Rattle.vs_base.specs.declared.gtid.Gtid.{Gtid};
ghost use Rattle.vs_gtid.specs.Joins.{added, alone, joined, place, stands_before};
ghost use Rattle.vs_gtid.specs.Positions.{IsCanonical};

use crate::{GtidRefusal, Interval};
use vs_base::Gtid;

/// Adds the GTID. The intervals stay at most 1,024, and a refusal leaves them as they were.
#[tactic(auto, unfolding(crate::specs::Joins::added))]
pub(crate) fn add_to(intervals: &mut Vec<Interval>, gtid: Gtid) -> Result<(), GtidRefusal>
    requires canonical { IsCanonical intervals.old.items }
    requires few { length intervals.old.items ≤ 1024 }
    ensures ok { OnOk result (intervals.new.items ≡ added intervals.old.items gtid) }
    ensures canonical { IsCanonical (added intervals.old.items gtid) }
    ensures err { OnErr result (intervals.new.items ≡ intervals.old.items) }
    ensures too_many { (result ≡ Err GtidRefusal.TooManyIntervals) ↔ (1024 < length (added intervals.old.items gtid)) }
    ensures refusals { IfErr result (λ e. (e ≡ GtidRefusal.TooManyIntervals) ⊎ (e ≡ GtidRefusal.Memory)) }
{
    let single = Interval::alone(gtid);
    let at = place_of(intervals.as_slice(), &single);
    if at == intervals.len() || single.stands_before(&intervals[at]) {
        insert_at(intervals, at, single)
    } else {
        merge_at(intervals, at, &single);
        Ok(())
    }
}

/// How many intervals stand before this one. The search begins at the end, where most GTIDs come.
pub(crate) fn place_of(intervals: &[Interval], single: &Interval) -> usize
    requires { IsCanonical intervals.now }
    ensures place { result ≡ place single.now intervals.now }
    ensures within { result ≤ length intervals.now }
    ensures not_behind { result < length intervals.now → stands_before (slice_index_or intervals.now result single.now) single.now ≡ false }
{
    let mut at = intervals.len();
    while at > 0 && !intervals[at - 1].stands_before(single) {
        at -= 1;
    }
    at
}

fn insert_at(intervals: &mut Vec<Interval>, at: usize, single: Interval) -> Result<(), GtidRefusal>
    requires { at ≤ length intervals.old.items }
    ensures ok { OnOk result (intervals.new.items ≡ insert intervals.old.items at single) }
    ensures err { OnErr result (intervals.new.items ≡ intervals.old.items) }
    ensures too_many { (result ≡ Err GtidRefusal.TooManyIntervals) ↔ (1024 ≤ length intervals.old.items) }
    ensures refusals { IfErr result (λ e. (e ≡ GtidRefusal.TooManyIntervals) ⊎ (e ≡ GtidRefusal.Memory)) }
{
    if intervals.len() >= 1024 {
        return Err(GtidRefusal::TooManyIntervals);
    }
    intervals.insert(at, single)?;
    Ok(())
}

/// Makes one interval of this one, the interval at its place, which meets it, and the next where that
/// meets it too.
fn merge_at(intervals: &mut Vec<Interval>, at: usize, single: &Interval)
    requires canonical { IsCanonical intervals.old.items }
    requires within { at < length intervals.old.items }
    requires one { single.now.first ≡ single.now.last }
    requires not_before { stands_before single.now (slice_index_or intervals.old.items at single.now) ≡ false }
    requires not_behind { stands_before (slice_index_or intervals.old.items at single.now) single.now ≡ false }
    ensures joined { intervals.new.items ≡ take at intervals.old.items ++ joined single.now (drop at intervals.old.items) }
    ensures no_longer { length intervals.new.items ≤ length intervals.old.items }
{
    let hull = single.hull(&intervals[at]);
    if at + 1 < intervals.len() && !hull.stands_before(&intervals[at + 1]) {
        intervals[at + 1] = hull.hull(&intervals[at + 1]);
        intervals.remove(at);
    } else {
        intervals[at] = hull;
    }
}
