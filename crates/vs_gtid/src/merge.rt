//! One canonical set of many intervals.
ghost use Rattle.std.specs.Prelude.{◌≡◌, ◌<◌, ◌⊎◌, ◌||◌, length, All, IfErr, IfOk, OnOk};
ghost use Rattle.vs_base.specs.declared.gtid.Gtid.{Gtid};
ghost use Rattle.vs_gtid.specs.declared.interval.Interval.{Interval};
ghost use Rattle.vs_gtid.specs.Joins.{joined, limited, merged, AreInOrder, LastBeginsBy};
ghost use Rattle.vs_gtid.specs.Positions.{has, is_within, IsCanonical, IsInterval, IsPosition, SameSet};

use crate::{GtidRefusal, GtidSet, Interval};
use std::alloc::Global;

/// The set of the GTIDs of all the intervals, which may stand in any order and overlap.
pub(crate) fn merge(alloc: Global, mut intervals: Vec<Interval>) -> Result<GtidSet, GtidRefusal>
    requires { All IsInterval intervals.items }
    ensures merged { (result ≡ Err GtidRefusal.Memory) ⊎ (result ≡ limited (merged intervals.items)) }
    ensures position { IfOk result (λ s. IsPosition s) }
{
    intervals.sort_unstable();
    let merged = merge_sorted(alloc, intervals.as_slice())?;
    if merged.len() > 1024 {
        return Err(GtidRefusal::TooManyIntervals);
    }
    Ok(GtidSet { intervals: merged })
}

fn merge_sorted(alloc: Global, intervals: &[Interval]) -> Result<Vec<Interval>, GtidRefusal>
    requires intervals { All IsInterval intervals.now }
    requires in_order { AreInOrder intervals.now }
    ensures canonical { IfOk result (λ v. IsCanonical v.items) }
    ensures members { IfOk result (λ v. SameSet v.items intervals.now) }
    ensures refusals { IfErr result (λ e. e ≡ GtidRefusal.Memory) }
{
    let mut merged = Vec::new(alloc);
    for interval in intervals {
        append(&mut merged, interval)?;
    }
    Ok(merged)
}

fn append(merged: &mut Vec<Interval>, interval: &Interval) -> Result<(), GtidRefusal>
    requires interval { IsInterval interval.now }
    requires canonical { IsCanonical merged.old.items }
    requires in_order { LastBeginsBy merged.old.items interval.now }
    ensures joined { OnOk result (merged.new.items ≡ joined interval.now merged.old.items) }
    ensures last { OnOk result (LastBeginsBy merged.new.items interval.now) }
    ensures refusals { IfErr result (λ e. e ≡ GtidRefusal.Memory) }
{
    let held = merged.len();
    if held == 0 || merged[held - 1].stands_before(interval) {
        merged.push(*interval)?;
    } else {
        merged[held - 1] = interval.hull(&merged[held - 1]);
    }
    Ok(())
}
