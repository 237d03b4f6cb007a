//! The union of two sets.
ghost use Rattle.std.specs.Prelude.{◌≡◌, ◌⊎◌, ◌++◌, IfOk};
ghost use Rattle.vs_gtid.specs.Joins.{limited, united};
ghost use Rattle.vs_gtid.specs.Positions.{IsPosition};

use crate::merge::merge;
use crate::{GtidRefusal, GtidSet, Interval, OutOfMemory};
use std::alloc::Global;

impl GtidSet {
    /// The set of the GTIDs of both.
    #[tactic(auto, unfolding(crate::specs::Joins::united))]
    pub fn union(&self, alloc: Global, other: &GtidSet) -> Result<GtidSet, GtidRefusal>
        ensures united { (result ≡ Err GtidRefusal.Memory) ⊎ (result ≡ limited (united self.now other.now)) }
        ensures position { IfOk result (λ s. IsPosition s) }
        ensures left { IsPosition self.now }
        ensures right { IsPosition other.now }
    {
        let (left, right) = (self.intervals.as_slice(), other.intervals.as_slice());
        merge(alloc, chained(alloc, left, right)?)
    }
}

fn chained(
    alloc: Global,
    left: &[Interval],
    right: &[Interval],
) -> Result<Vec<Interval>, OutOfMemory>
    ensures { IfOk result (λ v. v.items ≡ left.now ++ right.now) }
{
    let mut intervals = Vec::from_slice(alloc, left)?;
    intervals.extend_from_slice(right)?;
    Ok(intervals)
}
