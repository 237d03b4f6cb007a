ghost use Rattle.std.specs.Prelude.{◌≡◌, ◌≤◌, ◌<◌, ◌⊎◌, ◌↔◌, [], length, IfErr, IfOk, OnErr, OnOk};

use crate::add::add_to;
use crate::search::holds;
use crate::{GtidRefusal, Interval, OutOfMemory};
use std::alloc::Global;
use std::marker::Model;
use vs_base::Gtid;

/// A finite set of GTIDs: a position of a shard's log. Its intervals are kept in the one canonical
/// order, so equal sets are equal values. There are at most 1,024 of them.
#[derive(Debug, Drop)]
pub struct GtidSet {
    pub(crate) intervals: Vec<Interval>,
}

impl Model for GtidSet {
    ghost use Rattle.std.specs.Prelude.{List};
    ghost use Rattle.vs_gtid.specs.declared.interval.Interval.{Interval};
    ghost use Rattle.vs_gtid.specs.Positions.{IsPosition};

    ghost Value = { List Interval };

    ghost view = { λ s. s.intervals.items };

    ghost invariant = { λ s. IsPosition s.intervals.items };
}

impl GtidSet {
    ghost use Rattle.vs_gtid.specs.Joins.{added};
    ghost use Rattle.vs_gtid.specs.Positions.{IsCanonical, IsPosition, has};

    /// The empty set.
    pub fn new(alloc: Global) -> GtidSet
        ensures empty { result ≡ [] }
        ensures position { IsPosition result }
    {
        GtidSet {
            intervals: Vec::new(alloc),
        }
    }

    /// Whether the GTID is in the set.
    pub fn contains(&self, gtid: &Gtid) -> bool
        ensures has { result ≡ has self.now gtid.now }
        ensures position { IsPosition self.now }
    {
        holds(self.intervals.as_slice(), gtid)
    }

    /// How many intervals the set has.
    pub fn intervals(&self) -> usize
        ensures count { result ≡ length self.now }
        ensures canonical { IsCanonical self.now }
        ensures few { length self.now ≤ 1024 }
    {
        self.intervals.len()
    }

    pub fn copy(&self, alloc: Global) -> Result<GtidSet, OutOfMemory>
        ensures same { IfOk result (λ s. s ≡ self.now) }
        ensures position { IfOk result (λ s. IsPosition s) }
    {
        Ok(GtidSet {
            intervals: Vec::from_slice(alloc, self.intervals.as_slice())?,
        })
    }

    /// Adds the GTID. The next number of the last interval takes constant time and no memory.
    pub fn add(&mut self, gtid: Gtid) -> Result<(), GtidRefusal>
        ensures ok { OnOk result (self.new ≡ added self.old gtid) }
        ensures err { OnErr result (self.new ≡ self.old) }
        ensures too_many { (result ≡ Err GtidRefusal.TooManyIntervals) ↔ (1024 < length (added self.old gtid)) }
        ensures refusals { IfErr result (λ e. (e ≡ GtidRefusal.TooManyIntervals) ⊎ (e ≡ GtidRefusal.Memory)) }
        ensures before { IsPosition self.old }
        ensures position { IsPosition self.new }
    {
        add_to(&mut self.intervals, gtid)
    }
}
