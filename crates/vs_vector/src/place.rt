ghost use Rattle.std.specs.Prelude.{◌≡◌, ◌≤◌, ◌<◌, ◌⊎◌, IfErr, IfOk, OnErr, OnOk, length};
ghost use Rattle.vs_gtid.specs.Joins.{added};
ghost use Rattle.vs_gtid.specs.Positions.{IsPosition};
ghost use Rattle.vs_vector.specs.Changes.{limited_place, place_with};
ghost use Rattle.vs_vector.specs.Places.{IsLawfulPlace, entry_place, place_position};

use crate::{OutOfMemory, VectorRefusal};
use std::alloc::Global;
use vs_base::{Gtid, LastKey};
use vs_gtid::{GtidRefusal, GtidSet};

/// Where a shard's stream starts: with a copy of which nothing is sent yet, or at a position.
#[derive(Debug, Drop)]
pub enum Place {
    Fresh,
    At(GtidSet),
}

/// Where a shard's stream goes on, and the last row that was copied of it. A shard that starts fresh
/// has no such row; one that is named there says nothing.
#[derive(Debug, Drop)]
pub struct ShardAt {
    pub start: Place,
    pub last_key: Option<LastKey>,
}

impl ShardAt {
    /// How many intervals the shard's position has.
    pub fn intervals(&self) -> usize
        ensures count { result ≡ length (place_position (entry_place self.now)) }
        ensures lawful { IsLawfulPlace (entry_place self.now) }
    {
        match (&self.start, &self.last_key) {
            (Place::Fresh, _) => 0,
            (Place::At(set), None) => set.intervals(),
            (Place::At(set), Some(_)) => set.intervals(),
        }
    }

    pub fn copy(&self, alloc: Global) -> Result<ShardAt, OutOfMemory>
        ensures { IfOk result (λ at. at ≡ self.now) }
    {
        let last_key = match &self.last_key {
            Some(key) => Some(key.copy(alloc)?),
            None => None,
        };
        match &self.start {
            Place::Fresh => Ok(ShardAt {
                start: Place::Fresh,
                last_key,
            }),
            Place::At(set) => Ok(ShardAt {
                start: Place::At(set.copy(alloc)?),
                last_key,
            }),
        }
    }

    /// Takes the position on by the GTID. The next number of its last interval takes constant time and
    /// no memory.
    pub fn advance(&mut self, alloc: Global, gtid: Gtid) -> Result<(), VectorRefusal>
        ensures ok { OnOk result (limited_place (place_with (entry_place self.old) gtid) ≡ Ok (entry_place self.new)) }
        ensures unchanged { OnErr result (self.new ≡ self.old) }
        ensures err { IfErr result (λ e. (e ≡ VectorRefusal.Memory) ⊎ (limited_place (place_with (entry_place self.old) gtid) ≡ Err e)) }
        ensures lawful { OnOk result (IsLawfulPlace (entry_place self.new)) }
    {
        match &mut self.start {
            Place::At(set) => add_to(set, gtid),
            Place::Fresh => {
                let mut set = GtidSet::new(alloc);
                add_to(&mut set, gtid)?;
                self.start = Place::At(set);
                self.last_key = None;
                Ok(())
            }
        }
    }
}

/// Adds the GTID to the set.
fn add_to(set: &mut GtidSet, gtid: Gtid) -> Result<(), VectorRefusal>
    ensures ok { OnOk result (set.new ≡ added set.old gtid) }
    ensures few { OnOk result (length (added set.old gtid) ≤ 1024) }
    ensures unchanged { OnErr result (set.new ≡ set.old) }
    ensures err { IfErr result (λ e. (e ≡ VectorRefusal.Memory) ⊎ ((e ≡ VectorRefusal.TooManyIntervals) × (1024 < length (added set.old gtid)))) }
    ensures position { IsPosition set.new }
{
    match set.add(gtid) {
        Ok(()) => Ok(()),
        Err(GtidRefusal::TooManyIntervals) => Err(VectorRefusal::TooManyIntervals),
        Err(_) => Err(VectorRefusal::Memory),
    }
}
