ghost use Rattle.std.specs.Prelude.{◌≡◌, ◌≤◌, length, map, true, IfOk};
ghost use Rattle.vs_base.specs.Names.{names_differ};

use crate::{GtidSet, OutOfMemory};
use std::alloc::Global;
use vs_base::{Copied, List, ShardName};

/// A shard that a journal brings in, and the position from which it streams.
#[derive(Debug, Drop)]
pub struct Successor {
    pub name: ShardName,
    pub position: GtidSet,
}

impl Successor {
    pub fn copy(&self, alloc: Global) -> Result<Successor, OutOfMemory>
        ensures { IfOk result (λ s. s ≡ self.now) }
    {
        Ok(Successor {
            name: self.name.copy(alloc)?,
            position: self.position.copy(alloc)?,
        })
    }
}

impl Copied for Successor {
    fn copy(&self, alloc: Global) -> Result<Successor, OutOfMemory> {
        self.copy(alloc)
    }
}

/// What a reshard journal says: that its participants are replaced by its successors. A journal of
/// the kind TABLES (`shards` is false) replaces none. There are at most 64 of each.
#[derive(Debug, Drop)]
pub struct JournalValue {
    pub id: i64,
    pub shards: bool,
    pub participants: List<ShardName>,
    pub successors: List<Successor>,
    pub ghost few_participants: { length participants ≤ 64 },
    pub ghost few_successors: { length successors ≤ 64 },
    pub ghost participants_differ: { names_differ participants ≡ true },
    pub ghost successors_differ: { names_differ (map (λ s. s.name) successors) ≡ true },
}

impl JournalValue {
    pub fn copy(&self, alloc: Global) -> Result<JournalValue, OutOfMemory>
        ensures { IfOk result (λ j. j ≡ self.now) }
    {
        Ok(JournalValue {
            id: self.id,
            shards: self.shards,
            participants: self.participants.copy(alloc)?,
            successors: self.successors.copy(alloc)?,
        })
    }
}
