ghost use Rattle.std.specs.Prelude.{◌≡◌, IfOk};
ghost use Rattle.vs_base.specs.Names.{FitsName};
ghost use Rattle.vs_opening.specs.Asked.{IsNamedBy};

use crate::OutOfMemory;
use std::alloc::Global;
use vs_base::{LastKey, ShardName, Text};
use vs_request::{StartAt, Wanted};

/// A shard that a request asks for, and from where.
#[derive(Debug, Drop)]
pub struct Named {
    pub name: ShardName,
    pub start: StartAt,
    /// The last row that was sent of a copy that goes on.
    pub last_key: Option<LastKey>,
}

fn copy_start(alloc: Global, start: &StartAt) -> Result<StartAt, OutOfMemory>
    ensures { IfOk result (λ copy. copy ≡ start.now) }
{
    Ok(match start {
        StartAt::Fresh => StartAt::Fresh,
        StartAt::Current => StartAt::Current,
        StartAt::At(set) => StartAt::At(set.copy(alloc)?),
    })
}

fn copy_key(alloc: Global, key: &Option<LastKey>) -> Result<Option<LastKey>, OutOfMemory>
    ensures { IfOk result (λ copy. copy ≡ key.now) }
{
    match key {
        Some(key) => Ok(Some(key.copy(alloc)?)),
        None => Ok(None),
    }
}

/// The shard of this name in the entry's keyspace, from the entry's start.
pub fn name_by(alloc: Global, wanted: &Wanted, shard: &Text) -> Result<Named, OutOfMemory>
    requires { FitsName wanted.now.keyspace shard.now }
    ensures { IfOk result (IsNamedBy wanted.now shard.now) }
{
    Ok(Named {
        name: ShardName {
            keyspace: wanted.keyspace.copy(alloc)?,
            shard: shard.copy(alloc)?,
        },
        start: copy_start(alloc, &wanted.start)?,
        last_key: copy_key(alloc, &wanted.last_key)?,
    })
}
