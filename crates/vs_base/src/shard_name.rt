ghost use Rattle.std.specs.Prelude.{◌≡◌, ◌≤◌, IfOk, MatchOption, length};

use crate::{OutOfMemory, Text};
use std::alloc::Global;

/// A shard of a keyspace, in the order of keyspaces and then of shards. Each part has at most
/// 64 bytes.
#[derive(Debug, Drop, PartialEq, Eq, PartialOrd, Ord, Hash)]
pub struct ShardName {
    pub keyspace: Text,
    pub shard: Text,
    pub ghost keyspace_fits: { length keyspace ≤ 64 },
    pub ghost shard_fits: { length shard ≤ 64 },
}

impl ShardName {
    ghost use Rattle.vs_base.specs.Names.{same_name, FitsName};

    /// The name of these parts, or none where one of them has over 64 bytes.
    pub fn new(keyspace: Text, shard: Text) -> Option<ShardName>
        ensures { MatchOption result (¬ FitsName keyspace shard) (λ n. (n.keyspace ≡ keyspace) × (n.shard ≡ shard)) }
    {
        if keyspace.as_bytes().len() > 64 || shard.as_bytes().len() > 64 {
            return None;
        }
        Some(ShardName { keyspace, shard })
    }

    pub fn copy(&self, alloc: Global) -> Result<ShardName, OutOfMemory>
        ensures { IfOk result (λ n. n ≡ self.now) }
    {
        Ok(ShardName {
            keyspace: self.keyspace.copy(alloc)?,
            shard: self.shard.copy(alloc)?,
        })
    }

    /// Whether the names are equal, as all contracts say it.
    #[tactic(auto, unfolding(crate::specs::Names::same_name))]
    pub fn is_same(&self, other: &ShardName) -> bool
        ensures { result ≡ same_name self.now other.now }
    {
        self == other
    }
}
