use std::alloc::{AllocError, AllocFailed};
use thiserror::Error;
use vs_base::ShardName;

/// Why a vector isn't changed.
#[derive(Debug, Drop, Error)]
pub enum VectorRefusal {
    #[error("the shard doesn't stand in the vector")]
    Absent { name: ShardName },
    #[error("the shard stands in the vector already")]
    Present { name: ShardName },
    /// The vector would have this many shards.
    #[error("{n} shards are too many")]
    TooManyShards { n: usize },
    #[error("too many intervals in a position")]
    TooManyIntervals,
    #[error("out of memory")]
    Memory,
}

impl<T: Drop> From<AllocFailed<T>> for VectorRefusal {
    ghost use Rattle.std.specs.Prelude.{◌≡◌};
    ghost use Rattle.vs_vector.specs.declared.refusal.VectorRefusal.TheVariants.{Memory};

    ghost from_gives = { λ _ e. e ≡ Memory };

    fn from(_failed: AllocFailed<T>) -> VectorRefusal {
        VectorRefusal::Memory
    }
}

impl From<AllocError> for VectorRefusal {
    ghost use Rattle.std.specs.Prelude.{◌≡◌};
    ghost use Rattle.vs_vector.specs.declared.refusal.VectorRefusal.TheVariants.{Memory};

    ghost from_gives = { λ _ e. e ≡ Memory };

    fn from(_error: AllocError) -> VectorRefusal {
        VectorRefusal::Memory
    }
}
