use std::alloc::{AllocError, AllocFailed};
use thiserror::Error;
use vs_proto::ProtoRefusal;

/// The first thing that is wrong with a request. An `index` counts the entries from 0.
#[derive(Debug, Drop, Clone, Copy, PartialEq, Eq, Error)]
pub enum RequestRefusal {
    /// The bytes are no message; the inner refusal isn't `Memory`.
    #[error("bad request: {0}")]
    Message(ProtoRefusal),
    #[error("no shards")]
    NoShards,
    #[error("too many shards: {n}")]
    TooManyShards { n: usize },
    /// The keyspace or the shard can't be a name.
    #[error("bad name in entry {index}")]
    BadName { index: usize },
    /// The text of the position is wrong from the byte at this place on.
    #[error("bad position in entry {index} at byte {at}")]
    BadPosition { index: usize, at: usize },
    /// A set of GTIDs stands beside an empty shard.
    #[error("entry {index} needs a shard")]
    NeedsShard { index: usize },
    /// There are two last keys, or there is one without a set of GTIDs.
    #[error("too many keys in entry {index}")]
    TooManyKeys { index: usize },
    /// The name or the cells of a last key are over their limits.
    #[error("long key in entry {index}")]
    LongKey { index: usize },
    #[error("too many rules: {n}")]
    TooManyRules { n: usize },
    #[error("out of memory")]
    Memory,
}

impl From<ProtoRefusal> for RequestRefusal {
    ghost use Rattle.std.specs.Prelude.{◌≡◌};
    ghost use Rattle.vs_request.specs.Refusals.{refusal_of};

    ghost from_gives = { λ why e. e ≡ refusal_of why };

    fn from(why: ProtoRefusal) -> RequestRefusal {
        match why {
            ProtoRefusal::Memory => RequestRefusal::Memory,
            why => RequestRefusal::Message(why),
        }
    }
}

impl From<AllocError> for RequestRefusal {
    ghost use Rattle.std.specs.Prelude.{◌≡◌};
    ghost use Rattle.vs_request.specs.declared.refusal.RequestRefusal.TheVariants.{Memory};

    ghost from_gives = { λ _ e. e ≡ Memory };

    fn from(_error: AllocError) -> RequestRefusal {
        RequestRefusal::Memory
    }
}

impl<T: Drop> From<AllocFailed<T>> for RequestRefusal {
    ghost use Rattle.std.specs.Prelude.{◌≡◌};
    ghost use Rattle.vs_request.specs.declared.refusal.RequestRefusal.TheVariants.{Memory};

    ghost from_gives = { λ _ e. e ≡ Memory };

    fn from(_failed: AllocFailed<T>) -> RequestRefusal {
        RequestRefusal::Memory
    }
}
