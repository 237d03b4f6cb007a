//! A journal that waits, and what is asked of those that have come to it.
ghost use Rattle.std.specs.Prelude.{◌≡◌, ◌++◌, ◌∷◌, [], OnErr, OnOk};
ghost use Rattle.vs_gather.specs.Gathering.{adds_nothing, have_all_arrived};
ghost use Rattle.vs_gtid.specs.Vectors.{is_in};

use crate::OutOfMemory;
use vs_base::{List, ShardName};
use vs_gtid::JournalValue;
use vs_vector::is_among;

/// A journal that waits, and the participants that have come to it, in the order of their arrivals.
#[derive(Debug, Drop)]
pub struct Kept {
    pub journal: JournalValue,
    pub arrived: List<ShardName>,
}

/// What an arrival made of its journal.
#[derive(Debug, Drop)]
pub enum Arrival {
    Waiting,
    Complete(JournalValue),
}

impl Kept {
    /// Another participant has come.
    pub(crate) fn add(&mut self, shard: ShardName) -> Result<(), OutOfMemory>
        ensures journal { self.new.journal ≡ self.old.journal }
        ensures ok { OnOk result (self.new.arrived ≡ self.old.arrived ++ shard ∷ []) }
        ensures err { OnErr result (self.new ≡ self.old) }
    {
        self.arrived.push(shard)
    }
}

/// Whether the shard's arrival adds nothing: it is no participant, or has arrived already.
pub fn adds_nothing(shard: &ShardName, journal: &JournalValue, arrived: &[ShardName]) -> bool
    ensures { result ≡ adds_nothing shard.now journal.now arrived.now }
{
    if is_among(shard, journal.participants.as_slice()) {
        is_among(shard, arrived)
    } else {
        true
    }
}

/// Whether the name is among those that have arrived, or is that of the shard that comes now.
fn has_come(name: &ShardName, shard: &ShardName, arrived: &[ShardName]) -> bool
    ensures { result ≡ is_in name.now (arrived.now ++ shard.now ∷ []) }
{
    is_among(name, arrived) || name.is_same(shard)
}

/// Whether all participants have arrived with this shard.
pub fn is_last(shard: &ShardName, journal: &JournalValue, arrived: &[ShardName]) -> bool
    ensures { result ≡ have_all_arrived journal.now (arrived.now ++ shard.now ∷ []) }
{
    journal
        .participants
        .as_slice()
        .iter()
        .all(|name| has_come(name, shard, arrived))
}
