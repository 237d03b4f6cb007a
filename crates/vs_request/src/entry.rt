//! What the entries of a request ask for.
ghost use Rattle.std.specs.Prelude.{◌≡◌, ◌⊎◌, ◌≤◌, ◌↔◌, IsTrue, MatchResult, length};
ghost use Rattle.vs_request.specs.Entries.{
  AreWanted,
  HasFirstFault,
  IsFaulty,
  IsWanted,
  LacksShard,
  is_named,
  most_keys,
};

use crate::key::read_last_key;
use crate::start::read_start;
use crate::{RequestRefusal, StartAt, Wanted};
use std::alloc::Global;
use vs_base::Text;
use vs_outside::{names_keyspace, names_shard};
use vs_proto::ShardGtid;

/// Whether the texts name a shard, or all shards of a keyspace.
fn is_named(keyspace: &[u8], shard: &[u8]) -> bool
    ensures { result ≡ is_named keyspace.now shard.now }
{
    names_keyspace(keyspace) && (shard.is_empty() || names_shard(shard))
}

/// Whether there is no shard beside a set.
fn lacks_shard(shard: &Text, start: &StartAt) -> bool
    ensures { IsTrue result ↔ LacksShard shard.now start.now }
{
    match start {
        StartAt::At(_) => shard.as_bytes().is_empty(),
        StartAt::Fresh | StartAt::Current => false,
    }
}

/// How many last keys may stand beside a start.
fn most_keys(start: &StartAt) -> usize
    ensures { result ≡ most_keys start.now }
{
    match start {
        StartAt::At(_) => 1,
        StartAt::Fresh | StartAt::Current => 0,
    }
}

/// What the entry at this index asks for.
fn read_entry(alloc: Global, index: usize, entry: &ShardGtid) -> Result<Wanted, RequestRefusal>
    ensures { MatchResult result (λ wanted. IsWanted entry.now wanted) (λ e. (e ≡ RequestRefusal.Memory) ⊎ IsFaulty index entry.now e) }
{
    if !is_named(entry.keyspace.as_bytes(), entry.shard.as_bytes()) {
        return Err(RequestRefusal::BadName { index });
    }
    let start = read_start(alloc, index, entry.gtid.as_bytes())?;
    if lacks_shard(&entry.shard, &start) {
        return Err(RequestRefusal::NeedsShard { index });
    }
    let keys = entry.table_p_ks.as_slice();
    if keys.len() > most_keys(&start) {
        return Err(RequestRefusal::TooManyKeys { index });
    }
    let last_key = read_last_key(alloc, index, keys)?;
    Ok(Wanted {
        keyspace: entry.keyspace.copy(alloc)?,
        shard: entry.shard.copy(alloc)?,
        start,
        last_key,
    })
}

/// What the entries ask for.
#[tactic(auto, using(crate::proofs::EntryLemmas::next_wanted, crate::proofs::EntryLemmas::memory_or_fault))]
pub(crate) fn read_entries(
    alloc: Global,
    entries: &[ShardGtid],
) -> Result<Vec<Wanted>, RequestRefusal>
    ensures { MatchResult result (λ wanted. AreWanted entries.now wanted.items) (λ e. (e ≡ RequestRefusal.Memory) ⊎ HasFirstFault entries.now e) }
{
    let mut wanted = Vec::new(alloc);
    for (index, entry) in entries.iter().enumerate() {
        wanted.push(read_entry(alloc, index, entry)?)?;
    }
    Ok(wanted)
}
