//! The entries of a vector, each found by its name.
ghost use Rattle.std.specs.Prelude.{◌≡◌, ◌<◌, ◌++◌, ◌∷◌, [], OnErr, OnOk, Some, false, true, length};
ghost use Rattle.vs_gtid.specs.Vectors.{moved, place_of, stands};
ghost use Rattle.vs_vector.specs.Changes.{IsMade, advanced};
ghost use Rattle.vs_vector.specs.Places.{IsLawfulPlace, IsVector, entry_place, vector_of};

use crate::{OutOfMemory, ShardAt, VectorRefusal};
use indexmap::IndexMap;
use std::alloc::Global;
use std::mem::replace;
use vs_base::{Gtid, ShardName};

/// The entries in the order in which their shards came in.
pub type Entries = IndexMap<ShardName, ShardAt>;

/// Appends an entry of another shard.
pub fn append_entry(entries: &mut Entries, name: ShardName, at: ShardAt) -> Result<(), OutOfMemory>
    requires { stands (vector_of entries.old.entries) name ≡ false }
    ensures ok { OnOk result (vector_of entries.new.entries ≡ vector_of entries.old.entries ++ (name, entry_place at) ∷ []) }
    ensures err { OnErr result (vector_of entries.new.entries ≡ vector_of entries.old.entries) }
    ensures vector { IsLawfulPlace (entry_place at) → length (vector_of entries.old.entries) < 64 → IsVector (vector_of entries.old.entries) → IsVector (vector_of entries.new.entries) }
{
    entries.insert(name, at)?;
    Ok(())
}

/// Puts another entry in the place of a shard's, and hands out the old one.
pub fn exchange_entry(entries: &mut Entries, name: &ShardName, at: ShardAt) -> ShardAt
    requires { stands (vector_of entries.old.entries) name.now ≡ true }
    ensures new { vector_of entries.new.entries ≡ moved (vector_of entries.old.entries) name.now (entry_place at) }
    ensures old { place_of (vector_of entries.old.entries) name.now ≡ Some (entry_place result) }
    ensures vector { IsLawfulPlace (entry_place at) → IsVector (vector_of entries.old.entries) → IsVector (vector_of entries.new.entries) }
{
    match entries.get_mut(name) {
        Some(entry) => replace(entry, at),
        None => at,
    }
}

/// Takes a shard's position on by the GTID.
pub fn advance_entry(
    alloc: Global,
    entries: &mut Entries,
    name: &ShardName,
    gtid: Gtid,
) -> Result<(), VectorRefusal>
    ensures made { IsMade (advanced (vector_of entries.old.entries) name.now gtid) (vector_of entries.old.entries) (vector_of entries.new.entries) result }
    ensures vector { IsVector (vector_of entries.old.entries) → IsVector (vector_of entries.new.entries) }
{
    match entries.get_mut(name) {
        Some(entry) => entry.advance(alloc, gtid),
        None => Err(VectorRefusal::Absent {
            name: name.copy(alloc)?,
        }),
    }
}
