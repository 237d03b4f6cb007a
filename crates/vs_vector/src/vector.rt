ghost use Rattle.std.specs.Option.{option_map};
ghost use Rattle.std.specs.Prelude.{◌≡◌, ◌<◌, ◌⊎◌, ◌++◌, ◌∷◌, [], IfErr, IfOk, IsOk, IsTrue, OnErr, OnOk, Some, Ok, Err, false, length, slice_get};
ghost use Rattle.vs_gtid.specs.Vectors.{moved, names, place_of, stands};
ghost use Rattle.vs_vector.specs.Places.{IsVector, entry_place, vector_of};

use crate::entries::{Entries, advance_entry, append_entry, exchange_entry};
use crate::{OutOfMemory, ShardAt, VectorRefusal};
use std::alloc::Global;
use std::marker::Model;
use vs_base::{Gtid, ShardName};

/// The most shards of a vector.
pub(crate) const MOST_SHARDS: usize = 64;

/// How far each shard of a stream has come, by name, in the order in which the shards came in. There
/// are at most 64.
#[derive(Drop)]
pub struct Vector {
    pub(crate) alloc: Global,
    pub(crate) entries: Entries,
}

impl Model for Vector {
    ghost use Rattle.vs_gtid.specs.Vectors.{Vector};
    ghost use Rattle.vs_vector.specs.Places.{IsVector, vector_of};

    ghost Value = { Vector };

    ghost view = { λ v. vector_of v.entries.entries };

    ghost invariant = { λ v. IsVector (vector_of v.entries.entries) };
}

impl Vector {
    ghost use Rattle.vs_vector.specs.Changes.{IsMade, advanced, advanced_place, pushed, set_to};

    pub fn new(alloc: Global) -> Vector
        ensures { result ≡ [] }
    {
        Vector {
            alloc,
            entries: Entries::new(alloc),
        }
    }

    /// How many shards the vector has.
    pub fn len(&self) -> usize
        ensures count { result ≡ length self.now }
        ensures vector { IsVector self.now }
    {
        self.entries.len()
    }

    /// Whether the shard stands in the vector.
    pub fn stands(&self, name: &ShardName) -> bool
        ensures { result ≡ stands self.now name.now }
    {
        self.get(name).is_some()
    }

    /// The shard's entry.
    pub fn get(&self, name: &ShardName) -> Option<&ShardAt>
        ensures { option_map (λ at. entry_place at.now) result ≡ place_of self.now name.now }
    {
        self.entries.get(name)
    }

    /// The name of the shard at this place of the order.
    pub fn name_at(&self, i: usize) -> Option<&ShardName>
        ensures { option_map (λ n. n.now) result ≡ slice_get (names self.now) i }
    {
        match self.entries.get_index(i) {
            Some((name, _)) => Some(name),
            None => None,
        }
    }

    /// Appends a shard that doesn't stand there.
    pub(crate) fn append(&mut self, name: ShardName, at: ShardAt) -> Result<(), OutOfMemory>
        requires absent { stands self.old name ≡ false }
        requires room { length self.old < 64 }
        ensures ok { OnOk result (self.new ≡ self.old ++ (name, entry_place at) ∷ []) }
        ensures err { OnErr result (self.new ≡ self.old) }
    {
        let _intervals = at.intervals();
        append_entry(&mut self.entries, name, at)
    }

    /// Adds a shard at the end.
    pub fn push(&mut self, name: ShardName, at: ShardAt) -> Result<(), VectorRefusal>
        ensures { IsMade (pushed self.old name (entry_place at)) self.old self.new result }
    {
        if self.stands(&name) {
            return Err(VectorRefusal::Present { name });
        }
        let n = self.len() + 1;
        if n > MOST_SHARDS {
            return Err(VectorRefusal::TooManyShards { n });
        }
        self.append(name, at)?;
        Ok(())
    }

    /// Puts another entry in the place of a shard's, and hands out the old one. It takes no memory.
    pub fn exchange(&mut self, name: &ShardName, at: ShardAt) -> ShardAt
        requires { IsTrue (stands self.old name.now) }
        ensures new { self.new ≡ moved self.old name.now (entry_place at) }
        ensures old { place_of self.old name.now ≡ Some (entry_place result) }
    {
        let _intervals = at.intervals();
        exchange_entry(&mut self.entries, name, at)
    }

    /// Gives the shard another entry. Where the shard stands in the vector this takes no memory.
    pub fn set(&mut self, name: &ShardName, at: ShardAt) -> Result<(), VectorRefusal>
        ensures made { IsMade (set_to self.old name.now (entry_place at)) self.old self.new result }
        ensures stands { IsTrue (stands self.old name.now) → IsOk result }
    {
        if !self.stands(name) {
            let name = name.copy(self.alloc)?;
            return Err(VectorRefusal::Absent { name });
        }
        self.exchange(name, at);
        Ok(())
    }

    /// Adds the GTID to the shard's position. The next number of its last interval takes no memory.
    pub fn add(&mut self, name: &ShardName, gtid: Gtid) -> Result<(), VectorRefusal>
        ensures { IsMade (advanced self.old name.now gtid) self.old self.new result }
    {
        advance_entry(self.alloc, &mut self.entries, name, gtid)
    }

    /// The entry that `add` would make.
    pub fn entry_with(&self, name: &ShardName, gtid: Gtid) -> Result<ShardAt, VectorRefusal>
        ensures ok { IfOk result (λ at. advanced_place self.now name.now gtid ≡ Ok (entry_place at)) }
        ensures err { IfErr result (λ e. (e ≡ VectorRefusal.Memory) ⊎ (advanced_place self.now name.now gtid ≡ Err e)) }
    {
        match self.get(name) {
            Some(entry) => {
                let mut at = entry.copy(self.alloc)?;
                at.advance(self.alloc, gtid)?;
                Ok(at)
            }
            None => Err(VectorRefusal::Absent {
                name: name.copy(self.alloc)?,
            }),
        }
    }
}
