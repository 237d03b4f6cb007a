//! Shards that leave a vector, and others that come in.
ghost use Rattle.std.specs.List.{filter, find};
ghost use Rattle.std.specs.Prelude.{◌≡◌, ◌≤◌, ◌<◌, ◌⊎◌, ◌+◌, ◌++◌, ◌∷◌, [], IfErr, IfOk, None, Ok, Err, OnOk, false, length, map, not, option_copied, true};
ghost use Rattle.vs_base.specs.Names.{names_differ};
ghost use Rattle.vs_gtid.specs.Vectors.{begun_at, is_in, names, stands};
ghost use Rattle.vs_vector.specs.Changes.{IsMade, replaced_in};
ghost use Rattle.vs_vector.specs.Places.{entry_place};

use crate::vector::MOST_SHARDS;
use crate::{OutOfMemory, Place, ShardAt, Vector, VectorRefusal};
use std::alloc::Global;
use vs_base::ShardName;
use vs_gtid::Successor;

/// Whether the name is among the names.
pub fn is_among(name: &ShardName, names: &[ShardName]) -> bool
    ensures { result ≡ is_in name.now names.now }
{
    names.iter().any(|other| name.is_same(other))
}

impl Vector {
    pub fn copy(&self, alloc: Global) -> Result<Vector, OutOfMemory>
        ensures { IfOk result (λ v. v ≡ self.now) }
    {
        self.copy_without(alloc, &[])
    }

    /// A copy without the shards that leave.
    fn copy_without(&self, alloc: Global, leaving: &[ShardName]) -> Result<Vector, OutOfMemory>
        ensures { IfOk result (λ v. v ≡ filter (λ slot. not (is_in slot.0 leaving.now)) self.now) }
    {
        let mut copy = Vector::new(alloc);
        for (name, at) in self.entries.iter() {
            copy.append_kept(alloc, name, at, leaving)?;
        }
        Ok(copy)
    }

    /// Appends a copy of the entry, unless its shard leaves.
    fn append_kept(
        &mut self,
        alloc: Global,
        name: &ShardName,
        at: &ShardAt,
        leaving: &[ShardName],
    ) -> Result<(), OutOfMemory>
        requires absent { stands self.old name.now ≡ false }
        requires room { length self.old < 64 }
        ensures { OnOk result (self.new ≡ self.old ++ filter (λ slot. not (is_in slot.0 leaving.now)) ((name.now, entry_place at.now) ∷ [])) }
    {
        if is_among(name, leaving) {
            return Ok(());
        }
        self.append(name.copy(alloc)?, at.copy(alloc)?)
    }

    /// The first of the shards that doesn't stand in the vector.
    fn first_absent<'a>(&self, shards: &'a [ShardName]) -> Option<&'a ShardName>
        ensures { option_copied result ≡ find (λ s. not (stands self.now s)) shards.now }
    {
        shards.iter().find(|name| !self.stands(name))
    }

    /// The first of the successors that stands in the vector.
    fn first_present<'a>(&self, successors: &'a [Successor]) -> Option<&'a Successor>
        ensures { option_copied result ≡ find (λ n. stands self.now n.name) successors.now }
    {
        successors
            .iter()
            .find(|successor| self.stands(&successor.name))
    }

    /// Appends the successors, each at its position.
    fn append_all(&mut self, alloc: Global, successors: &[Successor]) -> Result<(), OutOfMemory>
        requires differ { names_differ (names self.old ++ map (λ n. n.name) successors.now) ≡ true }
        requires room { length self.old + length successors.now ≤ 64 }
        ensures { OnOk result (self.new ≡ self.old ++ begun_at successors.now) }
    {
        for successor in successors {
            let at = ShardAt {
                start: Place::At(successor.position.copy(alloc)?),
                last_key: None,
            };
            self.append(successor.name.copy(alloc)?, at)?;
        }
        Ok(())
    }

    /// Why the shards can't leave, or the successors can't come in; but for their number.
    fn check_replaced(
        &self,
        participants: &[ShardName],
        successors: &[Successor],
    ) -> Result<(), VectorRefusal>
        ensures absent { OnOk result (find (λ s. not (stands self.now s)) participants.now ≡ None) }
        ensures present { OnOk result (find (λ n. stands self.now n.name) successors.now ≡ None) }
        ensures err { IfErr result (λ e. (e ≡ VectorRefusal.Memory) ⊎ (replaced_in self.now participants.now successors.now ≡ Err e)) }
    {
        match (
            self.first_absent(participants),
            self.first_present(successors),
        ) {
            (Some(name), _) => Err(VectorRefusal::Absent {
                name: name.copy(self.alloc)?,
            }),
            (None, Some(successor)) => Err(VectorRefusal::Present {
                name: successor.name.copy(self.alloc)?,
            }),
            (None, None) => Ok(()),
        }
    }

    /// The vector that `replace` would make.
    pub fn replaced(
        &self,
        participants: &[ShardName],
        successors: &[Successor],
    ) -> Result<Vector, VectorRefusal>
        requires participants { names_differ participants.now ≡ true }
        requires successors { names_differ (map (λ n. n.name) successors.now) ≡ true }
        ensures ok { IfOk result (λ v. replaced_in self.now participants.now successors.now ≡ Ok v) }
        ensures err { IfErr result (λ e. (e ≡ VectorRefusal.Memory) ⊎ (replaced_in self.now participants.now successors.now ≡ Err e)) }
    {
        let alloc = self.alloc;
        self.check_replaced(participants, successors)?;
        let mut vector = self.copy_without(alloc, participants)?;
        let n = vector.len() + successors.len();
        if n > MOST_SHARDS {
            return Err(VectorRefusal::TooManyShards { n });
        }
        vector.append_all(alloc, successors)?;
        Ok(vector)
    }

    /// Takes the participants out, and appends the successors in their order, each streaming from its
    /// position. The first participant that doesn't stand in the vector is Absent, then the first
    /// successor that does is Present, also where it is a participant.
    pub fn replace(
        &mut self,
        participants: &[ShardName],
        successors: &[Successor],
    ) -> Result<(), VectorRefusal>
        requires participants { names_differ participants.now ≡ true }
        requires successors { names_differ (map (λ n. n.name) successors.now) ≡ true }
        ensures { IsMade (replaced_in self.old participants.now successors.now) self.old self.new result }
    {
        *self = self.replaced(participants, successors)?;
        Ok(())
    }
}
