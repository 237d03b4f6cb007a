ghost use Rattle.std.specs.Prelude.{◌≡◌, ◌⊎◌, ◌++◌, ◌∷◌, [], IfErr, IfOk, IsOk, IsTrue, List, None, OnErr, OnOk, Ok, Some, not, option_copied, position};
ghost use Rattle.std.specs.List.{find};
ghost use Rattle.vs_gather.specs.Gathering.{clash, ids_of};
ghost use Rattle.vs_gtid.specs.Vectors.{stands};

use crate::kept::{adds_nothing, is_last};
use crate::{Arrival, GatherRefusal, Kept, OutOfMemory};
use std::alloc::Global;
use std::marker::Model;
use vs_base::{List, ShardName};
use vs_gtid::{JournalValue, Successor};
use vs_vector::{Vector, is_among};

/// The journals to which some of their participants have come, and not all.
#[derive(Drop)]
pub struct Gather {
    alloc: Global,
    kept: Vec<Kept>,
}

impl Model for Gather {
    ghost use Rattle.std.specs.Prelude.{List};
    ghost use Rattle.vs_gather.specs.declared.kept.Kept.{Kept};

    ghost Value = { List Kept };

    ghost view = { λ g. g.kept.items };
}

impl Gather {
    ghost use Rattle.vs_gather.specs.Gathering.{
      AreWaiting,
      Completes,
      IsArrived,
      IsForeseen,
      arrival,
      arrival_refusal,
      arrived_of,
      arrives,
      concerns,
      differs,
      has_id,
      kept_of,
      kept_with,
      kept_without,
      waits,
    };
    ghost use Rattle.vs_gather.specs.declared.kept.Kept.{Kept};

    pub fn new(alloc: Global) -> Gather
        ensures { result ≡ [] }
    {
        Gather {
            alloc,
            kept: Vec::new(alloc),
        }
    }

    /// The place of the journal's id among those that wait.
    fn place_of(&self, journal: &JournalValue) -> Option<usize>
        ensures { result ≡ position (has_id journal.now.id) self.now }
    {
        self.kept
            .iter()
            .position(|kept| kept.journal.id == journal.id)
    }

    /// The journal that waits under the journal's id.
    fn find_kept(&self, journal: &JournalValue) -> Option<&Kept>
        ensures { option_copied result ≡ kept_of journal.now.id self.now }
    {
        self.kept.iter().find(|kept| kept.journal.id == journal.id)
    }

    /// The shards that have come to the journal.
    fn arrived_at(&self, journal: &JournalValue) -> &[ShardName]
        ensures { result.now ≡ arrived_of (kept_of journal.now.id self.now) }
    {
        match self.find_kept(journal) {
            Some(kept) => kept.arrived.as_slice(),
            None => &[],
        }
    }

    /// Refuses the journal where another one waits under its id. It takes memory only to tell which.
    fn check_same(&self, journal: &JournalValue) -> Result<(), GatherRefusal>
        ensures ok { OnOk result (differs (kept_of journal.now.id self.now) journal.now ≡ None) }
        ensures err { IfErr result (λ e. (e ≡ GatherRefusal.Memory) ⊎ (differs (kept_of journal.now.id self.now) journal.now ≡ Some e)) }
        ensures sure { differs (kept_of journal.now.id self.now) journal.now ≡ None → IsOk result }
    {
        let Some(kept) = self.find_kept(journal) else {
            return Ok(());
        };
        if kept.journal.is_same(journal) {
            return Ok(());
        }
        Err(GatherRefusal::Differs {
            id: journal.id,
            kept: kept.journal.copy(self.alloc)?,
            came: journal.copy(self.alloc)?,
        })
    }

    /// Refuses the journal as an arrival at it would be. It takes memory only to tell why.
    fn check_journal(&self, vector: &Vector, journal: &JournalValue) -> Result<(), GatherRefusal>
        ensures same { OnOk result (differs (kept_of journal.now.id self.now) journal.now ≡ None) }
        ensures ok { OnOk result (arrival_refusal vector.now journal.now self.now ≡ None) }
        ensures err { IfErr result (λ e. (e ≡ GatherRefusal.Memory) ⊎ (arrival_refusal vector.now journal.now self.now ≡ Some e)) }
        ensures sure { arrival_refusal vector.now journal.now self.now ≡ None → IsOk result }
    {
        self.check_same(journal)?;
        check_clash(self.alloc, vector, journal)
    }

    /// The journal of the id waits no more.
    fn forget(&mut self, id: i64)
        ensures { self.new ≡ kept_without id self.old }
    {
        self.kept.retain(
            |kept: &Kept| -> bool
                ensures { result ≡ not (has_id id kept.now) }
            { kept.journal.id != id },
        );
    }

    /// The shard has come to the journal, which waits on.
    fn keep(&mut self, shard: &ShardName, journal: JournalValue) -> Result<(), OutOfMemory>
        requires { differs (kept_of journal.id self.old) journal ≡ None }
        ensures ok { OnOk result (self.new ≡ kept_with (record { journal = journal; arrived = arrived_of (kept_of journal.id self.old) ++ shard.now ∷ [] }) self.old) }
        ensures err { OnErr result (self.new ≡ self.old) }
    {
        let name = shard.copy(self.alloc)?;
        match self.place_of(&journal) {
            Some(i) => self.kept[i].add(name),
            None => {
                let mut arrived = List::new(self.alloc);
                arrived.push(name)?;
                self.kept.push(Kept { journal, arrived })?;
                Ok(())
            }
        }
    }

    /// The shard comes to a journal that isn't refused.
    fn come(&mut self, shard: &ShardName, journal: JournalValue) -> Result<Arrival, GatherRefusal>
        requires { differs (kept_of journal.id self.old) journal ≡ None }
        ensures made { IsArrived (Ok (arrives shard.now journal (arrived_of (kept_of journal.id self.old)) self.old)) journal self.old self.new result }
        ensures completes { (kept : List Kept) → arrives shard.now journal (arrived_of (kept_of journal.id self.old)) self.old ≡ Completes kept → IsOk result }
    {
        let arrived = self.arrived_at(&journal);
        if adds_nothing(shard, &journal, arrived) {
            return Ok(Arrival::Waiting);
        }
        if is_last(shard, &journal, arrived) {
            self.forget(journal.id);
            return Ok(Arrival::Complete(journal));
        }
        self.keep(shard, journal)?;
        Ok(Arrival::Waiting)
    }

    /// The shard comes to the journal. Waiting comes exactly where a participant hasn't arrived, or the
    /// shard is none. An arrival that completes the journal takes no memory.
    pub fn arrive(
        &mut self,
        vector: &Vector,
        shard: &ShardName,
        journal: JournalValue,
    ) -> Result<Arrival, GatherRefusal>
        requires { IsTrue (stands vector.now shard.now) }
        ensures made { IsArrived (arrival vector.now shard.now journal self.old) journal self.old self.new result }
        ensures completes { (kept : List Kept) → arrival vector.now shard.now journal self.old ≡ Ok (Completes kept) → IsOk result }
    {
        self.check_journal(vector, &journal)?;
        self.come(shard, journal)
    }

    /// Whether the shard's arrival at the journal would complete it, or why it would be refused.
    pub fn check(
        &self,
        _alloc: Global,
        vector: &Vector,
        shard: &ShardName,
        journal: &JournalValue,
    ) -> Result<bool, GatherRefusal>
        requires { IsTrue (stands vector.now shard.now) }
        ensures { IsForeseen (arrival vector.now shard.now journal.now self.now) result }
    {
        self.check_journal(vector, journal)?;
        let arrived = self.arrived_at(journal);
        if adds_nothing(shard, journal, arrived) {
            return Ok(false);
        }
        Ok(is_last(shard, journal, arrived))
    }

    /// Whether a participant of the journal stands in the vector.
    pub fn foreign(&self, vector: &Vector, _shard: &ShardName, journal: &JournalValue) -> bool
        ensures { result ≡ concerns vector.now journal.now }
    {
        journal
            .participants
            .as_slice()
            .iter()
            .any(|name| vector.stands(name))
    }

    /// Whether the shard has come to a journal that waits.
    pub fn waits(&self, shard: &ShardName) -> bool
        ensures { result ≡ waits self.now shard.now }
    {
        self.kept
            .iter()
            .any(|kept| is_among(shard, kept.arrived.as_slice()))
    }

    /// The ids of the journals that wait, ascending, each once.
    pub fn waiting(&self, alloc: Global) -> Result<Vec<i64>, OutOfMemory>
        ensures { IfOk result (λ ids. AreWaiting ids.items self.now) }
    {
        let mut ids = ids_of(alloc, self.kept.as_slice())?;
        ids.sort()?;
        ids.dedup();
        Ok(ids)
    }
}

/// The ids of the journals, as they stand.
fn ids_of(alloc: Global, kept: &[Kept]) -> Result<Vec<i64>, OutOfMemory>
    ensures { IfOk result (λ ids. ids.items ≡ ids_of kept.now) }
{
    let mut ids = Vec::with_capacity(alloc, kept.len())?;
    for kept in kept {
        ids.push(kept.journal.id)?;
    }
    Ok(ids)
}

/// Refuses the journal where one of its successors stands in the vector. It takes memory only to tell
/// which.
fn check_clash(alloc: Global, vector: &Vector, journal: &JournalValue) -> Result<(), GatherRefusal>
    ensures ok { OnOk result (clash vector.now journal.now ≡ None) }
    ensures err { IfErr result (λ e. (e ≡ GatherRefusal.Memory) ⊎ (clash vector.now journal.now ≡ Some e)) }
    ensures sure { clash vector.now journal.now ≡ None → IsOk result }
{
    match first_standing(vector, journal.successors.as_slice()) {
        Some(successor) => Err(GatherRefusal::Clash {
            id: journal.id,
            shard: successor.name.copy(alloc)?,
        }),
        None => Ok(()),
    }
}

/// The first of the successors that stands in the vector.
fn first_standing<'a>(vector: &Vector, successors: &'a [Successor]) -> Option<&'a Successor>
    ensures { option_copied result ≡ find (λ n. stands vector.now n.name) successors.now }
{
    successors
        .iter()
        .find(|successor| vector.stands(&successor.name))
}
